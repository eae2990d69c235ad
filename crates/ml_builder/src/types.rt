//! The forms of types that have parts.

ghost use Rattle.std.specs.Prelude.{◌≡◌, Some, OnOk};
ghost use Rattle.ml_builder.specs.Types.{made_type};

use crate::finish::finish;
use crate::reduction::Rule;
use crate::stack::Stack;
use fx_base::Place;
use ml_syntax::{Node, Nodes};
use std::alloc::AllocError;

/// A form of types.
#[tactic(auto, unfolding(crate::specs::Types::made_type))]
pub fn build_type(
    rule: Rule,
    place: Place,
    count: usize,
    numbers: &mut Stack<u32>,
    nodes: &mut Nodes,
) -> Result<(), AllocError>
    ensures { OnOk result (made_type rule place count numbers.old nodes.old ≡ Some (numbers.new, nodes.new)) }
{
    match rule {
        Rule::TypeBracket => {
            let inner = numbers.pop()?;
            finish(Node::TypeBracket { place, inner }, numbers, nodes)
        }
        Rule::TypeTuple => {
            let parts = numbers.take(count)?;
            finish(Node::TypeTuple { place, parts }, numbers, nodes)
        }
        Rule::TypeArrow => {
            let result = numbers.pop()?;
            let argument = numbers.pop()?;
            finish(
                Node::TypeArrow {
                    place,
                    argument,
                    result,
                },
                numbers,
                nodes,
            )
        }
        _ => Err(AllocError),
    }
}
