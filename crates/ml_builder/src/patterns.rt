//! The forms of patterns that have patterns as their parts.

ghost use Rattle.std.specs.Prelude.{◌≡◌, Some, OnOk};
ghost use Rattle.ml_builder.specs.Patterns.{made_pattern};

use crate::finish::finish;
use crate::reduction::Rule;
use crate::stack::Stack;
use fx_base::Place;
use ml_syntax::{Node, Nodes};
use std::alloc::AllocError;

/// A form of patterns.
#[tactic(auto, unfolding(crate::specs::Patterns::made_pattern))]
pub fn build_pattern(
    rule: Rule,
    place: Place,
    count: usize,
    numbers: &mut Stack<u32>,
    nodes: &mut Nodes,
) -> Result<(), AllocError>
    ensures { OnOk result (made_pattern rule place count numbers.old nodes.old ≡ Some (numbers.new, nodes.new)) }
{
    match rule {
        Rule::PatternBracket => {
            let inner = numbers.pop()?;
            finish(Node::PatternBracket { place, inner }, numbers, nodes)
        }
        Rule::PatternAnnotated => {
            let annotation = numbers.pop()?;
            let inner = numbers.pop()?;
            let node = Node::PatternAnnotated {
                place,
                inner,
                annotation,
            };
            finish(node, numbers, nodes)
        }
        Rule::PatternList => {
            let parts = numbers.take(count)?;
            finish(Node::PatternList { place, parts }, numbers, nodes)
        }
        Rule::PatternCons => {
            let tail = numbers.pop()?;
            let head = numbers.pop()?;
            finish(Node::PatternCons { place, head, tail }, numbers, nodes)
        }
        Rule::PatternTuple => {
            let parts = numbers.take(count)?;
            finish(Node::PatternTuple { place, parts }, numbers, nodes)
        }
        Rule::PatternOr => {
            let right = numbers.pop()?;
            let left = numbers.pop()?;
            finish(Node::PatternOr { place, left, right }, numbers, nodes)
        }
        _ => Err(AllocError),
    }
}
