//! Fields, and the forms that have them as their parts.

ghost use Rattle.std.specs.Prelude.{◌≡◌, Some, OnOk};
ghost use Rattle.ml_builder.specs.Records.{made_part, made_record};

use crate::finish::finish;
use crate::reduction::Rule;
use crate::stack::Stack;
use fx_base::Place;
use ml_syntax::{Name, NamedPart, Node, Nodes};
use std::alloc::AllocError;

/// What stands behind the name of a field.
#[tactic(auto, unfolding(crate::specs::Records::made_part))]
pub fn build_part(
    words: &mut Stack<Name>,
    numbers: &mut Stack<u32>,
    parts: &mut Stack<NamedPart>,
) -> Result<(), AllocError>
    ensures { OnOk result (made_part words.old numbers.old parts.old ≡ Some (words.new, numbers.new, parts.new)) }
{
    let part = numbers.pop()?;
    let name = words.pop()?;
    parts.push(NamedPart { name, part })
}

/// A record or a handler.
#[tactic(auto, unfolding(crate::specs::Records::made_record))]
pub fn build_record(
    rule: Rule,
    place: Place,
    count: usize,
    parts: &mut Stack<NamedPart>,
    numbers: &mut Stack<u32>,
    nodes: &mut Nodes,
) -> Result<(), AllocError>
    ensures { OnOk result (made_record rule place count parts.old numbers.old nodes.old ≡ Some (parts.new, numbers.new, nodes.new)) }
{
    match rule {
        Rule::PatternRecord => {
            let fields = parts.take(count)?;
            let node = Node::PatternRecord {
                place,
                fields,
                is_open: false,
            };
            finish(node, numbers, nodes)
        }
        Rule::PatternRecordOpen => {
            let fields = parts.take(count)?;
            let node = Node::PatternRecord {
                place,
                fields,
                is_open: true,
            };
            finish(node, numbers, nodes)
        }
        Rule::Record => {
            let fields = parts.take(count)?;
            let node = Node::Record { place, fields };
            finish(node, numbers, nodes)
        }
        Rule::Handler => {
            let fields = parts.take(count)?;
            let node = Node::Handler { place, fields };
            finish(node, numbers, nodes)
        }
        _ => Err(AllocError),
    }
}
