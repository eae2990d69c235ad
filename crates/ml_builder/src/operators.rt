//! Operators, applications and elements.

ghost use Rattle.std.specs.Prelude.{◌≡◌, Some, OnOk};
ghost use Rattle.ml_builder.specs.Operators.{made_element, made_operation};

use crate::finish::finish;
use crate::reduction::Rule;
use crate::stack::Stack;
use fx_base::Place;
use ml_syntax::{Node, Nodes};
use std::alloc::AllocError;

/// An operator or an application.
#[tactic(auto, unfolding(crate::specs::Operators::made_operation))]
pub fn build_operation(
    rule: Rule,
    place: Place,
    count: usize,
    numbers: &mut Stack<u32>,
    nodes: &mut Nodes,
) -> Result<(), AllocError>
    ensures { OnOk result (made_operation rule place count numbers.old nodes.old ≡ Some (numbers.new, nodes.new)) }
{
    match rule {
        Rule::Dereference => {
            let operand = numbers.pop()?;
            let node = Node::Dereference { place, operand };
            finish(node, numbers, nodes)
        }
        Rule::Negate => {
            let operand = numbers.pop()?;
            let node = Node::Negate { place, operand };
            finish(node, numbers, nodes)
        }
        Rule::Binary(operator) => {
            let right = numbers.pop()?;
            let left = numbers.pop()?;
            let node = Node::Binary {
                place,
                operator,
                left,
                right,
            };
            finish(node, numbers, nodes)
        }
        Rule::Apply => {
            let arguments = numbers.take(count)?;
            let function = numbers.pop()?;
            let node = Node::Apply {
                function,
                arguments,
            };
            finish(node, numbers, nodes)
        }
        _ => Err(AllocError),
    }
}

/// An element of an array or of a string.
#[tactic(auto, unfolding(crate::specs::Operators::made_element))]
pub fn build_element(
    rule: Rule,
    place: Place,
    numbers: &mut Stack<u32>,
    nodes: &mut Nodes,
) -> Result<(), AllocError>
    ensures { OnOk result (made_element rule place numbers.old nodes.old ≡ Some (numbers.new, nodes.new)) }
{
    match rule {
        Rule::ArrayElement => {
            let index = numbers.pop()?;
            let array = numbers.pop()?;
            let node = Node::ArrayElement {
                place,
                array,
                index,
            };
            finish(node, numbers, nodes)
        }
        Rule::StringElement => {
            let index = numbers.pop()?;
            let string = numbers.pop()?;
            let node = Node::StringElement {
                place,
                string,
                index,
            };
            finish(node, numbers, nodes)
        }
        Rule::SetElement => {
            let value = numbers.pop()?;
            let index = numbers.pop()?;
            let array = numbers.pop()?;
            let node = Node::SetElement {
                place,
                array,
                index,
                value,
            };
            finish(node, numbers, nodes)
        }
        _ => Err(AllocError),
    }
}
