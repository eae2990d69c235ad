//! Bindings, and the forms that have them as their parts.

ghost use Rattle.std.specs.Prelude.{◌≡◌, Some, OnOk};
ghost use Rattle.ml_builder.specs.Bindings.{made_binding, made_let};

use crate::finish::finish;
use crate::reduction::Rule;
use crate::stack::Stack;
use fx_base::Place;
use ml_syntax::{Binding, Name, Node, Nodes};
use std::alloc::AllocError;

/// A binding.
#[tactic(auto, unfolding(crate::specs::Bindings::made_binding))]
pub fn build_binding(
    rule: Rule,
    count: usize,
    words: &mut Stack<Name>,
    numbers: &mut Stack<u32>,
    bindings: &mut Stack<Binding>,
) -> Result<(), AllocError>
    ensures { OnOk result (made_binding rule count words.old numbers.old bindings.old ≡ Some (words.new, numbers.new, bindings.new)) }
{
    match rule {
        Rule::PatternBinding => {
            let body = numbers.pop()?;
            let pattern = numbers.pop()?;
            bindings.push(Binding::Pattern { pattern, body })
        }
        Rule::NamedBinding => {
            let body = numbers.pop()?;
            let parameters = numbers.take(count)?;
            let name = words.pop()?;
            bindings.push(Binding::Named {
                name,
                parameters,
                annotation: None,
                body,
            })
        }
        Rule::AnnotatedBinding => {
            let body = numbers.pop()?;
            let annotation = Some(numbers.pop()?);
            let parameters = numbers.take(count)?;
            let name = words.pop()?;
            bindings.push(Binding::Named {
                name,
                parameters,
                annotation,
                body,
            })
        }
        _ => Err(AllocError),
    }
}

/// A `let`.
#[tactic(auto, unfolding(crate::specs::Bindings::made_let))]
pub fn build_let(
    rule: Rule,
    place: Place,
    count: usize,
    bindings: &mut Stack<Binding>,
    numbers: &mut Stack<u32>,
    nodes: &mut Nodes,
) -> Result<(), AllocError>
    ensures { OnOk result (made_let rule place count bindings.old numbers.old nodes.old ≡ Some (bindings.new, numbers.new, nodes.new)) }
{
    match rule {
        Rule::Let => {
            let body = numbers.pop()?;
            let bindings = bindings.take(count)?;
            let node = Node::Let {
                place,
                is_recursive: false,
                bindings,
                body,
            };
            finish(node, numbers, nodes)
        }
        Rule::LetRecursive => {
            let body = numbers.pop()?;
            let bindings = bindings.take(count)?;
            let node = Node::Let {
                place,
                is_recursive: true,
                bindings,
                body,
            };
            finish(node, numbers, nodes)
        }
        _ => Err(AllocError),
    }
}
