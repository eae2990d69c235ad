//! The forms of expressions that have expressions and types as their parts.

ghost use Rattle.std.specs.Prelude.{◌≡◌, Some, OnOk};
ghost use Rattle.ml_builder.specs.Expressions.{made_bracket, made_control, made_fun, made_several};

use crate::finish::finish;
use crate::reduction::Rule;
use crate::stack::Stack;
use fx_base::Place;
use ml_syntax::{Node, Nodes};
use std::alloc::AllocError;

/// A bracket.
#[tactic(auto, unfolding(crate::specs::Expressions::made_bracket))]
pub fn build_bracket(
    rule: Rule,
    place: Place,
    numbers: &mut Stack<u32>,
    nodes: &mut Nodes,
) -> Result<(), AllocError>
    ensures { OnOk result (made_bracket rule place numbers.old nodes.old ≡ Some (numbers.new, nodes.new)) }
{
    match rule {
        Rule::Bracket => {
            let inner = numbers.pop()?;
            let node = Node::Bracket { place, inner };
            finish(node, numbers, nodes)
        }
        Rule::BeginEnd => {
            let inner = numbers.pop()?;
            let node = Node::BeginEnd { place, inner };
            finish(node, numbers, nodes)
        }
        Rule::Annotated => {
            let annotation = numbers.pop()?;
            let inner = numbers.pop()?;
            let node = Node::Annotated {
                place,
                inner,
                annotation,
            };
            finish(node, numbers, nodes)
        }
        _ => Err(AllocError),
    }
}

/// So many expressions.
#[tactic(auto, unfolding(crate::specs::Expressions::made_several))]
pub fn build_several(
    rule: Rule,
    place: Place,
    count: usize,
    numbers: &mut Stack<u32>,
    nodes: &mut Nodes,
) -> Result<(), AllocError>
    ensures { OnOk result (made_several rule place count numbers.old nodes.old ≡ Some (numbers.new, nodes.new)) }
{
    match rule {
        Rule::List => {
            let parts = numbers.take(count)?;
            let node = Node::List { place, parts };
            finish(node, numbers, nodes)
        }
        Rule::Array => {
            let parts = numbers.take(count)?;
            let node = Node::Array { place, parts };
            finish(node, numbers, nodes)
        }
        Rule::Tuple => {
            let parts = numbers.take(count)?;
            let node = Node::Tuple { place, parts };
            finish(node, numbers, nodes)
        }
        Rule::Sequence => {
            let parts = numbers.take(count)?;
            let node = Node::Sequence { place, parts };
            finish(node, numbers, nodes)
        }
        _ => Err(AllocError),
    }
}

/// A `while` or an `if`.
#[tactic(auto, unfolding(crate::specs::Expressions::made_control))]
pub fn build_control(
    rule: Rule,
    place: Place,
    numbers: &mut Stack<u32>,
    nodes: &mut Nodes,
) -> Result<(), AllocError>
    ensures { OnOk result (made_control rule place numbers.old nodes.old ≡ Some (numbers.new, nodes.new)) }
{
    match rule {
        Rule::While => {
            let body = numbers.pop()?;
            let condition = numbers.pop()?;
            let node = Node::While {
                place,
                condition,
                body,
            };
            finish(node, numbers, nodes)
        }
        Rule::If => {
            let consequence = numbers.pop()?;
            let condition = numbers.pop()?;
            let node = Node::If {
                place,
                condition,
                consequence,
                alternative: None,
            };
            finish(node, numbers, nodes)
        }
        Rule::IfElse => {
            let alternative = Some(numbers.pop()?);
            let consequence = numbers.pop()?;
            let condition = numbers.pop()?;
            let node = Node::If {
                place,
                condition,
                consequence,
                alternative,
            };
            finish(node, numbers, nodes)
        }
        _ => Err(AllocError),
    }
}

/// A `fun` of so many patterns and a body.
#[tactic(auto, unfolding(crate::specs::Expressions::made_fun))]
pub fn build_fun(
    place: Place,
    count: usize,
    numbers: &mut Stack<u32>,
    nodes: &mut Nodes,
) -> Result<(), AllocError>
    ensures { OnOk result (made_fun place count numbers.old nodes.old ≡ Some (numbers.new, nodes.new)) }
{
    let body = numbers.pop()?;
    let parameters = numbers.take(count)?;
    let node = Node::Fun {
        place,
        parameters,
        body,
    };
    finish(node, numbers, nodes)
}
