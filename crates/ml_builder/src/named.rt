//! The forms that have words or a long name as a part.

ghost use Rattle.std.specs.Prelude.{◌≡◌, Some, OnOk};
ghost use Rattle.std.specs.Prelude.{IfOk};
ghost use Rattle.ml_builder.specs.Named.{made_for, made_name, made_with_long_name, made_with_word, name_node};

use crate::finish::finish;
use crate::names::take_long_name;
use crate::reduction::Rule;
use crate::stack::Stack;
use fx_base::Place;
use ml_syntax::{LongName, Name, Node, Nodes};
use std::alloc::{AllocError, Global};

// The form that is a long name alone.
fn name_node(rule: Rule, name: LongName) -> Result<Node, AllocError>
    ensures { IfOk result (λ node. name_node rule name ≡ Some node) }
{
    match rule {
        Rule::TypeName => Ok(Node::TypeName { name }),
        Rule::PatternConstructor => Ok(Node::PatternConstructor { name }),
        Rule::Variable => Ok(Node::Variable { name }),
        Rule::Constructor => Ok(Node::Constructor { name }),
        _ => Err(AllocError),
    }
}

/// A form that is a long name of so many words.
#[tactic(auto, unfolding(crate::specs::Named::made_name))]
pub fn build_name(
    alloc: Global,
    rule: Rule,
    count: usize,
    words: &mut Stack<Name>,
    numbers: &mut Stack<u32>,
    nodes: &mut Nodes,
) -> Result<(), AllocError>
    ensures { OnOk result (made_name rule count words.old numbers.old nodes.old ≡ Some (words.new, numbers.new, nodes.new)) }
{
    let name = take_long_name(alloc, count, words)?;
    let node = name_node(rule, name)?;
    finish(node, numbers, nodes)
}

/// A form with a word.
#[tactic(auto, unfolding(crate::specs::Named::made_with_word))]
pub fn build_with_word(
    rule: Rule,
    place: Place,
    words: &mut Stack<Name>,
    numbers: &mut Stack<u32>,
    nodes: &mut Nodes,
) -> Result<(), AllocError>
    ensures { OnOk result (made_with_word rule place words.old numbers.old nodes.old ≡ Some (words.new, numbers.new, nodes.new)) }
{
    match rule {
        Rule::PatternAlias => {
            let pattern = numbers.pop()?;
            let name = words.pop()?;
            let node = Node::PatternAlias {
                place,
                pattern,
                name,
            };
            finish(node, numbers, nodes)
        }
        Rule::Field => {
            let record = numbers.pop()?;
            let field = words.pop()?;
            let node = Node::Field { record, field };
            finish(node, numbers, nodes)
        }
        Rule::SetField => {
            let value = numbers.pop()?;
            let record = numbers.pop()?;
            let field = words.pop()?;
            let node = Node::SetField {
                place,
                record,
                field,
                value,
            };
            finish(node, numbers, nodes)
        }
        _ => Err(AllocError),
    }
}

/// A `for`.
#[tactic(auto, unfolding(crate::specs::Named::made_for))]
pub fn build_for(
    rule: Rule,
    place: Place,
    words: &mut Stack<Name>,
    numbers: &mut Stack<u32>,
    nodes: &mut Nodes,
) -> Result<(), AllocError>
    ensures { OnOk result (made_for rule place words.old numbers.old nodes.old ≡ Some (words.new, numbers.new, nodes.new)) }
{
    match rule {
        Rule::ForUpward => {
            let body = numbers.pop()?;
            let last = numbers.pop()?;
            let first = numbers.pop()?;
            let name = words.pop()?;
            let node = Node::For {
                place,
                name,
                first,
                is_downward: false,
                last,
                body,
            };
            finish(node, numbers, nodes)
        }
        Rule::ForDownward => {
            let body = numbers.pop()?;
            let last = numbers.pop()?;
            let first = numbers.pop()?;
            let name = words.pop()?;
            let node = Node::For {
                place,
                name,
                first,
                is_downward: true,
                last,
                body,
            };
            finish(node, numbers, nodes)
        }
        _ => Err(AllocError),
    }
}

/// A form with a long name.
#[tactic(auto, unfolding(crate::specs::Named::made_with_long_name))]
pub fn build_with_long_name(
    rule: Rule,
    count: usize,
    long_names: &mut Stack<LongName>,
    numbers: &mut Stack<u32>,
    nodes: &mut Nodes,
) -> Result<(), AllocError>
    ensures { OnOk result (made_with_long_name rule count long_names.old numbers.old nodes.old ≡ Some (long_names.new, numbers.new, nodes.new)) }
{
    match rule {
        Rule::TypeApply => {
            let arguments = numbers.take(count)?;
            let constructor = long_names.pop()?;
            let node = Node::TypeApply {
                arguments,
                constructor,
            };
            finish(node, numbers, nodes)
        }
        Rule::PatternConstruct => {
            let argument = numbers.pop()?;
            let constructor = long_names.pop()?;
            let node = Node::PatternConstruct {
                constructor,
                argument,
            };
            finish(node, numbers, nodes)
        }
        Rule::Construct => {
            let argument = numbers.pop()?;
            let constructor = long_names.pop()?;
            let node = Node::Construct {
                constructor,
                argument,
            };
            finish(node, numbers, nodes)
        }
        _ => Err(AllocError),
    }
}
