//! Calls with a handler, and the parts of a handler's `effc`.

ghost use Rattle.std.specs.Prelude.{◌≡◌, Some, OnOk};
ghost use Rattle.ml_builder.specs.Handlers.{made_effect_function, made_effect_rule, made_function_cases, made_handle, made_match_cases};

use crate::finish::finish;
use crate::reduction::Rule;
use crate::stack::Stack;
use fx_base::Place;
use ml_syntax::{EffectRule, LongName, Name, Node, Nodes};
use std::alloc::AllocError;

/// A function, two arguments and a handler.
#[tactic(auto, unfolding(crate::specs::Handlers::made_handle))]
pub fn build_handle(
    long_names: &mut Stack<LongName>,
    numbers: &mut Stack<u32>,
    nodes: &mut Nodes,
) -> Result<(), AllocError>
    ensures { OnOk result (made_handle long_names.old numbers.old nodes.old ≡ Some (long_names.new, numbers.new, nodes.new)) }
{
    let handler = numbers.pop()?;
    let second = numbers.pop()?;
    let first = numbers.pop()?;
    let function = long_names.pop()?;
    let node = Node::Handle {
        function,
        first,
        second,
        handler,
    };
    finish(node, numbers, nodes)
}

/// A rule of `effc`.
#[tactic(auto, unfolding(crate::specs::Handlers::made_effect_rule))]
pub fn build_effect_rule(
    numbers: &mut Stack<u32>,
    rules: &mut Stack<EffectRule>,
) -> Result<(), AllocError>
    ensures { OnOk result (made_effect_rule numbers.old rules.old ≡ Some (numbers.new, rules.new)) }
{
    let answer = numbers.pop()?;
    let pattern = numbers.pop()?;
    rules.push(EffectRule { pattern, answer })
}

/// The answer of a rule, or the function of `effc`.
#[tactic(auto, unfolding(crate::specs::Handlers::made_effect_function))]
pub fn build_effect_function(
    rule: Rule,
    place: Place,
    words: &mut Stack<Name>,
    numbers: &mut Stack<u32>,
    nodes: &mut Nodes,
) -> Result<(), AllocError>
    ensures { OnOk result (made_effect_function rule place words.old numbers.old nodes.old ≡ Some (words.new, numbers.new, nodes.new)) }
{
    match rule {
        Rule::Resumption => {
            let body = numbers.pop()?;
            let parameter = numbers.pop()?;
            let node = Node::Resumption {
                place,
                parameter,
                body,
            };
            finish(node, numbers, nodes)
        }
        Rule::EffectFunction => {
            let cases = numbers.pop()?;
            let parameter = numbers.pop()?;
            let node = Node::EffectFunction {
                place,
                type_name: None,
                parameter,
                cases,
            };
            finish(node, numbers, nodes)
        }
        Rule::TypedEffectFunction => {
            let cases = numbers.pop()?;
            let parameter = numbers.pop()?;
            let type_name = Some(words.pop()?);
            let node = Node::EffectFunction {
                place,
                type_name,
                parameter,
                cases,
            };
            finish(node, numbers, nodes)
        }
        _ => Err(AllocError),
    }
}

/// The rules of `effc`, with a subject.
#[tactic(auto, unfolding(crate::specs::Handlers::made_match_cases))]
pub fn build_match_cases(
    place: Place,
    count: usize,
    words: &mut Stack<Name>,
    rules: &mut Stack<EffectRule>,
    numbers: &mut Stack<u32>,
    nodes: &mut Nodes,
) -> Result<(), AllocError>
    ensures { OnOk result (made_match_cases place count words.old rules.old numbers.old nodes.old ≡ Some (words.new, rules.new, numbers.new, nodes.new)) }
{
    let otherwise = numbers.pop()?;
    let subject = Some(words.pop()?);
    let rules = rules.take(count)?;
    let node = Node::EffectCases {
        place,
        subject,
        rules,
        otherwise,
    };
    finish(node, numbers, nodes)
}

/// The rules of `effc`, without a subject.
#[tactic(auto, unfolding(crate::specs::Handlers::made_function_cases))]
pub fn build_function_cases(
    place: Place,
    count: usize,
    rules: &mut Stack<EffectRule>,
    numbers: &mut Stack<u32>,
    nodes: &mut Nodes,
) -> Result<(), AllocError>
    ensures { OnOk result (made_function_cases place count rules.old numbers.old nodes.old ≡ Some (rules.new, numbers.new, nodes.new)) }
{
    let otherwise = numbers.pop()?;
    let rules = rules.take(count)?;
    let node = Node::EffectCases {
        place,
        subject: None,
        rules,
        otherwise,
    };
    finish(node, numbers, nodes)
}
