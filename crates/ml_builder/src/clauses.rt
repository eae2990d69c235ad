//! Clauses, and the forms that have them as their parts.

ghost use Rattle.std.specs.Prelude.{◌≡◌, Some, OnOk};
ghost use Rattle.ml_builder.specs.Clauses.{made_clause, made_exception_clause, made_match};

use crate::finish::finish;
use crate::reduction::Rule;
use crate::stack::Stack;
use fx_base::Place;
use ml_syntax::{Clause, Node, Nodes};
use std::alloc::AllocError;

/// A clause.
#[tactic(auto, unfolding(crate::specs::Clauses::made_clause))]
pub fn build_clause(
    rule: Rule,
    place: Place,
    numbers: &mut Stack<u32>,
    clauses: &mut Stack<Clause>,
) -> Result<(), AllocError>
    ensures { OnOk result (made_clause rule place numbers.old clauses.old ≡ Some (numbers.new, clauses.new)) }
{
    match rule {
        Rule::ValueClause => {
            let body = numbers.pop()?;
            let pattern = numbers.pop()?;
            clauses.push(Clause::Value {
                pattern,
                guard: None,
                body,
            })
        }
        Rule::GuardedClause => {
            let body = numbers.pop()?;
            let guard = Some(numbers.pop()?);
            let pattern = numbers.pop()?;
            clauses.push(Clause::Value {
                pattern,
                guard,
                body,
            })
        }
        Rule::EffectClause => {
            let body = numbers.pop()?;
            let continuation = numbers.pop()?;
            let pattern = numbers.pop()?;
            clauses.push(Clause::Effect {
                place,
                pattern,
                continuation,
                body,
            })
        }
        _ => Err(AllocError),
    }
}

/// An exception clause.
#[tactic(auto, unfolding(crate::specs::Clauses::made_exception_clause))]
pub fn build_exception_clause(
    rule: Rule,
    place: Place,
    numbers: &mut Stack<u32>,
    clauses: &mut Stack<Clause>,
) -> Result<(), AllocError>
    ensures { OnOk result (made_exception_clause rule place numbers.old clauses.old ≡ Some (numbers.new, clauses.new)) }
{
    match rule {
        Rule::ExceptionClause => {
            let body = numbers.pop()?;
            let pattern = numbers.pop()?;
            clauses.push(Clause::Exception {
                place,
                pattern,
                guard: None,
                body,
            })
        }
        Rule::GuardedExceptionClause => {
            let body = numbers.pop()?;
            let guard = Some(numbers.pop()?);
            let pattern = numbers.pop()?;
            clauses.push(Clause::Exception {
                place,
                pattern,
                guard,
                body,
            })
        }
        _ => Err(AllocError),
    }
}

/// A form of clauses.
#[tactic(auto, unfolding(crate::specs::Clauses::made_match))]
pub fn build_match(
    rule: Rule,
    place: Place,
    count: usize,
    clauses: &mut Stack<Clause>,
    numbers: &mut Stack<u32>,
    nodes: &mut Nodes,
) -> Result<(), AllocError>
    ensures { OnOk result (made_match rule place count clauses.old numbers.old nodes.old ≡ Some (clauses.new, numbers.new, nodes.new)) }
{
    match rule {
        Rule::Match => {
            let subject = numbers.pop()?;
            let clauses = clauses.take(count)?;
            let node = Node::Match {
                place,
                subject,
                clauses,
            };
            finish(node, numbers, nodes)
        }
        Rule::Try => {
            let body = numbers.pop()?;
            let clauses = clauses.take(count)?;
            let node = Node::Try {
                place,
                body,
                clauses,
            };
            finish(node, numbers, nodes)
        }
        Rule::Function => {
            let clauses = clauses.take(count)?;
            let node = Node::Function { place, clauses };
            finish(node, numbers, nodes)
        }
        _ => Err(AllocError),
    }
}
