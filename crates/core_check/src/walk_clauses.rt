//! What clauses and functions leave to be done.

ghost use Rattle.std.specs.Prelude.{◌≡◌, OnOk};
ghost use Rattle.core_check.specs.Walk.{guard_tasks, argument_tasks, clause_tasks, effect_tasks, name_tasks, body_tasks};

use crate::task::{Task, Tasks};
use effect_meaning::{Clause, EffectClause, Function};
use std::alloc::AllocError;

fn push_guard(tasks: &mut Tasks, guard: Option<u32>) -> Result<(), AllocError>
    ensures { OnOk result (tasks.new ≡ guard_tasks guard tasks.old) }
{
    match guard {
        Some(guard) => tasks.push(Task::Term(guard)),
        None => Ok(()),
    }
}

fn push_argument(tasks: &mut Tasks, argument: Option<u32>) -> Result<(), AllocError>
    ensures { OnOk result (tasks.new ≡ argument_tasks argument tasks.old) }
{
    match argument {
        Some(argument) => tasks.push(Task::Pattern(argument)),
        None => Ok(()),
    }
}

/// Pushes what clauses leave to be done where so many names are in scope.
pub fn push_clauses(tasks: &mut Tasks, names: usize, clauses: &[Clause]) -> Result<(), AllocError>
    ensures { OnOk result (tasks.new ≡ clause_tasks names tasks.old clauses.now) }
{
    for clause in clauses {
        tasks.push(Task::Leave(names))?;
        tasks.push(Task::Term(clause.body))?;
        push_guard(tasks, clause.guard)?;
        tasks.push(Task::Pattern(clause.pattern))?;
    }
    Ok(())
}

/// Pushes what clauses of effects leave to be done where so many names are in scope.
pub fn push_effects(
    tasks: &mut Tasks,
    names: usize,
    clauses: &[EffectClause],
) -> Result<(), AllocError>
    ensures { OnOk result (tasks.new ≡ effect_tasks names tasks.old clauses.now) }
{
    for clause in clauses {
        tasks.push(Task::Leave(names))?;
        tasks.push(Task::Term(clause.body))?;
        push_argument(tasks, clause.argument)?;
        tasks.push(Task::Bind(clause.continuation))?;
    }
    Ok(())
}

/// Pushes the names of functions.
pub fn push_names(tasks: &mut Tasks, functions: &[Function]) -> Result<(), AllocError>
    ensures { OnOk result (tasks.new ≡ name_tasks tasks.old functions.now) }
{
    for function in functions {
        tasks.push(Task::Bind(function.name))?;
    }
    Ok(())
}

/// Pushes what functions leave to be done where so many names are in scope.
pub fn push_bodies(
    tasks: &mut Tasks,
    names: usize,
    functions: &[Function],
) -> Result<(), AllocError>
    ensures { OnOk result (tasks.new ≡ body_tasks names tasks.old functions.now) }
{
    for function in functions {
        tasks.push(Task::Leave(names))?;
        tasks.push(Task::Term(function.body))?;
        tasks.push(Task::Bind(function.parameter))?;
    }
    Ok(())
}
