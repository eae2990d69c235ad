//! The walk over terms and patterns.

ghost use Rattle.std.specs.Prelude.{◌≡◌, ◌∷◌, ◌-◌, [], List, ℕ, length, drop, take, reverse, OnOk, IfOk, IsTrue};
ghost use Rattle.effect_meaning.specs.Scoped.{Scope};
ghost use Rattle.core_check.specs.Walk.{Covers, HasReach, Fine, Leads, Exchanged};
ghost use Rattle.core_check.specs.declared.task.Task.TheVariants as task;

use crate::kept::Kept;
use crate::known::Known;
use crate::names::Names;
use crate::task::{Task, Tasks};
use crate::walk_patterns::{open_pattern, pattern_holds};
use crate::walk_terms::{open_term, term_holds};
use effect_meaning::{CoreArena, Sequence};
use std::alloc::{AllocError, Global};

// A term. Its parts are still to be done.
fn walk_term(
    arena: &CoreArena,
    reach: &[u64],
    known: Known,
    number: u32,
    names: &Names,
    tasks: &mut Tasks,
) -> Result<bool, AllocError>
    ensures { IfOk result (λ holds. IsTrue holds → (kept : List (List ℕ)) → Leads arena.now known reach.now (task.Term number ∷ tasks.old) names.now kept tasks.new names.now kept) }
{
    let Some(node) = arena.terms().get(number as usize) else {
        return Ok(false);
    };
    if !term_holds(reach, known, names, &node.form) {
        return Ok(false);
    }
    open_term(names.len(), &node.form, tasks)?;
    Ok(true)
}

// A pattern. Its parts are still to be done.
fn walk_pattern(
    arena: &CoreArena,
    reach: &[u64],
    known: Known,
    number: u32,
    names: &Names,
    tasks: &mut Tasks,
) -> Result<bool, AllocError>
    ensures { IfOk result (λ holds. IsTrue holds → (kept : List (List ℕ)) → Leads arena.now known reach.now (task.Pattern number ∷ tasks.old) names.now kept tasks.new names.now kept) }
{
    let Some(node) = arena.patterns().get(number as usize) else {
        return Ok(false);
    };
    if !pattern_holds(reach, known, &node.form) {
        return Ok(false);
    }
    open_pattern(names.len(), &node.form, tasks)?;
    Ok(true)
}

// Between the sides of an or-pattern.
fn turn(alloc: Global, first: usize, names: &mut Names, kept: &mut Kept) -> Result<(), AllocError>
    ensures names { OnOk result (names.new ≡ drop (length names.old - first) names.old) }
    ensures kept { OnOk result (kept.new ≡ reverse (take (length names.old - first) names.old) ∷ kept.old) }
{
    let list = names.behind(alloc, first)?;
    names.leave(first);
    kept.push(list)
}

// Whether the names behind the first ones are those of a list, which take their places.
fn exchange(
    alloc: Global,
    first: usize,
    list: &[u32],
    names: &mut Names,
) -> Result<bool, AllocError>
    ensures { IfOk result (λ holds. IsTrue holds → Exchanged list.now first names.old names.new) }
{
    let right = names.behind(alloc, first)?;
    if !names.all_held(list) {
        return Ok(false);
    }
    names.leave(first);
    if !names.none_held(list) {
        return Ok(false);
    }
    if !names.none_held(right.as_slice()) {
        return Ok(false);
    }
    if !names.bind_each(list)? {
        return Ok(false);
    }
    Ok(names.all_held(right.as_slice()))
}

// Behind an or-pattern.
fn join(alloc: Global, first: usize, names: &mut Names, kept: &mut Kept) -> Result<bool, AllocError>
    ensures { IfOk result (λ holds. IsTrue holds → (list : List ℕ) × (kept.old ≡ list ∷ kept.new) × Exchanged list first names.old names.new) }
{
    match kept.pop() {
        Some(list) => exchange(alloc, first, list.as_slice(), names),
        None => Ok(false),
    }
}

// One task. It gives whether it holds.
fn step(
    alloc: Global,
    arena: &CoreArena,
    reach: &[u64],
    known: Known,
    task: Task,
    names: &mut Names,
    kept: &mut Kept,
    tasks: &mut Tasks,
) -> Result<bool, AllocError>
    ensures { IfOk result (λ holds. IsTrue holds → Leads arena.now known reach.now (task ∷ tasks.old) names.old kept.old tasks.new names.new kept.new) }
{
    match task {
        Task::Term(number) => walk_term(arena, reach, known, number, names, tasks),
        Task::Pattern(number) => walk_pattern(arena, reach, known, number, names, tasks),
        Task::Bind(name) => names.bind(name),
        Task::Turn(first) => {
            turn(alloc, first, names, kept)?;
            Ok(true)
        }
        Task::Join(first) => join(alloc, first, names, kept),
        Task::Leave(first) => {
            names.leave(first);
            Ok(true)
        }
    }
}

/// Does all tasks. It gives whether all of them hold.
pub fn run(
    alloc: Global,
    arena: &CoreArena,
    reach: &[u64],
    known: Known,
    names: &mut Names,
    tasks: &mut Tasks,
) -> Result<bool, AllocError>
    ensures { IfOk result (λ holds. IsTrue holds → (s : Scope) → Covers known s → HasReach arena.now reach.now → Fine arena.now s names.new tasks.old names.old []) }
{
    let mut kept = Kept::new(alloc);
    for _ in 0..u64::MAX {
        let Some(task) = tasks.pop() else {
            return Ok(true);
        };
        if !step(alloc, arena, reach, known, task, names, &mut kept, tasks)? {
            return Ok(false);
        }
    }
    Ok(false)
}
