//! The values of items.

ghost use Rattle.std.specs.Prelude.{◌≡◌, OnOk, IfOk, IsTrue};
ghost use Rattle.effect_meaning.specs.Scoped.{Scope};
ghost use Rattle.core_check.specs.Walk.{Covers, HasReach};
ghost use Rattle.core_check.specs.Items.{item_tasks, item_test, ValueLeads};
ghost use Rattle.effect_meaning.specs.declared.core_tables.ItemForm.TheVariants as item;

use crate::known::Known;
use crate::names::Names;
use crate::rows::are_functions_reached;
use crate::task::{Task, Tasks};
use crate::walk::run;
use crate::walk_clauses::{push_bodies, push_names};
use effect_meaning::{CoreArena, Function, ItemForm};
use std::alloc::{AllocError, Global};

fn open_functions(names: usize, functions: &[Function], tasks: &mut Tasks) -> Result<(), AllocError>
    ensures { OnOk result (tasks.new ≡ item_tasks names (item.DefineRec functions.now) tasks.old) }
{
    let inner = names.checked_add(functions.len()).ok_or(AllocError)?;
    push_bodies(tasks, inner, functions)?;
    push_names(tasks, functions)
}

/// Pushes what an item leaves to be done where so many names are in scope.
pub fn open_item(names: usize, form: &ItemForm, tasks: &mut Tasks) -> Result<(), AllocError>
    ensures { OnOk result (tasks.new ≡ item_tasks names form.now tasks.old) }
{
    match form {
        ItemForm::Define { name, value } => {
            tasks.push(Task::Bind(*name))?;
            tasks.push(Task::Term(*value))
        }
        ItemForm::Destructure { pattern, value } => {
            tasks.push(Task::Pattern(*pattern))?;
            tasks.push(Task::Term(*value))
        }
        ItemForm::DefineRec(functions) => open_functions(names, functions.as_slice(), tasks),
        ItemForm::Evaluate(value) => tasks.push(Task::Term(*value)),
        _ => Ok(()),
    }
}

// Whether the types are in scope that an item gives its functions.
fn item_reached(known: Known, reach: &[u64], form: &ItemForm) -> bool
    ensures { result ≡ item_test known reach.now form.now }
{
    match form {
        ItemForm::DefineRec(functions) => are_functions_reached(known, reach, functions.as_slice()),
        _ => true,
    }
}

/// Whether the rules on names hold in the value of an item, if it has one. Its names come into scope.
pub fn value_holds(
    alloc: Global,
    arena: &CoreArena,
    reach: &[u64],
    known: Known,
    form: &ItemForm,
    names: &mut Names,
) -> Result<bool, AllocError>
    ensures { IfOk result (λ holds. IsTrue holds → (s : Scope) → Covers known s → HasReach arena.now reach.now → ValueLeads arena.now s names.old form.now names.new) }
{
    if !item_reached(known, reach, form) {
        return Ok(false);
    }
    let mut tasks = Tasks::new(alloc);
    open_item(names.len(), form, &mut tasks)?;
    if !run(alloc, arena, reach, known, names, &mut tasks)? {
        return Ok(false);
    }
    Ok(true)
}
