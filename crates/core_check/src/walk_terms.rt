//! What a term leaves to be done.

ghost use Rattle.std.specs.Prelude.{◌≡◌, IfOk, OnOk, length};
ghost use Rattle.core_check.specs.Walk.{term_test, term_tasks};
ghost use Rattle.effect_meaning.specs.declared.core_nodes.TermForm.TheVariants as term;

use crate::known::Known;
use crate::names::Names;
use crate::rows::{
    are_effects_reached, are_functions_reached, are_known, is_any_reached, is_known, is_reached,
};
use crate::task::{Sort, Task, Tasks};
use crate::walk_clauses::{push_bodies, push_clauses, push_effects, push_names};
use effect_meaning::{Function, TermForm};
use std::alloc::AllocError;

/// Whether the rows that a term names are in scope, and the name that it uses.
pub fn term_holds(reach: &[u64], known: Known, names: &Names, form: &TermForm) -> bool
    ensures { result ≡ term_test known reach.now names.now form.now }
{
    match form {
        TermForm::Name(name) => names.holds(*name),
        TermForm::LetRec { functions, .. } => {
            are_functions_reached(known, reach, functions.as_slice())
        }
        TermForm::Constructor(constructor) => is_known(known, *constructor),
        TermForm::Construct { constructor, .. } => is_known(known, *constructor),
        TermForm::Record(fields) => are_known(known, fields.as_slice()),
        TermForm::Field { field, .. } => *field < known.fields,
        TermForm::SetField { field, .. } => *field < known.fields,
        TermForm::Handle { types, clauses, .. } => {
            is_any_reached(known, reach, types.effect)
                && are_effects_reached(known, reach, clauses.as_slice())
        }
        TermForm::Annotated { annotation, .. } => is_reached(known, reach, *annotation),
        _ => true,
    }
}

// Functions that are in scope in themselves and in a body.
fn push_recursion(
    tasks: &mut Tasks,
    names: usize,
    functions: &[Function],
    body: u32,
) -> Result<(), AllocError>
    ensures { OnOk result (tasks.new ≡ term_tasks names (term.LetRec functions.now body) tasks.old) }
{
    let inner = names.checked_add(functions.len()).ok_or(AllocError)?;
    tasks.push(Task::Leave(names))?;
    tasks.push(Task::Term(body))?;
    push_bodies(tasks, inner, functions)?;
    push_names(tasks, functions)
}

/// Pushes what a term leaves to be done where so many names are in scope.
pub fn open_term(names: usize, form: &TermForm, tasks: &mut Tasks) -> Result<(), AllocError>
    ensures { OnOk result (tasks.new ≡ term_tasks names form.now tasks.old) }
{
    match form {
        TermForm::Name(_) | TermForm::Constant(_) | TermForm::Constructor(_) => Ok(()),
        TermForm::Function { parameter, body } => {
            tasks.push(Task::Leave(names))?;
            tasks.push(Task::Term(*body))?;
            tasks.push(Task::Bind(*parameter))
        }
        TermForm::Apply { function, argument } => {
            tasks.push(Task::Term(*argument))?;
            tasks.push(Task::Term(*function))
        }
        TermForm::Let { name, value, body } => {
            tasks.push(Task::Leave(names))?;
            tasks.push(Task::Term(*body))?;
            tasks.push(Task::Bind(*name))?;
            tasks.push(Task::Term(*value))
        }
        TermForm::LetRec { functions, body } => {
            push_recursion(tasks, names, functions.as_slice(), *body)
        }
        other => open_control(names, other, tasks),
    }
}

// What a term on the order of steps, or on a choice, leaves to be done.
fn open_control(names: usize, form: &TermForm, tasks: &mut Tasks) -> Result<(), AllocError>
    ensures { OnOk result (tasks.new ≡ term_tasks names form.now tasks.old) }
{
    match form {
        TermForm::Sequence { first, second } => {
            tasks.push(Task::Term(*second))?;
            tasks.push(Task::Term(*first))
        }
        TermForm::If {
            condition,
            consequence,
            alternative,
        } => {
            tasks.push(Task::Term(*alternative))?;
            tasks.push(Task::Term(*consequence))?;
            tasks.push(Task::Term(*condition))
        }
        TermForm::Match { subject, clauses } => {
            push_clauses(tasks, names, clauses.as_slice())?;
            tasks.push(Task::Term(*subject))
        }
        other => open_data(names, other, tasks),
    }
}

// What a term on data, exceptions or effects leaves to be done.
fn open_data(names: usize, form: &TermForm, tasks: &mut Tasks) -> Result<(), AllocError>
    ensures { OnOk result (tasks.new ≡ term_tasks names form.now tasks.old) }
{
    match form {
        TermForm::Tuple(parts) => tasks.push_each(Sort::Term, parts.as_slice()),
        TermForm::Array(parts) => tasks.push_each(Sort::Term, parts.as_slice()),
        TermForm::Primitive { parts, .. } => tasks.push_each(Sort::Term, parts.as_slice()),
        TermForm::Construct { argument, .. } => tasks.push(Task::Term(*argument)),
        TermForm::Record(fields) => tasks.push_parts(Sort::Term, fields.as_slice()),
        TermForm::Field { record, .. } => tasks.push(Task::Term(*record)),
        TermForm::SetField { record, value, .. } => {
            tasks.push(Task::Term(*value))?;
            tasks.push(Task::Term(*record))
        }
        TermForm::Annotated { term, .. } => tasks.push(Task::Term(*term)),
        other => open_handler(names, other, tasks),
    }
}

// What a term that catches exceptions or handles effects leaves to be done.
fn open_handler(names: usize, form: &TermForm, tasks: &mut Tasks) -> Result<(), AllocError>
    ensures { OnOk result (tasks.new ≡ term_tasks names form.now tasks.old) }
{
    match form {
        TermForm::Catch {
            body,
            values,
            exceptions,
        } => {
            push_clauses(tasks, names, values.as_slice())?;
            push_clauses(tasks, names, exceptions.as_slice())?;
            tasks.push(Task::Term(*body))
        }
        TermForm::Handle {
            subject,
            argument,
            on_value,
            on_exception,
            clauses,
            ..
        } => {
            push_effects(tasks, names, clauses.as_slice())?;
            tasks.push(Task::Term(*on_exception))?;
            tasks.push(Task::Term(*on_value))?;
            tasks.push(Task::Term(*argument))?;
            tasks.push(Task::Term(*subject))
        }
        _ => Err(AllocError),
    }
}
