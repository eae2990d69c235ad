//! What a pattern leaves to be done.

ghost use Rattle.std.specs.Prelude.{◌≡◌, OnOk};
ghost use Rattle.core_check.specs.Walk.{pattern_test, pattern_tasks};

use crate::known::Known;
use crate::rows::{are_known, is_known, is_reached};
use crate::task::{Sort, Task, Tasks};
use effect_meaning::PatternForm;
use std::alloc::AllocError;

/// Whether the rows that a pattern names are in scope.
pub fn pattern_holds(reach: &[u64], known: Known, form: &PatternForm) -> bool
    ensures { result ≡ pattern_test known reach.now form.now }
{
    match form {
        PatternForm::Constructor(constructor) => is_known(known, *constructor),
        PatternForm::Construct { constructor, .. } => is_known(known, *constructor),
        PatternForm::Record(fields) => are_known(known, fields.as_slice()),
        PatternForm::Annotated { annotation, .. } => is_reached(known, reach, *annotation),
        _ => true,
    }
}

/// Pushes what a pattern leaves to be done where so many names are in scope.
pub fn open_pattern(names: usize, form: &PatternForm, tasks: &mut Tasks) -> Result<(), AllocError>
    ensures { OnOk result (tasks.new ≡ pattern_tasks names form.now tasks.old) }
{
    match form {
        PatternForm::Any | PatternForm::Constant(_) | PatternForm::Constructor(_) => Ok(()),
        PatternForm::Name(name) => tasks.push(Task::Bind(*name)),
        PatternForm::Tuple(parts) => tasks.push_each(Sort::Pattern, parts.as_slice()),
        PatternForm::Construct { argument, .. } => tasks.push(Task::Pattern(*argument)),
        PatternForm::Record(fields) => tasks.push_parts(Sort::Pattern, fields.as_slice()),
        PatternForm::Or { left, right } => {
            tasks.push(Task::Join(names))?;
            tasks.push(Task::Pattern(*right))?;
            tasks.push(Task::Turn(names))?;
            tasks.push(Task::Pattern(*left))
        }
        PatternForm::Alias { pattern, name } => {
            tasks.push(Task::Pattern(*pattern))?;
            tasks.push(Task::Bind(*name))
        }
        PatternForm::Annotated { pattern, .. } => tasks.push(Task::Pattern(*pattern)),
    }
}
