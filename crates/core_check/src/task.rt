//! What is still to be done in the walk.

ghost use Rattle.std.specs.Prelude.{◌≡◌, ◌∷◌, [], OnOk, OnErr, IfSome, IsNone};
ghost use Rattle.core_check.specs.Tasks.{task_on, pushed, pushed_parts};

use effect_meaning::FieldPart;
use std::alloc::{AllocError, Global};
use std::marker::Model;

/// Something that is still to be done.
#[derive(Clone, Copy)]
pub enum Task {
    /// A term is to be walked over.
    Term(u32),
    /// A pattern is to be walked over, and its names come into scope.
    Pattern(u32),
    /// A name comes into scope.
    Bind(u32),
    /// Between the sides of an or-pattern: the names behind the first ones go out of scope, and are kept.
    Turn(usize),
    /// Behind an or-pattern: the names behind the first ones are those that were kept last.
    Join(usize),
    /// The names behind the first ones go out of scope.
    Leave(usize),
}

/// The sort of a task on a number.
#[derive(Clone, Copy)]
pub enum Sort {
    Term,
    Pattern,
    Bind,
}

/// The task of a sort on a number.
pub fn task_on(sort: Sort, number: u32) -> Task
    ensures { result ≡ task_on sort number }
{
    match sort {
        Sort::Term => Task::Term(number),
        Sort::Pattern => Task::Pattern(number),
        Sort::Bind => Task::Bind(number),
    }
}

/// The tasks, the next one on top.
#[derive(Drop)]
pub struct Tasks {
    items: Vec<Task>,
}

impl Model for Tasks {
    ghost use Rattle.std.specs.Prelude.{List, reverse};
    ghost use Rattle.core_check.specs.declared.task.Task.{Task};

    ghost Value = { List Task };

    ghost view = { λ a. reverse a.items.items };
}

impl Tasks {
    /// Nothing is to be done.
    pub fn new(alloc: Global) -> Tasks
        ensures { result ≡ [] }
    {
        Tasks {
            items: Vec::new(alloc),
        }
    }

    /// A further task, to be done next.
    pub fn push(&mut self, task: Task) -> Result<(), AllocError>
        ensures { OnOk result (self.new ≡ task ∷ self.old) }
    {
        self.items.push(task)?;
        Ok(())
    }

    /// Takes the next task off.
    pub fn pop(&mut self) -> Option<Task>
        ensures some { IfSome result (λ task. self.old ≡ task ∷ self.new) }
        ensures none { IsNone result → self.old ≡ [] }
    {
        self.items.pop()
    }

    /// Pushes a task on each number, in turn.
    pub fn push_each(&mut self, sort: Sort, numbers: &[u32]) -> Result<(), AllocError>
        ensures { OnOk result (self.new ≡ pushed sort self.old numbers.now) }
    {
        for number in numbers {
            self.push(task_on(sort, *number))?;
        }
        Ok(())
    }

    /// Pushes a task on the part of each field, in turn.
    pub fn push_parts(&mut self, sort: Sort, fields: &[FieldPart]) -> Result<(), AllocError>
        ensures { OnOk result (self.new ≡ pushed_parts sort self.old fields.now) }
    {
        for field in fields {
            self.push(task_on(sort, field.part))?;
        }
        Ok(())
    }
}
