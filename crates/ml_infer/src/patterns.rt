//! The equations of patterns and of clauses.

ghost use Rattle.std.specs.Prelude.{◌≡◌, map, zip, OnOk, IfOk};
ghost use Rattle.ml_infer.specs.Inference.{gives};
ghost use Rattle.ml_infer.specs.Patterns.{alias, bound, clause, clause_task, clauses, clauses_of, constructor_pattern, field_pattern, field_pattern_task, first_clauses, is_any, joined_pattern, pattern, pattern_of, record_pattern, tuple_pattern, whole_pattern};

use crate::constructors::{constant_type, field_owner, is_owner, is_unhandled};
use crate::inference::{Inference, NameType};
use crate::tasks::Task;
use crate::written::Variables;
use effect_meaning::{Clause, Constructor, CoreArena, FieldPart, PatternForm, TermForm};
use fx_base::Place;
use std::alloc::{AllocError, Global};
use type_graph::{BOOL, EXN, Stack, TUPLE};

// Patterns that have types, in their order.
fn pattern_tasks(alloc: Global, patterns: &[u32], expected: &[u32]) -> Result<Vec<Task>, AllocError>
    ensures { IfOk result (λ tasks. tasks.items ≡ map (λ p. Task.PatternIs p.0 p.1) (zip patterns.now expected.now)) }
{
    let pairs = patterns.iter().zip(expected);
    pairs
        .map(|(pattern, expected)| Task::PatternIs {
            pattern: *pattern,
            expected: *expected,
        })
        .collect(alloc)
}

// The fields of a pattern for records of a type, in their order.
fn field_tasks(
    alloc: Global,
    place: Place,
    of_type: u32,
    variables: Variables,
    parts: &[FieldPart],
) -> Result<Vec<Task>, AllocError>
    ensures { IfOk result (λ tasks. tasks.items ≡ map (field_pattern_task place of_type variables) parts.now) }
{
    parts
        .iter()
        .map(|part| Task::FieldPatternIs {
            place,
            of_type,
            part: *part,
            variables,
        })
        .collect(alloc)
}

// Clauses for values of a type, whose bodies have the other one, in their order.
fn clause_tasks(
    alloc: Global,
    subject: u32,
    body_type: u32,
    clauses: &[Clause],
) -> Result<Vec<Task>, AllocError>
    ensures { IfOk result (λ tasks. tasks.items ≡ map (clause_task subject body_type) clauses.now) }
{
    clauses
        .iter()
        .map(|clause| Task::Clause {
            pattern: clause.pattern,
            guard: clause.guard,
            body: clause.body,
            subject,
            body_type,
        })
        .collect(alloc)
}

// Whether a pattern is `_`.
fn is_any(arena: &CoreArena, pattern: u32) -> bool
    ensures { result ≡ is_any arena.now pattern }
{
    match arena.patterns().get(pattern as usize) {
        Some(node) => matches!(&node.form, PatternForm::Any),
        None => false,
    }
}

impl Inference {
    /// Puts a whole pattern that has a type before all others. The names that it binds are new.
    pub fn whole_pattern(&mut self, pattern: u32, expected: u32) -> Result<(), AllocError>
        ensures { OnOk result (self.new ≡ whole_pattern pattern expected self.old) }
    {
        self.pattern = self.pattern.checked_add(1).ok_or(AllocError)?;
        self.bound = Stack::new(self.types.alloc());
        self.push(Task::PatternIs { pattern, expected })
    }

    // The type of a name that the pattern at hand binds. Both sides of an or-pattern bind it.
    fn bind(&mut self, name: u32) -> Result<u32, AllocError>
        ensures { IfOk result (λ found. bound name self.old ≡ gives found self.new) }
    {
        if let Some(NameType::One { found, pattern }) = self.names.get(name)
            && pattern == self.pattern
        {
            return Ok(found);
        }
        let found = self.new_name(name)?;
        self.bound.push(found)?;
        Ok(found)
    }

    /// The equations of a pattern. Those of its parts come first.
    pub fn pattern(&mut self, arena: &CoreArena, n: u32) -> Result<(), AllocError>
        ensures { OnOk result (self.new ≡ pattern arena.now n self.old) }
    {
        match arena.patterns().get(n as usize) {
            Some(node) => self.pattern_of(arena, node.place, &node.form),
            None => {
                let found = self.variable()?;
                self.give(found)
            }
        }
    }

    #[tactic(auto, unfolding(crate::specs::Patterns::pattern_of))]
    fn pattern_of(
        &mut self,
        arena: &CoreArena,
        place: Place,
        form: &PatternForm,
    ) -> Result<(), AllocError>
        ensures { OnOk result (self.new ≡ pattern_of form.now arena.now place self.old) }
    {
        match form {
            PatternForm::Any => {
                let found = self.variable()?;
                self.give(found)
            }
            PatternForm::Name(name) => {
                let found = self.bind(*name)?;
                self.give(found)
            }
            PatternForm::Constant(constant) => self.give(constant_type(*constant)),
            PatternForm::Tuple(parts) => self.tuple_pattern(parts.as_slice()),
            PatternForm::Constructor(constructor) => {
                self.constructor_pattern(arena, place, *constructor, None)
            }
            PatternForm::Construct {
                constructor,
                argument,
            } => self.constructor_pattern(arena, place, *constructor, Some(*argument)),
            PatternForm::Record(parts) => self.record_pattern(arena, place, parts.as_slice()),
            other => self.joined_pattern(arena, place, other),
        }
    }

    // Patterns that have the type of a part.
    #[tactic(auto, unfolding(crate::specs::Patterns::joined_pattern))]
    fn joined_pattern(
        &mut self,
        arena: &CoreArena,
        place: Place,
        form: &PatternForm,
    ) -> Result<(), AllocError>
        ensures { OnOk result (self.new ≡ joined_pattern form.now arena.now place self.old) }
    {
        match form {
            PatternForm::Or { left, right } => {
                let place = self.pattern_place(arena, *right);
                self.first(&[
                    Task::Pattern(*left),
                    Task::Pattern(*right),
                    Task::Agree(place),
                ])
            }
            PatternForm::Alias { pattern, name } => self.first(&[
                Task::Pattern(*pattern),
                Task::Alias { place, name: *name },
            ]),
            PatternForm::Annotated {
                pattern,
                annotation,
            } => self.first(&[
                Task::Pattern(*pattern),
                Task::Annotated {
                    place,
                    annotation: *annotation,
                },
            ]),
            _ => Ok(()),
        }
    }

    fn tuple_pattern(&mut self, parts: &[u32]) -> Result<(), AllocError>
        ensures { OnOk result (self.new ≡ tuple_pattern parts.now self.old) }
    {
        let expected = self.new_variables(parts.len())?;
        let found = self.types.apply(TUPLE, expected.as_slice())?;
        self.push(Task::Give(found))?;
        let tasks = pattern_tasks(self.types.alloc(), parts, expected.as_slice())?;
        self.first(tasks.as_slice())
    }

    /// The name of a pattern's whole value.
    pub fn alias(&mut self, place: Place, name: u32) -> Result<(), AllocError>
        ensures { OnOk result (self.new ≡ alias place name self.old) }
    {
        let found = self.take()?;
        self.give(found)?;
        let bound = self.bind(name)?;
        self.equate(place, bound, found)
    }

    fn constructor_pattern(
        &mut self,
        arena: &CoreArena,
        place: Place,
        constructor: Constructor,
        argument: Option<u32>,
    ) -> Result<(), AllocError>
        ensures { OnOk result (self.new ≡ constructor_pattern constructor argument arena.now place self.old) }
    {
        let constructed = self.constructed(arena, constructor, place)?;
        self.push(Task::Give(constructed.value))?;
        match (argument, constructed.argument) {
            (Some(pattern), Some(expected)) => {
                if is_unhandled(constructor) && !is_any(arena, pattern) {
                    self.refuse(place);
                }
                self.push(Task::PatternIs { pattern, expected })
            }
            (None, None) => Ok(()),
            _ => {
                self.refuse(place);
                Ok(())
            }
        }
    }

    // The fields of a record pattern are of one type.
    fn record_pattern(
        &mut self,
        arena: &CoreArena,
        place: Place,
        parts: &[FieldPart],
    ) -> Result<(), AllocError>
        ensures { OnOk result (self.new ≡ record_pattern parts.now arena.now place self.old) }
    {
        let Some(first) = parts.first() else {
            self.refuse(place);
            return Ok(());
        };
        let Some(of_type) = field_owner(arena, first.field) else {
            return Ok(());
        };
        let made = self.instance(arena, of_type)?;
        self.push(Task::Give(made.value))?;
        let alloc = self.types.alloc();
        let tasks = field_tasks(alloc, place, of_type, made.variables, parts)?;
        self.first(tasks.as_slice())
    }

    /// A field of a pattern for records of a type.
    pub fn field_pattern(
        &mut self,
        arena: &CoreArena,
        place: Place,
        of_type: u32,
        part: FieldPart,
        variables: Variables,
    ) -> Result<(), AllocError>
        ensures { OnOk result (self.new ≡ field_pattern arena.now place of_type part variables self.old) }
    {
        if !is_owner(arena, of_type, part.field) {
            self.refuse(place);
        }
        let expected = self.field_type(arena, part.field, variables, place)?;
        self.push(Task::PatternIs {
            pattern: part.part,
            expected,
        })
    }

    /// The clauses of a match or a catch, behind its subject. Their bodies have a type.
    pub fn clauses(
        &mut self,
        arena: &CoreArena,
        term: u32,
        body_type: u32,
    ) -> Result<(), AllocError>
        ensures { OnOk result (self.new ≡ clauses arena.now term body_type self.old) }
    {
        let subject = self.take()?;
        match arena.terms().get(term as usize) {
            Some(node) => self.clauses_of(&node.form, subject, body_type),
            None => Ok(()),
        }
    }

    #[tactic(auto, unfolding(crate::specs::Patterns::clauses_of))]
    fn clauses_of(
        &mut self,
        form: &TermForm,
        subject: u32,
        body_type: u32,
    ) -> Result<(), AllocError>
        ensures { OnOk result (self.new ≡ clauses_of form.now subject body_type self.old) }
    {
        match form {
            TermForm::Match { clauses, .. } => {
                self.first_clauses(clauses.as_slice(), subject, body_type)
            }
            TermForm::Catch {
                values,
                exceptions,
                ..
            } => {
                self.first_clauses(exceptions.as_slice(), EXN, body_type)?;
                self.first_clauses(values.as_slice(), subject, body_type)
            }
            _ => Ok(()),
        }
    }

    fn first_clauses(
        &mut self,
        clauses: &[Clause],
        subject: u32,
        body_type: u32,
    ) -> Result<(), AllocError>
        ensures { OnOk result (self.new ≡ first_clauses clauses.now subject body_type self.old) }
    {
        let tasks = clause_tasks(self.types.alloc(), subject, body_type, clauses)?;
        self.first(tasks.as_slice())
    }

    /// A clause: its pattern, its guard if it has one, and its body.
    pub fn clause(
        &mut self,
        pattern: u32,
        guard: Option<u32>,
        body: u32,
        subject: u32,
        body_type: u32,
    ) -> Result<(), AllocError>
        ensures { OnOk result (self.new ≡ clause pattern guard body subject body_type self.old) }
    {
        self.push(Task::TermIs {
            term: body,
            expected: body_type,
        })?;
        if let Some(term) = guard {
            self.push(Task::TermIs {
                term,
                expected: BOOL,
            })?;
        }
        self.whole_pattern(pattern, subject)
    }
}
