//! The conversion of matches.

use crate::converter::Converter;
use crate::tasks::Task;
use core_shapes::{is_trivial, name_of, number_of, test_of};
use effect_meaning::Clause;
use low_terms::{Atom, SlotTest};
use std::alloc::AllocError;

impl<'a> Converter<'a> {
    /// Converts the clauses on a value, the first one first.
    pub fn push_clauses(
        &mut self,
        clauses: &[Clause],
        depth: u32,
        value: Atom,
    ) -> Result<(), AllocError> {
        for clause in clauses.iter().rev() {
            self.push(Task::Clause {
                pattern: clause.pattern,
                guard: clause.guard,
                body: clause.body,
                depth,
                value,
            })?;
        }
        Ok(())
    }

    // The body of the first clause, if it takes every value and has no names.
    fn only_body(&self, clauses: &[Clause]) -> Result<Option<u32>, AllocError> {
        match clauses.first() {
            Some(clause) if clause.guard.is_none() && is_trivial(self.core1, clause.pattern)? => {
                Ok(Some(clause.body))
            }
            _ => Ok(None),
        }
    }

    /// Goes on behind the subject of a match. A value that has a slot stays in it.
    pub fn behind_subject(&mut self, term: u32, depth: u32) -> Result<(), AllocError> {
        let clauses = self.slots.clauses_of(term)?;
        if let Some(body) = self.only_body(clauses)? {
            self.push(Task::Sequence { count: 2, depth })?;
            return self.push_term(body, depth);
        }
        let Some(subject) = self.slots.results.last().copied() else {
            return Err(AllocError);
        };
        if let Some(Atom::Slot(slot)) = self.slots.atom_of(subject) {
            self.slots.take()?;
            self.push(Task::Look { term, slot, depth })?;
            return self.push_clauses(clauses, depth, Atom::Slot(slot));
        }
        self.push(Task::Build { term, depth })?;
        self.push_clauses(clauses, depth, Atom::Slot(depth))
    }

    /// Converts a clause on a value. Its names go behind slot `depth`; a pattern that is a name alone
    /// makes it another name of the value.
    pub fn clause(
        &mut self,
        pattern: u32,
        guard: Option<u32>,
        body: u32,
        depth: u32,
        value: Atom,
    ) -> Result<(), AllocError> {
        let test = test_of(self.core1, pattern)?;
        self.slots.note_test(test, 0)?;
        let names = self.slots.names_of_test(test)?;
        let first = depth.saturating_add(1);
        let slot_test = match name_of(self.core1, pattern)? {
            Some(name) => {
                self.names.bind(name, value)?;
                self.slots.new_test(SlotTest::Any)?
            }
            None => {
                self.names.bind_slots(&names, first)?;
                self.slots.to_slots(&names, first)?;
                self.slots.place_test(test)?
            }
        };
        self.slots.give(slot_test)?;
        let after = first.saturating_add(number_of(names.len())?);
        self.push_term(body, after)?;
        if let Some(guard) = guard {
            self.push(Task::Condition {
                term: guard,
                depth: after,
            })?;
        }
        Ok(())
    }
}
