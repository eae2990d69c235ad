//! Matches.

use crate::builder::SlotBuilder;
use core_shapes::{form_of, place_of};
use effect_meaning::{Clause, Sequence, TermForm};
use low_terms::{SlotClause, SlotForm};
use std::alloc::AllocError;

impl<'a> SlotBuilder<'a> {
    /// The clauses of a match.
    pub fn clauses_of(&self, term: u32) -> Result<&'a [Clause], AllocError> {
        match form_of(self.core1, term)? {
            TermForm::Match { clauses, .. } => Ok(clauses.as_slice()),
            _ => Err(AllocError),
        }
    }

    // Takes a clause.
    fn take_clause(&mut self, clause: &Clause) -> Result<SlotClause, AllocError> {
        let body = self.take()?;
        let guard = match clause.guard {
            Some(_) => Some(self.take()?),
            None => None,
        };
        let test = self.take()?;
        Ok(SlotClause { test, guard, body })
    }

    // Takes the clauses of a list.
    fn take_clauses(&mut self, clauses: &[Clause]) -> Result<Sequence<SlotClause>, AllocError> {
        let mut taken = Vec::new(self.alloc);
        for clause in clauses.iter().rev() {
            taken.push(self.take_clause(clause)?)?;
        }
        taken.reverse();
        Ok(Sequence::from_vec(taken))
    }

    /// The node of a match.
    pub fn build_match(&mut self, term: u32, depth: u32) -> Result<(), AllocError> {
        let clauses = self.clauses_of(term)?;
        let clauses = self.take_clauses(clauses)?;
        let value = self.take()?;
        let place = place_of(self.core1, term)?;
        let form = SlotForm::Match {
            value,
            clauses,
            place,
        };
        self.give_new(form, depth)
    }

    /// The node of a match on a slot.
    pub fn build_look(&mut self, term: u32, slot: u32, depth: u32) -> Result<(), AllocError> {
        let clauses = self.clauses_of(term)?;
        let clauses = self.take_clauses(clauses)?;
        let place = place_of(self.core1, term)?;
        let form = SlotForm::Look {
            slot,
            clauses,
            place,
        };
        self.give_new(form, depth)
    }

    /// The node of a `try`.
    pub fn build_catch(&mut self, term: u32, depth: u32) -> Result<(), AllocError> {
        let TermForm::Catch {
            values,
            exceptions,
            ..
        } = form_of(self.core1, term)?
        else {
            return Err(AllocError);
        };
        let exceptions = self.take_clauses(exceptions.as_slice())?;
        let values = self.take_clauses(values.as_slice())?;
        let body = self.take()?;
        let place = place_of(self.core1, term)?;
        let form = SlotForm::Catch {
            body,
            values,
            exceptions,
            place,
        };
        self.give_new(form, depth)
    }
}
