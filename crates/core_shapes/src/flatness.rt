//! Terms whose code calls nothing, and loops.

use crate::shapes::{
    MOST_PARAMETERS, application_of, form_of, last_body, literal_of_function, number_of, test_of,
    unfold,
};
use effect_meaning::{Clause, FieldPart, Function, TermForm};
use low_terms::{Core1, is_routine};
use std::alloc::{AllocError, Global};

// The terms so far.
#[derive(Drop)]
struct FlatTerms<'a> {
    alloc: Global,
    core1: &'a Core1<'a>,
    /// The `let rec`s that are no loops.
    refused: &'a [bool],
    flat: Vec<bool>,
}

/// Whether the code of each term calls nothing, where these `let rec`s are no loops. Of a `let rec` it
/// says whether it is a loop.
pub fn flat_terms(
    alloc: Global,
    core1: &Core1<'_>,
    refused: &[bool],
) -> Result<Vec<bool>, AllocError> {
    let mut all = FlatTerms {
        alloc,
        core1,
        refused,
        flat: Vec::new(alloc),
    };
    let mut number = 0u32;
    for term in core1.arena.terms() {
        let is_flat = all.form(number, &term.form)?;
        all.flat.push(is_flat)?;
        number = number.saturating_add(1);
    }
    let FlatTerms {
        alloc: _,
        core1: _,
        refused: _,
        flat,
    } = all;
    Ok(flat)
}

/// A function that is called by itself, with so many arguments.
#[derive(Clone, Copy)]
struct Round {
    name: u32,
    parameters: u32,
}

impl<'a> FlatTerms<'a> {
    fn is_flat(&self, term: u32) -> bool {
        match self.flat.get(term as usize) {
            Some(is_flat) => *is_flat,
            None => false,
        }
    }

    fn form(&self, term: u32, form: &TermForm) -> Result<bool, AllocError> {
        match form {
            TermForm::Name(_)
            | TermForm::Constant(_)
            | TermForm::Function { .. }
            | TermForm::Constructor(_) => Ok(true),
            TermForm::Apply { .. } | TermForm::Catch { .. } | TermForm::Handle { .. } => Ok(false),
            TermForm::LetRec { functions, body } => {
                self.is_loop(term, functions.as_slice(), *body)
            }
            TermForm::Match { subject, clauses } => {
                Ok(self.is_flat(*subject) && self.clauses(clauses.as_slice())?)
            }
            TermForm::Primitive { operation, parts } => {
                Ok(!is_routine(*operation) && self.parts(parts.as_slice()))
            }
            other => Ok(self.plain_form(other)),
        }
    }

    fn plain_form(&self, form: &TermForm) -> bool {
        match form {
            TermForm::Let { value, body, .. } => self.is_flat(*value) && self.is_flat(*body),
            TermForm::Sequence { first, second } => self.is_flat(*first) && self.is_flat(*second),
            TermForm::If {
                condition,
                consequence,
                alternative,
            } => {
                self.is_flat(*condition) && self.is_flat(*consequence) && self.is_flat(*alternative)
            }
            TermForm::Tuple(parts) | TermForm::Array(parts) => self.parts(parts.as_slice()),
            TermForm::Construct { argument, .. } => self.is_flat(*argument),
            TermForm::Record(fields) => self.fields(fields.as_slice()),
            TermForm::Field { record, .. } => self.is_flat(*record),
            TermForm::SetField { record, value, .. } => {
                self.is_flat(*record) && self.is_flat(*value)
            }
            TermForm::Annotated { term, .. } => self.is_flat(*term),
            _ => false,
        }
    }

    fn parts(&self, parts: &[u32]) -> bool {
        parts.iter().all(|part| self.is_flat(*part))
    }

    fn fields(&self, fields: &[FieldPart]) -> bool {
        fields.iter().all(|field| self.is_flat(field.part))
    }

    fn clauses(&self, clauses: &[Clause]) -> Result<bool, AllocError> {
        for clause in clauses {
            if !self.is_flat(clause.body) || !self.is_flat_until_body(clause)? {
                return Ok(false);
            }
        }
        Ok(true)
    }

    // Whether the test and the guard of a clause call nothing. Names in an or-pattern go to the frame.
    fn is_flat_until_body(&self, clause: &Clause) -> Result<bool, AllocError> {
        if let Some(guard) = clause.guard
            && !self.is_flat(guard)
        {
            return Ok(false);
        }
        match self
            .core1
            .facts
            .get(test_of(self.core1, clause.pattern)? as usize)
        {
            Some(facts) => Ok(!facts.named_or),
            None => Err(AllocError),
        }
    }

    // Whether a function is entered once, and is otherwise called by itself alone, in tail position, by
    // code that calls nothing.
    fn is_loop(&self, term: u32, functions: &[Function], body: u32) -> Result<bool, AllocError> {
        let is_refused = self.refused.get(term as usize).copied().unwrap_or(true);
        let ([function], false) = (functions, is_refused) else {
            return Ok(false);
        };
        let literal = literal_of_function(function);
        let levels = unfold(self.alloc, self.core1, literal, MOST_PARAMETERS)?;
        let round = Round {
            name: function.name,
            parameters: number_of(levels.len())?,
        };
        if !self.is_round(round, body)? {
            return Ok(false);
        }
        match self.rounds(round, last_body(&levels)?)? {
            Some(calls) => self.is_used(function.name, calls.saturating_add(1)),
            None => Ok(false),
        }
    }

    fn is_used(&self, name: u32, times: u32) -> Result<bool, AllocError> {
        match self.core1.uses.get(name as usize) {
            Some(uses) => Ok(*uses == times),
            None => Err(AllocError),
        }
    }

    // Whether a term is a call of the function with all arguments.
    fn is_round(&self, round: Round, term: u32) -> Result<bool, AllocError> {
        let application = application_of(self.core1, term)?;
        match form_of(self.core1, application.head)? {
            TermForm::Name(name) => {
                Ok(*name == round.name && application.count == round.parameters)
            }
            _ => Ok(false),
        }
    }

    // How many calls of the function stand in tail position, if nothing else is called.
    fn rounds(&self, round: Round, body: u32) -> Result<Option<u32>, AllocError> {
        let mut tails = Vec::new(self.alloc);
        tails.push(body)?;
        let mut calls = 0u32;
        for _step in 0..u64::MAX {
            let Some(term) = tails.pop() else {
                return Ok(Some(calls));
            };
            if let TermForm::Apply { .. } = form_of(self.core1, term)? {
                if !self.is_round(round, term)? || !self.are_arguments_flat(term)? {
                    return Ok(None);
                }
                calls = calls.saturating_add(1);
            } else if !self.tails(term, &mut tails)? {
                return Ok(None);
            }
        }
        Err(AllocError)
    }

    fn are_arguments_flat(&self, term: u32) -> Result<bool, AllocError> {
        let mut head = term;
        for _step in 0..u64::MAX {
            let TermForm::Apply { function, argument } = form_of(self.core1, head)? else {
                return Ok(true);
            };
            if !self.is_flat(*argument) {
                return Ok(false);
            }
            head = *function;
        }
        Err(AllocError)
    }

    // Adds the terms in tail position of a term. Whether its other parts call nothing.
    fn tails(&self, term: u32, tails: &mut Vec<u32>) -> Result<bool, AllocError> {
        match form_of(self.core1, term)? {
            TermForm::Let { value, body, .. } => {
                tails.push(*body)?;
                Ok(self.is_flat(*value))
            }
            TermForm::Sequence { first, second } => {
                tails.push(*second)?;
                Ok(self.is_flat(*first))
            }
            TermForm::If {
                condition,
                consequence,
                alternative,
            } => {
                tails.push(*consequence)?;
                tails.push(*alternative)?;
                Ok(self.is_flat(*condition))
            }
            TermForm::Annotated { term, .. } => {
                tails.push(*term)?;
                Ok(true)
            }
            TermForm::Match { subject, clauses } => {
                Ok(self.is_flat(*subject) && self.clause_tails(clauses.as_slice(), tails)?)
            }
            _ => Ok(self.is_flat(term)),
        }
    }

    fn clause_tails(&self, clauses: &[Clause], tails: &mut Vec<u32>) -> Result<bool, AllocError> {
        for clause in clauses {
            if !self.is_flat_until_body(clause)? {
                return Ok(false);
            }
            tails.push(clause.body)?;
        }
        Ok(true)
    }
}
