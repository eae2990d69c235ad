//! The slots that terms need.

use effect_meaning::{Clause, CoreArena, FieldPart, TermForm};
use std::alloc::{AllocError, Global};

// The terms so far, and the names of all patterns.
#[derive(Drop)]
struct Needs<'a> {
    needs: Vec<u64>,
    names: &'a [u32],
}

/// The slots that each term of a program needs, where each pattern has so many names.
pub fn needs_of(alloc: Global, arena: &CoreArena, names: &[u32]) -> Result<Vec<u64>, AllocError> {
    let mut all = Needs {
        needs: Vec::new(alloc),
        names,
    };
    for term in arena.terms() {
        let need = all.need_of_form(&term.form)?;
        all.needs.push(need)?;
    }
    let Needs { needs, names: _ } = all;
    Ok(needs)
}

impl<'a> Needs<'a> {
    fn need(&self, term: u32) -> Result<u64, AllocError> {
        match self.needs.get(term as usize) {
            Some(need) => Ok(*need),
            None => Err(AllocError),
        }
    }

    fn need_of_form(&self, form: &TermForm) -> Result<u64, AllocError> {
        match form {
            TermForm::Name(_)
            | TermForm::Constant(_)
            | TermForm::Function { .. }
            | TermForm::Constructor(_) => Ok(0),
            TermForm::Let { value, body, .. } => {
                let body = self.need(*body)?.saturating_add(1);
                Ok(self.need(*value)?.max(body))
            }
            TermForm::LetRec { functions, body } => {
                let count = functions.len() as u64;
                Ok(self.need(*body)?.saturating_add(count))
            }
            TermForm::Sequence { first, second } => Ok(self.need(*first)?.max(self.need(*second)?)),
            TermForm::If {
                condition,
                consequence,
                alternative,
            } => {
                let ways = self.need(*consequence)?.max(self.need(*alternative)?);
                Ok(self.need(*condition)?.max(ways))
            }
            TermForm::Annotated { term, .. } => self.need(*term),
            other => self.need_of_parts(other),
        }
    }

    // Forms of clauses, and forms that evaluate their parts from the last to the first.
    fn need_of_parts(&self, form: &TermForm) -> Result<u64, AllocError> {
        match form {
            TermForm::Match { subject, clauses } => {
                let need = self.clauses(clauses.as_slice())?;
                Ok(self.need(*subject)?.max(need))
            }
            TermForm::Catch {
                body,
                values,
                exceptions,
            } => {
                let values = self.clauses(values.as_slice())?;
                let exceptions = self.clauses(exceptions.as_slice())?;
                let body = self.need(*body)?.saturating_add(1);
                Ok(body.max(values).max(exceptions))
            }
            TermForm::Apply { function, argument } => self.parts(&[*function, *argument]),
            TermForm::Tuple(parts) | TermForm::Array(parts) | TermForm::Primitive { parts, .. } =>
                self.parts(parts.as_slice()),
            TermForm::Record(fields) => self.fields(fields.as_slice()),
            TermForm::Construct { argument, .. } => self.parts(&[*argument]),
            TermForm::Field { record, .. } => self.parts(&[*record]),
            TermForm::SetField { record, value, .. } => self.parts(&[*record, *value]),
            TermForm::Handle {
                subject,
                argument,
                on_value,
                on_exception,
                ..
            } => self.parts(&[*subject, *argument, *on_value, *on_exception]),
            _ => Ok(0),
        }
    }

    // While a part is evaluated the values of those behind it are kept.
    fn parts(&self, parts: &[u32]) -> Result<u64, AllocError> {
        let mut most = 0u64;
        let mut behind = 0u64;
        for part in parts.iter().rev() {
            most = most.max(self.need(*part)?.saturating_add(behind));
            behind = behind.saturating_add(1);
        }
        Ok(most.max(behind))
    }

    fn fields(&self, fields: &[FieldPart]) -> Result<u64, AllocError> {
        let mut most = 0u64;
        let mut behind = 0u64;
        for field in fields.iter().rev() {
            most = most.max(self.need(field.part)?.saturating_add(behind));
            behind = behind.saturating_add(1);
        }
        Ok(most.max(behind))
    }

    // The value and the names of a clause are kept beside what its guard or its body needs.
    fn clauses(&self, clauses: &[Clause]) -> Result<u64, AllocError> {
        let mut most = 0u64;
        for clause in clauses {
            most = most.max(self.clause(clause)?);
        }
        Ok(most)
    }

    fn clause(&self, clause: &Clause) -> Result<u64, AllocError> {
        let Some(names) = self.names.get(clause.pattern as usize) else {
            return Err(AllocError);
        };
        let guard = match clause.guard {
            Some(guard) => self.need(guard)?,
            None => 0,
        };
        let inner = self.need(clause.body)?.max(guard);
        Ok(inner.saturating_add(u64::from(*names)).saturating_add(1))
    }
}
