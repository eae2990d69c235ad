//! The conversion of terms.

use crate::converter::Converter;
use crate::tasks::Task;
use core_shapes::{form_of, literal_of};
use effect_meaning::{Constant, FieldPart, TermForm};
use low_terms::{Atom, MOST_SLOTS, SlotForm, tagged};
use slot_builder::UNIT;
use std::alloc::AllocError;

impl<'a> Converter<'a> {
    /// Begins the conversion of a term.
    pub fn term(&mut self, term: u32, depth: u32) -> Result<(), AllocError> {
        if depth > MOST_SLOTS {
            self.beyond = self.beyond.saturating_add(1);
        }
        match form_of(self.core1, term)? {
            TermForm::Name(name) => {
                let atom = self.atom(*name)?;
                self.slots.give_new(SlotForm::Atom(atom), depth)
            }
            TermForm::Constant(constant) => self.constant(*constant, depth),
            TermForm::Function { .. } => self.function_term(term, depth),
            TermForm::Apply { .. } => self.application(term, depth),
            TermForm::Let { value, .. } => {
                self.push(Task::Value { term, depth })?;
                self.push_term(*value, depth)
            }
            TermForm::LetRec { functions, body } => {
                self.let_rec(term, functions.as_slice(), *body, depth)
            }
            TermForm::Sequence { .. } => self.sequence(term, depth),
            TermForm::If {
                condition,
                consequence,
                alternative,
            } => {
                self.push(Task::Build { term, depth })?;
                self.push_term(*alternative, depth)?;
                self.push_term(*consequence, depth)?;
                self.push(Task::Condition {
                    term: *condition,
                    depth,
                })
            }
            TermForm::Annotated { term, .. } => self.push_term(*term, depth),
            other => self.form_of_parts(term, other, depth),
        }
    }

    // Forms of clauses, and forms that evaluate their parts.
    fn form_of_parts(&mut self, term: u32, form: &TermForm, depth: u32) -> Result<(), AllocError> {
        match form {
            TermForm::Match { subject, .. } => {
                self.push(Task::Subject { term, depth })?;
                self.push_term(*subject, depth)
            }
            TermForm::Catch {
                body,
                values,
                exceptions,
            } => {
                self.push(Task::Build { term, depth })?;
                self.push_clauses(exceptions.as_slice(), depth, Atom::Slot(depth))?;
                self.push_clauses(values.as_slice(), depth, Atom::Slot(depth))?;
                self.push_term(*body, depth.saturating_add(1))
            }
            TermForm::Tuple(parts) | TermForm::Array(parts) => {
                self.build_from(term, parts.as_slice(), depth)
            }
            TermForm::Record(fields) => {
                self.push(Task::Build { term, depth })?;
                self.push_fields(fields.as_slice(), depth)
            }
            TermForm::Constructor(_) => self.build(term, depth),
            TermForm::Construct { argument, .. } => self.construct(term, *argument, depth),
            TermForm::Field { record, .. } => self.build_from(term, &[*record], depth),
            TermForm::SetField { record, value, .. } => {
                self.build_from(term, &[*record, *value], depth)
            }
            TermForm::Primitive { operation, parts } => {
                self.primitive(term, *operation, parts.as_slice(), depth)
            }
            TermForm::Handle { .. } => self.handle(term, depth),
            _ => Err(AllocError),
        }
    }

    /// Converts the parts of a term, the first one of the text first; then the term's node is given.
    pub fn build_from(&mut self, term: u32, parts: &[u32], depth: u32) -> Result<(), AllocError> {
        self.push(Task::Build { term, depth })?;
        self.push_parts(parts, depth)
    }

    /// Converts parts, the first one of the text first. Those behind a part are evaluated before it.
    pub fn push_parts(&mut self, parts: &[u32], depth: u32) -> Result<(), AllocError> {
        let mut at = depth;
        for part in parts.iter().rev() {
            self.push_term(*part, at)?;
            at = at.saturating_add(1);
        }
        Ok(())
    }

    fn push_fields(&mut self, fields: &[FieldPart], depth: u32) -> Result<(), AllocError> {
        let mut at = depth;
        for field in fields.iter().rev() {
            self.push_term(field.part, at)?;
            at = at.saturating_add(1);
        }
        Ok(())
    }

    fn constant(&mut self, constant: Constant, depth: u32) -> Result<(), AllocError> {
        let atom = match constant {
            Constant::Integer(number) => Atom::Word(tagged(number)),
            Constant::Character(code) => Atom::Word(tagged(i64::from(code))),
            Constant::Boolean(truth) => Atom::Word(tagged(i64::from(truth))),
            Constant::Unit => Atom::Word(UNIT),
            Constant::Literal(literal) => Atom::Text(self.slots.literal_text(literal)?),
        };
        self.slots.give_new(SlotForm::Atom(atom), depth)
    }

    /// The body of a `let` behind its value. A name of an atom is another name of it; where the name
    /// isn't used, the value is dropped.
    pub fn behind_value(&mut self, term: u32, depth: u32) -> Result<(), AllocError> {
        let TermForm::Let { name, value, body } = form_of(self.core1, term)? else {
            return Err(AllocError);
        };
        if literal_of(self.core1, *value)?.is_some() {
            self.know_last(*name)?;
        }
        let Some(node) = self.slots.results.last().copied() else {
            return Err(AllocError);
        };
        if let Some(atom) = self.slots.atom_of(node) {
            self.slots.take()?;
            self.names.bind(*name, atom)?;
            return self.push_term(*body, depth);
        }
        if self.core1.uses.get(*name as usize).copied().unwrap_or(0) == 0 {
            self.push(Task::Sequence { count: 2, depth })?;
            return self.push_term(*body, depth);
        }
        self.names.bind(*name, Atom::Slot(depth))?;
        self.push(Task::Let { depth })?;
        self.push_term(*body, depth.saturating_add(1))
    }

    /// Converts terms one behind the other.
    fn sequence(&mut self, term: u32, depth: u32) -> Result<(), AllocError> {
        let mut terms = Vec::new(self.alloc);
        let mut rest = term;
        let mut count = 1u32;
        for _step in 0..u64::MAX {
            let TermForm::Sequence { first, second } = form_of(self.core1, rest)? else {
                terms.push(rest)?;
                self.push(Task::Sequence { count, depth })?;
                return self.push_all(&terms, depth);
            };
            terms.push(*first)?;
            count = count.saturating_add(1);
            rest = *second;
        }
        Err(AllocError)
    }

    // Converts terms, the first one first, all with the same slots in use.
    fn push_all(&mut self, terms: &[u32], depth: u32) -> Result<(), AllocError> {
        for term in terms.iter().rev() {
            self.push_term(*term, depth)?;
        }
        Ok(())
    }
}
