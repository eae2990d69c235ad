//! The conversion of conditions.

use crate::converter::Converter;
use crate::tasks::Task;
use core_shapes::{form_of, is_truth, plain};
use effect_meaning::{Operation, TermForm};
use low_terms::{SlotForm, WordComparison, word_comparison};
use std::alloc::AllocError;

/// What a condition is.
#[derive(Clone, Copy)]
enum Shape {
    Compare(WordComparison),
    Not(u32),
    Both(u32, u32),
    Either(u32, u32),
    True,
}

impl<'a> Converter<'a> {
    fn operation_shape(&self, term: u32, operation: Operation, parts: &[u32]) -> Shape {
        if let (Operation::Not, [part]) = (operation, parts) {
            return Shape::Not(*part);
        }
        match word_comparison(operation) {
            Some(comparison) if !self.slots.compares_texts(term) => Shape::Compare(comparison),
            _ => Shape::True,
        }
    }

    // What the condition of a term without annotations is.
    fn shape(&self, term: u32) -> Result<Shape, AllocError> {
        match form_of(self.core1, term)? {
            TermForm::Primitive { operation, parts } => {
                Ok(self.operation_shape(term, *operation, parts.as_slice()))
            }
            TermForm::If {
                condition,
                consequence,
                alternative,
            } => {
                if is_truth(self.core1, *alternative, false)? {
                    Ok(Shape::Both(*condition, *consequence))
                } else if is_truth(self.core1, *consequence, true)? {
                    Ok(Shape::Either(*condition, *alternative))
                } else {
                    Ok(Shape::True)
                }
            }
            _ => Ok(Shape::True),
        }
    }

    fn push_conditions(&mut self, terms: &[u32], depth: u32) -> Result<(), AllocError> {
        for term in terms.iter().rev() {
            self.push(Task::Condition { term: *term, depth })?;
        }
        Ok(())
    }

    /// Begins the conversion of a condition.
    pub fn condition(&mut self, term: u32, depth: u32) -> Result<(), AllocError> {
        let term = plain(self.core1, term)?;
        self.push(Task::BuildCondition { term, depth })?;
        match self.shape(term)? {
            Shape::Compare(_) => self.push_operands(term, depth),
            Shape::Not(part) => self.push_conditions(&[part], depth),
            Shape::Both(first, second) | Shape::Either(first, second) => {
                self.push_conditions(&[first, second], depth)
            }
            Shape::True => self.push_term(term, depth),
        }
    }

    fn push_operands(&mut self, term: u32, depth: u32) -> Result<(), AllocError> {
        match form_of(self.core1, term)? {
            TermForm::Primitive { parts, .. } => self.push_parts(parts.as_slice(), depth),
            _ => Err(AllocError),
        }
    }

    /// The node of a condition whose parts were converted.
    pub fn build_condition(&mut self, term: u32, depth: u32) -> Result<(), AllocError> {
        let form = match self.shape(term)? {
            Shape::Compare(comparison) => SlotForm::Compare {
                comparison,
                parts: self.slots.take_list(2)?,
            },
            Shape::Not(_) => SlotForm::Not(self.slots.take()?),
            Shape::Both(_, _) => {
                let second = self.slots.take()?;
                SlotForm::Both(self.slots.take()?, second)
            }
            Shape::Either(_, _) => {
                let second = self.slots.take()?;
                SlotForm::Either(self.slots.take()?, second)
            }
            Shape::True => SlotForm::True(self.slots.take()?),
        };
        self.slots.give_new(form, depth)
    }
}
