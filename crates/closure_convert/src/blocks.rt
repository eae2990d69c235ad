//! The nodes of forms that evaluate their parts.

use crate::converter::Converter;
use core_shapes::form_of;
use effect_meaning::TermForm;
use std::alloc::AllocError;

impl<'a> Converter<'a> {
    /// The node of a term whose parts were converted.
    pub fn build(&mut self, term: u32, depth: u32) -> Result<(), AllocError> {
        match form_of(self.core1, term)? {
            TermForm::If { .. } => self.slots.build_if(depth),
            TermForm::LetRec { functions, .. } => self.build_let_rec(
                term,
                functions.as_slice(),
                depth,
            ),
            TermForm::Match { .. } => self.slots.build_match(term, depth),
            TermForm::Catch { .. } => self.slots.build_catch(term, depth),
            TermForm::Tuple(parts) | TermForm::Array(parts) => {
                self.slots.build_tuple(parts.as_slice().len(), depth)
            }
            TermForm::Record(fields) => self.slots.build_record(fields.as_slice(), depth),
            TermForm::Constructor(constructor) => self.slots.build_constructor(*constructor, depth),
            TermForm::Construct {
                constructor,
                argument,
            } => self.slots.build_construct(*constructor, *argument, depth),
            TermForm::Field { field, .. } => self.slots.build_field(*field, depth),
            TermForm::SetField { field, .. } => self.slots.build_set_field(*field, depth),
            TermForm::Primitive { operation, parts } => {
                self.slots
                    .build_primitive(term, *operation, parts.as_slice(), depth)
            }
            TermForm::Handle { .. } => self.build_handle(term, depth),
            _ => Err(AllocError),
        }
    }

    /// Converts a constructor's argument. A tuple's parts are converted alone: both blocks are made at
    /// once.
    pub fn construct(&mut self, term: u32, argument: u32, depth: u32) -> Result<(), AllocError> {
        match form_of(self.core1, argument)? {
            TermForm::Tuple(parts) => self.build_from(term, parts.as_slice(), depth),
            _ => self.build_from(term, &[argument], depth),
        }
    }
}
