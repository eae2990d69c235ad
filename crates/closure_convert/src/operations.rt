//! The conversion of built-in operations.

use crate::converter::Converter;
use core_shapes::form_of;
use effect_meaning::{Constructor, Operation, TermForm};
use low_terms::SlotForm;
use std::alloc::AllocError;

impl<'a> Converter<'a> {
    /// Converts the parts of an operation. `Char.code` is its operand's word, `ignore` drops its value,
    /// and an effect that is written at its `perform` makes no block.
    pub fn primitive(
        &mut self,
        term: u32,
        operation: Operation,
        parts: &[u32],
        depth: u32,
    ) -> Result<(), AllocError> {
        match (operation, parts) {
            (Operation::CharacterCode, [part]) => self.push_term(*part, depth),
            (Operation::Perform, [effect]) => self.perform(term, *effect, depth),
            _ => self.build_from(term, parts, depth),
        }
    }

    fn perform(&mut self, term: u32, effect: u32, depth: u32) -> Result<(), AllocError> {
        match form_of(self.core1, effect)? {
            TermForm::Constructor(Constructor::Effect(row)) => {
                let parts = self.slots.unit_part(depth)?;
                let form = SlotForm::Perform {
                    effect: *row,
                    parts,
                };
                self.slots.give_new(form, depth)
            }
            TermForm::Construct {
                constructor: Constructor::Effect(_),
                argument,
            } => self.build_from(term, &[*argument], depth),
            _ => self.build_from(term, &[effect], depth),
        }
    }
}
