//! Blocks, and the fields of records.

use crate::builder::{SlotBuilder, UNIT};
use core_shapes::{form_of, number_of};
use effect_meaning::{Constructor, FieldPart, Sequence, TermForm};
use low_terms::{Atom, Inline, Leading, SlotForm, header, tagged};
use std::alloc::AllocError;

impl<'a> SlotBuilder<'a> {
    pub fn build_if(&mut self, depth: u32) -> Result<(), AllocError> {
        let alternative = self.take()?;
        let consequence = self.take()?;
        let condition = self.take()?;
        let form = match self.atom_of(alternative) {
            Some(_) => SlotForm::When {
                condition,
                consequence,
                alternative,
            },
            None => SlotForm::If {
                condition,
                consequence,
                alternative,
            },
        };
        self.give_new(form, depth)
    }

    pub fn build_tuple(&mut self, count: usize, depth: u32) -> Result<(), AllocError> {
        let form = SlotForm::Block {
            header: header(number_of(count)?, 0),
            leading: Leading::Nothing,
            fields: None,
            parts: self.take_list(count)?,
            inner: None,
        };
        self.give_new(form, depth)
    }

    // The place of a field in its record.
    fn field_index(&self, field: u32) -> Result<u32, AllocError> {
        match self.core1.arena.field_rows().get(field as usize) {
            Some(row) => Ok(row.index),
            None => Err(AllocError),
        }
    }

    fn field_indices(&self, fields: &[FieldPart]) -> Result<Sequence<u32>, AllocError> {
        let mut indices = Vec::new(self.alloc);
        for field in fields {
            indices.push(self.field_index(field.field)?)?;
        }
        Ok(Sequence::from_vec(indices))
    }

    pub fn build_record(&mut self, fields: &[FieldPart], depth: u32) -> Result<(), AllocError> {
        let form = SlotForm::Block {
            header: header(number_of(fields.len())?, 0),
            leading: Leading::Nothing,
            fields: Some(self.field_indices(fields)?),
            parts: self.take_list(fields.len())?,
            inner: None,
        };
        self.give_new(form, depth)
    }

    pub fn build_field(&mut self, field: u32, depth: u32) -> Result<(), AllocError> {
        let Some(row) = self.core1.arena.field_rows().get(field as usize) else {
            return Err(AllocError);
        };
        let form = SlotForm::Operation {
            operation: Inline::Field {
                index: row.index,
                mutable: row.is_mutable,
            },
            parts: self.take_list(1)?,
        };
        self.give_new(form, depth)
    }

    pub fn build_set_field(&mut self, field: u32, depth: u32) -> Result<(), AllocError> {
        let form = SlotForm::Operation {
            operation: Inline::SetField {
                index: self.field_index(field)?,
            },
            parts: self.take_list(2)?,
        };
        self.give_new(form, depth)
    }

    /// The value of a constructor without argument.
    pub fn build_constructor(
        &mut self,
        constructor: Constructor,
        depth: u32,
    ) -> Result<(), AllocError> {
        match constructor {
            Constructor::Variant(row) => {
                let word = tagged(i64::from(self.variants.variant(row)?.number));
                self.give_new(SlotForm::Atom(Atom::Word(word)), depth)
            }
            Constructor::Exception(row) => {
                self.exception(row)?;
                let parts = self.unit_part(depth)?;
                self.give_extension(Leading::Exception(row), parts, None, depth)
            }
            Constructor::Effect(row) => {
                let parts = self.unit_part(depth)?;
                self.give_extension(Leading::Effect(row), parts, None, depth)
            }
        }
    }

    /// The list of one part, which is `()`.
    pub fn unit_part(&mut self, depth: u32) -> Result<Sequence<u32>, AllocError> {
        let unit = self.node(SlotForm::Atom(Atom::Word(UNIT)), depth)?;
        let mut parts = Vec::new(self.alloc);
        parts.push(unit)?;
        Ok(Sequence::from_vec(parts))
    }

    // A block of an exception or an effect.
    fn give_extension(
        &mut self,
        leading: Leading,
        parts: Sequence<u32>,
        inner: Option<u64>,
        depth: u32,
    ) -> Result<(), AllocError> {
        let form = SlotForm::Block {
            header: header(2, 0),
            leading,
            fields: None,
            parts,
            inner,
        };
        self.give_new(form, depth)
    }

    // How many parts an argument has that is a tuple in the text.
    fn tuple_parts(&self, argument: u32) -> Result<Option<usize>, AllocError> {
        match form_of(self.core1, argument)? {
            TermForm::Tuple(parts) => Ok(Some(parts.len())),
            _ => Ok(None),
        }
    }

    pub fn build_construct(
        &mut self,
        constructor: Constructor,
        argument: u32,
        depth: u32,
    ) -> Result<(), AllocError> {
        let tuple = self.tuple_parts(argument)?;
        let inner = match tuple {
            Some(count) => Some(header(number_of(count)?, 0)),
            None => None,
        };
        let parts = self.take_list(tuple.unwrap_or(1))?;
        match constructor {
            Constructor::Variant(row) => {
                let form = SlotForm::Block {
                    header: header(1, self.variants.variant(row)?.number),
                    leading: Leading::Nothing,
                    fields: None,
                    parts,
                    inner,
                };
                self.give_new(form, depth)
            }
            Constructor::Exception(row) => {
                self.exception(row)?;
                self.give_extension(Leading::Exception(row), parts, inner, depth)
            }
            Constructor::Effect(row) => {
                self.give_extension(Leading::Effect(row), parts, inner, depth)
            }
        }
    }
}
