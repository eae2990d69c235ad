//! The state of the conversion.

use crate::handlers::Handling;
use crate::loops::MadeLoop;
use crate::names::Names;
use crate::tasks::Task;
use low_terms::{Atom, Core1};
use slot_builder::SlotBuilder;
use std::alloc::{AllocError, Global};

/// The conversion.
#[derive(Drop)]
pub struct Converter<'a> {
    pub alloc: Global,
    pub core1: &'a Core1<'a>,
    /// Whether the code of a term calls nothing; of a `let rec`, whether it is a loop.
    pub flat: Vec<bool>,
    pub names: Names,
    pub tasks: Vec<Task>,
    /// The handlers round the place.
    pub handlings: Vec<Handling>,
    pub loops: Vec<MadeLoop>,
    /// What `beyond` was where each loop round the place begins.
    pub loop_marks: Vec<u64>,
    /// How many terms began with more slots in use than a set of slots tells apart.
    pub beyond: u64,
    /// The functions of the items.
    pub items: Vec<u32>,
    pub slots: SlotBuilder<'a>,
}

impl<'a> Converter<'a> {
    /// A conversion that has come to no item yet.
    pub fn new(
        alloc: Global,
        core1: &'a Core1<'a>,
        flat: Vec<bool>,
    ) -> Result<Converter<'a>, AllocError> {
        Ok(Converter {
            alloc,
            core1,
            flat,
            names: Names::new(alloc, core1.uses.len())?,
            tasks: Vec::new(alloc),
            handlings: Vec::new(alloc),
            loops: Vec::new(alloc),
            loop_marks: Vec::new(alloc),
            beyond: 0,
            items: Vec::new(alloc),
            slots: SlotBuilder::new(alloc, core1)?,
        })
    }

    /// What a name stands for.
    pub fn atom(&mut self, name: u32) -> Result<Atom, AllocError> {
        if self.slots.is_top(name) {
            return Ok(Atom::Global(self.slots.global(name)?));
        }
        self.names.local(name)
    }

    /// What names stand for, in their order.
    pub fn atoms(&self, names: &[u32]) -> Result<Vec<Atom>, AllocError> {
        let mut atoms = Vec::new(self.alloc);
        for name in names {
            atoms.push(self.names.local(*name)?)?;
        }
        Ok(atoms)
    }
}
