//! Terms one behind the other.

use crate::builder::SlotBuilder;
use effect_meaning::Sequence;
use low_terms::SlotForm;
use std::alloc::AllocError;

impl<'a> SlotBuilder<'a> {
    /// The node of a `let`.
    pub fn build_let(&mut self, depth: u32) -> Result<(), AllocError> {
        let body = self.take()?;
        let value = self.take()?;
        self.give_new(SlotForm::Let { value, body }, depth)
    }

    /// The node of terms one behind the other. Atoms whose values nobody looks at are left out.
    pub fn build_sequence(&mut self, count: u32, depth: u32) -> Result<(), AllocError> {
        let last = self.take()?;
        let firsts = self.take_parts(count.saturating_sub(1) as usize)?;
        let mut parts = Vec::new(self.alloc);
        for node in firsts.iter().rev() {
            self.add_unlooked(&mut parts, *node)?;
        }
        if parts.is_empty() {
            return self.give(last);
        }
        self.add_last(&mut parts, last)?;
        self.give_new(SlotForm::Sequence(Sequence::from_vec(parts)), depth)
    }

    // The nodes of a sequence, if a node is one.
    fn nodes_of(&self, node: u32) -> Option<&[u32]> {
        match self.program.nodes.get(node as usize) {
            Some(found) => match &found.form {
                SlotForm::Sequence(nodes) => Some(nodes.as_slice()),
                _ => None,
            },
            None => None,
        }
    }

    fn add_unlooked(&self, parts: &mut Vec<u32>, node: u32) -> Result<(), AllocError> {
        let Some(nodes) = self.nodes_of(node) else {
            return self.add_unlooked_one(parts, node);
        };
        for node in nodes {
            self.add_unlooked_one(parts, *node)?;
        }
        Ok(())
    }

    fn add_unlooked_one(&self, parts: &mut Vec<u32>, node: u32) -> Result<(), AllocError> {
        if self.atom_of(node).is_none() {
            parts.push(node)?;
        }
        Ok(())
    }

    fn add_last(&self, parts: &mut Vec<u32>, node: u32) -> Result<(), AllocError> {
        match self.nodes_of(node) {
            Some(nodes) => parts.extend_from_slice(nodes),
            None => {
                parts.push(node)?;
                Ok(())
            }
        }
    }
}
