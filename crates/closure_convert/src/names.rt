//! What names stand for.

use low_terms::Atom;
use slot_builder::Table;
use std::alloc::{AllocError, Global};

/// A function of the text that a name stands for.
#[derive(Clone, Copy)]
pub struct KnownFunction {
    pub function: u32,
    pub parameters: u32,
    /// Whether it looks at its closure.
    pub closure: bool,
}

/// What names stand for in the function at hand.
#[derive(Drop)]
pub struct Names {
    pub atoms: Table<Atom>,
    pub known: Table<KnownFunction>,
    /// The first parameter's slot of the loop that a name stands for.
    pub loops: Table<u32>,
    /// What names stood for outside, and how many of these there were before each function round the
    /// place.
    saved: Vec<(u32, Option<Atom>)>,
    marks: Vec<usize>,
}

impl Names {
    /// No name stands for anything.
    pub fn new(alloc: Global, names: usize) -> Result<Names, AllocError> {
        Ok(Names {
            atoms: Table::new(alloc, names)?,
            known: Table::new(alloc, names)?,
            loops: Table::new(alloc, names)?,
            saved: Vec::new(alloc),
            marks: Vec::new(alloc),
        })
    }

    /// A name stands for an atom.
    pub fn bind(&mut self, name: u32, atom: Atom) -> Result<(), AllocError> {
        self.atoms.put(name, Some(atom))
    }

    /// What a local name stands for.
    pub fn local(&self, name: u32) -> Result<Atom, AllocError> {
        match self.atoms.get(name) {
            Some(atom) => Ok(atom),
            None => Err(AllocError),
        }
    }

    /// A function begins.
    pub fn enter(&mut self) -> Result<(), AllocError> {
        self.marks.push(self.saved.len())?;
        Ok(())
    }

    /// A name stands for an atom in this function alone.
    pub fn hide(&mut self, name: u32, atom: Atom) -> Result<(), AllocError> {
        self.saved.push((name, self.atoms.get(name)))?;
        self.bind(name, atom)
    }

    /// A function ends.
    pub fn leave(&mut self) -> Result<(), AllocError> {
        let Some(mark) = self.marks.pop() else {
            return Err(AllocError);
        };
        for _name in mark..self.saved.len() {
            if let Some((name, atom)) = self.saved.pop() {
                self.atoms.put(name, atom)?;
            }
        }
        Ok(())
    }

    /// Names stand for the captured words of this function, by their order.
    pub fn capture(&mut self, names: &[u32]) -> Result<(), AllocError> {
        let mut number = 0u32;
        for name in names {
            self.hide(*name, Atom::Captured(number))?;
            number = number.saturating_add(1);
        }
        Ok(())
    }

    /// Names stand for the slots from the first one on.
    pub fn bind_slots(&mut self, names: &[u32], first: u32) -> Result<(), AllocError> {
        let mut slot = first;
        for name in names {
            self.bind(*name, Atom::Slot(slot))?;
            slot = slot.saturating_add(1);
        }
        Ok(())
    }
}
