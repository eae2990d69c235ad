//! The parts of a form, evaluated from the last one of the text to the first.

use crate::placer::{Placer, Wanted};
use crate::state::atom_uses;
use crate::tasks::Task;
use low_terms::{Atom, SlotForm, SlotSet};
use std::alloc::{AllocError, Global};

/// Parts that are being evaluated, in the order of evaluation.
#[derive(Drop)]
pub struct Parts {
    node: u32,
    depth: u32,
    parts: Vec<u32>,
    /// The values that are there: those of atoms, and of parts that were evaluated.
    atoms: Vec<Option<Atom>>,
    /// The parts that aren't atoms, and what those from each one on use.
    left: Vec<usize>,
    rests: Vec<SlotSet>,
    /// How many of these are done.
    done: usize,
    /// What is looked at behind the last part.
    fixed: SlotSet,
    live: SlotSet,
    /// Where the parts would best be, the first one of the text first.
    wanted: Vec<Option<u8>>,
    /// A call follows, and what lives on isn't stored yet.
    leaves: bool,
    /// Behind this many of the parts that aren't atoms the rest is flat.
    flat_from: usize,
}

impl Parts {
    /// The values of the parts, the first one of the text first.
    pub fn values(&self, alloc: Global) -> Result<Vec<Atom>, AllocError> {
        let mut values = Vec::new(alloc);
        for atom in self.atoms.iter().rev() {
            values.push((*atom).ok_or(AllocError)?)?;
        }
        Ok(values)
    }
}

/// What the parts of a form are evaluated for.
#[derive(Drop)]
pub struct Purpose {
    /// The parts, in the order of evaluation.
    pub parts: Vec<u32>,
    /// A value that is there already and comes behind them.
    pub last: Option<Atom>,
    pub live: SlotSet,
    /// Where the parts would best be, the first one of the text first.
    pub wanted: Vec<Option<u8>>,
    /// A call follows, so what lives on is stored, as soon as what is left is flat.
    pub leaves: bool,
}

impl Purpose {
    /// No parts, for a form that calls nothing.
    pub fn new(alloc: Global, live: SlotSet) -> Purpose {
        Purpose {
            parts: Vec::new(alloc),
            last: None,
            live,
            wanted: Vec::new(alloc),
            leaves: false,
        }
    }
}

impl<'a> Placer<'a> {
    // The atom that a part is.
    fn part_atom(&self, part: u32) -> Result<Option<Atom>, AllocError> {
        match self.node(part)?.form {
            SlotForm::Atom(atom) => Ok(Some(atom)),
            _ => Ok(None),
        }
    }

    // What the parts that aren't atoms use, from each one on, and from which on all are flat.
    fn rests_of(&self, parts: &[u32], left: &[usize]) -> Result<(Vec<SlotSet>, usize), AllocError> {
        let mut rests = Vec::new(self.alloc);
        let mut rest = SlotSet::EMPTY;
        let mut flat_from = 0;
        for (number, at) in left.iter().enumerate().rev() {
            let node = self.node(*parts.get(*at).ok_or(AllocError)?)?;
            rest = rest.with(&node.facts.uses);
            rests.push(rest)?;
            if flat_from == 0 && !node.facts.flat {
                flat_from = number.saturating_add(1);
            }
        }
        Ok((rests, flat_from))
    }

    /// Begins the parts of a form.
    pub fn begin_parts(
        &mut self,
        node: u32,
        depth: u32,
        purpose: Purpose,
    ) -> Result<(), AllocError> {
        let mut atoms = Vec::new(self.alloc);
        let mut left = Vec::new(self.alloc);
        let mut fixed = SlotSet::EMPTY;
        for (at, part) in purpose.parts.iter().enumerate() {
            let atom = self.part_atom(*part)?;
            match atom {
                Some(atom) => fixed = fixed.with(&atom_uses(atom)),
                None => left.push(at)?,
            }
            atoms.push(atom)?;
        }
        if let Some(atom) = purpose.last {
            fixed = fixed.with(&atom_uses(atom));
            atoms.push(Some(atom))?;
        }
        let (rests, flat_from) = self.rests_of(&purpose.parts, &left)?;
        let Purpose {
            parts,
            live,
            wanted,
            leaves,
            ..
        } = purpose;
        self.parts.push(Parts {
            node,
            depth,
            parts,
            atoms,
            left,
            rests,
            done: 0,
            fixed,
            live,
            wanted,
            leaves,
            flat_from,
        })?;
        self.next_part()
    }

    /// Evaluates the next part, or stores what lives on behind the last one.
    pub fn next_part(&mut self) -> Result<(), AllocError> {
        let Some(mut parts) = self.parts.pop() else {
            return Err(AllocError);
        };
        if parts.leaves && parts.done >= parts.flat_from {
            self.save(&parts.live, parts.node)?;
            parts.live = SlotSet::EMPTY;
            parts.leaves = false;
        }
        let Some(at) = parts.left.get(parts.done) else {
            self.parts.push(parts)?;
            return Ok(());
        };
        let part = *parts.parts.get(*at).ok_or(AllocError)?;
        let later = parts.live.with(&parts.fixed).with(&parts.rest());
        let wanted = parts.wanted_at(*at);
        let used = self.state.used(&later);
        let wanted = match wanted {
            Some(register) if !used.has(register) => Wanted::Register(register),
            _ => Wanted::Any,
        };
        self.parts.push(parts)?;
        self.tasks.push(Task::PartIsThere)?;
        self.tasks.push(Task::Value {
            node: part,
            live: later,
            wanted,
        })?;
        Ok(())
    }

    /// The value of a part is in a register.
    pub fn part_is_there(&mut self) -> Result<(), AllocError> {
        let Some(mut parts) = self.parts.pop() else {
            return Err(AllocError);
        };
        let at = *parts.left.get(parts.done).ok_or(AllocError)?;
        let register = self.register.ok_or(AllocError)?;
        let slot = parts
            .depth
            .saturating_add(u32::try_from(at).map_err(|_| AllocError)?);
        let later = parts.live.with(&parts.fixed).with(&parts.rest());
        parts.fixed.insert(slot);
        parts.done = parts.done.saturating_add(1);
        if parts.done < parts.left.len() {
            self.bind(slot, register, &later.with(&SlotSet::one(slot)), parts.node)?;
        } else {
            let home = low_terms::Home::Slot(slot);
            self.state = self.state.plus(home, register, true);
        }
        if let Some(atom) = parts.atoms.get_mut(at) {
            *atom = Some(Atom::Slot(slot));
        }
        self.parts.push(parts)?;
        self.next_part()
    }

    /// The values of the parts that were evaluated, the first one of the text first.
    pub fn take_parts(&mut self) -> Result<Vec<Atom>, AllocError> {
        let Some(parts) = self.parts.pop() else {
            return Err(AllocError);
        };
        parts.values(self.alloc)
    }
}

impl Parts {
    // What the parts behind the next one use.
    fn rest(&self) -> SlotSet {
        let behind = self.left.len().checked_sub(self.done.saturating_add(2));
        match behind {
            Some(number) => match self.rests.get(number) {
                Some(rest) => *rest,
                None => SlotSet::EMPTY,
            },
            None => SlotSet::EMPTY,
        }
    }

    // Where a part would best be.
    fn wanted_at(&self, at: usize) -> Option<u8> {
        let number = self.atoms.len().checked_sub(at.saturating_add(1))?;
        *self.wanted.get(number)?
    }
}
