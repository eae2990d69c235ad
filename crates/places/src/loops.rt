//! Loops, whose parameters are in registers alone.

use crate::parts::Purpose;
use crate::placer::{Placer, Wanted};
use crate::state::{POOL_SIZE, State};
use crate::tasks::Task;
use low_terms::{Atom, Flat, Home, SlotForm, SlotSet};
use std::alloc::AllocError;

/// Where the parameters of a loop are.
#[derive(Drop)]
pub struct LoopPlaces {
    /// The slot of the first parameter.
    slot: u32,
    node: u32,
    /// The register of each parameter that is looked at.
    targets: Vec<Option<u8>>,
    /// What the loop looks at or what is used behind it.
    inside: SlotSet,
    /// The state behind the loop, and the register that has its value there.
    behind: State,
    register: Option<u8>,
}

impl<'a> Placer<'a> {
    // What a loop looks at is read into registers, as far as there are any.
    fn read_ahead(&mut self, node: u32, inside: &SlotSet) -> Result<(), AllocError> {
        let facts = self.node(node)?.facts;
        let mut left = facts.uses;
        for _slot in 0..low_terms::MOST_SLOTS {
            let Some(slot) = left.first() else {
                return Ok(());
            };
            left.remove(slot);
            let home = Home::Slot(slot);
            let used = self.state.used(inside).len();
            let has_room = used.saturating_add(facts.width) < POOL_SIZE;
            if self.state.register_of(home).is_none() && has_room {
                let register = self.pick(inside)?;
                let source = self.source_of(Atom::Slot(slot));
                self.load(register, source)?;
                self.state = self.state.plus(home, register, false);
            }
        }
        Ok(())
    }

    /// Begins a loop by the first values of its parameters.
    pub fn begin_loop(
        &mut self,
        node: u32,
        live: &SlotSet,
        wanted: Wanted,
    ) -> Result<(), AllocError> {
        let term = self.node(node)?;
        let SlotForm::Loop { parts, .. } = &term.form else {
            return Err(AllocError);
        };
        let inside = live.with(&term.facts.uses);
        let before = self.state;
        let fits = self.fits(node, live)?;
        if !fits {
            self.save(live, node)?;
            self.state = self.state.only(&term.facts.uses);
        }
        self.read_ahead(node, &inside)?;
        self.states.push(if fits { before } else { self.state })?;
        self.states.push(self.state)?;
        let wanted_inside = match wanted {
            Wanted::No => Wanted::No,
            _ => Wanted::Register(self.place(live, wanted)?),
        };
        self.tasks.push(Task::EndLoop { node, wanted })?;
        self.tasks.push(Task::LoopBody {
            node,
            live: inside,
            wanted: wanted_inside,
        })?;
        let mut purpose = Purpose::new(self.alloc, inside);
        purpose.parts.extend_from_slice(parts.as_slice())?;
        self.begin_parts(node, term.depth, purpose)
    }

    // The register of each parameter that the body looks at.
    fn targets(
        &self,
        depth: u32,
        body: u32,
        inside: &SlotSet,
        values: &[Atom],
        parts: &[u32],
    ) -> Result<Vec<Option<u8>>, AllocError> {
        let uses = self.uses(body)?;
        let mut used = self.state.used(inside);
        let mut targets = Vec::new(self.alloc);
        let mut slot = depth;
        for (value, part) in values.iter().zip(parts.iter().rev()) {
            let mut target = None;
            if uses.has(slot) {
                let is_atom = matches!(self.node(*part)?.form, SlotForm::Atom(_));
                let found = if is_atom {
                    None
                } else {
                    self.register_of(*value)
                };
                let register = match found {
                    Some(register) if !used.has(register) => register,
                    _ => used.first_free().ok_or(AllocError)?,
                };
                used = used.with(register);
                target = Some(register);
            }
            targets.push(target)?;
            slot = slot.saturating_add(1);
        }
        Ok(targets)
    }

    // Moves the values of a loop's parameters to their registers.
    fn move_parameters(
        &mut self,
        targets: &[Option<u8>],
        values: &[Atom],
    ) -> Result<(), AllocError> {
        let mut pairs = Vec::new(self.alloc);
        for (target, value) in targets.iter().zip(values.iter()) {
            if let Some(register) = target {
                pairs.push((*register, *value))?;
            }
        }
        self.moves(&pairs)
    }

    /// The body of a loop, whose parameters have their first values.
    pub fn loop_body(
        &mut self,
        node: u32,
        inside: &SlotSet,
        wanted: Wanted,
    ) -> Result<(), AllocError> {
        let values = self.take_parts()?;
        let term = self.node(node)?;
        let SlotForm::Loop { parts, body, .. } = &term.form else {
            return Err(AllocError);
        };
        let body = *body;
        let targets = self.targets(term.depth, body, inside, &values, parts.as_slice())?;
        self.move_parameters(&targets, &values)?;
        let mut start = self.take_state()?;
        let behind = self.take_state()?;
        let mut slot = term.depth;
        for target in &targets {
            if let Some(register) = target {
                start = start.plus(Home::Slot(slot), *register, true);
            }
            slot = slot.saturating_add(1);
        }
        self.loops.push(LoopPlaces {
            slot: term.depth,
            node,
            targets,
            inside: *inside,
            behind,
            register: match wanted {
                Wanted::Register(register) => Some(register),
                _ => None,
            },
        })?;
        self.fixed = self.fixed.saturating_add(1);
        self.state = start;
        self.open_block()?;
        self.value_later(body, inside, wanted)
    }

    /// Behind the body of a loop.
    pub fn end_loop(&mut self, node: u32, wanted: Wanted) -> Result<(), AllocError> {
        let body = self.close_block()?;
        self.fixed = self.fixed.saturating_sub(1);
        let Some(places) = self.loops.pop() else {
            return Err(AllocError);
        };
        self.put(Flat::Loop { node, body })?;
        self.state = places.behind;
        self.ends(places.register, wanted)
    }

    // The innermost loop whose parameters begin with this slot.
    fn loop_at(&self, target: u32) -> Result<&LoopPlaces, AllocError> {
        for places in self.loops.iter().rev() {
            if places.slot == target {
                return Ok(places);
            }
        }
        Err(AllocError)
    }

    /// Begins the next round of a loop by the new values of its parameters.
    pub fn begin_again(
        &mut self,
        node: u32,
        live: &SlotSet,
        wanted: Wanted,
    ) -> Result<(), AllocError> {
        let term = self.node(node)?;
        let SlotForm::Again { target, parts } = &term.form else {
            return Err(AllocError);
        };
        let places = self.loop_at(*target)?;
        let mut purpose = Purpose::new(self.alloc, places.inside);
        purpose.wanted.extend_from_slice(places.targets.as_slice())?;
        purpose.parts.extend_from_slice(parts.as_slice())?;
        self.tasks.push(Task::Form {
            node,
            live: *live,
            wanted,
        })?;
        self.begin_parts(node, term.depth, purpose)
    }

    /// The next round of a loop, whose new values are there.
    pub fn again(
        &mut self,
        target: u32,
        values: &[Atom],
        wanted: Wanted,
    ) -> Result<(), AllocError> {
        let places = self.loop_at(target)?;
        let node = places.node;
        let mut targets = Vec::new(self.alloc);
        targets.extend_from_slice(places.targets.as_slice())?;
        self.move_parameters(&targets, values)?;
        self.put(Flat::Again { node })?;
        self.register = match wanted {
            Wanted::Register(register) => Some(register),
            _ => None,
        };
        Ok(())
    }
}
