//! Terms that bind values or make blocks, and operations.

use crate::parts::Purpose;
use crate::placer::{Placer, Wanted};
use crate::state::{POOL_SIZE, atom_uses};
use crate::tasks::Task;
use effect_meaning::{Operation, Sequence};
use low_terms::{
    Atom, Closure, Flat, Home, Inline, Leading, Room, SlotForm, SlotNode, SlotSet, Source,
};
use rt_layout::registers::{A0, A1, A2, NEW};
use std::alloc::AllocError;

// What the values of some atoms are read from.
fn uses_of(atoms: &[Atom]) -> SlotSet {
    let mut uses = SlotSet::EMPTY;
    for atom in atoms {
        uses = uses.with(&atom_uses(*atom));
    }
    uses
}

fn register_wanted(wanted: Wanted) -> Option<u8> {
    match wanted {
        Wanted::Register(register) => Some(register),
        _ => None,
    }
}

impl<'a> Placer<'a> {
    /// Code for a value that is there.
    pub fn atom(&mut self, atom: Atom, live: &SlotSet, wanted: Wanted) -> Result<(), AllocError> {
        if let Wanted::No = wanted {
            self.register = None;
            return Ok(());
        }
        if let (Wanted::Any, Some(register)) = (wanted, self.register_of(atom)) {
            self.register = Some(register);
            return Ok(());
        }
        let rd = self.place(live, wanted)?;
        let source = self.source_of(atom);
        self.load(rd, source)?;
        self.ends(Some(rd), wanted)
    }

    /// The body of a `let`, whose value is there.
    pub fn let_body(
        &mut self,
        node: u32,
        live: &SlotSet,
        wanted: Wanted,
    ) -> Result<(), AllocError> {
        let term = self.node(node)?;
        let SlotForm::Let { body, .. } = term.form else {
            return Err(AllocError);
        };
        let mut later = live.with(&self.uses(body)?.below(term.depth));
        later.insert(term.depth);
        let register = self.register.ok_or(AllocError)?;
        self.bind(term.depth, register, &later, node)?;
        self.value_later(body, live, wanted)
    }

    /// Terms one after the other.
    pub fn sequence(
        &mut self,
        node: u32,
        terms: &[u32],
        live: &SlotSet,
        wanted: Wanted,
    ) -> Result<(), AllocError> {
        let mut rests = Vec::new(self.alloc);
        let mut rest = *live;
        for term in terms.iter().rev() {
            rests.push(rest)?;
            rest = rest.with(&self.uses(*term)?);
        }
        self.rests.push(rests)?;
        self.tasks.push(Task::SequenceFrom {
            node,
            number: 0,
            live: *live,
            wanted,
        })?;
        Ok(())
    }

    /// The terms of a sequence from this one on.
    pub fn sequence_from(
        &mut self,
        node: u32,
        number: usize,
        live: &SlotSet,
        wanted: Wanted,
    ) -> Result<(), AllocError> {
        let SlotForm::Sequence(terms) = &self.node(node)?.form else {
            return Err(AllocError);
        };
        let term = *terms.as_slice().get(number).ok_or(AllocError)?;
        let next = number.saturating_add(1);
        if next >= terms.len() {
            let _rests = self.rests.pop();
            return self.value_later(term, live, wanted);
        }
        let Some(rests) = self.rests.last() else {
            return Err(AllocError);
        };
        let at = rests.len().checked_sub(next).ok_or(AllocError)?;
        let later = *rests.get(at).ok_or(AllocError)?;
        self.tasks.push(Task::SequenceFrom {
            node,
            number: next,
            live: *live,
            wanted,
        })?;
        self.value_later(term, &later, Wanted::No)
    }

    /// A new closure.
    pub fn closure(
        &mut self,
        closure: &Closure,
        live: &SlotSet,
        wanted: Wanted,
    ) -> Result<(), AllocError> {
        let count = u32::try_from(closure.captures.len()).map_err(|_| AllocError)?;
        self.put(Flat::Closure {
            function: closure.function,
            count,
        })?;
        if count > 0 {
            let names = self.sources_of(closure.captures.as_slice())?;
            self.put(Flat::Captures { base: NEW, names })?;
        }
        let rd = self.place(live, wanted)?;
        self.load(rd, Source::Register(NEW))?;
        self.ends(Some(rd), wanted)
    }

    // One closure of a group: it stays in a register, as long as there is one.
    fn group_closure(
        &mut self,
        node: u32,
        slot: u32,
        closure: &Closure,
        here: &SlotSet,
    ) -> Result<(), AllocError> {
        let count = u32::try_from(closure.captures.len()).map_err(|_| AllocError)?;
        let step = Flat::Closure {
            function: closure.function,
            count,
        };
        let home = Home::Slot(slot);
        if self.state.used(here).len().saturating_add(1) < POOL_SIZE {
            self.put(step)?;
            let register = self.pick(here)?;
            self.load(register, Source::Register(NEW))?;
            self.state = self.state.plus(home, register, true);
        } else {
            // The frame comes first, since a stack that grows takes the register of new blocks.
            self.frame(Room::Node(node))?;
            self.put(step)?;
            self.store(NEW, home)?;
            self.state = self.state.minus(home);
        }
        Ok(())
    }

    // What the closures of a group capture, once all of them are there.
    fn group_captures(&mut self, depth: u32, closures: &[Closure]) -> Result<(), AllocError> {
        let mut slot = depth;
        for closure in closures {
            if closure.captures.len() > 0 {
                let base = self.operand(Atom::Slot(slot), NEW)?;
                let names = self.sources_of(closure.captures.as_slice())?;
                self.put(Flat::Captures { base, names })?;
            }
            slot = slot.saturating_add(1);
        }
        Ok(())
    }

    /// Closures that know each other.
    pub fn let_rec(
        &mut self,
        node: u32,
        closures: &'a [Closure],
        body: u32,
        live: &SlotSet,
        wanted: Wanted,
    ) -> Result<(), AllocError> {
        let term = self.node(node)?;
        let count = u32::try_from(closures.len()).map_err(|_| AllocError)?;
        let here = live
            .with(&self.uses(body)?)
            .with(&term.facts.uses)
            .with(&SlotSet::range(term.depth, count));
        let mut slot = term.depth;
        for closure in closures {
            self.group_closure(node, slot, closure, &here)?;
            slot = slot.saturating_add(1);
        }
        self.group_captures(term.depth, closures)?;
        self.value_later(body, live, wanted)
    }

    // What the parts of a form that calls nothing are evaluated for; none where it isn't one.
    fn flat_purpose(
        &mut self,
        term: &'a SlotNode,
        live: &SlotSet,
        wanted: Wanted,
    ) -> Result<Option<Purpose>, AllocError> {
        let mut purpose = Purpose::new(self.alloc, *live);
        match &term.form {
            SlotForm::Operation { parts, .. } => {
                if let Some(register) = register_wanted(wanted) {
                    purpose.wanted.push(Some(register))?;
                }
                purpose.parts.extend_from_slice(parts.as_slice())?;
            }
            SlotForm::OperationConstant { part, .. } => purpose.parts.push(*part)?,
            SlotForm::End { parts, .. } => {
                purpose.wanted.push(Some(A0))?;
                purpose.live = SlotSet::EMPTY;
                self.states.push(self.state)?;
                purpose.parts.extend_from_slice(parts.as_slice())?;
            }
            SlotForm::Block { parts, .. } => purpose.parts.extend_from_slice(parts.as_slice())?,
            _ => return Ok(None),
        }
        Ok(Some(purpose))
    }

    // What the parts of a form that calls are evaluated for.
    fn call_purpose(
        &self,
        term: &'a SlotNode,
        live: &SlotSet,
        wanted: Wanted,
    ) -> Result<Purpose, AllocError> {
        let mut purpose = Purpose::new(self.alloc, *live);
        purpose.leaves = !matches!(wanted, Wanted::Tail);
        let parts = match &term.form {
            SlotForm::Call(parts) => {
                purpose.wanted.extend_from_slice(&[Some(A1), Some(A0)])?;
                parts
            }
            SlotForm::Known {
                function,
                closure,
                parts,
            } => {
                purpose.last = *closure;
                if closure.is_some() {
                    purpose.wanted.push(Some(A1))?;
                }
                for register in &self.parameters(*function)? {
                    purpose.wanted.push(Some(*register))?;
                }
                parts
            }
            SlotForm::Routine { parts, .. } => {
                purpose
                    .wanted
                    .extend_from_slice(&[Some(A0), Some(A1), Some(A2)])?;
                parts
            }
            SlotForm::Perform { parts, .. } => {
                purpose.wanted.push(Some(A2))?;
                parts
            }
            SlotForm::PerformValue(parts) => {
                purpose.wanted.push(Some(A0))?;
                parts
            }
            SlotForm::Handle { parts, handler, .. } => {
                let captures = self.captures_of(*handler)?.below(term.depth);
                purpose.live = purpose.live.with(&captures);
                parts
            }
            _ => return Err(AllocError),
        };
        purpose.parts.extend_from_slice(parts.as_slice())?;
        Ok(purpose)
    }

    /// Begins a form whose parts come first.
    pub fn begin_form(
        &mut self,
        node: u32,
        term: &'a SlotNode,
        live: &SlotSet,
        wanted: Wanted,
    ) -> Result<(), AllocError> {
        let purpose = match self.flat_purpose(term, live, wanted)? {
            Some(purpose) => purpose,
            None => self.call_purpose(term, live, wanted)?,
        };
        self.tasks.push(Task::Form {
            node,
            live: *live,
            wanted,
        })?;
        self.begin_parts(node, term.depth, purpose)
    }

    /// A form whose parts are there.
    pub fn form(&mut self, node: u32, live: &SlotSet, wanted: Wanted) -> Result<(), AllocError> {
        let values = self.take_parts()?;
        let term = self.node(node)?;
        match &term.form {
            SlotForm::Operation { operation, .. } => {
                self.operation(node, *operation, &values, live, wanted)
            }
            SlotForm::OperationConstant {
                operation,
                number,
                ..
            } => self.operation_constant(*operation, *number, &values, live, wanted),
            SlotForm::End { operation, .. } => self.end(*operation, &values, wanted),
            SlotForm::Block { .. } => self.block(&term.form, &values, live, wanted),
            SlotForm::Again { target, .. } => self.again(*target, &values, wanted),
            _ => self.transfer(node, &term.form, &values, wanted),
        }
    }

    fn operation(
        &mut self,
        node: u32,
        operation: Inline,
        values: &[Atom],
        live: &SlotSet,
        wanted: Wanted,
    ) -> Result<(), AllocError> {
        let operands = self.operands(values)?;
        let rd = if matches!(wanted, Wanted::No) && operation.gives_unit() {
            None
        } else {
            Some(self.place(live, wanted)?)
        };
        self.put(Flat::Operation {
            node,
            operation,
            rd,
            operands,
        })?;
        self.ends(rd, wanted)
    }

    fn operation_constant(
        &mut self,
        operation: Operation,
        number: i64,
        values: &[Atom],
        live: &SlotSet,
        wanted: Wanted,
    ) -> Result<(), AllocError> {
        let operands = self.operands(values)?;
        let rd = self.place(live, wanted)?;
        let [operand, _, _] = operands;
        self.put(Flat::OperationConstant {
            operation,
            rd,
            operand,
            number,
        })?;
        self.ends(Some(rd), wanted)
    }

    // What stands behind isn't reached, so the state behind is that in front of the parts.
    fn end(
        &mut self,
        operation: Operation,
        values: &[Atom],
        wanted: Wanted,
    ) -> Result<(), AllocError> {
        let value = *values.first().ok_or(AllocError)?;
        self.moves(&[(A0, value)])?;
        self.put(Flat::End(operation))?;
        let before = self.take_state()?;
        let framed = before.framed || self.state.framed;
        self.state = before;
        self.state.framed = framed;
        self.register = Some(register_wanted(wanted).unwrap_or(A0));
        Ok(())
    }

    // The place of each part in a new block, and where its value is.
    fn block_parts(
        &self,
        fields: &Option<Sequence<u32>>,
        values: &[Atom],
    ) -> Result<Sequence<(u32, Source)>, AllocError> {
        let mut parts = Vec::new(self.alloc);
        for (number, value) in values.iter().enumerate() {
            let place = match fields {
                Some(fields) => *fields.as_slice().get(number).ok_or(AllocError)?,
                None => u32::try_from(number).map_err(|_| AllocError)?,
            };
            parts.push((place, self.source_of(*value)))?;
        }
        Ok(Sequence::from_vec(parts))
    }

    fn block(
        &mut self,
        form: &SlotForm,
        values: &[Atom],
        live: &SlotSet,
        wanted: Wanted,
    ) -> Result<(), AllocError> {
        let SlotForm::Block {
            header,
            leading,
            fields,
            inner,
            ..
        } = form
        else {
            return Err(AllocError);
        };
        let rd = self.place(live, wanted)?;
        let is_read = self.state.used(&uses_of(values)).has(rd);
        let leading: Leading = *leading;
        let parts = self.block_parts(fields, values)?;
        self.put(Flat::Block {
            rd,
            made_in: if is_read { NEW } else { rd },
            header: *header,
            leading,
            inner: *inner,
            parts,
        })?;
        self.ends(Some(rd), wanted)
    }
}
