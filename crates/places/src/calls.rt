//! Calls, effects and handlers.

use crate::placer::{Placer, Wanted};
use crate::state::{State, atom_uses};
use effect_meaning::{HandlerKind, Operation};
use low_terms::{Atom, Body, Flat, FunctionKind, Low, Out, SlotForm, SlotSet, Target, Transfer};
use rt_layout::registers::{A0, A1, A2, A3, CUR, NEW};
use std::alloc::AllocError;

// The registers of a function's parameters but the last, which is in `a0`.
const PARAMETERS: [u8; 3] = [A2, A3, CUR];

impl<'a> Placer<'a> {
    /// The registers of a function's parameters.
    pub fn parameters(&self, function: u32) -> Result<Vec<u8>, AllocError> {
        let Some(function) = self.program.functions.get(function as usize) else {
            return Err(AllocError);
        };
        let FunctionKind::Function { parameters, .. } = function.kind else {
            return Err(AllocError);
        };
        let mut registers = Vec::new(self.alloc);
        for (number, register) in PARAMETERS.iter().enumerate() {
            if (number as u32).saturating_add(1) < parameters {
                registers.push(*register)?;
            }
        }
        registers.push(A0)?;
        Ok(registers)
    }

    /// What the body of a function uses.
    pub fn body_uses(&self, function: u32) -> Result<SlotSet, AllocError> {
        let Some(function) = self.program.functions.get(function as usize) else {
            return Err(AllocError);
        };
        match function.kind {
            FunctionKind::Function { body, .. }
            | FunctionKind::Clause { body, .. }
            | FunctionKind::Item { body, .. } => self.uses(body),
            FunctionKind::Definitions { .. } | FunctionKind::Head => Ok(SlotSet::EMPTY),
        }
    }

    /// What a handler captures.
    pub fn captures_of(&self, handler: u32) -> Result<SlotSet, AllocError> {
        let Some(handler) = self.program.handlers.get(handler as usize) else {
            return Err(AllocError);
        };
        let mut uses = SlotSet::EMPTY;
        for atom in handler.captures.as_slice() {
            uses = uses.with(&atom_uses(*atom));
        }
        Ok(uses)
    }

    // Goes to other code: a call, or in tail position a jump.
    fn go(&mut self, node: u32, target: Target, wanted: Wanted) -> Result<(), AllocError> {
        let is_tail = matches!(wanted, Wanted::Tail);
        let transfer = Transfer {
            node,
            target,
            out: if is_tail { Out::Leaves } else { Out::Falls },
        };
        if self.is_body() {
            self.put_body(Body::Transfer(transfer))?;
        } else {
            self.put_low(Low::Transfer(transfer))?;
        }
        if is_tail {
            self.register = None;
            return Ok(());
        }
        self.moved(wanted)?;
        self.state = State::IN_FRAME;
        Ok(())
    }

    /// A form that goes to other code, its parts being there.
    pub fn transfer(
        &mut self,
        node: u32,
        form: &SlotForm,
        values: &[Atom],
        wanted: Wanted,
    ) -> Result<(), AllocError> {
        match form {
            SlotForm::Call(_) => {
                let [function, argument] = values else {
                    return Err(AllocError);
                };
                self.moves(&[(A1, *function), (A0, *argument)])?;
                self.go(node, Target::Closure, wanted)
            }
            SlotForm::Known {
                function,
                closure,
                ..
            } => self.known(node, *function, *closure, values, wanted),
            SlotForm::Routine { operation, .. } => self.routine(node, *operation, values, wanted),
            SlotForm::Perform { effect, .. } => {
                let argument = *values.first().ok_or(AllocError)?;
                self.moves(&[(A2, argument)])?;
                self.go(node, Target::Perform(*effect), wanted)
            }
            SlotForm::PerformValue(_) => {
                let effect = *values.first().ok_or(AllocError)?;
                self.moves(&[(A0, effect)])?;
                self.go(node, Target::PerformValue, wanted)
            }
            SlotForm::Handle { kind, handler, .. } => {
                self.handle(node, *kind, *handler, values, wanted)
            }
            _ => Err(AllocError),
        }
    }

    fn routine(
        &mut self,
        node: u32,
        operation: Operation,
        values: &[Atom],
        wanted: Wanted,
    ) -> Result<(), AllocError> {
        let mut pairs = Vec::new(self.alloc);
        for (register, value) in [A0, A1, A2].iter().zip(values.iter()) {
            pairs.push((*register, *value))?;
        }
        self.moves(&pairs)?;
        self.go(node, Target::Routine(operation), wanted)
    }

    // Whether a call is one of the running function, which keeps its frame for it.
    fn is_own(&self, function: u32, closure: Option<Atom>, wanted: Wanted) -> bool {
        matches!(wanted, Wanted::Tail)
            && self.keeps_frame
            && function == self.function
            && matches!(closure, None | Some(Atom::Own))
    }

    fn known(
        &mut self,
        node: u32,
        function: u32,
        closure: Option<Atom>,
        values: &[Atom],
        wanted: Wanted,
    ) -> Result<(), AllocError> {
        let is_own = self.is_own(function, closure, wanted);
        let uses = self.body_uses(function)?;
        let registers = self.parameters(function)?;
        let skipped = usize::from(closure.is_some());
        let arguments = values.get(skipped..).unwrap_or(&[]);
        let mut pairs = Vec::new(self.alloc);
        let mut slot = 0;
        for (register, value) in registers.iter().zip(arguments.iter()) {
            if uses.has(slot) {
                pairs.push((*register, *value))?;
            }
            slot = slot.saturating_add(1);
        }
        if let (Some(closure), false) = (closure, is_own) {
            pairs.push((A1, closure))?;
        }
        self.moves(&pairs)?;
        let target = if is_own {
            Target::Again(function)
        } else {
            Target::Known(function)
        };
        self.go(node, target, wanted)
    }

    fn handle(
        &mut self,
        node: u32,
        kind: HandlerKind,
        handler: u32,
        values: &[Atom],
        wanted: Wanted,
    ) -> Result<(), AllocError> {
        let [subject, argument, _, _] = values else {
            return Err(AllocError);
        };
        let Some(record) = self.program.handlers.get(handler as usize) else {
            return Err(AllocError);
        };
        let count = u32::try_from(record.captures.len()).map_err(|_| AllocError)?;
        self.put(Flat::Record {
            first: record.first,
            count,
        })?;
        let names = self.sources_of(record.captures.as_slice())?;
        self.put(Flat::Captures { base: NEW, names })?;
        let target = match (kind, record.subject) {
            (HandlerKind::Deep, Some(function)) => {
                self.moves(&[(A0, *argument)])?;
                Target::HandleFunction(function)
            }
            (HandlerKind::Deep, None) => {
                self.moves(&[(A0, *argument), (A1, *subject)])?;
                Target::HandleClosure
            }
            (HandlerKind::ShallowContinue, _) => {
                self.moves(&[(A0, *subject), (A1, *argument)])?;
                Target::ContinueWith
            }
            (HandlerKind::ShallowDiscontinue, _) => {
                self.moves(&[(A0, *subject), (A1, *argument)])?;
                Target::DiscontinueWith
            }
        };
        self.go(node, target, wanted)
    }
}
