//! The code of functions, effect clauses and items.

use crate::keeping::keeps_frame;
use crate::placer::{Placer, Wanted};
use crate::state::State;
use effect_meaning::Sequence;
use low_terms::{Flat, FunctionKind, Home, LowFunction, Room, SlotFunction, SlotSet, Source};
use rt_layout::registers::{A1, A2, T0};
use std::alloc::AllocError;

/// How many values an effect clause has in registers when its body begins.
const MOST_FIRST: u32 = 6;

impl<'a> Placer<'a> {
    // The state at the begin of a function's code: parameters in registers, and no frame.
    fn begin(&mut self, number: u32, registers: &[u8], uses: &SlotSet, closure: bool) {
        self.function = number;
        self.keeps_frame = false;
        self.fixed = 0;
        self.state = State::START;
        let mut slot = 0;
        for register in registers {
            if uses.has(slot) {
                self.state = self.state.plus(Home::Slot(slot), *register, true);
            }
            slot = slot.saturating_add(1);
        }
        if closure {
            self.state = self.state.plus(Home::Closure, A1, true);
        }
    }

    // The block of a term whose value is the function's; the steps in front of it are made.
    fn tail(&mut self, body: u32) -> Result<u32, AllocError> {
        self.value_later(body, &SlotSet::EMPTY, Wanted::Tail)?;
        self.finish()?;
        self.close_block()
    }

    fn function_body(
        &mut self,
        number: u32,
        body: u32,
        closure: bool,
    ) -> Result<(u32, bool), AllocError> {
        let registers = self.parameters(number)?;
        let uses = self.uses(body)?;
        self.begin(number, &registers, &uses, closure);
        let keeps = keeps_frame(self.alloc, self.program, number, body)?;
        if keeps {
            self.keeps_frame = true;
            self.state.framed = true;
            self.state = self.state.minus(Home::Closure);
            self.open_low()?;
        } else {
            self.open_body()?;
        }
        Ok((self.tail(body)?, keeps))
    }

    // The names of an effect clause's pattern go from the test area to registers or the frame.
    fn read_names(&mut self, uses: &SlotSet, names: u32) -> Result<(), AllocError> {
        for cell in 0..names {
            let slot = cell.saturating_add(2);
            let home = Home::Slot(slot);
            let source = Source::Cell(cell);
            if uses.has(slot) {
                if self.state.count() < MOST_FIRST {
                    let used = self.state.used(uses).with(A1).with(A2);
                    let register = used.first_free().ok_or(AllocError)?;
                    self.put(Flat::Load {
                        rd: register,
                        source,
                    })?;
                    self.state = self.state.plus(home, register, true);
                } else {
                    self.frame(Room::Entry)?;
                    self.put(Flat::Load { rd: T0, source })?;
                    self.store(T0, home)?;
                }
            }
        }
        Ok(())
    }

    fn clause_code(
        &mut self,
        number: u32,
        body: u32,
        names: u32,
        closure: bool,
    ) -> Result<u32, AllocError> {
        let uses = self.uses(body)?;
        self.begin(number, &[], &uses, closure);
        if uses.has(1) {
            self.state = self.state.plus(Home::Slot(1), A2, true);
        }
        self.open_body()?;
        self.read_names(&uses, names)?;
        self.tail(body)
    }

    fn item_code(&mut self, number: u32, body: u32) -> Result<u32, AllocError> {
        self.begin(number, &[], &SlotSet::EMPTY, false);
        self.open_body()?;
        self.tail(body)
    }

    // The checks of a test on `t4`, where it looks at the value.
    fn checks_of(
        &mut self,
        test: Option<u32>,
        cell: u32,
    ) -> Result<(Option<u32>, bool), AllocError> {
        let Some(test) = test else {
            return Ok((None, true));
        };
        let Some(facts) = self.program.test_facts.get(test as usize) else {
            return Err(AllocError);
        };
        if facts.trivial {
            return Ok((None, facts.total));
        }
        let total = facts.total;
        Ok((Some(self.checks_in_frame(test, cell)?), total))
    }

    /// The code of a function, whose registers and stores are chosen.
    pub fn place_function(
        &mut self,
        number: u32,
        function: &'a SlotFunction,
    ) -> Result<LowFunction, AllocError> {
        let mut placed = LowFunction {
            kind: FunctionKind::Head,
            slots: function.slots,
            closure: function.closure,
            head: function.head,
            keeps_frame: false,
            place: function.place,
            checks: None,
            total: true,
        };
        match &function.kind {
            FunctionKind::Function {
                parameters,
                kept,
                body,
            } => {
                let (body, keeps) = self.function_body(number, *body, function.closure)?;
                placed.keeps_frame = keeps;
                placed.kind = FunctionKind::Function {
                    parameters: *parameters,
                    kept: self.copied_lists(kept)?,
                    body,
                };
            }
            FunctionKind::Clause {
                effect,
                argument,
                names,
                shallow,
                next,
                body,
            } => {
                let (checks, total) = self.checks_of(*argument, *names)?;
                placed.checks = checks;
                placed.total = total;
                placed.kind = FunctionKind::Clause {
                    effect: *effect,
                    argument: *argument,
                    names: *names,
                    shallow: *shallow,
                    next: *next,
                    body: self.clause_code(number, *body, *names, function.closure)?,
                };
            }
            FunctionKind::Item { test, next, body } => {
                let (checks, total) = self.checks_of(*test, 0)?;
                placed.checks = checks;
                placed.total = total;
                placed.kind = FunctionKind::Item {
                    test: *test,
                    next: *next,
                    body: self.item_code(number, *body)?,
                };
            }
            FunctionKind::Definitions { functions, next } => {
                let mut copied = Vec::new(self.alloc);
                copied.extend_from_slice(functions.as_slice())?;
                placed.kind = FunctionKind::Definitions {
                    functions: Sequence::from_vec(copied),
                    next: *next,
                };
            }
            FunctionKind::Head => {}
        }
        Ok(placed)
    }

    fn copied_lists(
        &self,
        lists: &Sequence<Sequence<u32>>,
    ) -> Result<Sequence<Sequence<u32>>, AllocError> {
        let mut copied = Vec::new(self.alloc);
        for list in lists.as_slice() {
            let mut numbers = Vec::new(self.alloc);
            numbers.extend_from_slice(list.as_slice())?;
            copied.push(Sequence::from_vec(numbers))?;
        }
        Ok(Sequence::from_vec(copied))
    }
}
