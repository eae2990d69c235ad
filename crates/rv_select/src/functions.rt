//! Functions, effect clauses and items.

use crate::labels::{Kind, entry, label};
use crate::loads::captured_offset;
use crate::selector::Selector;
use crate::statics::global_offset;
use crate::tasks::Task;
use low_terms::{Definition, FunctionKind, LowFunction, LowProgram, Next, Way};
use rt_layout::assembly;
use rt_layout::blocks::tagged;
use rt_layout::labels::{CAPTURE_DEEP, CAPTURE_SHALLOW, ITEMS_END, REPERFORM};
use rt_layout::registers::{A0, A1, A2, LINK3, NEW, RA, SP, STATIC, T0, T4};
use rt_layout::stacks::FRAME_CLOSURE;
use std::alloc::AllocError;

// The code behind a clause or an item.
fn next_label(next: Next, end: u32) -> Result<u32, AllocError> {
    match next {
        Next::Function(function) => entry(function),
        Next::End => Ok(end),
    }
}

/// What an effect clause tests, and what follows where it fails.
#[derive(Clone, Copy)]
struct EffectTest {
    effect: u32,
    shallow: bool,
    next: u32,
}

impl Selector {
    /// The code of the function of this number.
    pub fn function(&mut self, low: &LowProgram, number: u32) -> Result<(), AllocError> {
        let Some(function) = low.functions.get(number as usize) else {
            return Err(AllocError);
        };
        self.function = number;
        self.slots = function.slots;
        match &function.kind {
            FunctionKind::Function {
                parameters,
                kept,
                body,
            } => {
                self.partials(*parameters, kept.as_slice(), function.closure)?;
                self.plain_function(low, function, *body)
            }
            FunctionKind::Clause {
                effect,
                shallow,
                next,
                body,
                ..
            } => {
                let test = EffectTest {
                    effect: *effect,
                    shallow: *shallow,
                    next: next_label(*next, REPERFORM)?,
                };
                self.effect_clause(low, function, test, *body)
            }
            FunctionKind::Item { next, body, .. } => {
                self.item(low, function, next_label(*next, ITEMS_END)?, *body)
            }
            FunctionKind::Definitions { functions, next } => {
                self.definitions(low, functions.as_slice(), next_label(*next, ITEMS_END)?)
            }
            FunctionKind::Head => {
                self.ways(low, function.head)?;
                self.label(entry(number)?)?;
                self.jump(REPERFORM)
            }
        }
    }

    // The label of this kind of the function at hand.
    fn own(&self, kind: Kind) -> Result<u32, AllocError> {
        label(self.function, kind)
    }

    // All steps of a block.
    fn body(&mut self, low: &LowProgram, block: u32) -> Result<(), AllocError> {
        self.next(&[Task::steps(block)])?;
        self.finish(low)
    }

    // All checks of a block.
    fn all_checks(&mut self, low: &LowProgram, block: u32, no: u32) -> Result<(), AllocError> {
        self.next(&[Task::checks(block, no)])?;
        self.finish(low)
    }

    // The closure is in x11, the last parameter in x10, the others in x12, x13 and x14.
    fn plain_function(
        &mut self,
        low: &LowProgram,
        function: &LowFunction,
        body: u32,
    ) -> Result<(), AllocError> {
        self.label(self.own(Kind::Entry)?)?;
        if function.keeps_frame {
            self.push_frame(self.own(Kind::EntryRoom)?)?;
            if function.closure {
                self.put(&assembly![sd A1, FRAME_CLOSURE, SP;])?;
            }
        }
        self.label(self.own(Kind::Again)?)?;
        self.body(low, body)
    }

    // The two ways of a handler, in front of its first test: for an exception, and for a value.
    fn ways(&mut self, low: &LowProgram, head: Option<u32>) -> Result<(), AllocError> {
        let Some(number) = head else {
            return Ok(());
        };
        let Some(handler) = low.handlers.get(number as usize) else {
            return Err(AllocError);
        };
        let on_exception = self.way(handler.on_exception, Kind::OnException)?;
        let on_value = self.way(handler.on_value, Kind::OnValue)?;
        self.jump(on_exception)?;
        self.jump(on_value)
    }

    // The code of a way: a function's, or that of a captured closure.
    fn way(&mut self, way: Way, kind: Kind) -> Result<u32, AllocError> {
        match way {
            Way::Function(function) => entry(function),
            Way::Captured(number) => {
                let own = self.own(kind)?;
                self.label(own)?;
                self.load_from(A1, captured_offset(number), A1)?;
                self.put(&assembly![ld T0, 0, A1; jr T0, 0;])?;
                Ok(own)
            }
        }
    }

    // First the test: x10 is the effect's word, x12 its argument, x11 the record and x13 the fiber that
    // has this handler. Then the body: x11 is the record, x12 the continuation.
    fn effect_clause(
        &mut self,
        low: &LowProgram,
        function: &LowFunction,
        test: EffectTest,
        body: u32,
    ) -> Result<(), AllocError> {
        self.ways(low, function.head)?;
        self.label(self.own(Kind::Entry)?)?;
        self.put(&assembly![
            li T0, tagged(u64::from(test.effect));
            bne A0, T0, test.next;
        ])?;
        if let Some(checks) = function.checks {
            self.copy(T4, A2)?;
            self.all_checks(low, checks, test.next)?;
        }
        let capture = if test.shallow {
            CAPTURE_SHALLOW
        } else {
            CAPTURE_DEEP
        };
        self.put(&assembly![call LINK3, capture;])?;
        self.body(low, body)
    }

    // Calls its term's code, takes the value apart, and goes on to the next item.
    fn item(
        &mut self,
        low: &LowProgram,
        function: &LowFunction,
        next: u32,
        body: u32,
    ) -> Result<(), AllocError> {
        let term = self.own(Kind::Term)?;
        self.label(self.own(Kind::Entry)?)?;
        self.put(&assembly![call RA, term;])?;
        self.label(self.own(Kind::TermBack)?)?;
        self.take_apart(low, function, next)?;
        self.label(term)?;
        self.body(low, body)
    }

    fn take_apart(
        &mut self,
        low: &LowProgram,
        function: &LowFunction,
        next: u32,
    ) -> Result<(), AllocError> {
        let Some(checks) = function.checks else {
            return self.jump(next);
        };
        let mismatch = self.own(Kind::Mismatch)?;
        self.copy(T4, A0)?;
        self.all_checks(low, checks, mismatch)?;
        self.jump(next)?;
        if function.total {
            return Ok(());
        }
        self.label(mismatch)?;
        self.match_failure(function.place)
    }

    // An item that defines functions alone.
    fn definitions(
        &mut self,
        low: &LowProgram,
        functions: &[Definition],
        next: u32,
    ) -> Result<(), AllocError> {
        self.label(self.own(Kind::Entry)?)?;
        for definition in functions {
            self.closure(low, definition.function, 0)?;
            self.store_to(NEW, global_offset(definition.global), STATIC)?;
        }
        self.jump(next)
    }
}
