//! The code that takes the parameters of a function one by one.

use crate::labels::partial;
use crate::selector::Selector;
use effect_meaning::Sequence;
use rt_layout::assembly;
use rt_layout::blocks::{TAG_CLOSURE, header_word};
use rt_layout::registers::{A0, A1, A2, A3, CUR, NEW, RA, T0};
use std::alloc::AllocError;

// The parameter's register; the last one of a function is in x10 instead.
fn parameter_register(parameter: u32) -> Result<u8, AllocError> {
    match parameter {
        0 => Ok(A2),
        1 => Ok(A3),
        2 => Ok(CUR),
        _ => Err(AllocError),
    }
}

// The words of a partial application before its arguments: the code, and the closure if there is one.
fn words_before(closure: bool) -> usize {
    1 + usize::from(closure)
}

// Where an argument lies in a partial application.
fn argument_offset(closure: bool, number: usize) -> i64 {
    let word = number.saturating_add(words_before(closure));
    i64::try_from(word).unwrap_or(i64::MAX).saturating_mul(8)
}

impl Selector {
    /// The code of a closure of a function of several parameters: x10 is the argument, x11 the closure or
    /// the arguments so far. `kept` has for each number of arguments the parameters that are kept.
    pub fn partials(
        &mut self,
        parameters: u32,
        kept: &[Sequence<u32>],
        closure: bool,
    ) -> Result<(), AllocError> {
        if parameters <= 1 {
            return Ok(());
        }
        let mut before: &[u32] = &[];
        let mut argument = 0u32;
        for now in kept {
            self.partial_application(argument, before, now.as_slice(), closure)?;
            before = now.as_slice();
            argument = argument.saturating_add(1);
        }
        self.last_argument(parameters, before, closure)
    }

    // Takes this argument, from 0 on, and makes a block of what is kept.
    fn partial_application(
        &mut self,
        argument: u32,
        before: &[u32],
        now: &[u32],
        closure: bool,
    ) -> Result<(), AllocError> {
        self.label(partial(self.function, argument.saturating_add(1))?)?;
        let next = partial(self.function, argument.saturating_add(2))?;
        let words = now.len().saturating_add(words_before(closure)) as u64;
        if words >= 1 << 32 {
            return Err(AllocError);
        }
        self.new_block(NEW, words + 1, header_word(words, TAG_CLOSURE))?;
        self.put(&assembly![code T0, next; sd T0, 0, NEW;])?;
        if closure {
            self.keep_closure(argument)?;
        }
        for (number, parameter) in now.iter().enumerate() {
            let value = self.argument(argument, *parameter, before, closure)?;
            self.store_to(value, argument_offset(closure, number), NEW)?;
        }
        self.put(&assembly![mv A0, NEW; jr RA, 0;])
    }

    // Puts the function's closure into the new block.
    fn keep_closure(&mut self, argument: u32) -> Result<(), AllocError> {
        if argument == 0 {
            return self.put(&assembly![sd A1, 8, NEW;]);
        }
        self.put(&assembly![ld T0, 8, A1; sd T0, 8, NEW;])
    }

    // The register that has a parameter's value: this argument, or an earlier one.
    fn argument(
        &mut self,
        argument: u32,
        parameter: u32,
        before: &[u32],
        closure: bool,
    ) -> Result<u8, AllocError> {
        if parameter >= argument {
            return Ok(A0);
        }
        let Some(number) = before.iter().position(|earlier| *earlier == parameter) else {
            return Err(AllocError);
        };
        self.load_from(T0, argument_offset(closure, number), A1)?;
        Ok(T0)
    }

    // All arguments are there: they go to their registers.
    fn last_argument(
        &mut self,
        parameters: u32,
        before: &[u32],
        closure: bool,
    ) -> Result<(), AllocError> {
        self.label(partial(self.function, parameters)?)?;
        for (number, parameter) in before.iter().enumerate() {
            let rd = parameter_register(*parameter)?;
            self.load_from(rd, argument_offset(closure, number), A1)?;
        }
        if closure {
            self.put(&assembly![ld A1, 8, A1;])?;
        }
        Ok(())
    }
}
