//! Operations: printing, strings, arrays, C calls with callbacks, and the text of an uncaught exception.
//!
//! Each operation takes its arguments in x10, x11 and x12, and returns by x1 with its result in x10.
//!
//! Promised: the lines are exactly those of the definition, and a refusal is want of memory.
//!
//! Stands on: `fx_base`, `rv_model`, `rt_layout`.
#![tactic(auto)]

ghost use Rattle.std.specs.Prelude.{◌≡◌, ◌++◌, [], OnOk, IfOk, IfErr};
ghost use Rattle.c_prims.specs.Routines.{c_prims_lines};

mod arithmetic;
mod arrays;
mod comparing;
mod iterating;
mod numerals;
mod printing;
mod strings;
#[cfg(test)]
mod tests;
mod texts;
mod trying;

use crate::arithmetic::put_arithmetic;
use crate::arrays::put_arrays;
use crate::comparing::put_comparing;
use crate::iterating::put_iterating;
use crate::numerals::put_digits;
use crate::printing::put_printing;
use crate::strings::put_strings;
use crate::texts::put_texts;
use crate::trying::put_trying;
use fx_base::Refusal;
use rv_model::Line;
use std::alloc::{AllocError, Global};

// All routines.
fn put_c_prims(lines: &mut Vec<Line>) -> Result<(), AllocError>
    ensures more { OnOk result (lines.new.items ≡ lines.old.items ++ c_prims_lines []) }
{
    put_arithmetic(lines)?;
    put_digits(lines)?;
    put_printing(lines)?;
    put_strings(lines)?;
    put_comparing(lines)?;
    put_arrays(lines)?;
    put_iterating(lines)?;
    put_trying(lines)?;
    put_texts(lines)?;
    Ok(())
}

/// The routines of the operations.
///
/// Refused only for want of memory.
pub fn lines(alloc: Global) -> Result<Vec<Line>, Refusal>
    ensures lines { IfOk result (λ lines. lines.items ≡ c_prims_lines []) }
    ensures refused { IfErr result (λ refusal. refusal ≡ Refusal.Memory) }
{
    let mut lines = Vec::new(alloc);
    put_c_prims(&mut lines)?;
    Ok(lines)
}
