//! Continuations: made of a chain of fibers, and taken once.
//!
//! A continuation's first word is its innermost fiber, or 0 once it was taken; the second is its outermost
//! fiber. Taking swaps the first word with 0, so of several that take one succeeds, in whatever order the
//! harts run.
//!
//! Promised: the lines are exactly those of the definition, and a refusal is want of memory.
//!
//! Stands on: `fx_base`, `rv_model`, `rt_layout`.
#![tactic(auto)]

ghost use Rattle.std.specs.Prelude.{◌≡◌, ◌++◌, [], OnOk, IfOk, IfErr};
ghost use Rattle.continuation_words.specs.Routines.{make_cont_lines, taken_before_lines, continuation_words_lines};

#[cfg(test)]
mod tests;

use fx_base::Refusal;
use rt_layout::blocks::{K_INNER, K_OUTER, TAG_CONT};
use rt_layout::labels::{MAKE_CONT, TAKE_CONT, TAKEN_BEFORE};
use rt_layout::registers::{A0, A2, A3, CUR, LINK, LINK2, ZERO};
use rt_layout::statics::EXN_CONTINUATION_ALREADY_RESUMED;
use rt_layout::{assembly, header, put, put_new_block, put_raise};
use rv_model::Line;
use std::alloc::{AllocError, Global};

// Makes a continuation of the innermost fiber x14 and the outermost fiber x13: x12. Linked by x31.
const MAKE_CONT_LINES: [Line; 3] = assembly![
    sd CUR, K_INNER, A2;
    sd A3, K_OUTER, A2;
    jr LINK2, 0;
];

fn put_make_cont(lines: &mut Vec<Line>) -> Result<(), AllocError>
    ensures more { OnOk result (lines.new.items ≡ lines.old.items ++ make_cont_lines []) }
{
    put(lines, &assembly![label MAKE_CONT;])?;
    put_new_block(lines, A2, 4, header!(3, TAG_CONT))?;
    put(lines, &MAKE_CONT_LINES)?;
    Ok(())
}

// Takes the continuation x10: its innermost fiber is x13. Linked by x5.
const TAKE_CONT_LINES: [Line; 4] = assembly![
    label TAKE_CONT;
    // Step: the resumption, where the word wasn't 0.
    amoswap A3, ZERO, A0;
    beq A3, ZERO, TAKEN_BEFORE;
    jr LINK, 0;
];

// It was taken before.
fn put_taken_before(lines: &mut Vec<Line>) -> Result<(), AllocError>
    ensures more { OnOk result (lines.new.items ≡ lines.old.items ++ taken_before_lines []) }
{
    put(lines, &assembly![label TAKEN_BEFORE;])?;
    put_raise(lines, EXN_CONTINUATION_ALREADY_RESUMED)?;
    Ok(())
}

// All routines.
fn put_continuation_words(lines: &mut Vec<Line>) -> Result<(), AllocError>
    ensures more { OnOk result (lines.new.items ≡ lines.old.items ++ continuation_words_lines []) }
{
    put_make_cont(lines)?;
    put(lines, &TAKE_CONT_LINES)?;
    put_taken_before(lines)?;
    Ok(())
}

/// The routines of continuations.
///
/// Refused only for want of memory.
pub fn lines(alloc: Global) -> Result<Vec<Line>, Refusal>
    ensures lines { IfOk result (λ lines. lines.items ≡ continuation_words_lines []) }
    ensures refused { IfErr result (λ refusal. refusal ≡ Refusal.Memory) }
{
    let mut lines = Vec::new(alloc);
    put_continuation_words(&mut lines)?;
    Ok(lines)
}
