//! Exception frames: how a `try` begins and ends, and how an exception is raised.
//!
//! An exception frame is one word in a slot of its function's frame: the offset of the frame before it
//! times 2^20, plus the address of the handler's code. A register has the offset of the innermost one. To
//! raise is to go to its handler, with the frame before it as the innermost; the last one of a stack is
//! that of its fiber's foot.
//!
//! Promised: the lines are exactly those of the definition, and a refusal is want of memory.
//!
//! Stands on: `fx_base`, `rv_model`, `rt_layout`.
#![tactic(auto)]

ghost use Rattle.std.specs.Prelude.{◌≡◌, ◌++◌, [], OnOk, IfOk, IfErr};
ghost use Rattle.exception_frames.specs.Routines.{raise_new_lines, match_fail_lines, exception_frames_lines};

#[cfg(test)]
mod tests;

use fx_base::Refusal;
use rt_layout::blocks::TAG_PLAIN;
use rt_layout::labels::{MATCH_FAIL, POP_TRY, PUSH_TRY, RAISE, RAISE_NEW};
use rt_layout::registers::{A0, A1, AUX, CUR, EXN, FIBER, LINK, NEW, STATIC, T0, T1, T3};
use rt_layout::statics::{EXN_MATCH_FAILURE, S_FILE};
use rt_layout::{assembly, header, put, put_header, put_new_block};
use rv_model::Line;
use std::alloc::{AllocError, Global};

// Puts an exception frame into the slot at x6. Linked by x5: the handler's code is there, and the
// body's four bytes behind.
const PUSH_TRY_LINES: [Line; 6] = assembly![
    label PUSH_TRY;
    slli T3, EXN, 20;
    add T3, T3, LINK;
    sd T3, 0, T0;
    // Step: a catch begins: its frame is put, the body is next.
    sub EXN, FIBER, T0;
    jr LINK, 4;
];

// The body's value meets its frame, whose word is in x6; x10 stays. Linked by x5.
const POP_TRY_LINES: [Line; 3] = assembly![
    label POP_TRY;
    // Step: the body's value meets the catch frame, which goes.
    srli EXN, T0, 20;
    jr LINK, 0;
];

// Raises x10. The handler gets x10, and in x6 the address of its frame's slot.
const RAISE_LINES: [Line; 7] = assembly![
    label RAISE;
    sub T0, FIBER, EXN;
    ld T1, 0, T0;
    srli EXN, T1, 20;
    slli T3, EXN, 20;
    sub T1, T1, T3;
    // Step: frames are dropped to the innermost catch frame; at a foot no step yet.
    jr T1, 0;
];

// Makes an exception of the constructor's word in x14 and the argument in x15, and raises it.
const RAISE_NEW_LINES: [Line; 4] = assembly![
    sd CUR, 0, NEW;
    sd AUX, 8, NEW;
    // Step: the step that raises, unless a load or an exchange completed it before.
    mv A0, NEW;
    jump RAISE;
];

fn put_raise_new(lines: &mut Vec<Line>) -> Result<(), AllocError>
    ensures more { OnOk result (lines.new.items ≡ lines.old.items ++ raise_new_lines []) }
{
    put(lines, &assembly![label RAISE_NEW;])?;
    put_new_block(lines, NEW, 3, header!(2, TAG_PLAIN))?;
    put(lines, &RAISE_NEW_LINES)?;
    Ok(())
}

// Raises `Match_failure` at the line x10 and the column x11.
const MATCH_TUPLE_LINES: [Line; 4] = assembly![
    ld T0, S_FILE, STATIC;
    sd T0, 0, NEW;
    sd A0, 8, NEW;
    sd A1, 16, NEW;
];

const MATCH_FAIL_LINES: [Line; 5] = assembly![
    li T0, 2 * EXN_MATCH_FAILURE + 1;
    sd T0, 32, NEW;
    sd NEW, 40, NEW;
    // Step: no clause matched: Match_failure is raised.
    addi A0, NEW, 32;
    jump RAISE;
];

fn put_match_fail(lines: &mut Vec<Line>) -> Result<(), AllocError>
    ensures more { OnOk result (lines.new.items ≡ lines.old.items ++ match_fail_lines []) }
{
    put(lines, &assembly![label MATCH_FAIL;])?;
    put_new_block(lines, NEW, 7, header!(3, TAG_PLAIN))?;
    put(lines, &MATCH_TUPLE_LINES)?;
    put_header(lines, NEW, 24, 7, header!(2, TAG_PLAIN))?;
    put(lines, &MATCH_FAIL_LINES)?;
    Ok(())
}

// All routines.
fn put_exception_frames(lines: &mut Vec<Line>) -> Result<(), AllocError>
    ensures more { OnOk result (lines.new.items ≡ lines.old.items ++ exception_frames_lines []) }
{
    put(lines, &PUSH_TRY_LINES)?;
    put(lines, &POP_TRY_LINES)?;
    put(lines, &RAISE_LINES)?;
    put_raise_new(lines)?;
    put_match_fail(lines)?;
    Ok(())
}

/// The routines of exception frames.
///
/// Refused only for want of memory.
pub fn lines(alloc: Global) -> Result<Vec<Line>, Refusal>
    ensures lines { IfOk result (λ lines. lines.items ≡ exception_frames_lines []) }
    ensures refused { IfErr result (λ refusal. refusal ≡ Refusal.Memory) }
{
    let mut lines = Vec::new(alloc);
    put_exception_frames(&mut lines)?;
    Ok(lines)
}
