//! Calls of C and their callbacks.
//!
//! A C frame lies on the domain's system stack, which grows upwards. A callback runs in a fresh fiber with
//! no parent, so no effect that it performs finds a handler outside the C call.
//!
//! Promised: the lines are exactly those of the definition, and a refusal is want of memory.
//!
//! Stands on: `fx_base`, `rv_model`, `rt_layout`.
#![tactic(auto)]

ghost use Rattle.std.specs.Prelude.{◌≡◌, ◌++◌, [], OnOk, IfOk, IfErr};
ghost use Rattle.c_callbacks.specs.Routines.{enter_c_lines, leave_c_lines, callback_lines, c_callbacks_lines};

#[cfg(test)]
mod tests;

use fx_base::Refusal;
use rt_layout::fixed::END_CALLS_FULL;
use rt_layout::labels::{CALLBACK, CALLS_FULL, ENTER_C, LEAVE_C, NEW_FIBER, STOP_RUN};
use rt_layout::parts::{C_FIBER, C_FRAME, C_FRAME_OFF, LAST_CALL, MOST_CALLS};
use rt_layout::registers::{A2, A3, AUX, CSP, CUR, DOM, FIBER, LINK, LINK3, RA, T0};
use rt_layout::{assembly, put, put_enter, put_load, put_save};
use rv_model::Line;
use std::alloc::{AllocError, Global};

// Puts a C frame. Linked by x5.
const ENTER_C_LINES: [Line; 4] = assembly![
    label ENTER_C;
    li T0, LAST_CALL;
    add T0, T0, DOM;
    bgeu CSP, T0, CALLS_FULL;
];

const ENTER_C_END_LINES: [Line; 3] = assembly![
    addi CSP, CSP, C_FRAME;
    sd FIBER, C_FIBER, CSP;
    jr LINK, 0;
];

fn put_enter_c(lines: &mut Vec<Line>) -> Result<(), AllocError>
    ensures more { OnOk result (lines.new.items ≡ lines.old.items ++ enter_c_lines []) }
{
    put(lines, &ENTER_C_LINES)?;
    put_save(lines)?;
    put(lines, &ENTER_C_END_LINES)?;
    Ok(())
}

// The run ends: there are 255 C frames.
const CALLS_FULL_LINES: [Line; 6] = assembly![
    label CALLS_FULL;
    li A2, END_CALLS_FULL;
    li A3, MOST_CALLS;
    li CUR, 0;
    li AUX, 0;
    jump STOP_RUN;
];

// Drops the top C frame; x10 stays, x1 is where the C call returns to. Linked by x5.
const LEAVE_C_LINES: [Line; 3] = assembly![
    label LEAVE_C;
    ld FIBER, C_FIBER, CSP;
    addi CSP, CSP, C_FRAME_OFF;
];

fn put_leave_c(lines: &mut Vec<Line>) -> Result<(), AllocError>
    ensures more { OnOk result (lines.new.items ≡ lines.old.items ++ leave_c_lines []) }
{
    put(lines, &LEAVE_C_LINES)?;
    put_load(lines)?;
    put(lines, &assembly![jr LINK, 0;])?;
    Ok(())
}

// Makes a fresh fiber with the foot x6 the running one; x10 and x11 stay. Linked by x1.
const CALLBACK_LINES: [Line; 4] = assembly![
    label CALLBACK;
    li A2, 0;
    li CUR, 0;
    call LINK3, NEW_FIBER;
];

fn put_callback(lines: &mut Vec<Line>) -> Result<(), AllocError>
    ensures more { OnOk result (lines.new.items ≡ lines.old.items ++ callback_lines []) }
{
    put(lines, &CALLBACK_LINES)?;
    put_enter(lines)?;
    put(lines, &assembly![jr RA, 0;])?;
    Ok(())
}

// All routines.
fn put_c_callbacks(lines: &mut Vec<Line>) -> Result<(), AllocError>
    ensures more { OnOk result (lines.new.items ≡ lines.old.items ++ c_callbacks_lines []) }
{
    put_enter_c(lines)?;
    put(lines, &CALLS_FULL_LINES)?;
    put_leave_c(lines)?;
    put_callback(lines)?;
    Ok(())
}

/// The routines of calls of C.
///
/// Refused only for want of memory.
pub fn lines(alloc: Global) -> Result<Vec<Line>, Refusal>
    ensures lines { IfOk result (λ lines. lines.items ≡ c_callbacks_lines []) }
    ensures refused { IfErr result (λ refusal. refusal ≡ Refusal.Memory) }
{
    let mut lines = Vec::new(alloc);
    put_c_callbacks(&mut lines)?;
    Ok(lines)
}
