//! Fibers that wait for an argument.

ghost use Rattle.std.specs.Prelude.{◌≡◌, ◌++◌, [], OnOk};
ghost use Rattle.handler_chain.specs.Waiting.{fiber_start_lines, waiting_lines};

use rt_layout::labels::{
    FIBER_START, HANDLER_EXN, MAKE_CONT, NEW_FIBER, RETURN_TO_PARENT, WAITING_FIBER,
};
use rt_layout::registers::{A0, A1, A2, A3, CUR, LINK2, LINK3, NEW, RA, SP, T0};
use rt_layout::stacks::{
    BASE_EXN, F_EXN, F_RA, F_SP, FRAME_OF_ONE_SLOT, FRAME_SLOT, SP_OF_ONE_SLOT,
};
use rt_layout::{assembly, put, put_apply_closure};
use rv_model::Line;
use std::alloc::AllocError;

// Makes a continuation that waits for the argument of the function x10.
const FIBER_LINES: [Line; 17] = assembly![
    label WAITING_FIBER;
    li A2, 0;
    li CUR, 0;
    code T0, HANDLER_EXN;
    call LINK3, NEW_FIBER;
    // A frame of one slot.
    addi T0, NEW, SP_OF_ONE_SLOT;
    sd A0, FRAME_SLOT, T0;
    sd T0, F_SP, NEW;
    code T0, FIBER_START;
    sd T0, F_RA, NEW;
    li T0, BASE_EXN;
    sd T0, F_EXN, NEW;
    mv CUR, NEW;
    mv A3, NEW;
    call LINK2, MAKE_CONT;
    // Step: fiber: a full continuation of one segment.
    mv A0, A2;
    jr RA, 0;
];

// The code of its first frame: x10 is the argument.
const FIBER_START_LINES: [Line; 4] = assembly![
    label FIBER_START;
    ld A1, FRAME_SLOT, SP;
    addi SP, SP, FRAME_OF_ONE_SLOT;
    code RA, RETURN_TO_PARENT;
];

fn put_fiber_start(lines: &mut Vec<Line>) -> Result<(), AllocError>
    ensures more { OnOk result (lines.new.items ≡ lines.old.items ++ fiber_start_lines []) }
{
    put(lines, &FIBER_START_LINES)?;
    // Step: the waiting application: f is applied to the value.
    put_apply_closure(lines)?;
    Ok(())
}

/// Writes the routines of fibers that wait for an argument.
pub fn put_waiting(lines: &mut Vec<Line>) -> Result<(), AllocError>
    ensures more { OnOk result (lines.new.items ≡ lines.old.items ++ waiting_lines []) }
{
    put(lines, &FIBER_LINES)?;
    put_fiber_start(lines)?;
    Ok(())
}
