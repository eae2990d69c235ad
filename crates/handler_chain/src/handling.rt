//! How a handled computation begins and ends.

ghost use Rattle.std.specs.Prelude.{◌≡◌, ◌++◌, [], OnOk};
ghost use Rattle.handler_chain.specs.Handling.{end_lines, handle_lines, handling_lines};

use rt_layout::blocks::{EXNC, H_TEST, RETC};
use rt_layout::labels::{FREE_FIBER, HANDLE, HANDLER_EXN, NEW_FIBER, RETURN_TO_PARENT};
use rt_layout::registers::{A1, A2, AUX, CUR, FIBER, LINK2, LINK3, RA, T0};
use rt_layout::stacks::{F_HANDLER, F_PARENT};
use rt_layout::{assembly, assembly_line, put, put_enter, put_load, put_save};
use rv_model::Line;
use std::alloc::AllocError;

// The handler's record and the fiber below are read, the fiber's stack is free, and the fiber below
// runs.
const END_LINES: [Line; 4] = assembly![
    ld A1, F_HANDLER, FIBER;
    ld A2, F_PARENT, FIBER;
    call LINK2, FREE_FIBER;
    mv FIBER, A2;
];

// The address of the handler's first test.
const END_TEST_LINES: [Line; 1] = assembly![
    ld T0, H_TEST, A1;
];

// Goes to the handler's code for a value; its first test is at x6.
const TO_RETC: Line = assembly_line!(jr T0, RETC);

// Goes to the handler's code for an exception; its first test is at x6.
const TO_EXNC: Line = assembly_line!(jr T0, EXNC);

// A fiber ends: x10 is its value or its exception, and `leave` goes to the handler's code for that.
fn put_end(lines: &mut Vec<Line>, foot: u32, leave: Line) -> Result<(), AllocError>
    ensures more { OnOk result (lines.new.items ≡ lines.old.items ++ end_lines foot leave []) }
{
    put(lines, &assembly![label foot;])?;
    put(lines, &END_LINES)?;
    put_load(lines)?;
    put(lines, &END_TEST_LINES)?;
    // Step: the segment ends; retc or exnc is applied in the rest.
    put(lines, &[leave])?;
    Ok(())
}

// Applies the code x15 to x10, with the closure or the record x11, in a new fiber under the handler
// record x12.
const HANDLE_LINES: [Line; 4] = assembly![
    label HANDLE;
    mv CUR, FIBER;
    code T0, HANDLER_EXN;
    call LINK3, NEW_FIBER;
];

const HANDLE_END_LINES: [Line; 2] = assembly![
    code RA, RETURN_TO_PARENT;
    // Step: the handle: a new segment with the handler as its foot; f is applied in it.
    jr AUX, 0;
];

fn put_handle(lines: &mut Vec<Line>) -> Result<(), AllocError>
    ensures more { OnOk result (lines.new.items ≡ lines.old.items ++ handle_lines []) }
{
    put(lines, &HANDLE_LINES)?;
    put_save(lines)?;
    put_enter(lines)?;
    put(lines, &HANDLE_END_LINES)?;
    Ok(())
}

/// Writes the routines by which a handled computation begins and ends.
pub fn put_handling(lines: &mut Vec<Line>) -> Result<(), AllocError>
    ensures more { OnOk result (lines.new.items ≡ lines.old.items ++ handling_lines []) }
{
    put_handle(lines)?;
    put_end(lines, RETURN_TO_PARENT, TO_RETC)?;
    put_end(lines, HANDLER_EXN, TO_EXNC)?;
    Ok(())
}
