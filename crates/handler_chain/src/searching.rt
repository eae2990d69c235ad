//! The search for a handler, and what a clause that matches makes of the fibers.

ghost use Rattle.std.specs.Prelude.{◌≡◌, ◌++◌, [], OnOk};
ghost use Rattle.handler_chain.specs.Searching.{capture_lines, searching_lines};

use rt_layout::blocks::{H_TEST, UNIT};
use rt_layout::labels::{
    CAPTURE_DEEP, CAPTURE_SHALLOW, MAKE_CONT, PERFORM, PERFORM_AT, RAISE_NEW, REPERFORM, UNHANDLED,
};
use rt_layout::registers::{A1, A3, AUX, CUR, FIBER, LINK2, LINK3, T0, ZERO};
use rt_layout::stacks::{F_HANDLER, F_PARENT};
use rt_layout::statics::EXN_UNHANDLED;
use rt_layout::{assembly, put, put_load, put_save};
use rv_model::Line;
use std::alloc::AllocError;

// A shallow handler doesn't stay with the continuation.
const DROP_HANDLER_LINES: [Line; 1] = assembly![
    sd ZERO, F_HANDLER, A3;
];

// The fibers from the running one to x13 become a continuation: x12. The fiber below runs, and the
// clause's body is next, whose address is in x22. `dropping` are the lines that a shallow handler
// has besides.
fn put_capture(lines: &mut Vec<Line>, start: u32, dropping: &[Line]) -> Result<(), AllocError>
    ensures more { OnOk result (lines.new.items ≡ lines.old.items ++ capture_lines start dropping.now []) }
{
    put(
        lines,
        &assembly![
            label start;
            mv CUR, FIBER;
            call LINK2, MAKE_CONT;
        ],
    )?;
    put_save(lines)?;
    put(lines, &assembly![ld FIBER, F_PARENT, A3;])?;
    put(lines, dropping)?;
    put_load(lines)?;
    // Step: the match: the segments become a continuation; the clause's body is next.
    put(lines, &assembly![jr LINK3, 0;])?;
    Ok(())
}

// Performs the effect with the constructor's word x10 and the argument x12.
const PERFORM_LINES: [Line; 7] = assembly![
    label PERFORM;
    // Step: perform: the search begins at the innermost segment.
    mv A3, FIBER;
    label PERFORM_AT;
    ld A1, F_HANDLER, A3;
    beq A1, ZERO, UNHANDLED;
    ld T0, H_TEST, A1;
    jr T0, 0;
];

// The handler of the fiber x13 has no clause: goes on with the next fiber.
const REPERFORM_LINES: [Line; 3] = assembly![
    label REPERFORM;
    // Step: the search passes one segment outward.
    ld A3, F_PARENT, A3;
    jump PERFORM_AT;
];

// No handler has a clause: raises `Effect.Unhandled`.
const UNHANDLED_LINES: [Line; 4] = assembly![
    label UNHANDLED;
    // In place of the effect: nothing can look at it.
    li AUX, UNIT;
    li CUR, 2 * EXN_UNHANDLED + 1;
    jump RAISE_NEW;
];

/// Writes the search for a handler.
pub fn put_searching(lines: &mut Vec<Line>) -> Result<(), AllocError>
    ensures more { OnOk result (lines.new.items ≡ lines.old.items ++ searching_lines []) }
{
    put(lines, &PERFORM_LINES)?;
    put(lines, &REPERFORM_LINES)?;
    put(lines, &UNHANDLED_LINES)?;
    put_capture(lines, CAPTURE_DEEP, &[])?;
    put_capture(lines, CAPTURE_SHALLOW, &DROP_HANDLER_LINES)?;
    Ok(())
}
