//! How continuations are resumed.

ghost use Rattle.std.specs.Prelude.{◌≡◌, ◌++◌, [], OnOk};
ghost use Rattle.handler_chain.specs.Resuming.{resume_lines, resuming_lines};

use rt_layout::blocks::K_OUTER;
use rt_layout::labels::{DISCONTINUE, DISCONTINUE_WITH, RAISE, RESUME, RESUME_WITH, TAKE_CONT};
use rt_layout::registers::{A0, A1, A2, A3, FIBER, LINK, RA, T0};
use rt_layout::stacks::{F_HANDLER, F_PARENT};
use rt_layout::{assembly, assembly_line, put, put_load, put_save};
use rv_model::Line;
use std::alloc::AllocError;

// The outermost fiber gets a new handler.
const NEW_HANDLER_LINES: [Line; 1] = assembly![
    sd A2, F_HANDLER, T0;
];

// Goes on with the value x10.
const GO_ON: Line = assembly_line!(jr RA, 0);

// Raises x10.
const RAISE_ON: Line = assembly_line!(jump RAISE);

// The continuation is taken: x13 is its innermost fiber, and x6 its outermost.
const RESUME_LINES: [Line; 2] = assembly![
    call LINK, TAKE_CONT;
    ld T0, K_OUTER, A0;
];

// Joins the two chains.
const JOIN_LINES: [Line; 2] = assembly![
    sd FIBER, F_PARENT, T0;
    mv FIBER, A3;
];

// Takes the continuation x10: its fibers are above the running one, and its innermost one runs,
// with x11 as the value or the exception. `handler` are the lines that give it a new handler, and
// `leave` is the last line.
fn put_resume(
    lines: &mut Vec<Line>,
    start: u32,
    handler: &[Line],
    leave: Line,
) -> Result<(), AllocError>
    ensures more { OnOk result (lines.new.items ≡ lines.old.items ++ resume_lines start handler.now leave []) }
{
    put(lines, &assembly![label start;])?;
    put(lines, &RESUME_LINES)?;
    put_save(lines)?;
    put(lines, handler)?;
    put(lines, &JOIN_LINES)?;
    put_load(lines)?;
    put(lines, &assembly![mv A0, A1;])?;
    put(lines, &[leave])?;
    Ok(())
}

/// Writes the routines that resume.
pub fn put_resuming(lines: &mut Vec<Line>) -> Result<(), AllocError>
    ensures more { OnOk result (lines.new.items ≡ lines.old.items ++ resuming_lines []) }
{
    put_resume(lines, RESUME, &[], GO_ON)?;
    put_resume(lines, DISCONTINUE, &[], RAISE_ON)?;
    put_resume(lines, RESUME_WITH, &NEW_HANDLER_LINES, GO_ON)?;
    put_resume(lines, DISCONTINUE_WITH, &NEW_HANDLER_LINES, RAISE_ON)?;
    Ok(())
}
