//! The log and the end of a run: bytes are put under the lock, and then the cursor moves.
//!
//! What is printed is seen by the cursor's one store, behind which stand all its bytes. The end keeps the
//! lock, so nothing is printed after it.
//!
//! Promised: the lines are exactly those of the definition, and a refusal is want of memory.
//!
//! Stands on: `fx_base`, `rv_model`, `rt_layout`.
#![tactic(auto)]

ghost use Rattle.std.specs.Prelude.{◌≡◌, ◌++◌, [], OnOk, IfOk, IfErr};
ghost use Rattle.out_log.specs.Routines.{take_lock_lines, print_bytes_lines, stop_run_lines, out_log_lines};

#[cfg(test)]
mod tests;

use fx_base::Refusal;
use rt_layout::blocks::UNIT;
use rt_layout::fixed::{
    CURSOR, DETAIL, END, END_LOG_FULL, LOCK, LOG, LOG_SIZE, SECOND_DETAIL, THIRD_DETAIL,
};
use rt_layout::labels::{
    LOG_FULL, PRINT_BYTES, PRINT_LOCK, PRINT_LOCK_HAS, PRINT_MOVE, PUT_BYTE, PUT_BYTES, PUT_DONE,
    PUT_NEXT, STOP_LOCK, STOP_LOCK_HAS, STOP_RUN,
};
use rt_layout::registers::{A0, A1, A2, A3, AUX, CALL, CUR, DST, LINK, RA, T0, T1, T3, T4, ZERO};
use rt_layout::{assembly, put};
use rv_model::Line;
use std::alloc::{AllocError, Global};

// Tries to take the log's lock, whose label is `again`, and goes on where this hart has it, at
// `has`; waits where another hart has it. It uses x6, x7, x10, x11 and x17.
fn put_take_lock(lines: &mut Vec<Line>, again: u32, has: u32) -> Result<(), AllocError>
    ensures more { OnOk result (lines.new.items ≡ lines.old.items ++ take_lock_lines again has []) }
{
    put(
        lines,
        &assembly![
            label again;
            li T0, LOCK;
            li T1, 1;
            amoswap T1, T1, T0;
            beq T1, ZERO, has;
            li A0, LOCK;
            li A1, 1;
            li CALL, 1;
            ecall;
            jump again;
            label has;
        ],
    )
}

// Puts the byte x6 at x16. Linked by x5.
const PUT_BYTE_LINES: [Line; 9] = assembly![
    label PUT_BYTE;
    slli T1, DST, 3;
    // Shifts use the low six bits.
    sll T0, T0, T1;
    andi T1, DST, -8;
    ld T3, 0, T1;
    or T3, T3, T0;
    sd T3, 0, T1;
    addi DST, DST, 1;
    jr LINK, 0;
];

// Puts x14 bytes at x13 to x16. Linked by x5.
const PUT_BYTES_LINES: [Line; 16] = assembly![
    label PUT_BYTES;
    beq CUR, ZERO, PUT_DONE;
    label PUT_NEXT;
    lbu T0, 0, A3;
    slli T1, DST, 3;
    sll T0, T0, T1;
    andi T1, DST, -8;
    ld T3, 0, T1;
    or T3, T3, T0;
    sd T3, 0, T1;
    addi DST, DST, 1;
    addi A3, A3, 1;
    addi CUR, CUR, -1;
    bne CUR, ZERO, PUT_NEXT;
    label PUT_DONE;
    jr LINK, 0;
];

// Prints x14 bytes at x13, and x12 newlines (0 or 1).
const PRINT_BYTES_LINES: [Line; 16] = assembly![
    ld AUX, CURSOR, ZERO;
    add CUR, CUR, A2;
    ld T0, LOG_SIZE, ZERO;
    // The new cursor.
    add T4, AUX, CUR;
    bltu T0, T4, LOG_FULL;
    sub CUR, CUR, A2;
    addi DST, AUX, LOG;
    call LINK, PUT_BYTES;
    beq A2, ZERO, PRINT_MOVE;
    li T0, 10;
    call LINK, PUT_BYTE;
    label PRINT_MOVE;
    // Step: the print.
    sd T4, CURSOR, ZERO;
    // The word is shared.
    sd ZERO, LOCK, ZERO;
    li A0, UNIT;
    jr RA, 0;
];

fn put_print_bytes(lines: &mut Vec<Line>) -> Result<(), AllocError>
    ensures more { OnOk result (lines.new.items ≡ lines.old.items ++ print_bytes_lines []) }
{
    put(lines, &assembly![label PRINT_BYTES;])?;
    put_take_lock(lines, PRINT_LOCK, PRINT_LOCK_HAS)?;
    put(lines, &PRINT_BYTES_LINES)?;
    Ok(())
}

// The log has no room for them.
const LOG_FULL_LINES: [Line; 5] = assembly![
    label LOG_FULL;
    li A2, END_LOG_FULL;
    mv A3, AUX;
    mv AUX, T0;
    jump STOP_LOCK_HAS;
];

// Ends the run: x12 is the end, x13, x14 and x15 are its details.
const STOP_RUN_LINES: [Line; 6] = assembly![
    sd A3, DETAIL, ZERO;
    sd CUR, SECOND_DETAIL, ZERO;
    sd AUX, THIRD_DETAIL, ZERO;
    li CALL, 0;
    // Step: the step that ends the run, if it is one; else an early end.
    sd A2, END, ZERO;
    ecall;
];

fn put_stop_run(lines: &mut Vec<Line>) -> Result<(), AllocError>
    ensures more { OnOk result (lines.new.items ≡ lines.old.items ++ stop_run_lines []) }
{
    put(lines, &assembly![label STOP_RUN;])?;
    put_take_lock(lines, STOP_LOCK, STOP_LOCK_HAS)?;
    put(lines, &STOP_RUN_LINES)?;
    Ok(())
}

// All routines.
fn put_out_log(lines: &mut Vec<Line>) -> Result<(), AllocError>
    ensures more { OnOk result (lines.new.items ≡ lines.old.items ++ out_log_lines []) }
{
    put(lines, &PUT_BYTE_LINES)?;
    put(lines, &PUT_BYTES_LINES)?;
    put_print_bytes(lines)?;
    put(lines, &LOG_FULL_LINES)?;
    put_stop_run(lines)?;
    Ok(())
}

/// The routines of the log.
///
/// Refused only for want of memory.
pub fn lines(alloc: Global) -> Result<Vec<Line>, Refusal>
    ensures lines { IfOk result (λ lines. lines.items ≡ out_log_lines []) }
    ensures refused { IfErr result (λ refusal. refusal ≡ Refusal.Memory) }
{
    let mut lines = Vec::new(alloc);
    put_out_log(&mut lines)?;
    Ok(lines)
}
