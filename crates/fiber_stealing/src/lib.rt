//! Queues of continuations, a queue a domain: its own domain pushes, and any domain takes.
//!
//! A queue is a word with two counters of 32 bits, the head in the low half, and 1,024 entries. Both
//! counters change by one compare-and-swap, so an entry is taken by one domain alone.
//!
//! Promised: the lines are exactly those of the definition, and a refusal is want of memory.
//!
//! Stands on: `fx_base`, `rv_model`, `rt_layout`.
#![tactic(auto)]

ghost use Rattle.std.specs.Prelude.{◌≡◌, ◌++◌, [], OnOk, IfOk, IfErr};
ghost use Rattle.fiber_stealing.specs.Routines.{entry_address_lines, push_lines, push_full_lines, take_from_lines, take_bad_lines, fiber_stealing_lines};

#[cfg(test)]
mod tests;

use fx_base::Refusal;
use rt_layout::blocks::{NONE, UNIT};
use rt_layout::fixed::HARTS;
use rt_layout::labels::{
    PUSH, PUSH_AGAIN, PUSH_FULL, SOME, TAKE_AGAIN, TAKE_BAD, TAKE_FROM, TAKE_NONE,
};
use rt_layout::parts::{DOM_OFFSET, M_QUEUE};
use rt_layout::registers::{A0, A1, A2, DOM, FIRST, PART, RA, T0, T1, T3, T4, ZERO};
use rt_layout::statics::{EXN_FIBERQ_FULL, EXN_INVALID_ARGUMENT, S_TAKE_FROM};
use rt_layout::{assembly, put, put_raise, put_raise_text};
use rv_model::Line;
use std::alloc::{AllocError, Global};

// x7 becomes 8 less than the address of the entry of a counter.
fn put_entry_address(lines: &mut Vec<Line>, counter: u8, queue: u8) -> Result<(), AllocError>
    ensures more { OnOk result (lines.new.items ≡ lines.old.items ++ entry_address_lines counter queue []) }
{
    put(
        lines,
        &assembly![
            andi T1, counter, 1023;
            slli T1, T1, 3;
            add T1, T1, queue;
        ],
    )
}

// Puts the continuation x10 into this domain's queue.
const PUSH_LINES: [Line; 8] = assembly![
    label PUSH;
    ld A1, M_QUEUE, DOM;
    label PUSH_AGAIN;
    // Step: push, where the queue is full: the exception is owed.
    // The word is shared.
    ld A2, 0, A1;
    // The tail.
    srli T0, A2, 32;
    // The number of entries.
    subw T3, T0, A2;
    li T4, 1024;
    beq T3, T4, PUSH_FULL;
];

const PUSH_ENTRY_LINES: [Line; 9] = assembly![
    // The word is shared.
    sd A0, 8, T1;
    li T3, 1;
    slli T3, T3, 32;
    add T3, T3, A2;
    mv T0, A2;
    // Step: push, where it succeeds.
    amocas T0, T3, A1;
    bne T0, A2, PUSH_AGAIN;
    li A0, UNIT;
    jr RA, 0;
];

fn put_push(lines: &mut Vec<Line>) -> Result<(), AllocError>
    ensures more { OnOk result (lines.new.items ≡ lines.old.items ++ push_lines []) }
{
    put(lines, &PUSH_LINES)?;
    put_entry_address(lines, T0, A1)?;
    put(lines, &PUSH_ENTRY_LINES)?;
    Ok(())
}

// The queue is full.
fn put_push_full(lines: &mut Vec<Line>) -> Result<(), AllocError>
    ensures more { OnOk result (lines.new.items ≡ lines.old.items ++ push_full_lines []) }
{
    put(lines, &assembly![label PUSH_FULL;])?;
    put_raise(lines, EXN_FIBERQ_FULL)?;
    Ok(())
}

// Takes a continuation from the queue of the domain in slot x10: `Some` of it, or `None`.
const TAKE_FROM_LINES: [Line; 13] = assembly![
    label TAKE_FROM;
    srai A0, A0, 1;
    ld T0, HARTS, ZERO;
    bgeu A0, T0, TAKE_BAD;
    mul A1, A0, PART;
    add A1, A1, FIRST;
    li T0, DOM_OFFSET;
    // The queue.
    sub A1, A1, T0;
    label TAKE_AGAIN;
    // Step: take_from, where the queue is empty.
    // The word is shared.
    ld A2, 0, A1;
    srli T0, A2, 32;
    subw T3, T0, A2;
    beq T3, ZERO, TAKE_NONE;
];

const TAKE_ENTRY_LINES: [Line; 6] = assembly![
    // The word is shared.
    ld A0, 8, T1;
    addi T3, A2, 1;
    mv T0, A2;
    // Step: take_from, where it succeeds: the block of Some is owed.
    amocas T0, T3, A1;
    bne T0, A2, TAKE_AGAIN;
    jump SOME;
];

fn put_take_from(lines: &mut Vec<Line>) -> Result<(), AllocError>
    ensures more { OnOk result (lines.new.items ≡ lines.old.items ++ take_from_lines []) }
{
    put(lines, &TAKE_FROM_LINES)?;
    put_entry_address(lines, A2, A1)?;
    put(lines, &TAKE_ENTRY_LINES)?;
    Ok(())
}

// The queue is empty.
const TAKE_NONE_LINES: [Line; 3] = assembly![
    label TAKE_NONE;
    li A0, NONE;
    jr RA, 0;
];

// There is no such slot.
fn put_take_bad(lines: &mut Vec<Line>) -> Result<(), AllocError>
    ensures more { OnOk result (lines.new.items ≡ lines.old.items ++ take_bad_lines []) }
{
    put(lines, &assembly![label TAKE_BAD;])?;
    put_raise_text(lines, EXN_INVALID_ARGUMENT, S_TAKE_FROM)?;
    Ok(())
}

// All routines.
fn put_fiber_stealing(lines: &mut Vec<Line>) -> Result<(), AllocError>
    ensures more { OnOk result (lines.new.items ≡ lines.old.items ++ fiber_stealing_lines []) }
{
    put_push(lines)?;
    put_push_full(lines)?;
    put_take_from(lines)?;
    put(lines, &TAKE_NONE_LINES)?;
    put_take_bad(lines)?;
    Ok(())
}

/// The routines of queues.
///
/// Refused only for want of memory.
pub fn lines(alloc: Global) -> Result<Vec<Line>, Refusal>
    ensures lines { IfOk result (λ lines. lines.items ≡ fiber_stealing_lines []) }
    ensures refused { IfErr result (λ refusal. refusal ≡ Refusal.Memory) }
{
    let mut lines = Vec::new(alloc);
    put_fiber_stealing(&mut lines)?;
    Ok(lines)
}
