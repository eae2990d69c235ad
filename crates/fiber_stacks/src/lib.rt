//! Stacks of fibers: taken from a domain's lists of free ones or from the heap, put back, and made larger.
//!
//! A stack is named by its high end. Its class and its limit are set once, when it is made. Nothing in
//! memory points into the running fiber's stack, so it grows by a copy of its words and a change of three
//! registers.
//!
//! Promised: the lines are exactly those of the definition, and a refusal is want of memory.
//!
//! Stands on: `fx_base`, `rv_model`, `rt_layout`.
#![tactic(auto)]

ghost use Rattle.std.specs.Prelude.{◌≡◌, ◌++◌, [], OnOk, IfOk, IfErr};
ghost use Rattle.fiber_stacks.specs.Routines.{fiber_stacks_lines};

#[cfg(test)]
mod tests;

use fx_base::Refusal;
use rt_layout::fixed::END_STACK_FULL;
use rt_layout::labels::{
    ALLOC_LARGE, FIBER_FRESH, FIBER_MADE, FREE_FIBER, GROW, GROW_COPY, GROW_NEXT, NEW_FIBER,
    STACK_FULL, STOP_RUN, TAKE_FRESH, TAKE_SIZE, TAKE_STACK,
};
use rt_layout::parts::M_POOL;
use rt_layout::registers::{
    A2, A3, AUX, CUR, DOM, FIBER, LIMIT, LINK, LINK2, LINK3, NEW, SP, STACK, T0, T1, T3, T4, ZERO,
};
use rt_layout::stacks::{
    F_BASE, F_CLASS, F_HANDLER, F_LIMIT, F_PARENT, FIRST_STACK, FRAME_LOW, TO_LIMIT, TO_LOW_END,
};
use rt_layout::{assembly, put};
use rv_model::Line;
use std::alloc::{AllocError, Global};

// Makes a fiber with the handler x12, the parent x14 and the foot x6: x30. Linked by x22.
const NEW_FIBER_LINES: [Line; 14] = assembly![
    label NEW_FIBER;
    ld NEW, M_POOL, DOM;
    beq NEW, ZERO, FIBER_FRESH;
    ld T1, F_PARENT, NEW;
    sd T1, M_POOL, DOM;
    label FIBER_MADE;
    sd CUR, F_PARENT, NEW;
    sd A2, F_HANDLER, NEW;
    sd T0, F_BASE, NEW;
    jr LINK3, 0;
    label FIBER_FRESH;
    li T4, 0;
    call LINK2, TAKE_FRESH;
    jump FIBER_MADE;
];

// Takes a stack of class x29: its high end is x30. Linked by x31.
const TAKE_STACK_LINES: [Line; 8] = assembly![
    label TAKE_STACK;
    slli T3, T4, 3;
    add T3, T3, DOM;
    ld NEW, M_POOL, T3;
    beq NEW, ZERO, TAKE_FRESH;
    ld T1, F_PARENT, NEW;
    sd T1, M_POOL, T3;
    jr LINK2, 0;
];

// The same from the heap.
const TAKE_FRESH_LINES: [Line; 15] = assembly![
    label TAKE_FRESH;
    li T1, FIRST_STACK;
    sll T1, T1, T4;
    bgeu STACK, T1, TAKE_SIZE;
    mv T1, STACK;
    label TAKE_SIZE;
    // x30 is 8 past the stack's low end.
    call LINK, ALLOC_LARGE;
    slli T3, T1, 3;
    addi T3, T3, -8;
    // The high end.
    add T3, T3, NEW;
    // The least that `SP` may be.
    addi NEW, NEW, TO_LIMIT;
    sd NEW, F_LIMIT, T3;
    sd T4, F_CLASS, T3;
    mv NEW, T3;
    jr LINK2, 0;
];

// Puts the stack of the running fiber back. Linked by x31.
const FREE_FIBER_LINES: [Line; 8] = assembly![
    label FREE_FIBER;
    ld T3, F_CLASS, FIBER;
    slli T3, T3, 3;
    add T3, T3, DOM;
    ld T1, M_POOL, T3;
    sd T1, F_PARENT, FIBER;
    sd FIBER, M_POOL, T3;
    jr LINK2, 0;
];

// Moves the running fiber to a stack with room for x2, which is below the limit. Linked by x22.
const GROW_LINES: [Line; 15] = assembly![
    label GROW;
    sub T1, FIBER, SP;
    addi T1, T1, FRAME_LOW;
    // The need in words.
    srli T1, T1, 3;
    bltu STACK, T1, STACK_FULL;
    ld T4, F_CLASS, FIBER;
    label GROW_NEXT;
    addi T4, T4, 1;
    li T3, FIRST_STACK;
    sll T3, T3, T4;
    bltu T3, T1, GROW_NEXT;
    call LINK2, TAKE_STACK;
    // The old stack's low end.
    addi T1, LIMIT, TO_LOW_END;
    // One past the highest word to copy.
    addi T3, FIBER, F_LIMIT;
    addi LINK, NEW, F_LIMIT;
];

// Copies a word.
const GROW_COPY_LINES: [Line; 12] = assembly![
    label GROW_COPY;
    addi T3, T3, -8;
    addi LINK, LINK, -8;
    ld T0, 0, T3;
    sd T0, 0, LINK;
    bltu T1, T3, GROW_COPY;
    call LINK2, FREE_FIBER;
    sub T1, FIBER, SP;
    sub SP, NEW, T1;
    mv FIBER, NEW;
    ld LIMIT, F_LIMIT, FIBER;
    jr LINK3, 0;
];

// The run ends: x7 words are needed.
const STACK_FULL_LINES: [Line; 6] = assembly![
    label STACK_FULL;
    li A2, END_STACK_FULL;
    mv A3, T1;
    mv CUR, STACK;
    li AUX, 0;
    jump STOP_RUN;
];

// All routines.
fn put_fiber_stacks(lines: &mut Vec<Line>) -> Result<(), AllocError>
    ensures more { OnOk result (lines.new.items ≡ lines.old.items ++ fiber_stacks_lines []) }
{
    put(lines, &NEW_FIBER_LINES)?;
    put(lines, &TAKE_STACK_LINES)?;
    put(lines, &TAKE_FRESH_LINES)?;
    put(lines, &FREE_FIBER_LINES)?;
    put(lines, &GROW_LINES)?;
    put(lines, &GROW_COPY_LINES)?;
    put(lines, &STACK_FULL_LINES)?;
    Ok(())
}

/// The routines of stacks.
///
/// Refused only for want of memory.
pub fn lines(alloc: Global) -> Result<Vec<Line>, Refusal>
    ensures lines { IfOk result (λ lines. lines.items ≡ fiber_stacks_lines []) }
    ensures refused { IfErr result (λ refusal. refusal ≡ Refusal.Memory) }
{
    let mut lines = Vec::new(alloc);
    put_fiber_stacks(&mut lines)?;
    Ok(lines)
}
