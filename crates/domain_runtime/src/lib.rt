//! Domains: a hart waits for one, runs it in a fiber of its own, and gives its result.
//!
//! A slot is taken by a compare-and-swap on the mask of slots and given back by one AMOAND on it; the new
//! domain's block goes into the slot's mailbox, for which the slot's hart waits.
//!
//! Promised: the lines are exactly those of the definition, and a refusal is want of memory.
//!
//! Stands on: `fx_base`, `rv_model`, `rt_layout`.
#![tactic(auto)]

ghost use Rattle.std.specs.Prelude.{◌≡◌, ◌++◌, [], OnOk, IfOk, IfErr};
ghost use Rattle.domain_runtime.specs.Routines.{idle_lines, spawn_block_lines, spawn_full_lines, domain_runtime_lines};

#[cfg(test)]
mod tests;

use fx_base::Refusal;
use rt_layout::blocks::{D_CLOSURE, D_RESULT, D_STATE, TAG_PLAIN, UNIT};
use rt_layout::fixed::{END_EXITED, HARTS, MASK};
use rt_layout::labels::{
    FINISH, FINISH_MAIN, FREE_FIBER, IDLE, JOIN, RAISE, ROOT_EXN, ROOT_VALUE, SPAWN, SPAWN_BLOCK,
    SPAWN_FULL, SPAWN_SLOT, STOP_RUN, UNCAUGHT,
};
use rt_layout::parts::{M_BLOCK, M_MAILBOX, M_NOT_BIT, MINUS_ONE};
use rt_layout::registers::{
    A0, A1, A2, A3, AUX, CALL, CUR, DOM, FIRST, LINK2, NEW, PART, RA, T0, T1, T3, ZERO,
};
use rt_layout::statics::{EXN_FAILURE, S_SPAWN};
use rt_layout::{
    assembly, header, put, put_apply_closure, put_new_block, put_raise_text, put_root_fiber,
};
use rv_model::Line;
use std::alloc::{AllocError, Global};

// A hart without a domain waits for one.
const IDLE_LINES: [Line; 7] = assembly![
    label IDLE;
    addi A0, DOM, M_MAILBOX;
    ld A1, M_BLOCK, DOM;
    li CALL, 1;
    // Until the mailbox has another block than the last.
    ecall;
    sd A0, M_BLOCK, DOM;
    ld A1, D_CLOSURE, A0;
];

const IDLE_END_LINES: [Line; 2] = assembly![
    li A0, UNIT;
    code RA, ROOT_VALUE;
];

fn put_idle(lines: &mut Vec<Line>) -> Result<(), AllocError>
    ensures more { OnOk result (lines.new.items ≡ lines.old.items ++ idle_lines []) }
{
    put(lines, &IDLE_LINES)?;
    put_root_fiber(lines)?;
    put(lines, &IDLE_END_LINES)?;
    // Step: the domain's first step: its function is applied.
    put_apply_closure(lines)?;
    Ok(())
}

// The foot of a domain's first fiber for the value x10.
const ROOT_VALUE_LINES: [Line; 3] = assembly![
    label ROOT_VALUE;
    li A2, 1;
    jump FINISH;
];

// The same for the exception x10.
const ROOT_EXN_LINES: [Line; 2] = assembly![
    label ROOT_EXN;
    li A2, 2;
];

// The domain ends with x10: x12 is 1 for a value, 2 for an exception.
const FINISH_LINES: [Line; 10] = assembly![
    label FINISH;
    call LINK2, FREE_FIBER;
    ld A1, M_BLOCK, DOM;
    beq A1, ZERO, FINISH_MAIN;
    sd A0, D_RESULT, A1;
    ld T0, M_NOT_BIT, DOM;
    li T1, MASK;
    // Step: the domain finishes.
    amoand ZERO, T0, T1;
    // The word is shared.
    sd A2, D_STATE, A1;
    jump IDLE;
];

// It is the first domain: the run ends.
const FINISH_MAIN_LINES: [Line; 8] = assembly![
    label FINISH_MAIN;
    li T0, 1;
    bne A2, T0, UNCAUGHT;
    li A2, END_EXITED;
    li A3, 0;
    li CUR, 0;
    li AUX, 0;
    jump STOP_RUN;
];

// Runs the closure x10 in a new domain: x10 is its block.
const SPAWN_LINES: [Line; 23] = assembly![
    label SPAWN;
    // Step: spawn, where all slots are taken: the exception is owed.
    // The word is shared.
    ld A1, MASK, ZERO;
    xori T0, A1, -1;
    sub T1, ZERO, T0;
    // The lowest free bit.
    and T0, T0, T1;
    ld T1, HARTS, ZERO;
    li T3, MINUS_ONE;
    sub T1, ZERO, T1;
    // A bit for each hart.
    srl T3, T3, T1;
    and T0, T0, T3;
    beq T0, ZERO, SPAWN_FULL;
    or T1, A1, T0;
    li T3, MASK;
    mv A2, A1;
    // Step: spawn, where it succeeds: the new domain lives, its block is owed.
    amocas A2, T1, T3;
    bne A2, A1, SPAWN;
    // The domain register of the slot.
    mv A2, FIRST;
    srli T0, T0, 1;
    beq T0, ZERO, SPAWN_BLOCK;
    label SPAWN_SLOT;
    add A2, A2, PART;
    srli T0, T0, 1;
    bne T0, ZERO, SPAWN_SLOT;
];

// x12 is the domain register of the slot.
const SPAWN_BLOCK_LINES: [Line; 4] = assembly![
    sd A0, D_CLOSURE, NEW;
    // The word is shared.
    sd NEW, M_MAILBOX, A2;
    mv A0, NEW;
    jr RA, 0;
];

fn put_spawn_block(lines: &mut Vec<Line>) -> Result<(), AllocError>
    ensures more { OnOk result (lines.new.items ≡ lines.old.items ++ spawn_block_lines []) }
{
    put(lines, &assembly![label SPAWN_BLOCK;])?;
    put_new_block(lines, NEW, 4, header!(3, TAG_PLAIN))?;
    put(lines, &SPAWN_BLOCK_LINES)?;
    Ok(())
}

// No slot is free.
fn put_spawn_full(lines: &mut Vec<Line>) -> Result<(), AllocError>
    ensures more { OnOk result (lines.new.items ≡ lines.old.items ++ spawn_full_lines []) }
{
    put(lines, &assembly![label SPAWN_FULL;])?;
    put_raise_text(lines, EXN_FAILURE, S_SPAWN)?;
    Ok(())
}

// Waits for the domain x10: x10 is its value, or its exception is raised.
const JOIN_LINES: [Line; 10] = assembly![
    label JOIN;
    mv A2, A0;
    li A1, 0;
    li CALL, 1;
    // Step: join.
    // Until its state isn't 0.
    ecall;
    mv A1, A0;
    ld A0, D_RESULT, A2;
    li T0, 1;
    bne A1, T0, RAISE;
    jr RA, 0;
];

// All routines.
fn put_domain_runtime(lines: &mut Vec<Line>) -> Result<(), AllocError>
    ensures more { OnOk result (lines.new.items ≡ lines.old.items ++ domain_runtime_lines []) }
{
    put_idle(lines)?;
    put(lines, &ROOT_VALUE_LINES)?;
    put(lines, &ROOT_EXN_LINES)?;
    put(lines, &FINISH_LINES)?;
    put(lines, &FINISH_MAIN_LINES)?;
    put(lines, &SPAWN_LINES)?;
    put_spawn_block(lines)?;
    put_spawn_full(lines)?;
    put(lines, &JOIN_LINES)?;
    Ok(())
}

/// The routines of domains.
///
/// Refused only for want of memory.
pub fn lines(alloc: Global) -> Result<Vec<Line>, Refusal>
    ensures lines { IfOk result (λ lines. lines.items ≡ domain_runtime_lines []) }
    ensures refused { IfErr result (λ refusal. refusal ≡ Refusal.Memory) }
{
    let mut lines = Vec::new(alloc);
    put_domain_runtime(&mut lines)?;
    Ok(lines)
}
