//! Handlers: a fiber for each, the search for a clause, continuations made of fibers, and resumed.
//!
//! A handled computation runs in a fiber of its own, whose descriptor has the handler record and the fiber
//! below. A performed effect goes through the chain of fibers from the running one outward and asks each
//! handler's tests, which stand in compiled code; a clause that matches makes the fibers so far a
//! continuation. To resume is to put them above the running one again.
//!
//! Promised: the lines are exactly those of the definition, and a refusal is want of memory.
//!
//! Stands on: `fx_base`, `rv_model`, `rt_layout`.
#![tactic(auto)]

ghost use Rattle.std.specs.Prelude.{◌≡◌, ◌++◌, [], OnOk, IfOk, IfErr};
ghost use Rattle.handler_chain.specs.Routines.{handler_chain_lines};

mod handling;
mod resuming;
mod searching;
#[cfg(test)]
mod tests;
mod waiting;

use crate::handling::put_handling;
use crate::resuming::put_resuming;
use crate::searching::put_searching;
use crate::waiting::put_waiting;
use fx_base::Refusal;
use rv_model::Line;
use std::alloc::{AllocError, Global};

// All routines.
fn put_handler_chain(lines: &mut Vec<Line>) -> Result<(), AllocError>
    ensures more { OnOk result (lines.new.items ≡ lines.old.items ++ handler_chain_lines []) }
{
    put_handling(lines)?;
    put_searching(lines)?;
    put_resuming(lines)?;
    put_waiting(lines)?;
    Ok(())
}

/// The routines of handlers.
///
/// Refused only for want of memory.
pub fn lines(alloc: Global) -> Result<Vec<Line>, Refusal>
    ensures lines { IfOk result (λ lines. lines.items ≡ handler_chain_lines []) }
    ensures refused { IfErr result (λ refusal. refusal ≡ Refusal.Memory) }
{
    let mut lines = Vec::new(alloc);
    put_handler_chain(&mut lines)?;
    Ok(lines)
}
