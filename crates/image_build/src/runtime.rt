//! All lines of an image.

ghost use Rattle.std.specs.Prelude.{◌≡◌, IfErr};

use crate::regions::Regions;
use crate::start::put_start;
use fx_base::{Refusal, Settings};
use low_terms::LowProgram;
use rt_layout::registers::ZERO;
use rt_layout::{assembly, put};
use rv_model::Line;
use rv_select::select;
use std::alloc::{AllocError, Global};

// Puts lines behind those that are there.
fn append(lines: &mut Vec<Line>, more: Vec<Line>) -> Result<(), AllocError> {
    lines.extend_from_slice(more.as_slice())
}

// The routines that compiled code calls, in the order in which they stand.
fn append_runtime(alloc: Global, lines: &mut Vec<Line>) -> Result<(), Refusal>
    ensures refused { IfErr result (λ refusal. refusal ≡ Refusal.Memory) }
{
    append(lines, rt_layout::lines(alloc)?)?;
    append(lines, exception_frames::lines(alloc)?)?;
    append(lines, fiber_stacks::lines(alloc)?)?;
    append(lines, continuation_words::lines(alloc)?)?;
    append(lines, handler_chain::lines(alloc)?)?;
    append(lines, c_callbacks::lines(alloc)?)?;
    append(lines, c_prims::lines(alloc)?)?;
    append(lines, out_log::lines(alloc)?)?;
    append(lines, domain_runtime::lines(alloc)?)?;
    append(lines, fiber_stealing::lines(alloc)?)?;
    Ok(())
}

// A label names an instruction, so one stands behind a last label. It is never reached.
fn close(lines: &mut Vec<Line>) -> Result<(), AllocError> {
    if let Some(Line::Label(_)) = lines.last() {
        put(lines, &assembly![mv ZERO, ZERO;])?;
    }
    Ok(())
}

/// The code at the start, the routines, and the compiled program.
pub fn all_lines(
    alloc: Global,
    low: &LowProgram,
    settings: &Settings,
    regions: &Regions,
) -> Result<Vec<Line>, Refusal>
    ensures refused { IfErr result (λ refusal. refusal ≡ Refusal.Memory) }
{
    let mut lines = Vec::new(alloc);
    put_start(&mut lines, settings, regions)?;
    append_runtime(alloc, &mut lines)?;
    append(&mut lines, select(alloc, low)?)?;
    close(&mut lines)?;
    Ok(lines)
}
