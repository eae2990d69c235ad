//! From a typed program to an image.

ghost use Rattle.std.specs.Prelude.{◌≡◌, IfOk, IfErr};
ghost use Rattle.image_build.specs.Building.{IsBuildRefusal};

use crate::checked::are_start_words;
use crate::regions::{Regions, statics_at};
use crate::runtime::all_lines;
use crate::start_words::start_words;
use crate::static_words::static_words;
use closure_convert::convert;
use fx_base::{Refusal, Settings};
use low_terms::LowProgram;
use match_lower::lower;
use places::place;
use prelude_tree::prelude_program;
use rv_asm::{are_lines, assemble};
use rv_model::{Code, Image, Items, Line, StartWord};
use std::alloc::{AllocError, Global};
use type_terms::Typed;

// The items of the prelude, which come first.
fn prelude_items(alloc: Global) -> Result<usize, AllocError> {
    Ok(prelude_program(alloc)?.items.len())
}

// The program with registers and stores chosen.
fn low_of(alloc: Global, typed: &Typed) -> Result<LowProgram, Refusal>
    ensures refused { IfErr result IsBuildRefusal }
{
    let core1 = lower(alloc, typed)?;
    let flat = convert(alloc, &core1, prelude_items(alloc)?)?;
    let low = place(alloc, flat)?;
    Ok(low)
}

// The code of lines. The test is never failed.
fn code_of(alloc: Global, lines: &[Line]) -> Result<Code, Refusal>
    ensures refused { IfErr result IsBuildRefusal }
{
    if !are_lines(alloc, lines)? {
        return Err(Refusal::Memory);
    }
    let assembled = assemble(alloc, lines)?;
    Ok(assembled.code)
}

// An image of these parts. The test is never failed.
fn image_of(
    settings: &Settings,
    code: Code,
    start: Vec<StartWord>,
    size: u64,
) -> Result<Image, Refusal>
    ensures settings { IfOk result (λ image. image.settings ≡ settings.now) }
    ensures refused { IfErr result IsBuildRefusal }
{
    if !are_start_words(&start, size) {
        return Err(Refusal::Memory);
    }
    Ok(Image {
        settings: *settings,
        code,
        start: Items::from_vec(start),
        size,
    })
}

/// The image of a program.
///
/// Refused where a function has more than 255 slots or free names, where the code has more than 262,144
/// instructions, and for want of memory.
pub fn build(alloc: Global, typed: &Typed, settings: &Settings) -> Result<Image, Refusal>
    ensures settings { IfOk result (λ image. image.settings ≡ settings.now) }
    ensures refused { IfErr result IsBuildRefusal }
{
    let low = low_of(alloc, typed)?;
    let statics = static_words(alloc, &low, typed.core().arena(), statics_at(settings))?;
    let regions = Regions::new(settings, statics.len(), low.scratch)?;
    let lines = all_lines(alloc, &low, settings, &regions)?;
    let code = code_of(alloc, &lines)?;
    let start = start_words(alloc, settings, &regions, &statics)?;
    image_of(settings, code, start, regions.words)
}
