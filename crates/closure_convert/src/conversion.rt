//! From Core with tests to flat functions.

ghost use Rattle.std.specs.Prelude.{IfErr};
ghost use Rattle.closure_convert.specs.Refused.{IsConvertRefusal};

use crate::converter::Converter;
use core_shapes::{MOST, flat_terms, passed_limit};
use fx_base::Refusal;
use low_terms::{Core1, SlotProgram};
use std::alloc::{AllocError, Global};

// The functions of a program. Loops that don't fit into registers become functions, and the conversion
// begins anew.
fn functions_of(
    alloc: Global,
    core1: &Core1<'_>,
    prelude_items: usize,
) -> Result<SlotProgram, AllocError> {
    let mut refused = Vec::new(alloc);
    refused.resize(core1.arena.terms().len(), false)?;
    for _round in 0..u64::MAX {
        let flat = flat_terms(alloc, core1, &refused)?;
        let mut converter = Converter::new(alloc, core1, flat)?;
        converter.items(prelude_items)?;
        if !converter.refuse_loops(&mut refused)? {
            return converter.end();
        }
    }
    Err(AllocError)
}

/// The flat functions of a program whose first items, so many of them, are the prelude's: as many as
/// `prelude_tree::prelude_program` has.
///
/// # Errors
///
/// [`Refusal::Limit`] where a function, an effect clause or an item has more than 255 slots, or else
/// where one has more than 255 free names, for the first one in the text; and [`Refusal::Memory`].
pub fn convert(
    alloc: Global,
    core1: &Core1<'_>,
    prelude_items: usize,
) -> Result<SlotProgram, Refusal>
    ensures refused { IfErr result IsConvertRefusal }
{
    if let Some((kind, found)) = passed_limit(core1) {
        return Err(Refusal::Limit {
            kind,
            found,
            bound: MOST,
        });
    }
    let program = functions_of(alloc, core1, prelude_items)?;
    Ok(program)
}
