//! From typed Core to tests.

ghost use Rattle.std.specs.Prelude.{IsOkUnless};
ghost use Rattle.fx_base.specs.declared.refusal.Refusal.TheVariants.{Memory};

use crate::compared::texts_compared;
use crate::needs::needs_of;
use crate::owners::Walk;
use crate::pattern_tests::pattern_tests;
use fx_base::Refusal;
use low_terms::Core1;
use std::alloc::{AllocError, Global};
use type_terms::Typed;

// The same, where memory alone can be wanting.
fn core1_of<'a>(alloc: Global, typed: &'a Typed) -> Result<Core1<'a>, AllocError> {
    let arena = typed.core().arena();
    let patterns = pattern_tests(alloc, arena)?;
    let needs = needs_of(alloc, arena, &patterns.names)?;
    let mut walk = Walk::new(alloc, arena, &needs, &patterns.names)?;
    walk.items()?;
    let found = walk.end();
    let compares_texts = texts_compared(alloc, arena, found.comparisons, typed.compared())?;
    Ok(Core1 {
        arena,
        tests: patterns.tests,
        facts: patterns.facts,
        test_of: patterns.test_of,
        compares_texts,
        needs,
        uses: found.uses,
        is_top: found.is_top,
        owners: found.owners,
        owner_of: found.owner_of,
    })
}

/// The program with a test for each pattern.
///
/// # Errors
///
/// [`Refusal::Memory`] alone.
pub fn lower<'a>(alloc: Global, typed: &'a Typed) -> Result<Core1<'a>, Refusal>
    ensures { IsOkUnless result Refusal.Memory }
{
    let core1 = core1_of(alloc, typed)?;
    Ok(core1)
}
