//! From a text to what comes of it.

use closure_convert::convert;
use fx_base::{LimitKind, Refusal};
use low_terms::SlotProgram;
use match_lower::lower;
use prelude_tree::prelude_program;
use std::alloc::Global;
use typed_texts::typed_of;

/// What comes of a text.
#[derive(Clone, Copy, Debug, PartialEq, Eq)]
pub enum Answer {
    /// So many functions behind the prelude's, effect clauses and items among them.
    Functions(usize),
    /// A limit is passed.
    Limit(LimitKind, u64),
    /// It is refused for another reason.
    Other,
}

// How many functions stand behind the prelude.
fn count_functions(program: &SlotProgram) -> usize {
    program
        .functions
        .iter()
        .filter(|function| !function.in_prelude)
        .count()
}

fn functions_of(alloc: Global, text: &[u8]) -> Result<SlotProgram, Refusal> {
    let prelude = prelude_program(alloc)?;
    let typed = typed_of(alloc, text)?;
    let core1 = lower(alloc, &typed)?;
    convert(alloc, &core1, prelude.items.len())
}

/// What comes of a text.
pub fn answer_of(alloc: Global, text: &[u8]) -> Answer {
    match functions_of(alloc, text) {
        Ok(program) => Answer::Functions(count_functions(&program)),
        Err(Refusal::Limit { kind, found, .. }) => Answer::Limit(kind, found),
        Err(_) => Answer::Other,
    }
}
