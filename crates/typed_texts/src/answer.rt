//! From a text to what is found of its types.

use core_terms::elaborate;
use fx_base::{LimitKind, Refusal};
use ml_infer::infer;
use ml_lexer::lex;
use ml_parser::parse;
use std::alloc::Global;
use type_terms::Typed;

/// The most bytes of a text.
const MOST: usize = 16_777_216;

/// What is found of the types of a text.
#[derive(Clone, Copy, Debug, PartialEq, Eq)]
pub enum Answer {
    /// It has types.
    Types,
    /// It has none: a rule is broken at this line and column.
    Fault(u32, u32),
    /// The type of a top-level definition has too many nodes.
    TooLarge,
    /// It is refused for another reason.
    Other,
}

/// The program that a text is, with the types of its comparisons.
///
/// # Errors
///
/// Those of the check, and [`Refusal::Usage`] for a text that is too long to be read.
pub fn typed_of(alloc: Global, text: &[u8]) -> Result<Typed, Refusal> {
    if text.len() > MOST {
        return Err(Refusal::Usage);
    }
    let tokens = lex(alloc, text)?;
    let prog = parse(alloc, &tokens)?;
    let core = elaborate(alloc, &prog, "text.ml")?;
    match infer(alloc, core) {
        Ok(typed) => Ok(typed),
        Err((_core, refusal)) => Err(refusal),
    }
}

/// What is found of the types of a text.
pub fn answer_of(alloc: Global, text: &[u8]) -> Answer {
    match typed_of(alloc, text) {
        Ok(_) => Answer::Types,
        Err(Refusal::IllTyped(place)) => Answer::Fault(place.line, place.column),
        Err(
            Refusal::Limit {
                kind: LimitKind::TypeSize,
                ..
            },
        ) => Answer::TooLarge,
        Err(_) => Answer::Other,
    }
}
