//! How clauses and bindings are spelled.

use crate::node::{Binding, Clause};
use crate::pieces::{Pieces, form, forms, infix, name, prefixed, word};
use std::alloc::AllocError;

// A guard that may be absent, and a body.
fn guarded(pieces: &mut Pieces<'_>, guard: Option<u32>, body: u32) -> Result<(), AllocError> {
    if let Some(guard) = guard {
        prefixed(pieces, b"when", guard)?;
    }
    prefixed(pieces, b"->", body)
}

fn clause(pieces: &mut Pieces<'_>, clause: &Clause) -> Result<(), AllocError> {
    match clause {
        Clause::Value {
            pattern,
            guard,
            body,
        } => {
            form(pieces, *pattern)?;
            guarded(pieces, *guard, *body)
        }
        Clause::Exception {
            pattern,
            guard,
            body,
            ..
        } => {
            prefixed(pieces, b"exception", *pattern)?;
            guarded(pieces, *guard, *body)
        }
        Clause::Effect {
            pattern,
            continuation,
            body,
            ..
        } => {
            word(pieces, b"effect")?;
            infix(pieces, *pattern, b",", *continuation)?;
            prefixed(pieces, b"->", *body)
        }
    }
}

/// Clauses, each behind a bar, and a semicolon that ends the last one's body.
pub(crate) fn clauses(pieces: &mut Pieces<'_>, clauses: &[Clause]) -> Result<(), AllocError> {
    for each in clauses {
        word(pieces, b"|")?;
        clause(pieces, each)?;
    }
    word(pieces, b";")
}

fn binding<'a>(pieces: &mut Pieces<'a>, binding: &'a Binding) -> Result<(), AllocError> {
    match binding {
        Binding::Pattern { pattern, body } => infix(pieces, *pattern, b"=", *body),
        Binding::Named {
            name: bound,
            parameters,
            annotation,
            body,
        } => {
            name(pieces, bound)?;
            forms(pieces, parameters.as_slice())?;
            if let Some(annotation) = annotation {
                prefixed(pieces, b":", *annotation)?;
            }
            prefixed(pieces, b"=", *body)
        }
    }
}

/// `let` and its bindings.
pub(crate) fn bindings<'a>(
    pieces: &mut Pieces<'a>,
    is_recursive: bool,
    bindings: &'a [Binding],
) -> Result<(), AllocError> {
    word(pieces, b"let")?;
    if is_recursive {
        word(pieces, b"rec")?;
    }
    let mut is_first = true;
    for each in bindings {
        if !is_first {
            word(pieces, b"and")?;
        }
        binding(pieces, each)?;
        is_first = false;
    }
    Ok(())
}
