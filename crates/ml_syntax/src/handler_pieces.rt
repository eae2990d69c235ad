//! How the calls that take a handler are spelled, and their handlers.

use crate::node::{EffectRule, Name, Node};
use crate::pieces::{Pieces, enclosed, fields, forms, infix, long_name, name, word, words};
use std::alloc::AllocError;

/// The pieces of a call with a handler, or of a part of a handler.
pub(crate) fn handler_pieces<'a>(
    pieces: &mut Pieces<'a>,
    node: &'a Node,
) -> Result<(), AllocError> {
    match node {
        Node::Handle {
            function,
            first,
            second,
            handler,
        } => {
            long_name(pieces, function)?;
            forms(pieces, &[*first, *second, *handler])
        }
        Node::Handler { fields: parts, .. } => {
            fields(pieces, parts.as_slice())?;
            word(pieces, b"}")
        }
        _ => effect_pieces(pieces, node),
    }
}

// The pieces of what stands behind `effc` in a handler. Each other form is told before.
fn effect_pieces<'a>(pieces: &mut Pieces<'a>, node: &'a Node) -> Result<(), AllocError> {
    match node {
        Node::EffectFunction {
            type_name,
            parameter,
            cases,
            ..
        } => {
            word(pieces, b"fun")?;
            new_type(pieces, type_name.as_ref())?;
            infix(pieces, *parameter, b"->", *cases)
        }
        Node::EffectCases {
            subject,
            rules: cases,
            otherwise,
            ..
        } => {
            cases_head(pieces, subject.as_ref())?;
            rules(pieces, cases.as_slice(), *otherwise)
        }
        Node::Resumption {
            parameter,
            body,
            ..
        } => {
            words(pieces, b"Some", b"(")?;
            word(pieces, b"fun")?;
            infix(pieces, *parameter, b"->", *body)?;
            word(pieces, b")")
        }
        _ => Err(AllocError),
    }
}

// `(type a)`, where there is a name.
fn new_type<'a>(pieces: &mut Pieces<'a>, type_name: Option<&'a Name>) -> Result<(), AllocError> {
    if let Some(new_type) = type_name {
        words(pieces, b"(", b"type")?;
        name(pieces, new_type)?;
        word(pieces, b")")?;
    }
    Ok(())
}

// `match eff with`, or `function`.
fn cases_head<'a>(pieces: &mut Pieces<'a>, subject: Option<&'a Name>) -> Result<(), AllocError> {
    match subject {
        Some(subject) => {
            word(pieces, b"match")?;
            name(pieces, subject)?;
            word(pieces, b"with")
        }
        None => word(pieces, b"function"),
    }
}

// The rules of a handler, each behind a bar, and the last one.
fn rules(pieces: &mut Pieces<'_>, rules: &[EffectRule], otherwise: u32) -> Result<(), AllocError> {
    for rule in rules {
        word(pieces, b"|")?;
        infix(pieces, rule.pattern, b"->", rule.answer)?;
    }
    enclosed(pieces, b"|", otherwise, b"->")?;
    word(pieces, b"None")
}
