//! What is still to be printed: tokens, and forms by their numbers.

use crate::node::{LongName, Name, NamedPart};
use crate::sequence::Text;
use std::alloc::AllocError;

/// A token, or a form by its number.
#[derive(Clone, Copy)]
pub(crate) enum Piece<'a> {
    Word(&'a [u8]),
    Form(u32),
}

/// Pieces in the order of the text.
pub(crate) type Pieces<'a> = Vec<Piece<'a>>;

pub(crate) fn word<'a>(pieces: &mut Pieces<'a>, text: &'a [u8]) -> Result<(), AllocError> {
    pieces.push(Piece::Word(text))?;
    Ok(())
}

pub(crate) fn form(pieces: &mut Pieces<'_>, number: u32) -> Result<(), AllocError> {
    pieces.push(Piece::Form(number))?;
    Ok(())
}

pub(crate) fn text<'a>(pieces: &mut Pieces<'a>, text: &'a Text) -> Result<(), AllocError> {
    word(pieces, text.as_slice())
}

pub(crate) fn name<'a>(pieces: &mut Pieces<'a>, name: &'a Name) -> Result<(), AllocError> {
    text(pieces, &name.text)
}

/// A name behind its path.
pub(crate) fn long_name<'a>(pieces: &mut Pieces<'a>, long: &'a LongName) -> Result<(), AllocError> {
    for part in long.path.as_slice() {
        text(pieces, part)?;
        word(pieces, b".")?;
    }
    name(pieces, &long.last)
}

/// Forms one after another.
pub(crate) fn forms(pieces: &mut Pieces<'_>, parts: &[u32]) -> Result<(), AllocError> {
    for part in parts {
        form(pieces, *part)?;
    }
    Ok(())
}

/// Forms with a word between any two.
pub(crate) fn separated<'a>(
    pieces: &mut Pieces<'a>,
    parts: &[u32],
    separator: &'a [u8],
) -> Result<(), AllocError> {
    let mut is_first = true;
    for part in parts {
        if !is_first {
            word(pieces, separator)?;
        }
        form(pieces, *part)?;
        is_first = false;
    }
    Ok(())
}

/// Two words.
pub(crate) fn words<'a>(
    pieces: &mut Pieces<'a>,
    first: &'a [u8],
    second: &'a [u8],
) -> Result<(), AllocError> {
    word(pieces, first)?;
    word(pieces, second)
}

/// A form behind a word.
pub(crate) fn prefixed<'a>(
    pieces: &mut Pieces<'a>,
    opening: &'a [u8],
    inner: u32,
) -> Result<(), AllocError> {
    word(pieces, opening)?;
    form(pieces, inner)
}

/// A form between two words.
pub(crate) fn enclosed<'a>(
    pieces: &mut Pieces<'a>,
    opening: &'a [u8],
    inner: u32,
    closing: &'a [u8],
) -> Result<(), AllocError> {
    prefixed(pieces, opening, inner)?;
    word(pieces, closing)
}

/// Forms between two words, with semicolons.
pub(crate) fn listed<'a>(
    pieces: &mut Pieces<'a>,
    opening: &'a [u8],
    parts: &[u32],
    closing: &'a [u8],
) -> Result<(), AllocError> {
    word(pieces, opening)?;
    separated(pieces, parts, b";")?;
    word(pieces, closing)
}

/// A form with its type, in brackets.
pub(crate) fn annotated(
    pieces: &mut Pieces<'_>,
    inner: u32,
    annotation: u32,
) -> Result<(), AllocError> {
    enclosed(pieces, b"(", inner, b":")?;
    form(pieces, annotation)?;
    word(pieces, b")")
}

/// Two forms with a word between them.
pub(crate) fn infix<'a>(
    pieces: &mut Pieces<'a>,
    left: u32,
    operator: &'a [u8],
    right: u32,
) -> Result<(), AllocError> {
    form(pieces, left)?;
    prefixed(pieces, operator, right)
}

/// A constructor with its argument.
pub(crate) fn applied<'a>(
    pieces: &mut Pieces<'a>,
    constructor: &'a LongName,
    argument: u32,
) -> Result<(), AllocError> {
    long_name(pieces, constructor)?;
    form(pieces, argument)
}

/// `{`, and fields with semicolons between them.
pub(crate) fn fields<'a>(
    pieces: &mut Pieces<'a>,
    fields: &'a [NamedPart],
) -> Result<(), AllocError> {
    let mut before: &[u8] = b"{";
    for field in fields {
        word(pieces, before)?;
        name(pieces, &field.name)?;
        prefixed(pieces, b"=", field.part)?;
        before = b";";
    }
    Ok(())
}
