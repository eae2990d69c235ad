//! What the text of an uncaught exception is made from.
//!
//! The record of an exception: a word with twice the bytes of its name, and 1 more where it has an
//! argument; the name; then the argument's symbols, which say how each part of it is shown.

use effect_meaning::{CoreArena, TypeExpression};
use rt_layout::statics::{SHOW_INT, SHOW_OPEN, SHOW_OTHER, SHOW_STRING};
use std::alloc::{AllocError, Global};

/// The row of `int` among the types of each program.
const INT_TYPE: u32 = 0;
/// The row of `string`.
const STRING_TYPE: u32 = 3;
/// The row of tuples.
const TUPLE_TYPE: u32 = 16;

/// What a symbol has more where its part is the last one of its tuple.
const LAST: u64 = 4;
/// The symbols in a word.
const SYMBOLS_IN_WORD: usize = 21;
/// The bytes of the text of an uncaught exception: further symbols aren't looked at.
const TEXT_BYTES: u64 = 1024;

/// A part of an argument that is still to be shown, by its type.
#[derive(Clone, Copy)]
struct Part {
    of_type: u32,
    is_last: bool,
}

/// Writes the bytes of a text into words, the least first.
pub fn push_bytes(words: &mut Vec<u64>, text: &[u8]) -> Result<(), AllocError> {
    let mut word = 0u64;
    let mut count = 0u32;
    for byte in text {
        word |= u64::from(*byte).wrapping_shl(8 * (count % 8));
        count = count.wrapping_add(1) % 8;
        if count == 0 {
            words.push(word)?;
            word = 0;
        }
    }
    if count > 0 {
        words.push(word)?;
    }
    Ok(())
}

// Puts the parts of a tuple before those that wait.
fn push_parts(waiting: &mut Vec<Part>, parts: &[u32]) -> Result<(), AllocError> {
    let mut is_last = true;
    for of_type in parts.iter().rev() {
        waiting.push(Part {
            of_type: *of_type,
            is_last,
        })?;
        is_last = false;
    }
    Ok(())
}

// The symbol of a part that is no tuple, and the least number of bytes that its text takes.
fn symbol_of(constructor: u32) -> (u64, u64) {
    match constructor {
        INT_TYPE => (SHOW_INT, 3),
        STRING_TYPE => (SHOW_STRING, 4),
        _ => (SHOW_OTHER, 3),
    }
}

// The symbols of an argument of this type, at most those that the text has room for.
fn symbols_of(alloc: Global, arena: &CoreArena, of_type: u32) -> Result<Vec<u64>, AllocError> {
    let mut symbols = Vec::new(alloc);
    let mut waiting = vec![in alloc;
        Part {
            of_type,
            is_last: true
        },
    ]?;
    let mut room = TEXT_BYTES;
    for _part in 0..u64::MAX {
        let Some(part) = waiting.pop() else {
            return Ok(symbols);
        };
        if room > 0 {
            let bytes = push_symbol(&mut symbols, &mut waiting, arena, part)?;
            room = room.saturating_sub(bytes);
        }
    }
    Err(AllocError)
}

// Puts the symbol of a part, and its parts where it is a tuple; how many bytes its text takes.
fn push_symbol(
    symbols: &mut Vec<u64>,
    waiting: &mut Vec<Part>,
    arena: &CoreArena,
    part: Part,
) -> Result<u64, AllocError> {
    let last = if part.is_last { LAST } else { 0 };
    let (symbol, bytes) = match arena.types().get(part.of_type as usize) {
        Some(
            TypeExpression::Applied {
                constructor: TUPLE_TYPE,
                arguments,
            },
        ) => {
            push_parts(waiting, arguments.as_slice())?;
            (SHOW_OPEN, 0)
        }
        Some(TypeExpression::Applied { constructor, .. }) => symbol_of(*constructor),
        _ => (SHOW_OTHER, 3),
    };
    symbols.push(symbol.saturating_add(last))?;
    Ok(bytes)
}

// Writes symbols into words, the first one lowest, with a 1 above the last one of each word.
fn push_symbols(words: &mut Vec<u64>, symbols: &[u64]) -> Result<(), AllocError> {
    for some in symbols.chunks(SYMBOLS_IN_WORD) {
        let mut word = 1u64;
        for symbol in some.iter().rev() {
            word = word.wrapping_shl(3) | *symbol;
        }
        words.push(word)?;
    }
    Ok(())
}

/// Writes the record of an exception, by its row.
pub fn push_record(
    alloc: Global,
    words: &mut Vec<u64>,
    arena: &CoreArena,
    row: u32,
) -> Result<(), AllocError> {
    let Some(found) = arena.exception_rows().get(row as usize) else {
        return Err(AllocError);
    };
    let name = found.name.as_slice();
    let argument = u64::from(found.argument.is_some());
    words.push((name.len() as u64).wrapping_mul(2).wrapping_add(argument))?;
    push_bytes(words, name)?;
    if let Some(of_type) = found.argument {
        push_symbols(words, &symbols_of(alloc, arena, of_type)?)?;
    }
    Ok(())
}
