//! The static words: the texts of a run, those of the program, and the table of exceptions.

use crate::records::{push_bytes, push_record};
use effect_meaning::CoreArena;
use low_terms::LowProgram;
use rt_layout::blocks::{TAG_STRING, header_word};
use rt_layout::statics::BUILT_IN_EXCEPTIONS;
use rv_select::{Statics, string_size};
use std::alloc::{AllocError, Global};

/// The texts of the exceptions that a run raises by itself, in the order in which they stand.
const MESSAGES: [&str; 6] = [
    "index out of bounds",
    "String.sub",
    "Array.make",
    "Char.chr",
    "Fiberq.take_from",
    "Domain.spawn",
];

// An address from a place among the static words.
fn address(base: u64, place: i64) -> u64 {
    base.wrapping_add(u64::try_from(place).unwrap_or(0))
}

// Writes a string's block, its header first.
fn push_string(words: &mut Vec<u64>, text: &[u8]) -> Result<(), AllocError> {
    let size = string_size(text.len()).saturating_sub(1);
    let Ok(count) = u32::try_from(size) else {
        return Err(AllocError);
    };
    words.push(header_word(u64::from(count), TAG_STRING))?;
    words.push(text.len() as u64)?;
    push_bytes(words, text)
}

// Writes the two words of the run's own and the texts of its exceptions.
fn push_fixed(words: &mut Vec<u64>, base: u64, statics: &Statics) -> Result<(), AllocError> {
    words.push(address(base, statics.string(0)?))?;
    words.push(address(base, statics.table))?;
    for message in MESSAGES.iter() {
        push_string(words, message.as_bytes())?;
    }
    Ok(())
}

// Writes the table of exceptions and the records, which follow it.
fn push_table(
    alloc: Global,
    words: &mut Vec<u64>,
    arena: &CoreArena,
    base: u64,
    statics: &Statics,
) -> Result<(), AllocError> {
    let first = address(base, statics.records);
    let mut records = Vec::new(alloc);
    for row in 0..BUILT_IN_EXCEPTIONS {
        words.push(first.wrapping_add((records.len() as u64).wrapping_mul(8)))?;
        push_record(alloc, &mut records, arena, row as u32)?;
    }
    for row in statics.own.iter() {
        words.push(first.wrapping_add((records.len() as u64).wrapping_mul(8)))?;
        push_record(alloc, &mut records, arena, *row)?;
    }
    words.extend_from_slice(records.as_slice())
}

/// All static words, in order; the first one has this address.
pub fn static_words(
    alloc: Global,
    low: &LowProgram,
    arena: &CoreArena,
    base: u64,
) -> Result<Vec<u64>, AllocError> {
    let statics = Statics::new(alloc, low)?;
    let mut words = Vec::new(alloc);
    push_fixed(&mut words, base, &statics)?;
    for _global in 0..low.globals {
        words.push(0)?;
    }
    for text in low.strings.iter() {
        push_string(&mut words, text.as_slice())?;
    }
    push_table(alloc, &mut words, arena, base, &statics)?;
    Ok(words)
}
