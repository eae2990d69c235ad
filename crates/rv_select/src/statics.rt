//! Where the program's static words lie: behind those that each image has, the words of the top-level
//! names, the strings, the table of exceptions, and their records.

use low_terms::LowProgram;
use rt_layout::statics::{BUILT_IN_EXCEPTIONS, S_PROGRAM};
use rt_layout::tagged;
use std::alloc::{AllocError, Global};
use std::collections::BTreeMap;

/// The places of the static words, in bytes from the first one, and the numbers of exceptions.
#[derive(Drop)]
pub struct Statics {
    /// The first word of each string, behind its header.
    pub strings: Vec<i64>,
    /// The table of exceptions.
    pub table: i64,
    /// The records of exceptions, in the order of the table.
    pub records: i64,
    /// The rows in Core of the program's own exceptions, in the order of the table, behind the built-in
    /// ones.
    pub own: Vec<u32>,
    numbers: BTreeMap<u32, u64>,
}

/// The words of a string of so many bytes, its header among them.
pub fn string_size(bytes: usize) -> i64 {
    let words = (bytes / 8).saturating_add(3);
    let unused = usize::from(bytes % 8 == 0);
    i64::try_from(words.saturating_sub(unused)).unwrap_or(i64::MAX)
}

/// The place of a top-level name's word.
pub fn global_offset(number: u32) -> i64 {
    S_PROGRAM + 8 * i64::from(number)
}

// So many words behind a place.
fn further(at: i64, words: i64) -> i64 {
    at.saturating_add(words.saturating_mul(8))
}

impl Statics {
    /// The places of a program's static words.
    pub fn new(alloc: Global, low: &LowProgram) -> Result<Statics, AllocError> {
        let mut at = further(S_PROGRAM, i64::from(low.globals));
        let mut strings = Vec::with_capacity(alloc, low.strings.len())?;
        for text in low.strings.iter() {
            strings.push(at.saturating_add(8))?;
            at = further(at, string_size(text.len()));
        }
        let mut own = Vec::new(alloc);
        let mut numbers = BTreeMap::new(alloc);
        let mut number = BUILT_IN_EXCEPTIONS;
        for row in low.exceptions.iter() {
            if u64::from(*row) >= BUILT_IN_EXCEPTIONS {
                own.push(*row)?;
                numbers.insert(*row, number)?;
                number = number.saturating_add(1);
            }
        }
        let count = i64::try_from(number).unwrap_or(i64::MAX);
        Ok(Statics {
            strings,
            table: at,
            records: further(at, count),
            own,
            numbers,
        })
    }

    /// The place of a string.
    pub fn string(&self, number: u32) -> Result<i64, AllocError> {
        self.strings.get(number as usize).copied().ok_or(AllocError)
    }

    /// The word of an exception, by its row in Core. The built-in ones have the first rows there, and
    /// the same numbers.
    pub fn exception(&self, row: u32) -> Result<u64, AllocError> {
        if u64::from(row) < BUILT_IN_EXCEPTIONS {
            return Ok(tagged(u64::from(row)));
        }
        let number = self.numbers.get(&row).copied().ok_or(AllocError)?;
        Ok(tagged(number))
    }
}
