//! Blocks, closures and handler records.

use crate::labels::{entry, partial};
use crate::loads::captured_offset;
use crate::selector::Selector;
use low_terms::{FunctionKind, Leading, LowProgram, Source};
use rt_layout::blocks::{H_TEST, HEADER, TAG_CLOSURE, TAG_PLAIN, header_word, tagged};
use rt_layout::registers::{NEW, T0, T1};
use rt_layout::{assembly, put_alloc, put_header, put_new_block};
use std::alloc::AllocError;

/// A block, and the tuple that lies behind it where it is the argument.
#[derive(Clone, Copy)]
pub struct NewBlock {
    pub made_in: u8,
    pub header: u64,
    pub leading: Leading,
    pub inner: Option<u64>,
}

// The label of the code that a closure of the function has.
fn code_of(low: &LowProgram, function: u32) -> Result<u32, AllocError> {
    let Some(found) = low.functions.get(function as usize) else {
        return Err(AllocError);
    };
    match &found.kind {
        FunctionKind::Function { parameters, .. } if *parameters > 1 => partial(function, 1),
        _ => entry(function),
    }
}

// The offset of a word in a block.
fn word_offset(at: u64, number: u32) -> i64 {
    let word = i64::try_from(at).unwrap_or(i64::MAX);
    word.saturating_add(i64::from(number)).saturating_mul(8)
}

impl Selector {
    /// Makes a block of so many words, with its header.
    pub fn new_block(&mut self, rd: u8, words: u64, header: u64) -> Result<(), AllocError> {
        if header < words {
            return self.new_empty_block(rd, words, header);
        }
        if header >= 1 << 62 {
            return Err(AllocError);
        }
        put_new_block(&mut self.lines, rd, words, header)
    }

    // The block of an empty array, whose header is less than the number of its words.
    fn new_empty_block(&mut self, rd: u8, words: u64, header: u64) -> Result<(), AllocError> {
        let less = i64::try_from(words.saturating_sub(header)).unwrap_or(i64::MAX);
        self.put(&assembly![li T1, words;])?;
        put_alloc(&mut self.lines, rd)?;
        self.put(&assembly![addi T0, T1, 0i64.saturating_sub(less); sd T0, HEADER, rd;])
    }

    // Puts the header of a second block behind one; both have so many words.
    fn second_header(
        &mut self,
        rd: u8,
        at: i64,
        words: u64,
        header: u64,
    ) -> Result<(), AllocError> {
        if header < words || header >= 1 << 62 {
            return Err(AllocError);
        }
        put_header(&mut self.lines, rd, at, words, header)
    }

    /// A block whose parts have these places and values; then `rd` gets it.
    pub fn block(
        &mut self,
        rd: u8,
        block: NewBlock,
        parts: &[(u32, Source)],
    ) -> Result<(), AllocError> {
        let at = self.begin_block(block)?;
        for part in parts {
            let value = self.operand(part.1, T0)?;
            self.store_to(value, word_offset(at, part.0), block.made_in)?;
        }
        if rd == block.made_in {
            return Ok(());
        }
        self.copy(rd, block.made_in)
    }

    // Makes the block, with what stands in front of its parts: the number of the first part's word.
    fn begin_block(&mut self, block: NewBlock) -> Result<u64, AllocError> {
        let rd = block.made_in;
        let words = (block.header >> 10).saturating_add(1);
        let second = match block.inner {
            Some(inner) => (inner >> 10).saturating_add(1),
            None => 0,
        };
        let size = words.saturating_add(second);
        self.new_block(rd, size, block.header)?;
        let lead = self.leading(rd, block.leading)?;
        let Some(inner) = block.inner else {
            return Ok(lead);
        };
        let place = word_offset(words, 0);
        self.add_number(T0, rd, place)?;
        self.store_to(T0, word_offset(lead, 0), rd)?;
        self.second_header(rd, place.saturating_sub(8), size, inner)?;
        Ok(words)
    }

    // Puts the word of an exception or an effect into a block: how many words that are.
    fn leading(&mut self, rd: u8, leading: Leading) -> Result<u64, AllocError> {
        let word = match leading {
            Leading::Nothing => return Ok(0),
            Leading::Exception(row) => self.statics.exception(row)?,
            Leading::Effect(row) => tagged(u64::from(row)),
        };
        self.put(&assembly![li T0, word; sd T0, 0, rd;])?;
        Ok(1)
    }

    /// Makes a closure of so many captured names.
    pub fn closure(
        &mut self,
        low: &LowProgram,
        function: u32,
        count: u32,
    ) -> Result<(), AllocError> {
        let words = 1 + u64::from(count);
        self.new_block(NEW, words + 1, header_word(words, TAG_CLOSURE))?;
        let code = code_of(low, function)?;
        self.put(&assembly![code T0, code; sd T0, 0, NEW;])
    }

    /// Makes the record of a handler with so many captured names.
    pub fn record(&mut self, first: u32, count: u32) -> Result<(), AllocError> {
        let words = 1 + u64::from(count);
        self.new_block(NEW, words + 1, header_word(words, TAG_PLAIN))?;
        self.put(&assembly![code T0, entry(first)?; sd T0, H_TEST, NEW;])
    }

    /// Puts the captured names into a closure or a record.
    pub fn captures(&mut self, base: u8, names: &[Source]) -> Result<(), AllocError> {
        for (number, source) in names.iter().enumerate() {
            let Ok(number) = u32::try_from(number) else {
                return Err(AllocError);
            };
            let value = self.operand(*source, T0)?;
            self.store_to(value, captured_offset(number), base)?;
        }
        Ok(())
    }
}
