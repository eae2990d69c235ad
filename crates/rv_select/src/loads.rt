//! Reading values, and making and dropping frames.

use crate::selector::{Selector, is_near, word_of};
use crate::statics::global_offset;
use low_terms::{Home, Source};
use rt_layout::assembly;
use rt_layout::blocks::UNIT;
use rt_layout::labels::GROW;
use rt_layout::registers::{DOM, LIMIT, LINK3, ONE, RA, SP, STATIC};
use rt_layout::stacks::{FRAME_CLOSURE, FRAME_EXTRA, FRAME_RA, FRAME_SLOT};
use std::alloc::AllocError;

/// Where a word of the frame lies.
pub fn home_offset(home: Home) -> i64 {
    match home {
        Home::Slot(slot) => FRAME_SLOT + 8 * i64::from(slot),
        Home::Closure => FRAME_CLOSURE,
    }
}

/// Where a captured word lies in a closure or a record.
pub fn captured_offset(number: u32) -> i64 {
    8 + 8 * i64::from(number)
}

impl Selector {
    /// `rd` gets a value.
    pub fn load(&mut self, rd: u8, source: Source) -> Result<(), AllocError> {
        match source {
            Source::Register(rs) => self.copy(rd, rs),
            Source::Home(home) => self.load_from(rd, home_offset(home), SP),
            Source::Captured { number, closure } => self.load_captured(rd, number, closure),
            Source::Global(number) => self.load_from(rd, global_offset(number), STATIC),
            Source::Word(UNIT) => self.copy(rd, ONE),
            Source::Word(word) => self.put(&assembly![li rd, word;]),
            Source::Text(number) => self.load_text(rd, number),
            Source::Cell(number) => self.load_from(rd, 8 * i64::from(number), DOM),
        }
    }

    /// The register that has a value: its own, or `scratch`, which gets it.
    pub fn operand(&mut self, source: Source, scratch: u8) -> Result<u8, AllocError> {
        match source {
            Source::Register(register) => Ok(register),
            Source::Word(UNIT) => Ok(ONE),
            _ => {
                self.load(scratch, source)?;
                Ok(scratch)
            }
        }
    }

    /// Copies a register.
    pub fn copy(&mut self, rd: u8, rs: u8) -> Result<(), AllocError> {
        self.put(&assembly![mv rd, rs;])
    }

    fn load_captured(
        &mut self,
        rd: u8,
        number: u32,
        closure: Option<u8>,
    ) -> Result<(), AllocError> {
        let offset = captured_offset(number);
        match closure {
            Some(base) => self.load_from(rd, offset, base),
            None => {
                self.put(&assembly![ld rd, FRAME_CLOSURE, SP;])?;
                self.load_from(rd, offset, rd)
            }
        }
    }

    fn load_text(&mut self, rd: u8, number: u32) -> Result<(), AllocError> {
        let offset = self.statics.string(number)?;
        if is_near(offset) {
            return self.put(&assembly![addi rd, STATIC, offset;]);
        }
        self.put(&assembly![
            li rd, word_of(offset);
            add rd, rd, STATIC;
        ])
    }

    // The bytes of the frame.
    fn frame_size(&self) -> i64 {
        FRAME_EXTRA + 8 * i64::from(self.slots)
    }

    /// Makes the frame, in a larger stack where there is no room; the label stands behind the test.
    pub fn push_frame(&mut self, room: u32) -> Result<(), AllocError> {
        let size = self.frame_size();
        self.add_number(SP, SP, 0i64.saturating_sub(size))?;
        self.put(&assembly![
            bgeu SP, LIMIT, room;
            call LINK3, GROW;
            label room;
            sd RA, FRAME_RA, SP;
        ])
    }

    /// Goes back to the caller's frame, with its return address in `RA`.
    pub fn pop_frame(&mut self) -> Result<(), AllocError> {
        self.put(&assembly![ld RA, FRAME_RA, SP;])?;
        let size = self.frame_size();
        self.add_number(SP, SP, size)
    }
}
