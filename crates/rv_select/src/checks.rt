//! The steps of tests.

use crate::labels::{Kind, label};
use crate::loads::home_offset;
use crate::selector::Selector;
use crate::statics::global_offset;
use crate::tasks::Task;
use low_terms::{Check, Destination, Home, Source};
use rt_layout::assembly;
use rt_layout::blocks::{HEADER, UNIT};
use rt_layout::labels::STR_SAME;
use rt_layout::registers::{DOM, LINK, NEW, ONE, SP, STATIC, T0, T1, ZERO};
use std::alloc::AllocError;

impl Selector {
    /// A step of a test, which goes to the label where it fails.
    pub fn check(&mut self, check: Check, no: u32) -> Result<(), AllocError> {
        match check {
            Check::Word { register, word } => self.check_word(register, word, no),
            Check::Text { register, text } => self.check_text(register, text, no),
            Check::Header {
                register,
                header,
                mixed,
            } => self.check_header(register, header, mixed, no),
            Check::Exception {
                register,
                constructor,
            } => self.check_exception(register, constructor, no),
            Check::Part {
                rd,
                base,
                index,
                ..
            } => self.load_from(rd, 8 * i64::from(index), base),
            Check::Store {
                register,
                destination,
            } => self.keep(register, destination),
            Check::Resume { rd, cell } => self.load_from(rd, 8 * i64::from(cell), DOM),
            Check::Or { test, left, right } => self.check_sides(test, left, right, no),
        }
    }

    fn check_word(&mut self, register: u8, word: u64, no: u32) -> Result<(), AllocError> {
        if word == UNIT {
            return self.put(&assembly![bne register, ONE, no;]);
        }
        self.put(&assembly![li T0, word; bne register, T0, no;])
    }

    // The routine gives 1 in x6 where the strings are equal.
    fn check_text(&mut self, register: u8, text: u32, no: u32) -> Result<(), AllocError> {
        self.copy(NEW, register)?;
        self.load(T1, Source::Text(text))?;
        self.put(&assembly![call LINK, STR_SAME; beq T0, ZERO, no;])
    }

    fn check_header(
        &mut self,
        register: u8,
        header: Option<u64>,
        mixed: bool,
        no: u32,
    ) -> Result<(), AllocError> {
        if mixed {
            self.put(&assembly![andi T0, register, 1; bne T0, ZERO, no;])?;
        }
        match header {
            Some(word) => self.put(&assembly![
                ld T0, HEADER, register;
                li T1, word;
                bne T0, T1, no;
            ]),
            None => Ok(()),
        }
    }

    fn check_exception(&mut self, register: u8, row: u32, no: u32) -> Result<(), AllocError> {
        let word = self.statics.exception(row)?;
        self.put(&assembly![
            ld T0, 0, register;
            li T1, word;
            bne T0, T1, no;
        ])
    }

    // Puts a value where it belongs.
    fn keep(&mut self, register: u8, destination: Destination) -> Result<(), AllocError> {
        match destination {
            Destination::Slot(slot) => self.store_to(register, home_offset(Home::Slot(slot)), SP),
            Destination::Global(number) => {
                self.store_to(register, global_offset(number), STATIC)
            }
            Destination::Cell(cell) => self.store_to(register, 8 * i64::from(cell), DOM),
        }
    }

    fn check_sides(&mut self, test: u32, left: u32, right: u32, no: u32) -> Result<(), AllocError> {
        let other = label(test, Kind::TestOther)?;
        let end = label(test, Kind::TestEnd)?;
        self.next(&[
            Task::checks(left, other),
            Task::jump(end),
            Task::label(other),
            Task::checks(right, no),
            Task::label(end),
        ])
    }
}
