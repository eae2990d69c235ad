//! The lines so far, and what is still to be written.

use crate::statics::Statics;
use crate::tasks::Task;
use low_terms::LowProgram;
use rt_layout::assembly;
use rt_layout::registers::T3;
use rv_model::Line;
use std::alloc::{AllocError, Global};

/// The lines that are written so far, and what is still to be written. That is kept on a stack of its
/// own, so that no program is too deep.
#[derive(Drop)]
pub struct Selector {
    pub lines: Vec<Line>,
    pub tasks: Vec<Task>,
    pub statics: Statics,
    /// The function at hand, and the slots of its frame.
    pub function: u32,
    pub slots: u32,
}

/// Whether a number fits an instruction.
pub fn is_near(number: i64) -> bool {
    -2048 <= number && number <= 2047
}

/// The word of a number.
pub fn word_of(number: i64) -> u64 {
    if number < 0 {
        !((-(number + 1)) as u64)
    } else {
        number as u64
    }
}

impl Selector {
    /// Nothing is written.
    pub fn new(alloc: Global, low: &LowProgram) -> Result<Selector, AllocError> {
        Ok(Selector {
            lines: Vec::new(alloc),
            tasks: Vec::new(alloc),
            statics: Statics::new(alloc, low)?,
            function: 0,
            slots: 0,
        })
    }

    /// Writes lines.
    pub fn put(&mut self, lines: &[Line]) -> Result<(), AllocError> {
        self.lines.extend_from_slice(lines)
    }

    /// Writes a label.
    pub fn label(&mut self, label: u32) -> Result<(), AllocError> {
        self.put(&assembly![label label;])
    }

    /// Writes a jump.
    pub fn jump(&mut self, to: u32) -> Result<(), AllocError> {
        self.put(&assembly![jump to;])
    }

    /// Does these tasks before those that wait, the first one first.
    pub fn next(&mut self, tasks: &[Task]) -> Result<(), AllocError> {
        for task in tasks.iter().rev() {
            self.tasks.push(*task)?;
        }
        Ok(())
    }

    /// `rd` gets the word that lies so far behind the base.
    pub fn load_from(&mut self, rd: u8, offset: i64, base: u8) -> Result<(), AllocError> {
        if is_near(offset) {
            return self.put(&assembly![ld rd, offset, base;]);
        }
        self.put(&assembly![
            li T3, word_of(offset);
            add T3, T3, base;
            ld rd, 0, T3;
        ])
    }

    /// The word that lies so far behind the base gets the register's value.
    pub fn store_to(&mut self, value: u8, offset: i64, base: u8) -> Result<(), AllocError> {
        if is_near(offset) {
            return self.put(&assembly![sd value, offset, base;]);
        }
        self.put(&assembly![
            li T3, word_of(offset);
            add T3, T3, base;
            sd value, 0, T3;
        ])
    }

    /// Adds a number to `rs`: one instruction, or two.
    pub fn add_number(&mut self, rd: u8, rs: u8, number: i64) -> Result<(), AllocError> {
        if is_near(number) {
            return self.put(&assembly![addi rd, rs, number;]);
        }
        let part = if number > 0 { 2040 } else { -2048 };
        self.put(&assembly![
            addi rd, rs, part;
            addi rd, rd, number.saturating_sub(part);
        ])
    }
}
