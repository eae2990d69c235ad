//! Operations that are a few instructions in place.
//!
//! None calls a routine but the comparison of strings, and each touches at most one shared word, twice
//! where it counts a cell up or down. The result is written last. Besides it they change x5, x28, x30 and
//! x31, and where they make a block x6 and x7.

use crate::labels::{Kind, label};
use crate::selector::{Selector, word_of};
use effect_meaning::Operation;
use low_terms::Inline;
use rt_layout::assembly;
use rt_layout::blocks::UNIT;
use rt_layout::labels::ZERO_DIVISOR;
use rt_layout::registers::{NEW, T3, ZERO};
use std::alloc::AllocError;

/// What an operation works on: the register of its result, and those of its operands.
#[derive(Clone, Copy)]
pub struct Registers {
    pub result_in: u8,
    pub first: u8,
    pub second: u8,
    pub third: u8,
}

impl Selector {
    /// An operation. Where its result is `()` and not wanted, it has no register.
    pub fn operation(
        &mut self,
        node: u32,
        operation: Inline,
        rd: Option<u8>,
        operands: [u8; 3],
    ) -> Result<(), AllocError> {
        let registers = Registers {
            result_in: rd.unwrap_or(ZERO),
            first: operands[0],
            second: operands[1],
            third: operands[2],
        };
        match operation {
            Inline::Plain(plain) => self.arithmetic(node, plain, registers)?,
            Inline::CompareTexts(comparison) => self.compare_texts(comparison, registers)?,
            Inline::Field { index, .. } => {
                self.load_from(registers.result_in, 8 * i64::from(index), registers.first)?
            }
            Inline::SetField { index } => {
                self.store_to(registers.second, 8 * i64::from(index), registers.first)?
            }
        }
        match rd {
            Some(rd) if operation.gives_unit() => self.put(&assembly![li rd, UNIT;]),
            _ => Ok(()),
        }
    }

    fn arithmetic(
        &mut self,
        node: u32,
        operation: Operation,
        registers: Registers,
    ) -> Result<(), AllocError> {
        let d = registers.result_in;
        let a = registers.first;
        let b = registers.second;
        match operation {
            Operation::Add => self.put(&assembly![add d, a, b; addi d, d, -1;]),
            Operation::Subtract => self.put(&assembly![sub d, a, b; addi d, d, 1;]),
            Operation::Multiply => self.put(&assembly![
                addi T3, a, -1;
                srai NEW, b, 1;
                mul d, T3, NEW;
                addi d, d, 1;
            ]),
            Operation::Divide | Operation::Modulo => self.divide(operation, registers),
            Operation::Negate => self.put(&assembly![sub d, ZERO, a; addi d, d, 2;]),
            Operation::Successor => self.put(&assembly![addi d, a, 2;]),
            Operation::Predecessor => self.put(&assembly![addi d, a, -2;]),
            Operation::Minimum | Operation::Maximum | Operation::Absolute => {
                self.choose(label(node, Kind::End)?, operation, registers)
            }
            other => self.bits(other, registers),
        }
    }

    // Twice the numbers are divided.
    fn divide(&mut self, operation: Operation, registers: Registers) -> Result<(), AllocError> {
        self.put(&assembly![
            addi T3, registers.first, -1;
            addi NEW, registers.second, -1;
            beq NEW, ZERO, ZERO_DIVISOR;
        ])?;
        self.quotient(operation, registers.result_in)
    }

    // Of x28 and x30, which are twice the numbers.
    fn quotient(&mut self, operation: Operation, d: u8) -> Result<(), AllocError> {
        match operation {
            Operation::Divide => {
                self.put(&assembly![div T3, T3, NEW;])?;
                self.tag(d, T3)
            }
            _ => self.put(&assembly![rem T3, T3, NEW; addi d, T3, 1;]),
        }
    }

    // The operand that is less or greater, or the magnitude.
    fn choose(
        &mut self,
        done: u32,
        operation: Operation,
        registers: Registers,
    ) -> Result<(), AllocError> {
        let a = registers.first;
        let b = registers.second;
        self.copy(T3, a)?;
        match operation {
            Operation::Maximum => self.put(&assembly![bge a, b, done; mv T3, b;])?,
            Operation::Minimum => self.put(&assembly![blt a, b, done; mv T3, b;])?,
            _ => self.put(&assembly![
                bge a, ZERO, done;
                sub T3, ZERO, a;
                addi T3, T3, 2;
            ])?,
        }
        self.label(done)?;
        self.copy(registers.result_in, T3)
    }

    fn bits(&mut self, operation: Operation, registers: Registers) -> Result<(), AllocError> {
        let d = registers.result_in;
        let a = registers.first;
        let b = registers.second;
        match operation {
            Operation::LogicalAnd => self.put(&assembly![and d, a, b;]),
            Operation::LogicalOr => self.put(&assembly![or d, a, b;]),
            Operation::LogicalXor => self.put(&assembly![xor d, a, b; ori d, d, 1;]),
            Operation::ShiftLeft => self.put(&assembly![
                addi T3, a, -1;
                srai NEW, b, 1;
                sll d, T3, NEW;
                ori d, d, 1;
            ]),
            Operation::ShiftRightLogical => self.put(&assembly![
                srai NEW, b, 1;
                srl d, a, NEW;
                ori d, d, 1;
            ]),
            Operation::ShiftRightArithmetic => self.put(&assembly![
                srai NEW, b, 1;
                sra d, a, NEW;
                ori d, d, 1;
            ]),
            Operation::Not => self.put(&assembly![xori d, a, 2;]),
            other => self.comparison(other, registers),
        }
    }

    /// `d` gets the word of the integer in `r`.
    pub fn tag(&mut self, d: u8, r: u8) -> Result<(), AllocError> {
        self.put(&assembly![slli d, r, 1; addi d, d, 1;])
    }

    /// An operation whose second operand is a number: a sum, a difference, a product, or a quotient or a
    /// remainder by a number that isn't 0.
    pub fn operation_by_number(
        &mut self,
        operation: Operation,
        d: u8,
        a: u8,
        number: i64,
    ) -> Result<(), AllocError> {
        let twice = number.wrapping_mul(2);
        match operation {
            Operation::Add => self.put(&assembly![addi d, a, twice;]),
            Operation::Subtract => self.put(&assembly![addi d, a, 0i64.wrapping_sub(twice);]),
            Operation::Multiply => self.put(&assembly![
                li T3, word_of(number);
                mul d, a, T3;
                addi d, d, 1i64.wrapping_sub(number);
            ]),
            Operation::Divide | Operation::Modulo => {
                self.put(&assembly![addi T3, a, -1; li NEW, word_of(twice);])?;
                self.quotient(operation, d)
            }
            _ => Err(AllocError),
        }
    }
}
