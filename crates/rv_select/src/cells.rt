//! Operations on pairs, cells, arrays, strings and slots.

use crate::inline::Registers;
use crate::selector::Selector;
use effect_meaning::Operation;
use rt_layout::assembly;
use rt_layout::blocks::{HEADER, TAG_PLAIN, header_word, tagged};
use rt_layout::fixed::HARTS;
use rt_layout::labels::{CHR_BAD, INDEX_BAD};
use rt_layout::parts::{M_SELF, MINUS_ONE};
use rt_layout::registers::{DOM, NEW, T3, ZERO};
use std::alloc::AllocError;

/// The number 2 below 0 as a word.
const MINUS_TWO: u64 = MINUS_ONE - 1;

impl Selector {
    /// An operation on a pair or a cell, or another one.
    pub fn cells(&mut self, operation: Operation, registers: Registers) -> Result<(), AllocError> {
        let d = registers.result_in;
        let a = registers.first;
        let b = registers.second;
        match operation {
            Operation::First | Operation::GetReference | Operation::AtomicGet => {
                self.put(&assembly![ld d, 0, a;])
            }
            Operation::Second => self.put(&assembly![ld d, 8, a;]),
            Operation::MakeReference | Operation::AtomicMake => {
                self.new_block(NEW, 2, header_word(1, TAG_PLAIN))?;
                self.put(&assembly![sd a, 0, NEW; mv d, NEW;])
            }
            Operation::SetReference | Operation::AtomicSet => self.put(&assembly![sd b, 0, a;]),
            Operation::IncrementReference => self.count(a, 2),
            Operation::DecrementReference => self.count(a, -2),
            other => self.atomics(other, registers),
        }
    }

    // Adds to the integer in a cell, not atomically.
    fn count(&mut self, cell: u8, twice: i64) -> Result<(), AllocError> {
        self.put(&assembly![
            ld T3, 0, cell;
            addi T3, T3, twice;
            sd T3, 0, cell;
        ])
    }

    fn atomics(&mut self, operation: Operation, registers: Registers) -> Result<(), AllocError> {
        let d = registers.result_in;
        let a = registers.first;
        let b = registers.second;
        match operation {
            Operation::AtomicExchange => self.put(&assembly![amoswap d, b, a;]),
            Operation::AtomicCompareAndSet => {
                self.put(&assembly![
                    mv T3, b;
                    amocas T3, registers.third, a;
                    sub T3, T3, b;
                    sltiu T3, T3, 1;
                ])?;
                self.tag(d, T3)
            }
            Operation::AtomicFetchAndAdd => {
                self.put(&assembly![addi T3, b, -1; amoadd d, T3, a;])
            }
            Operation::AtomicIncrement => self.put(&assembly![li T3, 2; amoadd ZERO, T3, a;]),
            Operation::AtomicDecrement => {
                self.put(&assembly![li T3, MINUS_TWO; amoadd ZERO, T3, a;])
            }
            other => self.sequences(other, registers),
        }
    }

    // Operations on arrays and strings. Twice the length is compared with an index, which is twice the
    // number and 1.
    fn sequences(&mut self, operation: Operation, registers: Registers) -> Result<(), AllocError> {
        let d = registers.result_in;
        let a = registers.first;
        match operation {
            Operation::ArrayGet | Operation::ArraySet => self.element(operation, registers),
            Operation::ArrayLength => {
                self.put(&assembly![ld T3, HEADER, a; srli T3, T3, 10;])?;
                self.tag(d, T3)
            }
            Operation::StringGet => self.byte(registers),
            Operation::StringLength => {
                self.put(&assembly![ld T3, 0, a;])?;
                self.tag(d, T3)
            }
            Operation::CharacterOfCode => self.put(&assembly![
                li T3, tagged(255);
                bltu T3, a, CHR_BAD;
                mv d, a;
            ]),
            other => self.slots_of_domains(other, d),
        }
    }

    fn element(&mut self, operation: Operation, registers: Registers) -> Result<(), AllocError> {
        let a = registers.first;
        let b = registers.second;
        self.put(&assembly![
            ld T3, HEADER, a;
            srli T3, T3, 9;
            bgeu b, T3, INDEX_BAD;
            slli T3, b, 2;
            add T3, T3, a;
        ])?;
        match operation {
            Operation::ArrayGet => self.put(&assembly![ld registers.result_in, -4, T3;]),
            _ => self.put(&assembly![sd registers.third, -4, T3;]),
        }
    }

    fn byte(&mut self, registers: Registers) -> Result<(), AllocError> {
        let a = registers.first;
        self.put(&assembly![
            srai T3, registers.second, 1;
            ld NEW, 0, a;
            bgeu T3, NEW, INDEX_BAD;
            add T3, T3, a;
            lbu T3, 8, T3;
        ])?;
        self.tag(registers.result_in, T3)
    }

    fn slots_of_domains(&mut self, operation: Operation, d: u8) -> Result<(), AllocError> {
        match operation {
            Operation::QueueSelf => self.put(&assembly![ld d, M_SELF, DOM;]),
            Operation::QueueSlots => {
                self.put(&assembly![ld T3, HARTS, ZERO;])?;
                self.tag(d, T3)
            }
            Operation::Relax => Ok(()),
            _ => Err(AllocError),
        }
    }
}
