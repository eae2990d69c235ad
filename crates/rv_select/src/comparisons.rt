//! Operations that compare.

use crate::inline::Registers;
use crate::selector::Selector;
use effect_meaning::{Comparison, Operation};
use rt_layout::assembly;
use rt_layout::labels::STR_ORDER;
use rt_layout::registers::{LINK, LINK2, NEW, T0, T3, ZERO};
use std::alloc::AllocError;

impl Selector {
    /// A comparison of two words, or another operation.
    pub fn comparison(
        &mut self,
        operation: Operation,
        registers: Registers,
    ) -> Result<(), AllocError> {
        match operation {
            Operation::Compare(comparison) => self.compare_words(comparison, registers),
            Operation::Same => self.compare_words(Comparison::Equal, registers),
            Operation::Other => self.compare_words(Comparison::Different, registers),
            other => self.cells(other, registers),
        }
    }

    fn compare_words(
        &mut self,
        comparison: Comparison,
        registers: Registers,
    ) -> Result<(), AllocError> {
        let a = registers.first;
        let b = registers.second;
        match comparison {
            Comparison::Equal => self.put(&assembly![sub T3, a, b; sltiu T3, T3, 1;])?,
            Comparison::Different => self.put(&assembly![sub T3, a, b; sltu T3, ZERO, T3;])?,
            Comparison::Below => self.put(&assembly![slt T3, a, b;])?,
            Comparison::Above => self.put(&assembly![slt T3, b, a;])?,
            Comparison::AtLeast => self.put(&assembly![slt T3, a, b; xori T3, T3, 1;])?,
            Comparison::AtMost => self.put(&assembly![slt T3, b, a; xori T3, T3, 1;])?,
            Comparison::Compare => self.put(&assembly![
                slt T3, a, b;
                slt NEW, b, a;
                sub T3, NEW, T3;
            ])?,
        }
        self.tag(registers.result_in, T3)
    }

    /// A comparison of two strings. The routine gives -1, 0 or 1 in x6.
    pub fn compare_texts(
        &mut self,
        comparison: Comparison,
        registers: Registers,
    ) -> Result<(), AllocError> {
        self.put(&assembly![
            mv NEW, registers.first;
            mv LINK2, registers.second;
            call LINK, STR_ORDER;
        ])?;
        match comparison {
            Comparison::Equal => self.put(&assembly![sltiu T0, T0, 1;])?,
            Comparison::Different => self.put(&assembly![sltu T0, ZERO, T0;])?,
            Comparison::Below => self.put(&assembly![slti T0, T0, 0;])?,
            Comparison::AtLeast => self.put(&assembly![slti T0, T0, 0; xori T0, T0, 1;])?,
            Comparison::Above => self.put(&assembly![slt T0, ZERO, T0;])?,
            Comparison::AtMost => self.put(&assembly![slt T0, ZERO, T0; xori T0, T0, 1;])?,
            Comparison::Compare => {}
        }
        self.tag(registers.result_in, T0)
    }
}
