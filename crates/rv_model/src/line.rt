//! Lines of assembly.

use crate::instr::{Instr, Op};

/// A line of assembly, in which labels stand for places in the code.
#[derive(Clone, Copy, PartialEq, Eq, Debug)]
pub enum Line {
    /// Names the place of the next instruction.
    Label(u32),
    /// This instruction.
    Plain(Instr),
    /// Goes to the label where the condition of `op`, one of the six branches, holds.
    Branch { op: Op, rs1: u8, rs2: u8, to: u32 },
    /// Goes to the label; `rd` gets the address of the next instruction.
    Jump { rd: u8, to: u32 },
    /// Puts the value into `rd`.
    Const { rd: u8, value: u64 },
    /// Puts the label's address into `rd`.
    CodeOf { rd: u8, label: u32 },
}
