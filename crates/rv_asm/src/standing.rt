//! Whether lines can be assembled.

ghost use Rattle.std.specs.Prelude.{◌≡◌, ◌<◌, IsTrue, IfOk, length, unwrap_or};
ghost use Rattle.std.specs.Ordering.{nat_cmp};
ghost use Rattle.std.specs.BTreeMap.{get};
ghost use Rattle.rv_model.specs.Format.{is_below, is_signed, is_unordered as unordered_spec, fits as fits_spec};
ghost use Rattle.rv_model.specs.Table.{format, IsWellFormed};
ghost use Rattle.rv_asm.specs.Lines.{AreLines};
ghost use Rattle.rv_asm.specs.Standing.{StandsAt, is_branch as branch_spec, label_of as label_spec};

use crate::labels::label_lines;
use rv_model::{Instr, Line, Op};
use std::alloc::{AllocError, Global};
use std::collections::BTreeMap;

fn is_nothing(imm: i64) -> bool
    ensures { result ≡ is_below 1 imm }
{
    imm == 0
}

fn is_amount(imm: i64) -> bool
    ensures { result ≡ is_below 64 imm }
{
    0 <= imm && imm < 64
}

fn is_short(imm: i64) -> bool
    ensures { result ≡ is_signed 12 imm }
{
    -2048 <= imm && imm < 2048
}

fn is_unordered(instr: &Instr) -> bool
    ensures { result ≡ unordered_spec instr.now }
{
    !instr.aq && !instr.rl
}

// Whether an operation on two registers has no immediate and no order.
fn registers_fit(instr: &Instr) -> bool
    ensures { IsTrue result → IsTrue (fits_spec (format instr.now.op) instr.now) }
{
    match instr.op {
        Op::Add
        | Op::Sub
        | Op::Sll
        | Op::Slt
        | Op::Sltu
        | Op::Xor
        | Op::Srl
        | Op::Sra
        | Op::Or
        | Op::And
        | Op::Mul
        | Op::Mulh
        | Op::Mulhsu
        | Op::Mulhu
        | Op::Div
        | Op::Divu
        | Op::Rem
        | Op::Remu
        | Op::Addw
        | Op::Subw => is_nothing(instr.imm) && is_unordered(instr),
        _ => false,
    }
}

fn fits(instr: &Instr) -> bool
    ensures { IsTrue result → IsTrue (fits_spec (format instr.now.op) instr.now) }
{
    match instr.op {
        Op::Addi
        | Op::Slti
        | Op::Sltiu
        | Op::Xori
        | Op::Ori
        | Op::Andi
        | Op::Addiw
        | Op::Ld
        | Op::Lbu
        | Op::Jalr => is_short(instr.imm) && instr.rs2 == 0 && is_unordered(instr),
        Op::Slli | Op::Srli | Op::Srai => {
            is_amount(instr.imm) && instr.rs2 == 0 && is_unordered(instr)
        }
        Op::Sd => is_short(instr.imm) && instr.rd == 0 && is_unordered(instr),
        Op::AmoaddD | Op::AmoswapD | Op::AmoandD | Op::AmocasD => is_nothing(instr.imm),
        Op::Ecall => {
            is_nothing(instr.imm)
                && instr.rd == 0
                && instr.rs1 == 0
                && instr.rs2 == 0
                && is_unordered(instr)
        }
        _ => registers_fit(instr),
    }
}

// Whether an instruction is well-formed. Branches, JAL, LUI and AUIPC aren't looked at: lines have other
// forms for what they do.
fn is_well_formed(instr: &Instr) -> bool
    ensures { IsTrue result → IsWellFormed instr.now }
{
    instr.rd < 32 && instr.rs1 < 32 && instr.rs2 < 32 && fits(instr)
}

fn is_branch(op: Op) -> bool
    ensures { result ≡ branch_spec op }
{
    matches!(
        op,
        Op::Beq | Op::Bne | Op::Blt | Op::Bge | Op::Bltu | Op::Bgeu
    )
}

// The label that a line defines or names; 0 where there is none.
fn label_of(line: &Line) -> u32
    ensures { result ≡ label_spec line.now }
{
    match line {
        Line::Label(label) | Line::CodeOf { label, .. } => *label,
        Line::Branch { to, .. } | Line::Jump { to, .. } => *to,
        Line::Plain(_) | Line::Const { .. } => 0,
    }
}

// Whether a line may stand at this place among so many, where its label is defined by another.
fn stands_at(line: &Line, place: usize, count: usize, defined: usize) -> bool
    ensures { IsTrue result → StandsAt count place defined line.now }
{
    match line {
        Line::Label(_) => defined == place && place < count.saturating_sub(1),
        Line::Plain(instr) => is_well_formed(instr),
        Line::Branch { op, rs1, rs2, .. } => {
            is_branch(*op) && *rs1 < 32 && *rs2 < 32 && defined < count
        }
        Line::Jump { rd, .. } | Line::CodeOf { rd, .. } => *rd < 32 && defined < count,
        Line::Const { rd, .. } => *rd < 32,
    }
}

// The number of the line that defines the label of a line; `count` where there is none.
fn definition_of(numbers: &BTreeMap<u32, usize>, line: &Line, count: usize) -> usize
    ensures { result ≡ unwrap_or (get nat_cmp numbers.now (label_spec line.now)) count }
{
    numbers.get(&label_of(line)).copied().unwrap_or(count)
}

/// Whether lines can be assembled: their registers are below 32, their instructions are well-formed, each
/// label is defined once, each that is named is defined, and the last line is no label. Lines with an
/// instruction that is a branch, JAL, LUI or AUIPC and no line of its own form don't pass.
pub fn are_lines(alloc: Global, lines: &[Line]) -> Result<bool, AllocError>
    ensures { IfOk result (λ stand. IsTrue stand → AreLines lines.now) }
{
    let numbers = label_lines(alloc, lines)?;
    for (place, line) in lines.iter().enumerate() {
        let defined = definition_of(&numbers, line, lines.len());
        if !stands_at(line, place, lines.len(), defined) {
            return Ok(false);
        }
    }
    Ok(true)
}
