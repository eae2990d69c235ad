//! From lines to code.

ghost use Rattle.std.specs.Prelude.{◌≡◌, ◌≤◌, ◌^◌, ◌++◌, List, map, length, IfOk, IfErr, OnOk, pos};
ghost use Rattle.rv_model.specs.Format.{plain};
ghost use Rattle.rv_asm.specs.Lines.{AreLines, offset as offset_spec, opposite as opposite_spec, line_code};
ghost use Rattle.rv_asm.specs.Layout.{Assembles, IsRefused, count_of, code_of, places_of};
ghost use Rattle.rv_model.specs.declared.instr.Instr.{Instr as InstrOf};
ghost use Rattle.rv_model.specs.declared.line.Line.{Line as LineOf};
ghost use Rattle.rv_asm.specs.declared.assembled.LabelPlace.{LabelPlace as LabelPlaceOf};
ghost use Rattle.rv_asm.specs.Doing.{DoesLines};
ghost use Rattle.rv_asm.specs.Found.{layout_of, line_named, AreSettled};

use crate::assembled::{Assembled, LabelPlace};
use crate::constant::{put_constant, put_pair};
use crate::labels::named_lines;
use crate::layout::{Settled, settle};
use fx_base::{LimitKind, Refusal};
use rv_model::{Code, Instr, Items, Line, Op};
use std::alloc::{AllocError, Global};

/// The most instructions that an image may have.
pub const MOST: u64 = 262_144;

// How far it is from an instruction to another, in bytes.
fn offset(from: u64, to: u64) -> i64
    requires { (from ≤ 2 ^ 20) × (to ≤ 2 ^ 20) }
    ensures { result ≡ offset_spec from to }
{
    (to as i64 - from as i64) * 4
}

// The branch that is taken where this one isn't.
fn opposite(op: Op) -> Op
    ensures { result ≡ opposite_spec op }
{
    match op {
        Op::Beq => Op::Bne,
        Op::Bne => Op::Beq,
        Op::Blt => Op::Bge,
        Op::Bge => Op::Blt,
        Op::Bltu => Op::Bgeu,
        Op::Bgeu => Op::Bltu,
        other => other,
    }
}

fn branch(op: Op, rs1: u8, rs2: u8, imm: i64) -> Instr
    ensures { result ≡ plain op 0 rs1 rs2 imm }
{
    Instr {
        op,
        rd: 0,
        rs1,
        rs2,
        imm,
        aq: false,
        rl: false,
    }
}

fn jump(rd: u8, imm: i64) -> Instr
    ensures { result ≡ plain Op.Jal rd 0 0 imm }
{
    Instr {
        op: Op::Jal,
        rd,
        rs1: 0,
        rs2: 0,
        imm,
        aq: false,
        rl: false,
    }
}

// The instructions of a line that begins at instruction `at`, and whose label is at instruction `to`.
fn put_line(
    code: &mut Vec<Instr>,
    line: &Line,
    long: bool,
    at: u64,
    to: u64,
) -> Result<(), AllocError>
    requires { (at ≤ 262144) × (to ≤ 262144) }
    ensures { OnOk result (code.new.items ≡ code.old.items ++ line_code at to long line.now) }
{
    match line {
        Line::Label(_) => Ok(()),
        Line::Plain(instr) => code.extend_from_slice(&[*instr]),
        Line::Branch { op, rs1, rs2, .. } => {
            if long {
                code.extend_from_slice(&[
                    branch(opposite(*op), *rs1, *rs2, 8),
                    jump(0, offset(at + 1, to)),
                ])
            } else {
                code.extend_from_slice(&[branch(*op, *rs1, *rs2, offset(at, to))])
            }
        }
        Line::Jump { rd, .. } => code.extend_from_slice(&[jump(*rd, offset(at, to))]),
        Line::Const { rd, value } => put_constant(code, *rd, *value),
        Line::CodeOf { rd, .. } => put_pair(code, *rd, 4 * to),
    }
}

// The instructions of all lines.
fn put_lines(
    alloc: Global,
    lines: &[Line],
    named: &[usize],
    settled: &Settled,
) -> Result<Vec<Instr>, AllocError>
    requires named { named.now ≡ map (line_named lines.now) lines.now }
    requires settled { AreSettled lines.now settled.now.long.items settled.now.starts.items }
    requires short { count_of (layout_of settled.now.long.items) lines.now ≤ 262144 }
    ensures { IfOk result (λ code. code.items ≡ code_of (layout_of settled.now.long.items) lines.now) }
{
    let mut code = Vec::new(alloc);
    for (k, line) in lines.iter().enumerate() {
        let at = settled.starts[k];
        let to = settled.starts[named[k]];
        put_line(&mut code, line, settled.long[k], at, to)?;
    }
    Ok(code)
}

// Each label with its address.
fn label_places(
    alloc: Global,
    lines: &[Line],
    settled: &Settled,
) -> Result<Vec<LabelPlace>, AllocError>
    requires settled { AreSettled lines.now settled.now.long.items settled.now.starts.items }
    requires short { count_of (layout_of settled.now.long.items) lines.now ≤ 262144 }
    ensures { IfOk result (λ places. places.items ≡ places_of (layout_of settled.now.long.items) lines.now) }
{
    let mut places = Vec::new(alloc);
    for (k, line) in lines.iter().enumerate() {
        if let Line::Label(label) = line {
            places.push(LabelPlace {
                label: *label,
                pc: 4 * settled.starts[k],
            })?;
        }
    }
    Ok(places)
}

/// The code that the lines stand for, with as few long branches as possible, and the places of the labels.
pub fn assemble(alloc: Global, lines: &[Line]) -> Result<Assembled, Refusal>
    requires { AreLines lines.now }
    ensures assembles { IfOk result (λ a. Assembles lines.now a.code a.places) }
    ensures short { IfOk result (λ a. length a.code ≤ 262144) }
    ensures refused { IfErr result (λ refusal. IsRefused lines.now refusal) }
{
    let named = named_lines(alloc, lines)?;
    let settled = settle(alloc, lines, &named)?;
    let count = settled.starts[lines.len()];
    if count > MOST {
        return Err(Refusal::Limit {
            kind: LimitKind::Code,
            found: count,
            bound: MOST,
        });
    }
    let code = put_lines(alloc, lines, &named, &settled)?;
    let places = label_places(alloc, lines, &settled)?;
    Ok(Assembled {
        code: Code::new(code),
        places: Items::from_vec(places),
    })
}

/// The code of some lines does what each of them says, from where the line begins to where the next one
/// begins, or to its label.
pub fn lines_are_done()
    ensures { (lines : List LineOf) (code : List InstrOf) (places : List LabelPlaceOf) (assembled : Assembles lines code places) → AreLines lines → length code ≤ 262144 → DoesLines lines code assembled.long }
{}
