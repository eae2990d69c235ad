//! From the parts of a word to an instruction, format by format.

ghost use Rattle.std.specs.Prelude.{◌≡◌, ◌<◌, ◌≤◌, ◌+◌, ◌-◌, ◌*◌, ◌^◌, nat_lt, if◌then◌else◌, pos, negsuc};
ghost use Rattle.rv_model.specs.Format.{Register, Immediate, Shift, Store, Branch, Upper, Jump, Atomic, System, branch_offset, jump_offset, fields, plain as plain_spec};
ghost use Rattle.rv_table.specs.Seen.{seen_parts};

use crate::parts::Parts;
use rv_model::{Instr, Op};

// An instruction that is no atomic operation.
fn plain(op: Op, rd: u32, rs1: u32, rs2: u32, imm: i64) -> Instr
    requires registers { (rd < 2 ^ 5) × (rs1 < 2 ^ 5) × (rs2 < 2 ^ 5) }
    ensures { result ≡ plain_spec op rd rs1 rs2 imm }
{
    Instr {
        op,
        rd: rd as u8,
        rs1: rs1 as u8,
        rs2: rs2 as u8,
        imm,
        aq: false,
        rl: false,
    }
}

// The integer that a number below twice `half` is in two's complement.
fn signed(n: u32, half: u32) -> i64
    requires half { half ≤ 2 ^ 20 }
    requires below { n < 2 * half }
    ensures { result ≡ (if nat_lt n half then pos n else negsuc (2 * half - 1 - n)) }
{
    if n < half {
        i64::from(n)
    } else {
        i64::from(n) - i64::from(2 * half)
    }
}

pub fn register(op: Op, parts: &Parts) -> Instr
    ensures { result ≡ fields op (Register 0 0 0) (seen_parts parts.now) }
{
    plain(op, parts.rd, parts.rs1, parts.rs2, 0)
}

pub fn immediate(op: Op, parts: &Parts) -> Instr
    ensures { result ≡ fields op (Immediate 0 0) (seen_parts parts.now) }
{
    let imm = signed(parts.rs2 + (parts.funct7 << 5), 1 << 11);
    plain(op, parts.rd, parts.rs1, 0, imm)
}

pub fn shift(op: Op, parts: &Parts) -> Instr
    ensures { result ≡ fields op (Shift 0 0 0) (seen_parts parts.now) }
{
    let amount = parts.rs2 + ((parts.funct7 % 2) << 5);
    plain(op, parts.rd, parts.rs1, 0, i64::from(amount))
}

pub fn store(op: Op, parts: &Parts) -> Instr
    ensures { result ≡ fields op (Store 0 0) (seen_parts parts.now) }
{
    let imm = signed(parts.rd + (parts.funct7 << 5), 1 << 11);
    plain(op, 0, parts.rs1, parts.rs2, imm)
}

// The offset whose bits stand above and below the registers.
fn offset_of(above: u32, below: u32) -> u32
    requires above { above < 2 ^ 7 }
    requires below { below < 2 ^ 5 }
    ensures { result ≡ branch_offset above below }
{
    ((above >> 6) << 12) + ((below % 2) << 11) + ((above % (1 << 6)) << 5) + ((below >> 1) << 1)
}

pub fn branch(op: Op, parts: &Parts) -> Instr
    ensures { result ≡ fields op (Branch 0 0) (seen_parts parts.now) }
{
    let imm = signed(offset_of(parts.funct7, parts.rd), 1 << 12);
    plain(op, 0, parts.rs1, parts.rs2, imm)
}

pub fn upper(op: Op, parts: &Parts) -> Instr
    ensures { result ≡ fields op (Upper 0) (seen_parts parts.now) }
{
    plain(op, parts.rd, 0, 0, i64::from(parts.upper()))
}

// The offset whose bits are the upper 20 of a jump.
fn jump_of(upper: u32) -> u32
    requires { upper < 2 ^ 20 }
    ensures { result ≡ jump_offset upper }
{
    ((upper >> 19) << 20)
        + ((upper % (1 << 8)) << 12)
        + (((upper >> 8) % 2) << 11)
        + (((upper >> 9) % (1 << 10)) << 1)
}

pub fn jump(op: Op, parts: &Parts) -> Instr
    ensures { result ≡ fields op (Jump 0) (seen_parts parts.now) }
{
    let imm = signed(jump_of(parts.upper()), 1 << 20);
    plain(op, parts.rd, 0, 0, imm)
}

pub fn atomic(op: Op, parts: &Parts) -> Instr
    ensures { result ≡ fields op (Atomic 0 0 0) (seen_parts parts.now) }
{
    Instr {
        aq: (parts.funct7 >> 1) % 2 == 1,
        rl: parts.funct7 % 2 == 1,
        ..plain(op, parts.rd, parts.rs1, parts.rs2, 0)
    }
}

pub fn system(op: Op, _parts: &Parts) -> Instr
    ensures { result ≡ fields op (System 0) (seen_parts _parts.now) }
{
    plain(op, 0, 0, 0, 0)
}
