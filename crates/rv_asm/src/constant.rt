//! Instructions that put a number into a register.

ghost use Rattle.std.specs.Prelude.{◌≡◌, ℕ, ◌≤◌, ◌++◌, ◌%◌, ◌^◌, OnOk, length};
ghost use Rattle.rv_model.specs.Format.{plain, signed};
ghost use Rattle.rv_asm.specs.Constant as spec;

use rv_model::{Instr, Op};
use std::alloc::AllocError;

fn instr(op: Op, rd: u8, rs1: u8, imm: i64) -> Instr
    ensures { result ≡ plain op rd rs1 0 imm }
{
    Instr {
        op,
        rd,
        rs1,
        rs2: 0,
        imm,
        aq: false,
        rl: false,
    }
}

// The low 12 bits of a number, with their sign.
fn low_signed(value: u64) -> i64
    ensures { result ≡ signed 12 (value % 2 ^ 12) }
{
    let low = value % (1 << 12);
    if low < 1 << 11 {
        low as i64
    } else {
        low as i64 - (1 << 12)
    }
}

fn is_small(value: u64) -> bool
    ensures { result ≡ spec.is_small value }
{
    value.wrapping_add(1 << 11) < 1 << 12
}

fn is_middle(value: u64) -> bool
    ensures { result ≡ spec.is_middle value }
{
    value.wrapping_add(1 << 31) < 1 << 32
}

/// How many instructions put this number into a register.
pub fn constant_size(value: u64) -> u64
    ensures is { (rd : ℕ) → result ≡ length (spec.constant rd value) }
    ensures few { result ≤ 8 }
{
    if is_small(value) {
        1
    } else if is_middle(value) {
        2
    } else {
        8
    }
}

/// The low 32 bits of a number, their sign extended.
pub fn put_pair(code: &mut Vec<Instr>, rd: u8, value: u64) -> Result<(), AllocError>
    ensures { OnOk result (code.new.items ≡ code.old.items ++ spec.pair rd value) }
{
    let upper = ((value.wrapping_add(1 << 11) >> 12) % (1 << 20)) as i64;
    code.extend_from_slice(&[
        instr(Op::Lui, rd, 0, upper),
        instr(Op::Addiw, rd, rd, low_signed(value)),
    ])
}

fn put_large(code: &mut Vec<Instr>, rd: u8, value: u64) -> Result<(), AllocError>
    ensures { OnOk result (code.new.items ≡ code.old.items ++ spec.large_constant rd value) }
{
    put_pair(code, rd, value >> 32)?;
    code.extend_from_slice(&[
        instr(Op::Slli, rd, rd, 11),
        instr(Op::Addi, rd, rd, ((value >> 21) % (1 << 11)) as i64),
        instr(Op::Slli, rd, rd, 11),
        instr(Op::Addi, rd, rd, ((value >> 10) % (1 << 11)) as i64),
        instr(Op::Slli, rd, rd, 10),
        instr(Op::Addi, rd, rd, (value % (1 << 10)) as i64),
    ])
}

/// Instructions that put this number into a register.
pub fn put_constant(code: &mut Vec<Instr>, rd: u8, value: u64) -> Result<(), AllocError>
    ensures { OnOk result (code.new.items ≡ code.old.items ++ spec.constant rd value) }
{
    if is_small(value) {
        code.extend_from_slice(&[instr(Op::Addi, rd, 0, low_signed(value))])
    } else if is_middle(value) {
        put_pair(code, rd, value)
    } else {
        put_large(code, rd, value)
    }
}
