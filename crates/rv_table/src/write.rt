//! From an instruction to the parts of its word, format by format.

ghost use Rattle.std.specs.Prelude.{◌≡◌, ℕ, ◌<◌, ◌≤◌, ◌+◌, ◌*◌, ◌/◌, ◌%◌, ◌^◌};
ghost use Rattle.rv_model.specs.Format.{Register, Immediate, Shift, Store, Branch, Upper, Jump, Atomic, System, branch_above, branch_below, jump_bits, parts as parts_spec};
ghost use Rattle.rv_model.specs.Word.{word_of, bit as bit_spec};
ghost use Rattle.rv_table.specs.Seen.{seen_parts, HasRegisters};

use crate::parts::Parts;
use rv_model::Instr;

// The low bits of an immediate in two's complement, as many as make the numbers below the limit.
fn low(imm: i64, limit: u64) -> u32
    requires some { 0 < limit }
    requires limit { limit ≤ 2 ^ 32 }
    ensures { result ≡ word_of imm % limit }
{
    (imm.cast_unsigned() % limit) as u32
}

fn bit(b: bool) -> u32
    ensures { result ≡ bit_spec b }
{
    if b { 1 } else { 0 }
}

pub fn register(instr: &Instr, opcode: u32, funct3: u32, funct7: u32) -> Parts
    requires registers { HasRegisters instr.now }
    requires fixed { (opcode < 2 ^ 7) × (funct3 < 2 ^ 3) × (funct7 < 2 ^ 7) }
    ensures { seen_parts result ≡ parts_spec (Register opcode funct3 funct7) instr.now }
{
    Parts {
        opcode,
        rd: u32::from(instr.rd),
        funct3,
        rs1: u32::from(instr.rs1),
        rs2: u32::from(instr.rs2),
        funct7,
    }
}

pub fn immediate(instr: &Instr, opcode: u32, funct3: u32) -> Parts
    requires registers { HasRegisters instr.now }
    requires fixed { (opcode < 2 ^ 7) × (funct3 < 2 ^ 3) }
    ensures { seen_parts result ≡ parts_spec (Immediate opcode funct3) instr.now }
{
    let imm = low(instr.imm, 1 << 12);
    Parts {
        opcode,
        rd: u32::from(instr.rd),
        funct3,
        rs1: u32::from(instr.rs1),
        rs2: imm % (1 << 5),
        funct7: imm >> 5,
    }
}

pub fn shift(instr: &Instr, opcode: u32, funct3: u32, funct6: u32) -> Parts
    requires registers { HasRegisters instr.now }
    requires fixed { (opcode < 2 ^ 7) × (funct3 < 2 ^ 3) × (funct6 < 2 ^ 6) }
    ensures { seen_parts result ≡ parts_spec (Shift opcode funct3 funct6) instr.now }
{
    let amount = low(instr.imm, 1 << 6);
    Parts {
        opcode,
        rd: u32::from(instr.rd),
        funct3,
        rs1: u32::from(instr.rs1),
        rs2: amount % (1 << 5),
        funct7: (funct6 << 1) + (amount >> 5),
    }
}

pub fn store(instr: &Instr, opcode: u32, funct3: u32) -> Parts
    requires registers { HasRegisters instr.now }
    requires fixed { (opcode < 2 ^ 7) × (funct3 < 2 ^ 3) }
    ensures { seen_parts result ≡ parts_spec (Store opcode funct3) instr.now }
{
    let imm = low(instr.imm, 1 << 12);
    Parts {
        opcode,
        rd: imm % (1 << 5),
        funct3,
        rs1: u32::from(instr.rs1),
        rs2: u32::from(instr.rs2),
        funct7: imm >> 5,
    }
}

// Bits 4 to 1 and 11 of an offset.
fn below(offset: u32) -> u32
    requires { offset < 2 ^ 13 }
    ensures { result ≡ branch_below offset }
{
    (((offset >> 1) % (1 << 4)) << 1) + (offset >> 11) % 2
}

// Bits 12 and 10 to 5 of an offset.
fn above(offset: u32) -> u32
    requires { offset < 2 ^ 13 }
    ensures { result ≡ branch_above offset }
{
    ((offset >> 12) << 6) + (offset >> 5) % (1 << 6)
}

pub fn branch(instr: &Instr, opcode: u32, funct3: u32) -> Parts
    requires registers { HasRegisters instr.now }
    requires fixed { (opcode < 2 ^ 7) × (funct3 < 2 ^ 3) }
    ensures { seen_parts result ≡ parts_spec (Branch opcode funct3) instr.now }
{
    let offset = low(instr.imm, 1 << 13);
    Parts {
        opcode,
        rd: below(offset),
        funct3,
        rs1: u32::from(instr.rs1),
        rs2: u32::from(instr.rs2),
        funct7: above(offset),
    }
}

pub fn upper(instr: &Instr, opcode: u32) -> Parts
    requires registers { HasRegisters instr.now }
    requires fixed { opcode < 2 ^ 7 }
    ensures { seen_parts result ≡ parts_spec (Upper opcode) instr.now }
{
    Parts::with_upper(opcode, u32::from(instr.rd), low(instr.imm, 1 << 20))
}

// The bits of a jump's offset in their places: 20, 10 to 1, 11, 19 to 12.
fn jump_upper(offset: u32) -> u32
    requires { offset < 2 ^ 21 }
    ensures { result ≡ jump_bits offset }
{
    ((offset >> 20) << 19)
        + (((offset >> 1) % (1 << 10)) << 9)
        + (((offset >> 11) % 2) << 8)
        + (offset >> 12) % (1 << 8)
}

pub fn jump(instr: &Instr, opcode: u32) -> Parts
    requires registers { HasRegisters instr.now }
    requires fixed { opcode < 2 ^ 7 }
    ensures { seen_parts result ≡ parts_spec (Jump opcode) instr.now }
{
    let upper = jump_upper(low(instr.imm, 1 << 21));
    Parts::with_upper(opcode, u32::from(instr.rd), upper)
}

pub fn atomic(instr: &Instr, opcode: u32, funct3: u32, funct5: u32) -> Parts
    requires registers { HasRegisters instr.now }
    requires fixed { (opcode < 2 ^ 7) × (funct3 < 2 ^ 3) × (funct5 < 2 ^ 5) }
    ensures { seen_parts result ≡ parts_spec (Atomic opcode funct3 funct5) instr.now }
{
    Parts {
        opcode,
        rd: u32::from(instr.rd),
        funct3,
        rs1: u32::from(instr.rs1),
        rs2: u32::from(instr.rs2),
        funct7: (funct5 << 2) + (bit(instr.aq) << 1) + bit(instr.rl),
    }
}

pub fn system(_instr: &Instr, opcode: u32) -> Parts
    requires fixed { opcode < 2 ^ 7 }
    ensures { seen_parts result ≡ parts_spec (System opcode) _instr.now }
{
    Parts::with_upper(opcode, 0, 0)
}
