//! Instructions as text.

ghost use Rattle.std.specs.Prelude.{◌≡◌, ◌++◌, ◌∷◌, [], ◌<◌, OnOk, codes};
ghost use Rattle.std.specs.Fmt.{decimal, signed_decimal};
ghost use Rattle.rv_asm.specs.Text as spec;
ghost use Rattle.rv_asm.specs.Text.{text_of};

use itoa::Buffer;
use rv_model::{Instr, Op};
use std::alloc::AllocError;

/// Appends some text.
pub fn put(text: &mut Vec<u8>, piece: &[u8]) -> Result<(), AllocError>
    ensures { OnOk result (text.new.items ≡ text.old.items ++ piece.now) }
{
    text.extend_from_slice(piece)
}

/// Appends some text and a number in decimal.
pub fn put_number(text: &mut Vec<u8>, before: &[u8], number: u64) -> Result<(), AllocError>
    ensures { OnOk result (text.new.items ≡ text.old.items ++ (before.now ++ decimal number)) }
{
    let mut buffer = Buffer::new();
    text.extend_from_slice(before)?;
    text.extend_from_slice(buffer.format(number).as_bytes())
}

// Appends some text and the number of a register.
fn put_register(text: &mut Vec<u8>, before: &[u8], register: u8) -> Result<(), AllocError>
    ensures { OnOk result (text.new.items ≡ text.old.items ++ (before.now ++ decimal register)) }
{
    put_number(text, before, u64::from(register))
}

// Appends some text and an immediate.
fn put_immediate(text: &mut Vec<u8>, before: &[u8], immediate: i64) -> Result<(), AllocError>
    ensures { OnOk result (text.new.items ≡ text.old.items ++ (before.now ++ signed_decimal immediate)) }
{
    let mut buffer = Buffer::new();
    text.extend_from_slice(before)?;
    text.extend_from_slice(buffer.format(immediate).as_bytes())
}

fn hex_digit(digit: u8) -> u8
    requires { digit < 16 }
    ensures { result ≡ spec.hex_digit digit }
{
    if digit < 10 {
        b'0' + digit
    } else {
        b'a' - 10 + digit
    }
}

/// Appends two hexadecimal digits for each byte.
pub fn put_hex(text: &mut Vec<u8>, bytes: &[u8]) -> Result<(), AllocError>
    ensures { OnOk result (text.new.items ≡ text.old.items ++ spec.hex_bytes bytes.now) }
{
    for byte in bytes {
        text.push(hex_digit(*byte / 16))?;
        text.push(hex_digit(*byte % 16))?;
    }
    Ok(())
}

fn registers(text: &mut Vec<u8>, name: &[u8], instr: &Instr) -> Result<(), AllocError>
    ensures { OnOk result (text.new.items ≡ text.old.items ++ spec.registers name.now instr.now) }
{
    put(text, name)?;
    put_register(text, b" x", instr.rd)?;
    put_register(text, b", x", instr.rs1)?;
    put_register(text, b", x", instr.rs2)
}

fn immediate(text: &mut Vec<u8>, name: &[u8], instr: &Instr) -> Result<(), AllocError>
    ensures { OnOk result (text.new.items ≡ text.old.items ++ spec.immediate name.now instr.now) }
{
    put(text, name)?;
    put_register(text, b" x", instr.rd)?;
    put_register(text, b", x", instr.rs1)?;
    put_immediate(text, b", ", instr.imm)
}

// An offset and the register that it is added to.
fn put_address(text: &mut Vec<u8>, instr: &Instr) -> Result<(), AllocError>
    ensures { OnOk result (text.new.items ≡ text.old.items ++ ((codes ", " ++ signed_decimal instr.now.imm) ++ ((codes "(x" ++ decimal instr.now.rs1) ++ codes ")"))) }
{
    put_immediate(text, b", ", instr.imm)?;
    put_register(text, b"(x", instr.rs1)?;
    put(text, b")")
}

fn address(text: &mut Vec<u8>, name: &[u8], instr: &Instr) -> Result<(), AllocError>
    ensures { OnOk result (text.new.items ≡ text.old.items ++ spec.address name.now instr.now) }
{
    put(text, name)?;
    put_register(text, b" x", instr.rd)?;
    put_address(text, instr)
}

fn store(text: &mut Vec<u8>, name: &[u8], instr: &Instr) -> Result<(), AllocError>
    ensures { OnOk result (text.new.items ≡ text.old.items ++ spec.store name.now instr.now) }
{
    put(text, name)?;
    put_register(text, b" x", instr.rs2)?;
    put_address(text, instr)
}

fn branch(text: &mut Vec<u8>, name: &[u8], instr: &Instr) -> Result<(), AllocError>
    ensures { OnOk result (text.new.items ≡ text.old.items ++ spec.branch name.now instr.now) }
{
    put(text, name)?;
    put_register(text, b" x", instr.rs1)?;
    put_register(text, b", x", instr.rs2)?;
    put_immediate(text, b", ", instr.imm)
}

fn upper(text: &mut Vec<u8>, name: &[u8], instr: &Instr) -> Result<(), AllocError>
    ensures { OnOk result (text.new.items ≡ text.old.items ++ spec.upper name.now instr.now) }
{
    put(text, name)?;
    put_register(text, b" x", instr.rd)?;
    put_immediate(text, b", ", instr.imm)
}

// What stands after the name of an atomic operation.
fn order(instr: &Instr) -> &'static [u8]
    ensures { result.now ≡ spec.order instr.now.aq instr.now.rl }
{
    match (instr.aq, instr.rl) {
        (true, true) => b".aqrl",
        (true, false) => b".aq",
        (false, true) => b".rl",
        (false, false) => b"",
    }
}

fn atomic(text: &mut Vec<u8>, name: &[u8], instr: &Instr) -> Result<(), AllocError>
    ensures { OnOk result (text.new.items ≡ text.old.items ++ spec.atomic name.now instr.now) }
{
    put(text, name)?;
    put(text, order(instr))?;
    put_register(text, b" x", instr.rd)?;
    put_register(text, b", x", instr.rs2)?;
    put_register(text, b", (x", instr.rs1)?;
    put(text, b")")
}

fn bare(text: &mut Vec<u8>, name: &[u8], _instr: &Instr) -> Result<(), AllocError>
    ensures { OnOk result (text.new.items ≡ text.old.items ++ name.now) }
{
    put(text, name)
}

// Operations with their texts, each by the form of its operands and its name.
macro_rules! text_by {
    ($text:ident, $instr:ident; $($form:ident $op:ident $name:literal;)+) => {
        match $instr.op { $(Op::$op => $form($text, $name, $instr),)+ }
    };
}

/// Appends the text of an instruction.
pub fn put_text(text: &mut Vec<u8>, instr: &Instr) -> Result<(), AllocError>
    ensures { OnOk result (text.new.items ≡ text.old.items ++ text_of instr.now) }
{
    text_by! { text, instr;
        registers Add b"add";
        registers Sub b"sub";
        registers Sll b"sll";
        registers Slt b"slt";
        registers Sltu b"sltu";
        registers Xor b"xor";
        registers Srl b"srl";
        registers Sra b"sra";
        registers Or b"or";
        registers And b"and";
        registers Mul b"mul";
        registers Mulh b"mulh";
        registers Mulhsu b"mulhsu";
        registers Mulhu b"mulhu";
        registers Div b"div";
        registers Divu b"divu";
        registers Rem b"rem";
        registers Remu b"remu";
        registers Addw b"addw";
        registers Subw b"subw";
        immediate Addi b"addi";
        immediate Slti b"slti";
        immediate Sltiu b"sltiu";
        immediate Xori b"xori";
        immediate Ori b"ori";
        immediate Andi b"andi";
        immediate Slli b"slli";
        immediate Srli b"srli";
        immediate Srai b"srai";
        immediate Addiw b"addiw";
        address Ld b"ld";
        address Lbu b"lbu";
        address Jalr b"jalr";
        store Sd b"sd";
        branch Beq b"beq";
        branch Bne b"bne";
        branch Blt b"blt";
        branch Bge b"bge";
        branch Bltu b"bltu";
        branch Bgeu b"bgeu";
        upper Lui b"lui";
        upper Auipc b"auipc";
        upper Jal b"jal";
        atomic AmoaddD b"amoadd.d";
        atomic AmoswapD b"amoswap.d";
        atomic AmoandD b"amoand.d";
        atomic AmocasD b"amocas.d";
        bare Ecall b"ecall";
    }
}
