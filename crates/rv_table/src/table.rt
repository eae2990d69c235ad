//! The table, and both directions.

ghost use Rattle.std.specs.Prelude.{◌≡◌, ◌↔◌, false, Some, IfSome, IsNone};
ghost use Rattle.rv_model.specs.Format.{parts_of};
ghost use Rattle.rv_model.specs.Table.{IsWellFormed, bits_of, decoded, read_as as read_spec};
ghost use Rattle.rv_model.specs.declared.instr.Op.{Op as OpOf};
ghost use Rattle.rv_table.specs.Seen.{seen_parts, instr_parts, instr_fields};
ghost use Rattle.rv_table.specs.Rows.{has_bits, row_of};

use crate::parts::Parts;
use crate::rows::{Row, find};
use crate::{read, write};
use rv_model::{Instr, Op};

// The rows: the format, the operation, and the fixed bits: opcode, funct3, and funct7, funct6 or funct5.
macro_rules! with_rows {
    ($then:ident $($argument:tt)*) => {
        $then! { $($argument)*;
            register Add 0b0110011 0b000 0b0000000;
            register Sub 0b0110011 0b000 0b0100000;
            register Sll 0b0110011 0b001 0b0000000;
            register Slt 0b0110011 0b010 0b0000000;
            register Sltu 0b0110011 0b011 0b0000000;
            register Xor 0b0110011 0b100 0b0000000;
            register Srl 0b0110011 0b101 0b0000000;
            register Sra 0b0110011 0b101 0b0100000;
            register Or 0b0110011 0b110 0b0000000;
            register And 0b0110011 0b111 0b0000000;
            register Mul 0b0110011 0b000 0b0000001;
            register Mulh 0b0110011 0b001 0b0000001;
            register Mulhsu 0b0110011 0b010 0b0000001;
            register Mulhu 0b0110011 0b011 0b0000001;
            register Div 0b0110011 0b100 0b0000001;
            register Divu 0b0110011 0b101 0b0000001;
            register Rem 0b0110011 0b110 0b0000001;
            register Remu 0b0110011 0b111 0b0000001;
            register Addw 0b0111011 0b000 0b0000000;
            register Subw 0b0111011 0b000 0b0100000;
            immediate Addi 0b0010011 0b000;
            immediate Slti 0b0010011 0b010;
            immediate Sltiu 0b0010011 0b011;
            immediate Xori 0b0010011 0b100;
            immediate Ori 0b0010011 0b110;
            immediate Andi 0b0010011 0b111;
            shift Slli 0b0010011 0b001 0b000000;
            shift Srli 0b0010011 0b101 0b000000;
            shift Srai 0b0010011 0b101 0b010000;
            immediate Addiw 0b0011011 0b000;
            immediate Ld 0b0000011 0b011;
            immediate Lbu 0b0000011 0b100;
            immediate Jalr 0b1100111 0b000;
            store Sd 0b0100011 0b011;
            branch Beq 0b1100011 0b000;
            branch Bne 0b1100011 0b001;
            branch Blt 0b1100011 0b100;
            branch Bge 0b1100011 0b101;
            branch Bltu 0b1100011 0b110;
            branch Bgeu 0b1100011 0b111;
            upper Lui 0b0110111;
            upper Auipc 0b0010111;
            jump Jal 0b1101111;
            atomic AmoaddD 0b0101111 0b011 0b00000;
            atomic AmoswapD 0b0101111 0b011 0b00001;
            atomic AmoandD 0b0101111 0b011 0b01100;
            atomic AmocasD 0b0101111 0b011 0b00101;
            system Ecall 0b1110011;
        }
    };
}

// The mask of a format.
macro_rules! mask {
    (register) => { 0xFE00_707F };
    (shift) => { 0xFC00_707F };
    (atomic) => { 0xF800_707F };
    (immediate) => { 0x707F };
    (store) => { 0x707F };
    (branch) => { 0x707F };
    (upper) => { 0x7F };
    (jump) => { 0x7F };
    (system) => { 0xFFFF_FFFF };
}

// The fixed bits of a row in their places.
macro_rules! fixed {
    (register $opcode:literal $funct3:literal $funct7:literal) => { $opcode + ($funct3 << 12) + ($funct7 << 25) };
    (shift $opcode:literal $funct3:literal $funct6:literal) => { $opcode + ($funct3 << 12) + ($funct6 << 26) };
    (atomic $opcode:literal $funct3:literal $funct5:literal) => { $opcode + ($funct3 << 12) + ($funct5 << 27) };
    ($format:ident $opcode:literal $funct3:literal) => { $opcode + ($funct3 << 12) };
    ($format:ident $opcode:literal) => { $opcode };
}

macro_rules! as_rows {
    (; $($format:ident $op:ident $($bits:literal)+;)+) => {
        [$(Row { mask: mask!($format), bits: fixed!($format $($bits)+), op: Op::$op },)+]
    };
}

macro_rules! as_writes {
    ($instr:ident; $($format:ident $op:ident $($bits:literal)+;)+) => {
        match $instr.op { $(Op::$op => write::$format($instr, $($bits),+),)+ }
    };
}

macro_rules! as_reads {
    ($op:ident $parts:ident; $($format:ident $row:ident $($bits:literal)+;)+) => {
        match $op { $(Op::$row => read::$format(Op::$row, $parts),)+ }
    };
}

/// The 48 rows.
pub static ROWS: [Row; 48] = with_rows!(as_rows);

fn parts_of_instr(instr: &Instr) -> Parts
    requires { IsWellFormed instr.now }
    ensures { seen_parts result ≡ instr_parts instr.now }
{
    with_rows!(as_writes instr)
}

/// The word of a well-formed instruction.
pub fn encode(instr: &Instr) -> u32
    requires { IsWellFormed instr.now }
    ensures is { result ≡ bits_of instr.now }
    ensures back { decoded result ≡ Some instr.now }
{
    parts_of_instr(instr).packed()
}

// What an operation reads in the parts of a word.
fn read_as(op: Op, parts: &Parts) -> Instr
    ensures { result ≡ instr_fields op (seen_parts parts.now) }
{
    with_rows!(as_reads op parts)
}

/// The instruction whose word this is; None where no row has the word's bits.
pub fn decode(word: u32) -> Option<Instr>
    ensures is { result ≡ decoded word }
    ensures back { IfSome result (λ i. bits_of i ≡ word) }
    ensures well_formed { IfSome result IsWellFormed }
    ensures none { IsNone result ↔ ((op : OpOf) → has_bits word (row_of op) ≡ false) }
{
    let row = find(&ROWS, word)?;
    Some(read_as(ROWS[row].op, &Parts::of(word)))
}
