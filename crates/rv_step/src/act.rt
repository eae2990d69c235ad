//! What the operations do.

ghost use Rattle.std.specs.Prelude.{◌≡◌};
ghost use Rattle.rv_model.specs.Table as table;
ghost use Rattle.rv_step.specs.Seen.{seen_act};

use crate::arithmetic::{
    bit, difference, difference_32, high, less, product, quotient, quotient_unsigned, remainder,
    remainder_unsigned, shifted_left, shifted_right, shifted_signed, sum, sum_32, upper, widened,
};
use rv_model::Op;

/// What an instruction does, by the values of its registers; places are byte addresses.
#[derive(Clone, Copy, PartialEq, Eq, Debug)]
pub enum Act {
    Sets(u64),
    AddsPc(u64),
    Branches(bool, u64),
    Links(u64),
    LinksTo(u64),
    Loads(u64),
    LoadsByte(u64),
    Stores(u64, u64),
    Swaps(u64, u64),
    Adds(u64, u64),
    Masks(u64, u64),
    Exchanges(u64, u64, u64),
    Calls,
}

// A list of operations, each with what it does.
macro_rules! act_of {
    ($op:expr; $($row:ident: $act:ident $(($($value:expr),+))?;)+) => {
        match $op {
            $(Op::$row => Act::$act $(($($value),+))?,)+
        }
    };
}

/// What an operation does, by the values `a` of rs1, `b` of rs2 and `d` of rd, and the immediate.
pub fn effect(op: Op, a: u64, b: u64, d: u64, imm: u64) -> Act
    ensures { seen_act result ≡ table.effect op a b d imm }
{
    act_of! { op;
        Add: Sets(sum(a, b));
        Sub: Sets(difference(a, b));
        Sll: Sets(shifted_left(a, b));
        Slt: Sets(bit(less(a, b)));
        Sltu: Sets(bit(a < b));
        Xor: Sets(a ^ b);
        Srl: Sets(shifted_right(a, b));
        Sra: Sets(shifted_signed(a, b));
        Or: Sets(a | b);
        And: Sets(a & b);
        Mul: Sets(product(a, b));
        Mulh: Sets(high(widened(a), widened(b)));
        Mulhsu: Sets(high(widened(a), b as u128));
        Mulhu: Sets(high(a as u128, b as u128));
        Div: Sets(quotient(a, b));
        Divu: Sets(quotient_unsigned(a, b));
        Rem: Sets(remainder(a, b));
        Remu: Sets(remainder_unsigned(a, b));
        Addw: Sets(sum_32(a, b));
        Subw: Sets(difference_32(a, b));
        Addi: Sets(sum(a, imm));
        Slti: Sets(bit(less(a, imm)));
        Sltiu: Sets(bit(a < imm));
        Xori: Sets(a ^ imm);
        Ori: Sets(a | imm);
        Andi: Sets(a & imm);
        Slli: Sets(shifted_left(a, imm));
        Srli: Sets(shifted_right(a, imm));
        Srai: Sets(shifted_signed(a, imm));
        Addiw: Sets(sum_32(a, imm));
        Ld: Loads(sum(a, imm));
        Lbu: LoadsByte(sum(a, imm));
        Jalr: LinksTo(sum(a, imm) / 2 * 2);
        Sd: Stores(sum(a, imm), b);
        Beq: Branches(a == b, imm);
        Bne: Branches(a != b, imm);
        Blt: Branches(less(a, b), imm);
        Bge: Branches(!less(a, b), imm);
        Bltu: Branches(a < b, imm);
        Bgeu: Branches(!(a < b), imm);
        Lui: Sets(upper(imm));
        Auipc: AddsPc(upper(imm));
        Jal: Links(imm);
        AmoaddD: Adds(a, b);
        AmoswapD: Swaps(a, b);
        AmoandD: Masks(a, b);
        AmocasD: Exchanges(a, d, b);
        Ecall: Calls;
    }
}
