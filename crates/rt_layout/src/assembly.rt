//! How lines are written: as in assembly.
//!
//! `assembly!` makes an array of lines. Labels, registers and numbers are constants, an offset stands in
//! front of its base, and each line ends with a `;`:
//!
//! ```text
//!   const TAKE_LINES: [Line; 4] = assembly![
//!       label TAKE;
//!       ld T1, F_PARENT, NEW;
//!       beq T1, ZERO, TAKE;
//!       jr LINK, 0;
//!   ];
//! ```
//!
//! Besides the operations there are `label`, `li` (a constant), `code` (a label's address), `mv`, `jump`
//! (to a label), `call` (the same with a link) and `jr` (to the address in a register, plus an offset).

/// The lines of a text of assembly.
#[macro_export]
macro_rules! assembly {
    ($($op:ident $($part:expr),*;)*) => {
        [$($crate::assembly_line!($op $($part),*)),*]
    };
}

/// The header of a block with so many words after it.
#[macro_export]
macro_rules! header {
    ($words:literal, $tag:expr) => {
        $words * 1024 + $tag
    };
}

/// An instruction that is no atomic operation with an order.
#[macro_export]
macro_rules! plain_line {
    ($op:ident, $rd:expr, $rs1:expr, $rs2:expr, $imm:expr) => {
        $crate::Line::Plain($crate::Instr {
            op: $crate::Op::$op,
            rd: $rd,
            rs1: $rs1,
            rs2: $rs2,
            imm: $imm,
            aq: false,
            rl: false,
        })
    };
}

/// A branch to a label.
#[macro_export]
macro_rules! branch_line {
    ($op:ident, $rs1:expr, $rs2:expr, $to:expr) => {
        $crate::Line::Branch {
            op: $crate::Op::$op,
            rs1: $rs1,
            rs2: $rs2,
            to: $to,
        }
    };
}

/// A line of assembly.
#[macro_export]
macro_rules! assembly_line {
    (label $label:expr) => {
        $crate::Line::Label($label)
    };
    (li $rd:expr, $value:expr) => {
        $crate::Line::Const {
            rd: $rd,
            value: $value,
        }
    };
    (code $rd:expr, $label:expr) => {
        $crate::Line::CodeOf {
            rd: $rd,
            label: $label,
        }
    };
    (jump $to:expr) => {
        $crate::Line::Jump { rd: 0, to: $to }
    };
    (call $link:expr, $to:expr) => {
        $crate::Line::Jump { rd: $link, to: $to }
    };
    (jr $base:expr, $at:expr) => {
        $crate::plain_line!(Jalr, 0, $base, 0, $at)
    };
    (mv $rd:expr, $rs:expr) => {
        $crate::plain_line!(Addi, $rd, $rs, 0, 0)
    };
    (ld $rd:expr, $at:expr, $base:expr) => {
        $crate::plain_line!(Ld, $rd, $base, 0, $at as i64)
    };
    (lbu $rd:expr, $at:expr, $base:expr) => {
        $crate::plain_line!(Lbu, $rd, $base, 0, $at as i64)
    };
    (sd $value:expr, $at:expr, $base:expr) => {
        $crate::plain_line!(Sd, 0, $base, $value, $at as i64)
    };
    (ecall) => {
        $crate::plain_line!(Ecall, 0, 0, 0, 0)
    };
    (add $rd:expr, $rs1:expr, $rs2:expr) => {
        $crate::plain_line!(Add, $rd, $rs1, $rs2, 0)
    };
    (sub $rd:expr, $rs1:expr, $rs2:expr) => {
        $crate::plain_line!(Sub, $rd, $rs1, $rs2, 0)
    };
    (sll $rd:expr, $rs1:expr, $rs2:expr) => {
        $crate::plain_line!(Sll, $rd, $rs1, $rs2, 0)
    };
    (slt $rd:expr, $rs1:expr, $rs2:expr) => {
        $crate::plain_line!(Slt, $rd, $rs1, $rs2, 0)
    };
    (srl $rd:expr, $rs1:expr, $rs2:expr) => {
        $crate::plain_line!(Srl, $rd, $rs1, $rs2, 0)
    };
    (or $rd:expr, $rs1:expr, $rs2:expr) => {
        $crate::plain_line!(Or, $rd, $rs1, $rs2, 0)
    };
    (and $rd:expr, $rs1:expr, $rs2:expr) => {
        $crate::plain_line!(And, $rd, $rs1, $rs2, 0)
    };
    (mul $rd:expr, $rs1:expr, $rs2:expr) => {
        $crate::plain_line!(Mul, $rd, $rs1, $rs2, 0)
    };
    (divu $rd:expr, $rs1:expr, $rs2:expr) => {
        $crate::plain_line!(Divu, $rd, $rs1, $rs2, 0)
    };
    (remu $rd:expr, $rs1:expr, $rs2:expr) => {
        $crate::plain_line!(Remu, $rd, $rs1, $rs2, 0)
    };
    (subw $rd:expr, $rs1:expr, $rs2:expr) => {
        $crate::plain_line!(Subw, $rd, $rs1, $rs2, 0)
    };
    (addi $rd:expr, $rs:expr, $imm:expr) => {
        $crate::plain_line!(Addi, $rd, $rs, 0, $imm as i64)
    };
    (slli $rd:expr, $rs:expr, $imm:expr) => {
        $crate::plain_line!(Slli, $rd, $rs, 0, $imm as i64)
    };
    (srli $rd:expr, $rs:expr, $imm:expr) => {
        $crate::plain_line!(Srli, $rd, $rs, 0, $imm as i64)
    };
    (srai $rd:expr, $rs:expr, $imm:expr) => {
        $crate::plain_line!(Srai, $rd, $rs, 0, $imm as i64)
    };
    (andi $rd:expr, $rs:expr, $imm:expr) => {
        $crate::plain_line!(Andi, $rd, $rs, 0, $imm as i64)
    };
    (xori $rd:expr, $rs:expr, $imm:expr) => {
        $crate::plain_line!(Xori, $rd, $rs, 0, $imm as i64)
    };
    (callr $link:expr, $base:expr) => {
        $crate::plain_line!(Jalr, $link, $base, 0, 0)
    };
    (xor $rd:expr, $rs1:expr, $rs2:expr) => {
        $crate::plain_line!(Xor, $rd, $rs1, $rs2, 0)
    };
    (sra $rd:expr, $rs1:expr, $rs2:expr) => {
        $crate::plain_line!(Sra, $rd, $rs1, $rs2, 0)
    };
    (sltu $rd:expr, $rs1:expr, $rs2:expr) => {
        $crate::plain_line!(Sltu, $rd, $rs1, $rs2, 0)
    };
    (div $rd:expr, $rs1:expr, $rs2:expr) => {
        $crate::plain_line!(Div, $rd, $rs1, $rs2, 0)
    };
    (rem $rd:expr, $rs1:expr, $rs2:expr) => {
        $crate::plain_line!(Rem, $rd, $rs1, $rs2, 0)
    };
    (slti $rd:expr, $rs:expr, $imm:expr) => {
        $crate::plain_line!(Slti, $rd, $rs, 0, $imm as i64)
    };
    (sltiu $rd:expr, $rs:expr, $imm:expr) => {
        $crate::plain_line!(Sltiu, $rd, $rs, 0, $imm as i64)
    };
    (ori $rd:expr, $rs:expr, $imm:expr) => {
        $crate::plain_line!(Ori, $rd, $rs, 0, $imm as i64)
    };
    (amoadd $rd:expr, $value:expr, $base:expr) => {
        $crate::plain_line!(AmoaddD, $rd, $base, $value, 0)
    };
    (amoswap $rd:expr, $value:expr, $base:expr) => {
        $crate::plain_line!(AmoswapD, $rd, $base, $value, 0)
    };
    (amoand $rd:expr, $value:expr, $base:expr) => {
        $crate::plain_line!(AmoandD, $rd, $base, $value, 0)
    };
    (amocas $rd:expr, $value:expr, $base:expr) => {
        $crate::plain_line!(AmocasD, $rd, $base, $value, 0)
    };
    (beq $rs1:expr, $rs2:expr, $to:expr) => {
        $crate::branch_line!(Beq, $rs1, $rs2, $to)
    };
    (bne $rs1:expr, $rs2:expr, $to:expr) => {
        $crate::branch_line!(Bne, $rs1, $rs2, $to)
    };
    (blt $rs1:expr, $rs2:expr, $to:expr) => {
        $crate::branch_line!(Blt, $rs1, $rs2, $to)
    };
    (bge $rs1:expr, $rs2:expr, $to:expr) => {
        $crate::branch_line!(Bge, $rs1, $rs2, $to)
    };
    (bltu $rs1:expr, $rs2:expr, $to:expr) => {
        $crate::branch_line!(Bltu, $rs1, $rs2, $to)
    };
    (bgeu $rs1:expr, $rs2:expr, $to:expr) => {
        $crate::branch_line!(Bgeu, $rs1, $rs2, $to)
    };
}
