//! Instructions.

/// An operation, by its name in the RISC-V unprivileged manual.
///
/// Its format, its fixed bits and what it does stand in `specs/Table.antt`, one line each.
#[derive(Clone, Copy, PartialEq, Eq, Debug)]
pub enum Op {
    Add,
    Sub,
    Sll,
    Slt,
    Sltu,
    Xor,
    Srl,
    Sra,
    Or,
    And,
    Mul,
    Mulh,
    Mulhsu,
    Mulhu,
    Div,
    Divu,
    Rem,
    Remu,
    Addw,
    Subw,
    Addi,
    Slti,
    Sltiu,
    Xori,
    Ori,
    Andi,
    Slli,
    Srli,
    Srai,
    Addiw,
    Ld,
    Lbu,
    Jalr,
    Sd,
    Beq,
    Bne,
    Blt,
    Bge,
    Bltu,
    Bgeu,
    Lui,
    Auipc,
    Jal,
    AmoaddD,
    AmoswapD,
    AmoandD,
    AmocasD,
    Ecall,
}

/// An instruction. A field that its format lacks is 0 or false.
///
/// A plain value: that registers are below 32 and that the immediate fits is kept by `Code`.
#[derive(Clone, Copy, PartialEq, Eq, Debug)]
pub struct Instr {
    pub op: Op,
    /// The register that gets the result.
    pub rd: u8,
    pub rs1: u8,
    pub rs2: u8,
    /// In bytes for branches and jumps; for LUI and AUIPC the upper 20 bits, without sign.
    pub imm: i64,
    /// Acquire, of an atomic operation.
    pub aq: bool,
    /// Release, of an atomic operation.
    pub rl: bool,
}
