//! From an expression in postfix order to an image that prints its value.

ghost use Rattle.std.specs.Prelude.{◌≡◌, ℕ, List, ◌<◌, ◌≤◌, ◌+◌, ◌^◌, ◌∷◌, ◌++◌, [], pos, IfOk, IfErr, OnOk, length};
ghost use Rattle.effect_meaning.specs.Terms.{Place};
ghost use Rattle.rv_model.specs.declared.instr.Instr.{Instr as InstrOf};
ghost use Rattle.rv_model.specs.Format.{plain};
ghost use Rattle.effects_top.specs.Compiled.{low_bits, constant_code, push_code, operands_code, arith_code, replace_code, postfix_code, lines_of, expression_code, entry_code, print_code, stack_word_of, stack_words, start_words_of, tagged, whole_code};
ghost use Rattle.effects_top.specs.Expression.{Expression, AreIntegers, postfix_of, program_of};
ghost use Rattle.effects_top.specs.Standing.{Stands};

use crate::reader::{Arith, Postfix};
use fx_base::{Refusal, Settings};
use rv_asm::assemble;
use rv_model::{
    HARTS_WORD, Image, Instr, Items, LOG_SIZE_WORD, LOG_WORD, Line, Op, SLOTS_WORD, StartWord,
};
use std::alloc::{AllocError, Global};

// The line of an instruction: its operation, rd, rs1, rs2, and the immediate.
macro_rules! line {
    ($op:ident, $rd:expr, $rs1:expr, $rs2:expr, $imm:expr) => {
        Line::Plain(Instr {
            op: Op::$op,
            rd: $rd,
            rs1: $rs1,
            rs2: $rs2,
            imm: $imm,
            aq: false,
            rl: false,
        })
    };
}

const START: [Line; 2] = [line!(Beq, 0, 10, 0, 8), line!(Ecall, 0, 0, 0, 0)];

const SET_STACK: [Line; 1] = [line!(Addi, 2, 10, 0, 0)];

const PUSH: [Line; 2] = [line!(Sd, 0, 2, 10, 0), line!(Addi, 2, 2, 0, 8)];

const OPERANDS: [Line; 2] = [line!(Ld, 10, 2, 0, -16), line!(Ld, 11, 2, 0, -8)];

const PLUS: [Line; 2] = [line!(Add, 10, 10, 11, 0), line!(Addi, 10, 10, 0, -1)];

const MINUS: [Line; 2] = [line!(Sub, 10, 10, 11, 0), line!(Addi, 10, 10, 0, 1)];

const TIMES: [Line; 4] = [
    line!(Addi, 10, 10, 0, -1),
    line!(Srli, 11, 11, 0, 1),
    line!(Mul, 10, 10, 11, 0),
    line!(Addi, 10, 10, 0, 1),
];

const REPLACE: [Line; 2] = [line!(Sd, 0, 2, 10, -16), line!(Addi, 2, 2, 0, -8)];

// Prints the last word of the stack.
const PRINT: [Line; 42] = [
    line!(Ld, 10, 2, 0, -8),
    line!(Srai, 5, 10, 0, 1),
    line!(Addi, 9, 0, 0, 0),
    line!(Bge, 0, 5, 0, 12),
    line!(Sub, 5, 0, 5, 0),
    line!(Addi, 9, 0, 0, 1),
    line!(Addi, 6, 0, 0, 0),
    line!(Addi, 7, 0, 0, 0),
    line!(Addi, 8, 0, 0, 0),
    line!(Addi, 11, 0, 0, 0),
    line!(Addi, 12, 0, 0, 10),
    // Digits, the last one first.
    line!(Rem, 13, 5, 12, 0),
    line!(Div, 5, 5, 12, 0),
    line!(Addi, 13, 13, 0, 48),
    line!(Slli, 8, 8, 0, 8),
    line!(Srli, 14, 7, 0, 56),
    line!(Add, 8, 8, 14, 0),
    line!(Slli, 7, 7, 0, 8),
    line!(Srli, 14, 6, 0, 56),
    line!(Add, 7, 7, 14, 0),
    line!(Slli, 6, 6, 0, 8),
    line!(Add, 6, 6, 13, 0),
    line!(Addi, 11, 11, 0, 1),
    line!(Bne, 0, 5, 0, -48),
    // The minus.
    line!(Beq, 0, 9, 0, 44),
    line!(Addi, 13, 0, 0, 45),
    line!(Slli, 8, 8, 0, 8),
    line!(Srli, 14, 7, 0, 56),
    line!(Add, 8, 8, 14, 0),
    line!(Slli, 7, 7, 0, 8),
    line!(Srli, 14, 6, 0, 56),
    line!(Add, 7, 7, 14, 0),
    line!(Slli, 6, 6, 0, 8),
    line!(Add, 6, 6, 13, 0),
    line!(Addi, 11, 11, 0, 1),
    // The log, its cursor, and the end.
    line!(Sd, 0, 0, 6, 1152),
    line!(Sd, 0, 0, 7, 1160),
    line!(Sd, 0, 0, 8, 1168),
    line!(Sd, 0, 0, 11, 48),
    line!(Addi, 5, 0, 0, 1),
    line!(Sd, 0, 0, 5, 8),
    line!(Ecall, 0, 0, 0, 0),
];

/// The words of the stack: the form has at most 1,000 literals, and 999 operations between them.
const STACK_WORDS: u64 = 2000;

// The first word behind the log.
fn stack_word(settings: &Settings) -> u64
    ensures { result ≡ stack_word_of settings.now.out }
{
    LOG_WORD + settings.out.div_ceil(8)
}

fn put_all(lines: &mut Vec<Line>, more: &[Line]) -> Result<(), AllocError>
    ensures { OnOk result (lines.new.items ≡ lines.old.items ++ more.now) }
{
    lines.extend_from_slice(more)
}

// The low eleven bits of a value are added to `rs1`, into x10.
fn add_low_bits(rs1: u8, value: u64) -> Line
    ensures { result ≡ Line.Plain (plain Op.Addi 10 rs1 0 (low_bits value)) }
{
    line!(Addi, 10, rs1, 0, (value % 2048) as i64)
}

fn emit_constant(lines: &mut Vec<Line>, value: u64) -> Result<(), AllocError>
    ensures { OnOk result (lines.new.items ≡ lines.old.items ++ lines_of (constant_code value)) }
{
    let shift = line!(Slli, 10, 10, 0, 11);
    let second = value / 2048;
    let third = second / 2048;
    let fourth = third / 2048;
    let fifth = fourth / 2048;
    let sixth = fifth / 2048;
    put_all(
        lines,
        &[
            add_low_bits(0, sixth),
            shift,
            add_low_bits(10, fifth),
            shift,
            add_low_bits(10, fourth),
            shift,
            add_low_bits(10, third),
            shift,
            add_low_bits(10, second),
            shift,
            add_low_bits(10, value),
        ],
    )
}

fn emit_arith(lines: &mut Vec<Line>, operation: Arith) -> Result<(), AllocError>
    ensures { OnOk result (lines.new.items ≡ lines.old.items ++ lines_of (arith_code operation)) }
{
    match operation {
        Arith::Plus => put_all(lines, &PLUS),
        Arith::Minus => put_all(lines, &MINUS),
        Arith::Times => put_all(lines, &TIMES),
    }
}

fn emit_apply(lines: &mut Vec<Line>, operation: Arith) -> Result<(), AllocError>
    ensures { OnOk result (lines.new.items ≡ lines.old.items ++ lines_of (postfix_code (Postfix.Apply operation))) }
{
    put_all(lines, &OPERANDS)?;
    emit_arith(lines, operation)?;
    put_all(lines, &REPLACE)
}

// The word of an integer.
fn tagged(value: u64) -> u64
    ensures { result ≡ tagged value }
{
    value.wrapping_mul(2).wrapping_add(1)
}

fn emit_literal(lines: &mut Vec<Line>, value: u64) -> Result<(), AllocError>
    ensures { OnOk result (lines.new.items ≡ lines.old.items ++ lines_of (postfix_code (Postfix.Literal value))) }
{
    emit_constant(lines, tagged(value))?;
    put_all(lines, &PUSH)
}

fn emit_part(lines: &mut Vec<Line>, part: &Postfix) -> Result<(), AllocError>
    ensures { OnOk result (lines.new.items ≡ lines.old.items ++ lines_of (postfix_code part.now)) }
{
    match part {
        Postfix::Literal(value) => emit_literal(lines, *value),
        Postfix::Apply(operation) => emit_apply(lines, *operation),
    }
}

fn emit_expression(lines: &mut Vec<Line>, postfix: &[Postfix]) -> Result<(), AllocError>
    ensures { OnOk result (lines.new.items ≡ lines.old.items ++ lines_of (expression_code postfix.now)) }
{
    for part in postfix {
        emit_part(lines, part)?;
    }
    Ok(())
}

// A hart other than 0 stops; hart 0 begins with an empty stack at this byte address.
fn emit_entry(lines: &mut Vec<Line>, stack: u64) -> Result<(), AllocError>
    ensures { OnOk result (lines.new.items ≡ lines.old.items ++ lines_of (entry_code stack)) }
{
    put_all(lines, &START)?;
    emit_constant(lines, stack)?;
    put_all(lines, &SET_STACK)?;
    Ok(())
}

// Prints the last word of the stack, and ends the run.
#[tactic(auto, unfolding(crate::specs::Compiled::print_code))]
fn emit_print(lines: &mut Vec<Line>) -> Result<(), AllocError>
    ensures { OnOk result (lines.new.items ≡ lines.old.items ++ lines_of print_code) }
{
    put_all(lines, &PRINT)
}

fn emit_whole(
    alloc: Global,
    postfix: &[Postfix],
    settings: &Settings,
) -> Result<Vec<Line>, AllocError>
    ensures { IfOk result (λ lines. lines.items ≡ lines_of (whole_code settings.now.out postfix.now)) }
{
    let mut lines = Vec::new(alloc);
    emit_entry(&mut lines, 8 * stack_word(settings))?;
    emit_expression(&mut lines, postfix)?;
    emit_print(&mut lines)?;
    Ok(lines)
}

// The words that aren't 0 at the start: the log's size, the one live domain, the number of harts.
fn start_words(alloc: Global, settings: &Settings) -> Result<Vec<StartWord>, AllocError>
    ensures { IfOk result (λ start. start.items ≡ start_words_of settings.now) }
{
    let words = [
        StartWord {
            at: LOG_SIZE_WORD,
            value: settings.out,
        },
        StartWord {
            at: SLOTS_WORD,
            value: 1,
        },
        StartWord {
            at: HARTS_WORD,
            value: u64::from(settings.domains),
        },
    ];
    Ok(Vec::from_array(alloc, words)?)
}

/// The image that prints the value of an expression.
///
/// Behind the log stands the stack of hart 0, of 2,000 words whatever the settings give a fiber. In
/// every order of the harts' instructions the image does what the program `let () = print_int A` does,
/// where the postfix order is that of the expression A.
///
/// Refused only for want of memory.
pub fn compile(alloc: Global, postfix: &[Postfix], settings: &Settings) -> Result<Image, Refusal>
    requires few { length postfix.now < 2000 }
    ensures settings { IfOk result (λ image. image.settings ≡ settings.now) }
    ensures code { IfOk result (λ image. image.code ≡ whole_code settings.now.out postfix.now) }
    ensures start { IfOk result (λ image. image.start ≡ start_words_of settings.now) }
    ensures size { IfOk result (λ image. image.size ≡ stack_word_of settings.now.out + stack_words) }
    ensures stands { (file : List ℕ) (place : Place) (e : Expression) → AreIntegers e → postfix.now ≡ postfix_of e
        → IfOk result (λ image. Stands (program_of file place e) image) }
    ensures refused { IfErr result (λ refusal. refusal ≡ Refusal.Memory) }
{
    let start = start_words(alloc, settings)?;
    let lines = emit_whole(alloc, postfix, settings)?;
    let assembled = assemble(alloc, &lines)?;
    Ok(Image {
        settings: *settings,
        code: assembled.code,
        start: Items::from_vec(start),
        size: stack_word(settings) + STACK_WORDS,
    })
}
