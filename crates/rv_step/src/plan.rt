//! What the next instruction of a hart asks for.

ghost use Rattle.std.specs.Prelude.{◌≡◌, ◌<◌, ◌+◌, IfSome, Some, slice_get, length};
ghost use Rattle.rv_model.specs.Table.{AreWellFormed, IsWellFormed};
ghost use Rattle.rv_model.specs.Machine as spec;
ghost use Rattle.rv_model.specs.Machine.{hart_of, Regs};
ghost use Rattle.rv_model.specs.Word.{word_of as word_of_int};
ghost use Rattle.rv_model.specs.Table.{LoadsByte};
ghost use Rattle.rv_model.specs.declared.hart.Part.TheVariants.{Word as WholeWord};
ghost use Rattle.rv_step.specs.Seen.{seen_act, seen_plan, IsInRange};

use crate::act::{Act, effect};
use crate::arithmetic::sum;
use rv_model::{Access, Code, Hart, Instr, Part};

/// What the next instruction of a hart asks for.
#[derive(Clone, Copy, PartialEq, Eq, Debug)]
pub enum Planned {
    /// Goes on at an address and puts a value into a register.
    Moves { to: u64, rd: u8, value: u64 },
    /// An access; a part of the word goes to a register.
    Accesses { access: Access, rd: u8, part: Part },
    /// Waits while the word has this value.
    Awaits { at: u64, value: u64 },
    Stops,
    Faults,
}

fn word_of(imm: i64) -> u64
    ensures { result ≡ word_of_int imm }
{
    imm.cast_unsigned()
}

fn act_of(instr: &Instr, hart: &Hart) -> Act
    requires { IsWellFormed instr.now }
    ensures { seen_act result ≡ spec.effect_of instr.now (hart_of hart.now).regs }
{
    effect(
        instr.op,
        hart.register(instr.rs1),
        hart.register(instr.rs2),
        hart.register(instr.rd),
        word_of(instr.imm),
    )
}

fn instr_at(instrs: &[Instr], at: usize) -> Instr
    requires well_formed { AreWellFormed instrs.now }
    requires within { at < length instrs.now }
    ensures is { slice_get instrs.now at ≡ Some result }
    ensures well_formed { IsWellFormed result }
{
    instrs[at]
}

// The instruction at this address, where it is one.
fn fetch(code: &Code, pc: u64) -> Option<Instr>
    ensures is { result ≡ spec.fetch code.now pc }
    ensures well_formed { IfSome result IsWellFormed }
{
    let instrs = code.instrs();
    let at = pc / 4;
    if pc % 4 != 0 {
        None
    } else if at < instrs.len() as u64 {
        Some(instr_at(instrs, at as usize))
    } else {
        None
    }
}

// The plan where this byte address is that of one of the words, else a fault.
fn asks(size: u64, at: u64, plan: Planned) -> Planned
    requires range { IsInRange plan }
    ensures is { (r : Regs) → seen_plan r result ≡ spec.asks size at (seen_plan r plan) }
    ensures range { IsInRange result }
{
    if at % 8 == 0 && at / 8 < size {
        plan
    } else {
        Planned::Faults
    }
}

fn next(hart: &Hart) -> u64
    ensures { result ≡ spec.next (hart_of hart.now) }
{
    sum(hart.pc, 4)
}

fn access(size: u64, at: u64, access: Access, rd: u8) -> Planned
    requires rd { rd < 32 }
    ensures is { (r : Regs) → seen_plan r result ≡ spec.asks size at (spec.Accesses access rd WholeWord) }
    ensures range { IsInRange result }
{
    asks(
        size,
        at,
        Planned::Accesses {
            access,
            rd,
            part: Part::Word,
        },
    )
}

fn load_byte(size: u64, at: u64, rd: u8) -> Planned
    requires rd { rd < 32 }
    ensures is { (r : Regs) → seen_plan r result ≡ spec.planned size rd (LoadsByte at) (record { pc = 0; regs = r; retired = 0 }) }
    ensures range { IsInRange result }
{
    if at / 8 < size {
        Planned::Accesses {
            access: Access::Loading(at / 8),
            rd,
            part: Part::Byte(at % 8),
        }
    } else {
        Planned::Faults
    }
}

fn call(size: u64, hart: &Hart) -> Planned
    ensures is { seen_plan (hart_of hart.now).regs result ≡ spec.called size (hart_of hart.now) }
    ensures range { IsInRange result }
{
    let at = hart.regs[10];
    let value = hart.regs[11];
    match hart.regs[17] {
        0 => Planned::Stops,
        1 => asks(size, at, Planned::Awaits { at: at / 8, value }),
        _ => Planned::Faults,
    }
}

fn plan_act(size: u64, rd: u8, act: Act, hart: &Hart) -> Planned
    requires rd { rd < 32 }
    ensures is { seen_plan (hart_of hart.now).regs result ≡ spec.planned size rd (seen_act act) (hart_of hart.now) }
    ensures range { IsInRange result }
{
    match act {
        Act::Sets(value) => Planned::Moves {
            to: next(hart),
            rd,
            value,
        },
        Act::AddsPc(value) => Planned::Moves {
            to: next(hart),
            rd,
            value: sum(hart.pc, value),
        },
        Act::Branches(taken, offset) => Planned::Moves {
            to: if taken {
                sum(hart.pc, offset)
            } else {
                next(hart)
            },
            rd: 0,
            value: 0,
        },
        Act::Links(offset) => Planned::Moves {
            to: sum(hart.pc, offset),
            rd,
            value: next(hart),
        },
        Act::LinksTo(to) => Planned::Moves {
            to,
            rd,
            value: next(hart),
        },
        Act::Loads(at) => access(size, at, Access::Loading(at / 8), rd),
        Act::LoadsByte(at) => load_byte(size, at, rd),
        Act::Stores(at, value) => access(size, at, Access::Storing(at / 8, value), 0),
        Act::Swaps(at, value) => access(size, at, Access::Swapping(at / 8, value), rd),
        Act::Adds(at, value) => access(size, at, Access::Adding(at / 8, value), rd),
        Act::Masks(at, value) => access(size, at, Access::Masking(at / 8, value), rd),
        Act::Exchanges(at, expected, value) => {
            access(size, at, Access::Exchanging(at / 8, expected, value), rd)
        }
        Act::Calls => call(size, hart),
    }
}

/// What the next instruction of a hart asks for, over so many words.
pub fn plan(size: u64, code: &Code, hart: &Hart) -> Planned
    ensures is { seen_plan (hart_of hart.now).regs result ≡ spec.plan size code.now (hart_of hart.now) }
    ensures range { IsInRange result }
{
    match fetch(code, hart.pc) {
        Some(instr) => plan_act(size, instr.rd, act_of(&instr, hart), hart),
        None => Planned::Faults,
    }
}
