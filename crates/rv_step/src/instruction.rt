//! One instruction of a hart.

ghost use Rattle.std.specs.Prelude.{◌≡◌, ◌≢◌, ◌↔◌, ◌<◌, ◌≤◌, ◌+◌, ◌^◌, IfSome};
ghost use Rattle.rv_model.specs.Machine as spec;
ghost use Rattle.rv_model.specs.Machine.{hart_of};
ghost use Rattle.rv_step.specs.Seen.{seen_turn, IsPartInRange};
ghost use Rattle.rv_step.specs.Told.{told_after, told_then, IsFound, IsJust, IsWordOf, HasAnswer, IsWaiting, after};

use crate::arithmetic::power;
use crate::memory::Memory;
use crate::plan::{Planned, plan};
use rv_model::{Access, Code, Hart, Part};

/// How a hart's turn went.
#[derive(Clone, Copy, PartialEq, Eq, Debug)]
pub enum Turn {
    /// It is one instruction further.
    Went,
    /// It waits while a word has a value, and the word has it.
    Waits,
    /// It has stopped.
    Stopped,
    /// Its instruction can't be carried out.
    Fault,
}

/// The part of the word that goes to the register.
pub fn part_of(part: Part, word: u64) -> u64
    requires { IsPartInRange part }
    ensures { result ≡ spec.part_of part word }
{
    match part {
        Part::Word => word,
        Part::Byte(number) => word / power(8 * number) % 256,
    }
}

// Goes on at an address, with a value in a register.
fn go(hart: &mut Hart, to: u64, rd: u8, value: u64)
    requires rd { rd < 32 }
    requires few { hart.old.retired < 2 ^ 60 }
    ensures { hart_of hart.new ≡ spec.moved (hart_of hart.old) to (spec.put (hart_of hart.old).regs rd value) }
{
    hart.set_register(rd, value);
    hart.pc = to;
    hart.retired += 1;
}

// Goes on at the following instruction.
fn go_next(hart: &mut Hart, rd: u8, value: u64)
    requires rd { rd < 32 }
    requires few { hart.old.retired < 2 ^ 60 }
    ensures { hart_of hart.new ≡ spec.moved (hart_of hart.old) (spec.next (hart_of hart.old)) (spec.put (hart_of hart.old).regs rd value) }
{
    let to = hart.pc.wrapping_add(4);
    go(hart, to, rd, value);
}

// The access, and its answer; 0 where it has none.
fn make<M: Memory>(code: &Code, hart: &Hart, memory: &mut M, access: Access) -> u64
    requires inside { spec.place access < M.extent memory.old }
    requires just { IsJust access (spec.plan (M.extent memory.old) code.now (hart_of hart.now)) }
    requires led { M.leads memory.old code.now (hart_of hart.now) }
    requires below { hart.now.retired < M.most memory.old }
    ensures told { M.words memory.new ≡ told_after access (M.words memory.old) }
    ensures last { HasAnswer access → (M.last memory.new ≡ result) × IsWordOf result (spec.place access) (M.words memory.old) }
    ensures same { (M.extent memory.new ≡ M.extent memory.old) × (M.most memory.new ≡ M.most memory.old) × (M.kept memory.new ≡ M.kept memory.old) }
    ensures led { M.leads memory.new code.now (after (M.extent memory.old) code.now (hart_of hart.now) result) }
{
    match access {
        Access::Loading(at) => memory.load(code, hart, at),
        Access::Storing(at, value) => {
            memory.store(code, hart, at, value);
            0
        }
        Access::Swapping(at, value) => memory.swap(code, hart, at, value),
        Access::Adding(at, value) => memory.add(code, hart, at, value),
        Access::Masking(at, value) => memory.and(code, hart, at, value),
        Access::Exchanging(at, expected, value) => {
            memory.compare_exchange(code, hart, at, expected, value)
        }
    }
}

/// One instruction of a hart.
///
/// The clauses `turn` and `told` say what it does at the word that the last access gave, and `found` that
/// this is the word of the place, where the words are told. It waits exactly at an await whose word has the
/// value, stops exactly at a stop, and is at fault exactly where the definition has no step for another
/// reason; nothing is changed then.
pub fn step<M: Memory>(code: &Code, hart: &mut Hart, memory: &mut M) -> Turn
    requires led { M.leads memory.old code.now (hart_of hart.old) }
    requires below { hart.old.retired < M.most memory.old }
    ensures turn { seen_turn result (hart_of hart.new) ≡ spec.answered (hart_of hart.old) (spec.plan (M.extent memory.old) code.now (hart_of hart.old)) (M.last memory.new) }
    ensures told { M.words memory.new ≡ told_then (spec.plan (M.extent memory.old) code.now (hart_of hart.old)) (spec.answered (hart_of hart.old) (spec.plan (M.extent memory.old) code.now (hart_of hart.old)) (M.last memory.new)) (M.words memory.old) }
    ensures found { IsFound (M.last memory.new) (spec.plan (M.extent memory.old) code.now (hart_of hart.old)) (M.words memory.old) }
    ensures waits { result ≡ Turn.Waits ↔ IsWaiting (spec.plan (M.extent memory.old) code.now (hart_of hart.old)) (M.last memory.new) }
    ensures stopped { result ≡ Turn.Stopped ↔ spec.plan (M.extent memory.old) code.now (hart_of hart.old) ≡ spec.Stops }
    ensures fault { result ≡ Turn.Fault ↔ spec.plan (M.extent memory.old) code.now (hart_of hart.old) ≡ spec.Faults }
    ensures retired { hart.new.retired ≤ hart.old.retired + 1 }
    ensures unchanged { result ≢ Turn.Went → (hart.new ≡ hart.old) × (M.words memory.new ≡ M.words memory.old) }
    ensures same { (M.extent memory.new ≡ M.extent memory.old) × (M.most memory.new ≡ M.most memory.old) × (M.kept memory.new ≡ M.kept memory.old) }
    ensures led { M.leads memory.new code.now (hart_of hart.new) }
{
    match plan(memory.size(), code, hart) {
        Planned::Moves { to, rd, value } => {
            go(hart, to, rd, value);
            Turn::Went
        }
        Planned::Accesses { access, rd, part } => {
            let word = make(code, hart, memory, access);
            go_next(hart, rd, part_of(part, word));
            Turn::Went
        }
        Planned::Awaits { at, value } => {
            let word = memory.load(code, hart, at);
            if word == value {
                Turn::Waits
            } else {
                go_next(hart, 10, word);
                Turn::Went
            }
        }
        Planned::Stops => Turn::Stopped,
        Planned::Faults => Turn::Fault,
    }
}
