//! Steps, turns and rounds.

ghost use Rattle.std.specs.Prelude.{◌≡◌, ◌≢◌, ℕ, false, ◌↔◌, ◌<◌, ◌≤◌, ◌+◌, length, IsTrue, IsFalse, map};
ghost use Rattle.std.specs.List.{list_any};
ghost use Rattle.rv_model.specs.declared.layout.TheConstants.{END_WORD as END_OF_RUN};
ghost use Rattle.rv_model.specs.Machine.{words_of};
ghost use Rattle.rv_model.specs.Word.{bit};
ghost use Rattle.rv_model.specs.Run.{machine_of, first, Reaches};
ghost use Rattle.rv_model.specs.Serial as serial;
ghost use Rattle.serial_runner.specs.Turns.{IsReady, IsStep, IsStill, HasFault, is_spent, is_went as went_of, total, retired_at, has_ended, is_over_by};
ghost use Rattle.serial_runner.specs.Courses.{is_over as is_over_of};
ghost use Rattle.serial_runner.specs.Ending.{IsFaulted};

use fx_base::Turns;
use rv_model::{END_WORD, Hart, Image};
use rv_step::{Turn, VecMemory, step};

/// What became of a turn or a round.
#[derive(Clone, Copy, PartialEq, Eq, Debug)]
pub enum Course {
    /// There was an instruction, and the run isn't over.
    Went,
    /// There was none, since the hart, or each of them, waits or has stopped.
    Still,
    /// The run is over: the end word isn't 0, or a hart's budget is spent.
    Over,
    /// The hart, or one of them, is at fault: its instruction can't be carried out.
    Faulted,
}

// Whether the end word isn't 0.
fn is_ended(memory: &VecMemory) -> bool
    requires room { END_OF_RUN < length memory.now.words.items }
    ensures { result ≡ has_ended memory.now.words.items }
{
    memory.words()[END_WORD as usize] != 0
}

fn any_spent(harts: &[Hart], budget: u64) -> bool
    ensures { result ≡ list_any (is_spent budget) harts.now }
{
    harts.iter().any(|hart| hart.retired == budget)
}

// Whether the run is over.
fn is_over(image: &Image, harts: &[Hart], memory: &VecMemory) -> bool
    requires room { END_OF_RUN < length memory.now.words.items }
    ensures { result ≡ serial.is_over image.now (machine_of harts.now memory.now.words.items) }
{
    is_ended(memory) || any_spent(harts, image.settings.budget)
}

fn is_went(turn: Turn) -> bool
    ensures { result ≡ went_of turn }
{
    matches!(turn, Turn::Went)
}

// One instruction of a hart, in a run that isn't over; how its turn went.
fn advance(image: &Image, number: usize, harts: &mut [Hart], memory: &mut VecMemory) -> Turn
    requires running { IsFalse (serial.is_over image.now (machine_of harts.old memory.old.words.items)) }
    requires number { number < length harts.old }
    requires ready { IsReady image.now harts.old memory.old.words.items }
    ensures ready { IsReady image.now harts.new memory.new.words.items }
    ensures went { IsTrue (went_of result) → IsStep image.now number (machine_of harts.old memory.old.words.items) (machine_of harts.new memory.new.words.items) }
    ensures stays { IsFalse (went_of result) → IsStill image.now number (machine_of harts.old memory.old.words.items) (machine_of harts.new memory.new.words.items) }
    ensures fault { result ≡ Turn.Fault ↔ HasFault image.now number (machine_of harts.old memory.old.words.items) }
    ensures total { total harts.old + bit (went_of result) ≤ total harts.new }
    ensures count { retired_at number harts.new ≡ retired_at number harts.old + bit (went_of result) }
    ensures over { serial.is_over image.now (machine_of harts.new memory.new.words.items) ≡ is_over_by image.now number harts.new memory.new.words.items }
{
    let _instrs = image.code.instrs();
    step(&image.code, &mut harts[number], memory)
}

// What becomes of a turn that a hart doesn't go on with, after so many instructions.
fn cut_short(turn: Turn, done: u64) -> Course
    ensures over { is_over_of result ≡ false }
    ensures faulted { result ≡ Course.Faulted ↔ turn ≡ Turn.Fault }
    ensures still { result ≡ Course.Still → done ≡ 0 }
    ensures went { result ≡ Course.Went → 1 ≤ done }
{
    match turn {
        Turn::Fault => Course::Faulted,
        _ => {
            if done == 0 {
                Course::Still
            } else {
                Course::Went
            }
        }
    }
}

// A hart's turn, in a run that isn't over. An instruction changes only this hart's count and the words,
// so the end word is looked at after each, and the count after the last.
fn take_turn(
    image: &Image,
    number: usize,
    harts: &mut [Hart],
    memory: &mut VecMemory,
    turns: Turns,
) -> Course
    requires running { IsFalse (serial.is_over image.now (machine_of harts.old memory.old.words.items)) }
    requires room { END_OF_RUN < image.now.size }
    requires number { number < length harts.old }
    requires ready { IsReady image.now harts.old memory.old.words.items }
    ensures ready { IsReady image.now harts.new memory.new.words.items }
    ensures turn { machine_of harts.new memory.new.words.items ≡ serial.turn image.now turns.count number (machine_of harts.old memory.old.words.items) }
    ensures over { serial.is_over image.now (machine_of harts.new memory.new.words.items) ≡ is_over_of result }
    ensures stays { result ≡ Course.Still → IsStill image.now number (machine_of harts.old memory.old.words.items) (machine_of harts.new memory.new.words.items) }
    ensures fault { result ≡ Course.Faulted → HasFault image.now number (machine_of harts.new memory.new.words.items) }
    ensures no_fault { result ≡ Course.Still → ¬ HasFault image.now number (machine_of harts.new memory.new.words.items) }
    ensures total { total harts.old ≤ total harts.new }
    ensures more { result ≡ Course.Went → total harts.old < total harts.new }
{
    let left = image.settings.budget - harts[number].retired;
    for done in 0..left.min(turns.count as u64) {
        let turn = advance(image, number, harts, memory);
        if !is_went(turn) {
            return cut_short(turn, done);
        }
        if is_ended(memory) {
            return Course::Over;
        }
    }
    if harts[number].retired == image.settings.budget {
        Course::Over
    } else {
        Course::Went
    }
}

// A round in a run that isn't over: the turns of all harts, from hart 0 up, while it isn't and none is
// at fault.
fn take_round(image: &Image, harts: &mut [Hart], memory: &mut VecMemory, turns: Turns) -> Course
    requires running { IsFalse (serial.is_over image.now (machine_of harts.old memory.old.words.items)) }
    requires room { END_OF_RUN < image.now.size }
    requires ready { IsReady image.now harts.old memory.old.words.items }
    ensures ready { IsReady image.now harts.new memory.new.words.items }
    ensures round { result ≢ Course.Faulted → machine_of harts.new memory.new.words.items ≡ serial.turns_from image.now turns.count 0 image.now.settings.domains (machine_of harts.old memory.old.words.items) }
    ensures reaches { Reaches image.now (machine_of harts.old memory.old.words.items) → Reaches image.now (machine_of harts.new memory.new.words.items) }
    ensures over { serial.is_over image.now (machine_of harts.new memory.new.words.items) ≡ is_over_of result }
    ensures rest { result ≢ Course.Went → result ≢ Course.Faulted → serial.IsAtRest image.now (machine_of harts.new memory.new.words.items) }
    ensures fault { result ≡ Course.Faulted → (i : ℕ) × HasFault image.now i (machine_of harts.new memory.new.words.items) }
    ensures no_fault { result ≡ Course.Still → (i : ℕ) → ¬ HasFault image.now i (machine_of harts.new memory.new.words.items) }
    ensures more { result ≡ Course.Went → total harts.old < total harts.new }
{
    let mut round = Course::Still;
    for number in 0..harts.len() {
        match take_turn(image, number, harts, memory, turns) {
            Course::Went => round = Course::Went,
            Course::Still => {}
            Course::Over => return Course::Over,
            Course::Faulted => return Course::Faulted,
        }
    }
    round
}

/// The rounds, until the run is over, a hart is at fault, or a whole round goes by without an
/// instruction; whether a hart is at fault.
pub fn take_rounds(image: &Image, harts: &mut [Hart], memory: &mut VecMemory, turns: Turns) -> bool
    requires room { END_OF_RUN < image.now.size }
    requires ready { IsReady image.now harts.old memory.old.words.items }
    requires start { machine_of harts.old memory.old.words.items ≡ first image.now }
    ensures ready { IsReady image.now harts.new memory.new.words.items }
    ensures reach { Reaches image.now (machine_of harts.new memory.new.words.items) }
    ensures serial { IsFalse result → serial.Serial image.now turns.count memory.new.words.items harts.new }
    ensures faulted { IsTrue result ↔ IsFaulted image.now memory.new.words.items harts.new }
{
    if is_over(image, harts, memory) {
        return false;
    }
    'rounds: loop {
        match take_round(image, harts, memory, turns) {
            Course::Went => {}
            Course::Still | Course::Over => return false,
            Course::Faulted => return true,
        }
    }
}
