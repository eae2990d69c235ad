//! Runs an image.

ghost use Rattle.std.specs.Prelude.{◌≡◌, ◌≢◌, ℕ, ◌≤◌, ◌↔◌, [], length, IfOk, IfErr, vec_len};
ghost use Rattle.fx_base.specs.declared.refusal.Refusal.TheVariants.{Memory as NoMemory};
ghost use Rattle.rv_model.specs.declared.report.RunEnd.TheVariants.{BudgetSpent, Deadlock, Broken};
ghost use Rattle.rv_model.specs.Machine.{words_of};
ghost use Rattle.rv_model.specs.Layout.{IsSound, log as log_of};
ghost use Rattle.rv_model.specs.Start.{first_harts, start_words};
ghost use Rattle.rv_model.specs.Run.{Runs, Reach};
ghost use Rattle.rv_model.specs.Serial.{Serial};
ghost use Rattle.serial_runner.specs.Ending.{ending, HasRoom, IsBudgetSpent, IsDeadlocked, IsBroken};
ghost use Rattle.serial_runner.specs.Reported.{IsRunOf};

use crate::ending::{has_room, is_sound, printed, read_end};
use crate::turns::take_rounds;
use fx_base::{Refusal, Turns};
use rv_model::{Hart, Image, Items, Report, RunEnd};
use rv_step::VecMemory;
use std::alloc::Global;

// The report of a run that broke the machine's promise; nothing is printed.
fn broken(words: Vec<u64>, harts: Vec<Hart>, mut log: Vec<u8>) -> Report
    ensures end { result.end ≡ Broken }
    ensures printed { result.printed ≡ [] }
    ensures words { result.words ≡ words.items }
    ensures harts { result.harts ≡ harts.items }
{
    log.clear();
    Report {
        end: RunEnd::Broken,
        printed: Items::from_vec(log),
        harts: Items::from_vec(harts),
        words: Items::from_vec(words),
    }
}

// The report of a run that has come to rest at sound words.
fn finished(image: &Image, words: Vec<u64>, harts: Vec<Hart>, log: Vec<u8>, text: Vec<u8>) -> Report
    requires room { HasRoom image.now }
    requires size { length words.items ≡ image.now.size }
    requires sound { IsSound image.now.settings.out (words_of words.items) }
    requires few { length harts.items ≤ 8 }
    requires log { vec_len log ≡ image.now.settings.out }
    requires text { vec_len text ≡ 1024 }
    ensures end { result.end ≡ ending image.now.settings.budget (words_of words.items) harts.items }
    ensures printed { result.printed ≡ log_of (words_of words.items) }
    ensures words { result.words ≡ words.items }
    ensures harts { result.harts ≡ harts.items }
{
    let end = read_end(image, &harts, &words, text);
    let printed = printed(image, &words, log);
    Report {
        end,
        printed: Items::from_vec(printed),
        harts: Items::from_vec(harts),
        words: Items::from_vec(words),
    }
}

// The run, in room that has been taken.
fn run(
    image: &Image,
    turns: Turns,
    words: Vec<u64>,
    mut harts: Vec<Hart>,
    log: Vec<u8>,
    text: Vec<u8>,
) -> Report
    requires room { HasRoom image.now }
    requires size { length words.items ≡ image.now.size }
    requires words { words_of words.items ≡ start_words image.now.start }
    requires harts { harts.items ≡ first_harts 0 image.now.settings.domains }
    requires log { vec_len log ≡ image.now.settings.out }
    requires text { vec_len text ≡ 1024 }
    ensures { IsRunOf image.now turns.count result }
{
    let mut memory = VecMemory::new(words);
    let faulted = take_rounds(image, &mut harts, &mut memory, turns);
    let words = memory.into_words();
    if faulted || !is_sound(image, &words) {
        return broken(words, harts, log);
    }
    finished(image, words, harts, log, text)
}

/// Runs an image in turns, each of so many instructions, to its end.
///
/// The end word counts before the budget. A deadlock is a whole round in which no hart had a step, since
/// each waits or has stopped. Where the image breaks the machine's promise, the end says so and nothing
/// is printed: at once where a hart is at fault, and before the first instruction where there is no room
/// for the log. Refused only for want of memory; all memory is taken before the first instruction.
pub fn run_serial(alloc: Global, image: &Image, turns: Turns) -> Result<Report, Refusal>
    ensures reach { IfOk result (λ report. Reach image.now report.words report.harts) }
    ensures serial { IfOk result (λ report. report.end ≢ Broken → Serial image.now turns.count report.words report.harts) }
    ensures sound { IfOk result (λ report. report.end ≢ Broken → IsSound image.now.settings.out (words_of report.words)) }
    ensures printed { IfOk result (λ report. report.end ≢ Broken → report.printed ≡ log_of (words_of report.words)) }
    ensures end { IfOk result (λ report. report.end ≢ Broken → report.end ≡ ending image.now.settings.budget (words_of report.words) report.harts) }
    ensures budget_spent { IfOk result (λ report. report.end ≢ Broken → (hart count : ℕ) → report.end ≡ BudgetSpent hart count ↔ ((count ≡ image.now.settings.budget) × IsBudgetSpent image.now report.words report.harts hart)) }
    ensures deadlock { IfOk result (λ report. report.end ≢ Broken → report.end ≡ Deadlock ↔ IsDeadlocked image.now report.words report.harts) }
    ensures broken { IfOk result (λ report. report.end ≡ Broken ↔ IsBroken image.now report.words report.harts) }
    ensures unprinted { IfOk result (λ report. report.end ≡ Broken → report.printed ≡ []) }
    ensures kept { Runs image.now → IfOk result (λ report. report.end ≢ Broken) }
    ensures refused { IfErr result (λ refusal. refusal ≡ NoMemory) }
{
    let words = image.first_words(alloc)?;
    let harts = image.first_harts(alloc)?;
    let log = vec![in alloc; 0; image.settings.out as usize]?;
    let text = vec![in alloc; 0; 1024]?;
    if has_room(image) {
        Ok(run(image, turns, words, harts, log, text))
    } else {
        Ok(broken(words, harts, log))
    }
}
