//! The top call.

ghost use Rattle.std.specs.Prelude.{◌≡◌, ℕ, ◌≤◌, ◌⊎◌, ◌↔◌, List, [], None, Some, IsSome, IfOk, IfErr, IfSome, IsErrOf, Option, map, option_and_then};
ghost use Rattle.std.specs.String.{string_bytes};
ghost use Rattle.fx_base.specs.Faults.{Rose};
ghost use Rattle.fx_base.specs.Told.{Holds};
ghost use Rattle.prelude_ml.specs.MadeText.{made_text};
ghost use Rattle.effects_top.specs.Words.{Numbers, Asked, file_of, numbers_of, numbers_said, nothing, numbers_asked, asked};
ghost use Rattle.effects_top.specs.Words.{Check as AskedCheck, Assemble as AskedListing, Run as AskedRun, Make as AskedMake, Demo as AskedDemo};
ghost use Rattle.effects_top.specs.Form.{IsOfForm};
ghost use Rattle.effects_top.specs.Checked.{IsRead, IsBreach, IsCompileBreach, IsCause, IsWrongFor};
ghost use Rattle.serial_runner.specs.Reported.{IsRunOf};
ghost use Rattle.effects_top.specs.Headline.{IsImageOf, IsTold, Shows, Compiles};
ghost use Rattle.effects_top.specs.Answers.{end_status, end_line};
ghost use Rattle.effects_top.specs.Output.{Wrote};
ghost use Rattle.effects_top.specs.Outcome.{IsRefusedWith, Refused, RefusedFor, Ran, Listed, Passed, Made, answer_status, answer_line};

use crate::answers::{end_status, refusal_status, tell_end, tell_refusal};
use crate::check::check_file;
use crate::made::MadeNumber;
use crate::outcome::Outcome;
use crate::output::write_all;
use crate::program::{compile_file, compile_made, run_image};
use crate::words::{Command, command_of};
use fx_base::{Files, Gate, Refusal, Settings, Sink, Status, Turns, Written};
use prelude_ml::make_program;
use rv_asm::listing;
use rv_model::{Image, Report, RunEnd};
use std::alloc::Global;
use std::sync::Wait;
use std::thread::Threads;

/// The answer of a refusal, whose line is written to `err`.
pub fn refused<E: Sink>(err: &mut E, refusal: Refusal, image: Option<Image>) -> Outcome
    ensures { Refused result refusal image (E.held err.old) (E.held err.new) (E.faults err.old) (E.faults err.new) }
{
    let _told = tell_refusal(err, refusal);
    Outcome {
        status: refusal_status(refusal),
        image,
        report: None,
        written: None,
    }
}

// The status of an answer, from that of a whole one.
fn answer_status(whole: Status, written: Written) -> Status
    ensures { result.0 ≡ answer_status whole.0 written }
{
    match written {
        Written::Whole => whole,
        Written::Failed => Status(69),
    }
}

// Writes the line on standard error after a run.
fn tell_run<E: Sink>(err: &mut E, end: &RunEnd, written: Written) -> Written
    ensures { Wrote (E.held err.old) (E.held err.new) (E.faults err.old) (E.faults err.new) (answer_line (end_line end.now) written) result }
{
    match written {
        Written::Whole => tell_end(err, end),
        Written::Failed => write_all(err, b"error: output\n"),
    }
}

// What is answered after a run whose printed bytes were written.
fn ran<E: Sink>(err: &mut E, image: Image, report: Report, written: Written) -> Outcome
    ensures status { result.status.0 ≡ answer_status (end_status report.end) written }
    ensures image { result.image ≡ Some image }
    ensures report { result.report ≡ Some report }
    ensures written { result.written ≡ Some written }
    ensures told { (w : Written) × Wrote (E.held err.old) (E.held err.new) (E.faults err.old) (E.faults err.new) (answer_line (end_line report.end) written) w }
{
    let _told = tell_run(err, &report.end, written);
    Outcome {
        status: answer_status(end_status(&report.end), written),
        image: Some(image),
        report: Some(report),
        written: Some(written),
    }
}

// Writes the line on standard error after a listing or a check.
fn tell_listing<E: Sink>(err: &mut E, written: Written) -> Written
    ensures { Wrote (E.held err.old) (E.held err.new) (E.faults err.old) (E.faults err.new) (answer_line [] written) result }
{
    match written {
        Written::Whole => write_all(err, b""),
        Written::Failed => write_all(err, b"error: output\n"),
    }
}

// What is answered after a listing was written.
fn listed<E: Sink>(err: &mut E, image: Image, written: Written) -> Outcome
    ensures status { result.status.0 ≡ answer_status 0 written }
    ensures image { result.image ≡ Some image }
    ensures report { result.report ≡ None }
    ensures written { result.written ≡ Some written }
    ensures told { (w : Written) × Wrote (E.held err.old) (E.held err.new) (E.faults err.old) (E.faults err.new) (answer_line [] written) w }
{
    let _told = tell_listing(err, written);
    Outcome {
        status: answer_status(Status(0), written),
        image: Some(image),
        report: None,
        written: Some(written),
    }
}

// What is answered after a check was passed.
fn passed<E: Sink>(err: &mut E, written: Written) -> Outcome
    ensures status { result.status.0 ≡ answer_status 0 written }
    ensures image { result.image ≡ None }
    ensures report { result.report ≡ None }
    ensures written { result.written ≡ Some written }
    ensures told { (w : Written) × Wrote (E.held err.old) (E.held err.new) (E.faults err.old) (E.faults err.new) (answer_line [] written) w }
{
    let _told = tell_listing(err, written);
    Outcome {
        status: answer_status(Status(0), written),
        image: None,
        report: None,
        written: Some(written),
    }
}

// Checks the program of a file.
fn check_program<F: Files, O: Sink, E: Sink>(
    alloc: Global,
    files: &mut F,
    out: &mut O,
    err: &mut E,
    file: &str,
) -> Outcome
    requires { F.opened files.old ≡ None }
    ensures opened { (F.opened files.new ≡ None) ⊎ (F.opened files.new ≡ Some file.now) }
    ensures image { result.image ≡ None }
    ensures report { result.report ≡ None }
    ensures refused { result.written ≡ None → (O.held out.new ≡ O.held out.old)
        × ((refusal : Refusal) × (i : Option Image) × Refused result refusal i (E.held err.old) (E.held err.new) (E.faults err.old) (E.faults err.new)) }
    ensures passed { (w : Written) → result.written ≡ Some w
        → Passed result (O.held out.old) (O.held out.new) (O.faults out.old) (O.faults out.new) (E.held err.old) (E.held err.new) (E.faults err.old) (E.faults err.new) }
    ensures read { (bytes : List ℕ) (w : Written) → F.told files.old file.now ≡ Holds bytes → result.written ≡ Some w → IsRead bytes }
    ensures breach { (bytes : List ℕ) → F.told files.old file.now ≡ Holds bytes → result.written ≡ None
        → RefusedFor (IsCause (IsBreach bytes) (F.taken files.new) (F.faults files.old) (F.faults files.new)) result (E.held err.old) (E.held err.new) (E.faults err.old) (E.faults err.new) }
    ensures usage { ¬ IsRefusedWith result 64 }
    ensures file { IsRefusedWith result 68 → Rose (F.faults files.old) (F.faults files.new) }
    ensures limited { F.opened files.new ≡ Some file.now → F.taken files.new ≡ 1048577 → IsRefusedWith result 67 }
{
    match check_file(alloc, files, file) {
        Ok(_) => {
            let written = write_all(out, b"ok\n");
            passed(err, written)
        }
        Err(refusal) => refused(err, refusal, None),
    }
}

// Compiles a file and lists its image.
fn list_program<F: Files, O: Sink, E: Sink>(
    alloc: Global,
    files: &mut F,
    out: &mut O,
    err: &mut E,
    file: &str,
    settings: &Settings,
) -> Outcome
    requires { F.opened files.old ≡ None }
    ensures compiles { Compiles result file.now (numbers_of settings.now) (F.told files.old file.now) (F.opened files.new) (F.taken files.new) (F.faults files.old) (F.faults files.new) }
    ensures report { result.report ≡ None }
    ensures read { (bytes : List ℕ) (w : Written) → F.told files.old file.now ≡ Holds bytes → result.written ≡ Some w → IsRead bytes }
    ensures breach { (bytes : List ℕ) → F.told files.old file.now ≡ Holds bytes → result.written ≡ None
        → RefusedFor (IsCause (IsCompileBreach bytes) (F.taken files.new) (F.faults files.old) (F.faults files.new)) result (E.held err.old) (E.held err.new) (E.faults err.old) (E.faults err.new) }
    ensures refused { result.written ≡ None → (O.held out.new ≡ O.held out.old)
        × ((refusal : Refusal) × (i : Option Image) × Refused result refusal i (E.held err.old) (E.held err.new) (E.faults err.old) (E.faults err.new)) }
    ensures listed { (w : Written) → result.written ≡ Some w → (i : Image)
        × Listed result i (O.held out.old) (O.held out.new) (O.faults out.old) (O.faults out.new) (E.held err.old) (E.held err.new) (E.faults err.old) (E.faults err.new) }
{
    let image = match compile_file(alloc, files, file, settings) {
        Ok(image) => image,
        Err(refusal) => return refused(err, refusal, None),
    };
    match listing(alloc, &image) {
        Ok(text) => {
            let written = write_all(out, &text);
            listed(err, image, written)
        }
        Err(refusal) => refused(err, refusal, Some(image)),
    }
}

// Compiles a file and runs its program.
fn run_program<F: Files, O: Sink, E: Sink>(
    alloc: Global,
    files: &mut F,
    out: &mut O,
    err: &mut E,
    file: &str,
    settings: &Settings,
    turns: Turns,
) -> Outcome
    requires { F.opened files.old ≡ None }
    ensures compiles { Compiles result file.now (numbers_of settings.now) (F.told files.old file.now) (F.opened files.new) (F.taken files.new) (F.faults files.old) (F.faults files.new) }
    ensures read { (bytes : List ℕ) (w : Written) → F.told files.old file.now ≡ Holds bytes → result.written ≡ Some w → IsRead bytes }
    ensures breach { (bytes : List ℕ) → F.told files.old file.now ≡ Holds bytes → result.written ≡ None
        → RefusedFor (IsCause (IsCompileBreach bytes) (F.taken files.new) (F.faults files.old) (F.faults files.new)) result (E.held err.old) (E.held err.new) (E.faults err.old) (E.faults err.new) }
    ensures shows { (bytes : List ℕ) → F.told files.old file.now ≡ Holds bytes → IsOfForm bytes
        → (i : Image) (r : Report) → result.image ≡ Some i → result.report ≡ Some r → Shows file.now bytes i r }
    ensures refused { result.written ≡ None → (O.held out.new ≡ O.held out.old)
        × ((refusal : Refusal) × (i : Option Image) × Refused result refusal i (E.held err.old) (E.held err.new) (E.faults err.old) (E.faults err.new)) }
    ensures ran { (w : Written) → result.written ≡ Some w → (i : Image) × (r : Report)
        × IsRunOf i turns.count r × Ran result i r (O.held out.old) (O.held out.new) (O.faults out.old) (O.faults out.new) (E.held err.old) (E.held err.new) (E.faults err.old) (E.faults err.new) }
{
    let image = match compile_file(alloc, files, file, settings) {
        Ok(image) => image,
        Err(refusal) => return refused(err, refusal, None),
    };
    match run_image(alloc, &image, turns, out) {
        Ok((report, written)) => ran(err, image, report, written),
        Err(refusal) => refused(err, refusal, Some(image)),
    }
}

// Writes the made program of a number.
fn write_made<O: Sink, E: Sink>(
    alloc: Global,
    out: &mut O,
    err: &mut E,
    number: MadeNumber,
) -> Outcome
    ensures image { result.image ≡ None }
    ensures report { result.report ≡ None }
    ensures made { (w : Written) → result.written ≡ Some w
        → Made result number.count (O.held out.old) (O.held out.new) (O.faults out.old) (O.faults out.new) (E.held err.old) (E.held err.new) (E.faults err.old) (E.faults err.new) }
    ensures refused { result.written ≡ None → (O.held out.new ≡ O.held out.old)
        × RefusedFor (λ refusal. refusal ≡ Refusal.Memory) result (E.held err.old) (E.held err.new) (E.faults err.old) (E.faults err.new) }
{
    match make_program(alloc, number.count) {
        Ok(program) => {
            let written = write_all(out, &program);
            passed(err, written)
        }
        Err(refusal) => refused(err, refusal, None),
    }
}

// Runs the made program of a number.
fn run_made<O: Sink, E: Sink>(
    alloc: Global,
    out: &mut O,
    err: &mut E,
    number: MadeNumber,
) -> Outcome
    ensures settings { IfSome result.image (λ i. numbers_of i.settings ≡ numbers_said nothing) }
    ensures ran { (w : Written) → result.written ≡ Some w → IsRead (made_text number.count) × ((i : Image) × (r : Report)
        × IsRunOf i 1000 r × Ran result i r (O.held out.old) (O.held out.new) (O.faults out.old) (O.faults out.new) (E.held err.old) (E.held err.new) (E.faults err.old) (E.faults err.new)) }
    ensures refused { result.written ≡ None → (O.held out.new ≡ O.held out.old)
        × RefusedFor (IsCompileBreach (made_text number.count)) result (E.held err.old) (E.held err.new) (E.faults err.old) (E.faults err.new) }
{
    let image = match compile_made(alloc, number, &Settings::usual()) {
        Ok(image) => image,
        Err(refusal) => return refused(err, refusal, None),
    };
    match run_image(alloc, &image, Turns::usual(), out) {
        Ok((report, written)) => ran(err, image, report, written),
        Err(refusal) => refused(err, refusal, Some(image)),
    }
}

/// Does what the command words say: checks the file that they name, or compiles it and runs it, or
/// lists its image; or writes the made program of a number, or compiles and runs it.
pub fn effects_main<R: Threads + Wait, F: Files, O: Sink, E: Sink, G: Gate>(
    _rt: &R,
    alloc: Global,
    words: &[String],
    files: &mut F,
    out: &mut O,
    err: &mut E,
    _gate: &G,
) -> Outcome
    requires { F.opened files.old ≡ None }
    ensures opened { (F.opened files.new ≡ None) ⊎ (F.opened files.new ≡ option_and_then file_of (asked (map string_bytes words.now))) }

    // Something was refused and nothing written to `out`, or the program was run, or its image listed, or
    // its check passed.
    ensures refused { result.written ≡ None → (O.held out.new ≡ O.held out.old)
        × ((refusal : Refusal) × (i : Option Image) × Refused result refusal i (E.held err.old) (E.held err.new) (E.faults err.old) (E.faults err.new)) }
    ensures ran { (file : List ℕ) (numbers : Numbers) (turns : ℕ) (w : Written) → asked (map string_bytes words.now) ≡ Some (AskedRun file numbers turns) → result.written ≡ Some w
        → (i : Image) × (r : Report)
        × IsRunOf i turns r × Ran result i r (O.held out.old) (O.held out.new) (O.faults out.old) (O.faults out.new) (E.held err.old) (E.held err.new) (E.faults err.old) (E.faults err.new) }

    ensures listed { (file : List ℕ) (numbers : Numbers) (w : Written) → asked (map string_bytes words.now) ≡ Some (AskedListing file numbers) → result.written ≡ Some w
        → (i : Image)
        × Listed result i (O.held out.old) (O.held out.new) (O.faults out.old) (O.faults out.new) (E.held err.old) (E.held err.new) (E.faults err.old) (E.faults err.new) }

    ensures passed { (file : List ℕ) (w : Written) → asked (map string_bytes words.now) ≡ Some (AskedCheck file) → result.written ≡ Some w
        → Passed result (O.held out.old) (O.held out.new) (O.faults out.old) (O.faults out.new) (E.held err.old) (E.held err.new) (E.faults err.old) (E.faults err.new) }

    // A made program was written, or run with the usual settings in turns of 1,000.
    ensures made { (number : ℕ) (w : Written) → asked (map string_bytes words.now) ≡ Some (AskedMake number) → result.written ≡ Some w
        → Made result number (O.held out.old) (O.held out.new) (O.faults out.old) (O.faults out.new) (E.held err.old) (E.held err.new) (E.faults err.old) (E.faults err.new) }
    ensures made_refused { (number : ℕ) → asked (map string_bytes words.now) ≡ Some (AskedMake number) → result.written ≡ None
        → RefusedFor (λ refusal. refusal ≡ Refusal.Memory) result (E.held err.old) (E.held err.new) (E.faults err.old) (E.faults err.new) }
    ensures demo { (number : ℕ) (w : Written) → asked (map string_bytes words.now) ≡ Some (AskedDemo number) → result.written ≡ Some w
        → IsRead (made_text number) × ((i : Image) × (r : Report)
        × IsRunOf i 1000 r × Ran result i r (O.held out.old) (O.held out.new) (O.faults out.old) (O.faults out.new) (E.held err.old) (E.held err.new) (E.faults err.old) (E.faults err.new)) }
    ensures demo_refused { (number : ℕ) → asked (map string_bytes words.now) ≡ Some (AskedDemo number) → result.written ≡ None
        → RefusedFor (IsCompileBreach (made_text number)) result (E.held err.old) (E.held err.new) (E.faults err.old) (E.faults err.new) }

    // Where the file's bytes are told, only a program passes, and each refusal has its cause.
    ensures read { (file bytes : List ℕ) (w : Written) → IsTold (F.told files.old) (map string_bytes words.now) file bytes
        → result.written ≡ Some w → IsRead bytes }
    ensures breach { (a : Asked) (file bytes : List ℕ) → asked (map string_bytes words.now) ≡ Some a → file_of a ≡ Some file → F.told files.old file ≡ Holds bytes → result.written ≡ None
        → RefusedFor (IsCause (IsWrongFor a bytes) (F.taken files.new) (F.faults files.old) (F.faults files.new)) result (E.held err.old) (E.held err.new) (E.faults err.old) (E.faults err.new) }

    // The image has the settings of the words. Where the file's bytes are told and of the form
    // `let () = print_int A`: it stands for the program that they are, and the report is that of a run of
    // that program.
    ensures settings { (a : Asked) → asked (map string_bytes words.now) ≡ Some a → IfSome result.image (λ i. numbers_of i.settings ≡ numbers_asked a) }
    ensures stands { (file bytes : List ℕ) → IsTold (F.told files.old) (map string_bytes words.now) file bytes → IsOfForm bytes
        → IfSome result.image (IsImageOf file bytes) }
    ensures shows { (file bytes : List ℕ) → IsTold (F.told files.old) (map string_bytes words.now) file bytes → IsOfForm bytes
        → (i : Image) (r : Report) → result.image ≡ Some i → result.report ≡ Some r → Shows file bytes i r }

    // When refusals come wherever nothing is told. Want of memory, with status 70, may come at any time.
    ensures usage { IsRefusedWith result 64 ↔ (asked (map string_bytes words.now) ≡ None) }
    ensures file { IsRefusedWith result 68 → Rose (F.faults files.old) (F.faults files.new) }
    ensures limited { IsSome (F.opened files.new) → F.taken files.new ≡ 1048577 → IsRefusedWith result 67 }
{
    match command_of(words) {
        None => refused(err, Refusal::Usage, None),
        Some(Command::Check { file }) => check_program(alloc, files, out, err, file),
        Some(
            Command::Run {
                file,
                settings,
                turns,
            },
        ) => run_program(alloc, files, out, err, file, &settings, turns),
        Some(Command::Assemble { file, settings }) => {
            list_program(alloc, files, out, err, file, &settings)
        }
        Some(Command::Make { number }) => write_made(alloc, out, err, number),
        Some(Command::Demo { number }) => run_made(alloc, out, err, number),
    }
}
