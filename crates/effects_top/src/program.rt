//! A file's program: its image, and a run of it.

ghost use Rattle.std.specs.Prelude.{◌≡◌, ℕ, ◌≤◌, ◌⊎◌, ◌↔◌, List, None, Some, IfOk, IfErr, OnErr, IsErrOf, length};
ghost use Rattle.fx_base.specs.Faults.{Rose};
ghost use Rattle.fx_base.specs.Told.{Holds};
ghost use Rattle.prelude_ml.specs.MadeText.{made_text};
ghost use Rattle.image_build.specs.Building.{IsBuildRefusal};
ghost use Rattle.effects_top.specs.Expression.{Expression};
ghost use Rattle.effects_top.specs.Form.{IsFormOf, IsOfForm};
ghost use Rattle.serial_runner.specs.Reported.{IsRunOf};
ghost use Rattle.effects_top.specs.Headline.{IsImageOf, Shows};
ghost use Rattle.effects_top.specs.Source.{source_limit};
ghost use Rattle.effects_top.specs.Output.{Wrote};
ghost use Rattle.effects_top.specs.Checked.{IsRead, IsCompileBreach, IsCause, IsFileRefusal};

use crate::check::check_text;
use crate::compile::compile;
use crate::made::MadeNumber;
use crate::output::write_all;
use crate::reader::read_form;
use crate::source::read_source;
use fx_base::{Files, Refusal, Settings, Sink, Turns, Written};
use image_build::build;
use prelude_ml::make_program;
use rv_model::{Image, Report};
use serial_runner::run_serial;
use std::alloc::Global;
use type_terms::Typed;

/// A program that was run: its image, the report of the run, and whether all that it printed was
/// written.
#[derive(Debug, Drop)]
pub struct Ran {
    pub image: Image,
    pub report: Report,
    pub written: Written,
}

// The image of the program that a text is, which has these types: a text of the form has its own
// compiler.
fn image_of_text(
    alloc: Global,
    text: &[u8],
    typed: &Typed,
    settings: &Settings,
) -> Result<Image, Refusal>
    ensures stands { (file : List ℕ) → IsOfForm text.now → IfOk result (IsImageOf file text.now) }
    ensures settings { IfOk result (λ image. image.settings ≡ settings.now) }
    ensures refused { IfErr result (λ refusal. (refusal ≡ Refusal.Memory) ⊎ (IsBuildRefusal refusal × ((e : Expression) → ¬ IsFormOf text.now e))) }
{
    let Some(postfix) = read_form(alloc, text)? else {
        return build(alloc, typed, settings);
    };
    Ok(compile(alloc, &postfix, settings)?)
}

// The image of the program that a text is, which passes the check.
fn compile_text(
    alloc: Global,
    text: &[u8],
    name: &str,
    settings: &Settings,
) -> Result<Image, Refusal>
    requires { length text.now ≤ 16777216 }
    ensures read { IfOk result (λ image. IsRead text.now) }
    ensures stands { IsOfForm text.now → IfOk result (IsImageOf name.now text.now) }
    ensures settings { IfOk result (λ image. image.settings ≡ settings.now) }
    ensures refused { IfErr result (IsCompileBreach text.now) }
{
    let typed = check_text(alloc, text, name)?;
    image_of_text(alloc, text, &typed, settings)
}

/// The image of the program that a file holds, for these settings.
///
/// # Errors
///
/// Those of [`check_file`](crate::check_file); where the program isn't of the form
/// `let () = print_int A`, `Limit` where a function has too many slots or free names or the image too
/// many instructions.
pub fn compile_file<F: Files>(
    alloc: Global,
    files: &mut F,
    name: &str,
    settings: &Settings,
) -> Result<Image, Refusal>
    requires { F.opened files.old ≡ None }
    ensures opened { (F.opened files.new ≡ None) ⊎ (F.opened files.new ≡ Some name.now) }
    ensures read { (bytes : List ℕ) → F.told files.old name.now ≡ Holds bytes → IfOk result (λ image. IsRead bytes) }
    ensures stands { (bytes : List ℕ) → F.told files.old name.now ≡ Holds bytes → IsOfForm bytes → IfOk result (IsImageOf name.now bytes) }
    ensures settings { IfOk result (λ image. image.settings ≡ settings.now) }
    ensures refused { (bytes : List ℕ) → F.told files.old name.now ≡ Holds bytes
        → IfErr result (IsCause (IsCompileBreach bytes) (F.taken files.new) (F.faults files.old) (F.faults files.new)) }
    ensures file { IsErrOf result Refusal.File → Rose (F.faults files.old) (F.faults files.new) }
    ensures limit { IsErrOf result source_limit ↔ ((F.opened files.new ≡ Some name.now) × (F.taken files.new ≡ 1048577)) }
    ensures others { IfErr result IsFileRefusal }
    ensures faults { F.faults files.old ≤ F.faults files.new }
{
    let source = read_source(alloc, files, name)?;
    compile_text(alloc, &source, name, settings)
}

/// The image of the made program of a number, in a file whose name is `demo`.
///
/// # Errors
///
/// Those of a file that holds its text.
pub fn compile_made(
    alloc: Global,
    number: MadeNumber,
    settings: &Settings,
) -> Result<Image, Refusal>
    ensures read { IfOk result (λ image. IsRead (made_text number.count)) }
    ensures settings { IfOk result (λ image. image.settings ≡ settings.now) }
    ensures refused { IfErr result (IsCompileBreach (made_text number.count)) }
{
    let text = make_program(alloc, number.count)?;
    compile_text(alloc, &text, "demo", settings)
}

/// Runs an image in turns, and writes what it prints.
///
/// Refused only for want of memory; nothing is written then.
pub fn run_image<O: Sink>(
    alloc: Global,
    image: &Image,
    turns: Turns,
    out: &mut O,
) -> Result<(Report, Written), Refusal>
    ensures run { IfOk result (λ ran. IsRunOf image.now turns.count ran.0) }
    ensures wrote { IfOk result (λ ran. Wrote (O.held out.old) (O.held out.new) (O.faults out.old) (O.faults out.new) ran.0.printed ran.1) }
    ensures unwritten { OnErr result (O.held out.new ≡ O.held out.old) }
    ensures refused { IfErr result (λ refusal. refusal ≡ Refusal.Memory) }
{
    let report = run_serial(alloc, image, turns)?;
    let written = write_all(out, report.printed.as_slice());
    Ok((report, written))
}

/// Runs the program that a file holds, in turns, and writes what it prints.
///
/// A failure to write doesn't cut the run short: the rest isn't written.
///
/// # Errors
///
/// Those of [`compile_file`]; nothing is written then.
pub fn run_file<F: Files, O: Sink>(
    alloc: Global,
    files: &mut F,
    name: &str,
    settings: &Settings,
    turns: Turns,
    out: &mut O,
) -> Result<Ran, Refusal>
    requires { F.opened files.old ≡ None }
    ensures opened { (F.opened files.new ≡ None) ⊎ (F.opened files.new ≡ Some name.now) }
    ensures read { (bytes : List ℕ) → F.told files.old name.now ≡ Holds bytes → IfOk result (λ ran. IsRead bytes) }
    ensures stands { (bytes : List ℕ) → F.told files.old name.now ≡ Holds bytes → IsOfForm bytes → IfOk result (λ ran. IsImageOf name.now bytes ran.image) }
    ensures shows { (bytes : List ℕ) → F.told files.old name.now ≡ Holds bytes → IsOfForm bytes → IfOk result (λ ran. Shows name.now bytes ran.image ran.report) }
    ensures settings { IfOk result (λ ran. ran.image.settings ≡ settings.now) }
    ensures run { IfOk result (λ ran. IsRunOf ran.image turns.count ran.report) }
    ensures wrote { IfOk result (λ ran. Wrote (O.held out.old) (O.held out.new) (O.faults out.old) (O.faults out.new) ran.report.printed ran.written) }
    ensures unwritten { OnErr result (O.held out.new ≡ O.held out.old) }
    ensures refused { (bytes : List ℕ) → F.told files.old name.now ≡ Holds bytes
        → IfErr result (IsCause (IsCompileBreach bytes) (F.taken files.new) (F.faults files.old) (F.faults files.new)) }
    ensures file { IsErrOf result Refusal.File → Rose (F.faults files.old) (F.faults files.new) }
    ensures limit { IsErrOf result source_limit ↔ ((F.opened files.new ≡ Some name.now) × (F.taken files.new ≡ 1048577)) }
    ensures others { IfErr result IsFileRefusal }
    ensures faults { F.faults files.old ≤ F.faults files.new }
{
    let image = compile_file(alloc, files, name, settings)?;
    let (report, written) = run_image(alloc, &image, turns, out)?;
    Ok(Ran {
        image,
        report,
        written,
    })
}
