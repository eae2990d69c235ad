//! Whether a file's text is a program.

ghost use Rattle.std.specs.Prelude.{◌≡◌, ℕ, ◌≤◌, ◌⊎◌, ◌↔◌, List, None, Some, IfOk, IfErr, IsErrOf, length};
ghost use Rattle.fx_base.specs.Faults.{Rose};
ghost use Rattle.fx_base.specs.Told.{Holds};
ghost use Rattle.effects_top.specs.Checked.{IsRead, IsBreach, IsCause, IsFileRefusal};
ghost use Rattle.effects_top.specs.Source.{source_limit};

use crate::source::read_source;
use core_terms::elaborate;
use fx_base::{Files, Refusal};
use ml_infer::infer;
use ml_lexer::lex;
use ml_parser::parse;
use std::alloc::Global;
use type_terms::Typed;

/// The program that a text is, with the types of its comparisons.
///
/// # Errors
///
/// `Syntax` at the first fault, `Limit` where the program has a depth above 400 or a type of more than
/// 4,096 nodes, `Name` at the first breach of the rules on names, `IllTyped` at a fault of types, and
/// `Memory`.
pub fn check_text(alloc: Global, text: &[u8], name: &str) -> Result<Typed, Refusal>
    requires { length text.now ≤ 16777216 }
    ensures ok { IfOk result (λ typed. IsRead text.now) }
    ensures refused { IfErr result (IsBreach text.now) }
{
    let tokens = lex(alloc, text)?;
    let prog = parse(alloc, &tokens)?;
    let core = elaborate(alloc, &prog, name)?;
    match infer(alloc, core) {
        Ok(typed) => Ok(typed),
        Err((_core, refusal)) => Err(refusal),
    }
}

/// The program that a file's text is, with the types of its comparisons.
///
/// # Errors
///
/// `File` where a read fails, `Limit` where the file has more than 1,048,576 bytes, the program a
/// depth above 400, or a type more than 4,096 nodes, `Syntax` and `Name` at the first fault, `IllTyped`
/// at a fault of types, and `Memory`.
pub fn check_file<F: Files>(alloc: Global, files: &mut F, name: &str) -> Result<Typed, Refusal>
    requires { F.opened files.old ≡ None }
    ensures opened { (F.opened files.new ≡ None) ⊎ (F.opened files.new ≡ Some name.now) }
    ensures ok { (bytes : List ℕ) → F.told files.old name.now ≡ Holds bytes → IfOk result (λ typed. IsRead bytes) }
    ensures refused { (bytes : List ℕ) → F.told files.old name.now ≡ Holds bytes
        → IfErr result (IsCause (IsBreach bytes) (F.taken files.new) (F.faults files.old) (F.faults files.new)) }
    ensures file { IsErrOf result Refusal.File → Rose (F.faults files.old) (F.faults files.new) }
    ensures limit { IsErrOf result source_limit ↔ ((F.opened files.new ≡ Some name.now) × (F.taken files.new ≡ 1048577)) }
    ensures others { IfErr result IsFileRefusal }
{
    let source = read_source(alloc, files, name)?;
    check_text(alloc, &source, name)
}
