//! From a program to Core.

ghost use Rattle.std.specs.Prelude.{◌≡◌, IfErr, IfOk, IsTrue};
ghost use Rattle.name_scopes.specs.Refused.{IsNameOrMemory};

use core_check::is_core;
use core_sugar::{Named, make_core};
use effect_meaning::{Core, CoreArena};
use fx_base::Refusal;
use ml_syntax::Prog;
use name_scopes::{Resolved, resolve};
use prelude_tree::prelude_program;
use std::alloc::{AllocError, Global};

fn make(
    alloc: Global,
    prelude: &Prog,
    prog: &Prog,
    file: &str,
    resolved: &Resolved,
) -> Result<CoreArena, AllocError> {
    let before = Named {
        prog: prelude,
        uses: &resolved.prelude,
    };
    let program = Named {
        prog,
        uses: &resolved.program,
    };
    make_core(
        alloc,
        file,
        before,
        program,
        resolved.append,
        resolved.next_name,
    )
}

// The nodes and tables of Core.
fn elaborate_arena(alloc: Global, prog: &Prog, file: &str) -> Result<CoreArena, Refusal>
    ensures { IfErr result IsNameOrMemory }
{
    let prelude = prelude_program(alloc)?;
    let resolved = resolve(alloc, &prelude, prog)?;
    let arena = make(alloc, &prelude, prog, file, &resolved)?;
    Ok(arena)
}

// Whether this is the text that stands for an arena's file.
fn is_file(arena: &CoreArena, file: &str) -> bool
    ensures { IsTrue result → arena.now.file ≡ file.now }
{
    arena.file() == file.as_bytes()
}

/// The Core of a program, behind the prelude, in a file of this name.
///
/// # Errors
///
/// [`Refusal::Name`] at the first breach in text order, and [`Refusal::Memory`]. Nodes that would break
/// the rules of Core are refused as memory is: sugar makes none from names without a breach.
pub fn elaborate(alloc: Global, prog: &Prog, file: &str) -> Result<Core, Refusal>
    ensures refused { IfErr result IsNameOrMemory }
    ensures file { IfOk result (λ core. core.file ≡ file.now) }
{
    let arena = elaborate_arena(alloc, prog, file)?;
    if !is_file(&arena, file) {
        return Err(Refusal::Memory);
    }
    if !is_core(alloc, &arena)? {
        return Err(Refusal::Memory);
    }
    Ok(Core::finish(arena))
}
