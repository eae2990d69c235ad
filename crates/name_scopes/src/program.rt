//! The names of a whole program behind the prelude.

ghost use Rattle.std.specs.Prelude.{IfErr};
ghost use Rattle.name_scopes.specs.Refused.{IsNameOrMemory};

use crate::groups::Groups;
use crate::resolve_items::Rows;
use crate::resolver::Resolver;
use crate::scopes::Scopes;
use fx_base::{Place, Refusal};
use ml_syntax::Prog;
use name_uses::Uses;
use std::alloc::{AllocError, Global};

/// How many rows the tables have before the first item.
const BUILTIN_ROWS: Rows = Rows {
    types: 17,
    variants: 4,
    fields: 0,
    exceptions: 10,
    effects: 0,
};

/// What the names of the prelude and of a program stand for.
#[derive(Drop)]
pub struct Resolved {
    pub prelude: Uses,
    pub program: Uses,
    /// The name of the prelude's function that appends two lists.
    pub append: Option<u32>,
    /// A number above those of all names.
    pub next_name: u32,
}

/// What is known between two programs: the names in scope, the groups, and the counts of rows.
#[derive(Drop)]
struct Known<'a> {
    scopes: Scopes<'a>,
    groups: Groups<'a>,
    rows: Rows,
}

// What the names of one program stand for, behind what is known.
fn walk<'a>(
    alloc: Global,
    known: Known<'a>,
    prog: &'a Prog,
) -> Result<(Known<'a>, Uses), AllocError> {
    let Known {
        scopes,
        groups,
        rows,
    } = known;
    let mut rows = rows;
    let mut resolver = Resolver::new(alloc, scopes, groups, prog.nodes.as_slice())?;
    resolver.items(prog.items.as_slice(), &mut rows)?;
    let (scopes, groups, uses) = resolver.end();
    let known = Known {
        scopes,
        groups,
        rows,
    };
    Ok((known, uses))
}

fn builtin_names<'a>(alloc: Global) -> Result<Known<'a>, AllocError> {
    Ok(Known {
        scopes: Scopes::new(alloc)?,
        groups: Groups::new(alloc),
        rows: BUILTIN_ROWS,
    })
}

// What the names of the prelude stand for. Behind it its own spellings are out of scope.
fn walk_prelude<'a>(alloc: Global, prelude: &'a Prog) -> Result<(Known<'a>, Uses), AllocError> {
    let known = builtin_names(alloc)?;
    let (mut known, uses) = walk(alloc, known, prelude)?;
    known.scopes.end_prelude()?;
    Ok((known, uses))
}

// What the names of the prelude and of a program behind it stand for, or the place of the first breach.
fn walk_both(
    alloc: Global,
    prelude: &Prog,
    prog: &Prog,
) -> Result<Result<Resolved, Place>, AllocError> {
    let (known, prelude) = walk_prelude(alloc, prelude)?;
    let (known, program) = walk(alloc, known, prog)?;
    let Known {
        scopes,
        mut groups,
        rows: _,
    } = known;
    if let Some(place) = groups.breach() {
        return Ok(Err(place));
    }
    Ok(Ok(Resolved {
        prelude,
        program,
        append: scopes.append(),
        next_name: groups.new_name()?,
    }))
}

/// What the names of the prelude and of a program behind it stand for.
///
/// # Errors
///
/// [`Refusal::Name`] at the first breach in text order, and [`Refusal::Memory`].
pub fn resolve(alloc: Global, prelude: &Prog, prog: &Prog) -> Result<Resolved, Refusal>
    ensures refused { IfErr result IsNameOrMemory }
{
    match walk_both(alloc, prelude, prog)? {
        Ok(resolved) => Ok(resolved),
        Err(place) => Err(Refusal::Name(place)),
    }
}
