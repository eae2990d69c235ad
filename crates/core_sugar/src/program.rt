//! The Core of a program behind that of the prelude.

use crate::builder::Builder;
use effect_meaning::{CoreArena, Sequence};
use ml_syntax::Prog;
use name_uses::Uses;
use std::alloc::{AllocError, Global};

/// A program, and what its names stand for.
#[derive(Clone, Copy)]
pub struct Named<'a> {
    pub prog: &'a Prog,
    pub uses: &'a Uses,
}

// Makes a program behind what is made already.
fn make_program(
    alloc: Global,
    arena: CoreArena,
    named: Named<'_>,
    append: Option<u32>,
    next_name: u32,
) -> Result<(CoreArena, u32), AllocError> {
    let nodes = named.prog.nodes.as_slice();
    let mut builder = Builder::new(alloc, arena, nodes, named.uses, append, next_name);
    builder.make_items(named.prog.items.as_slice())?;
    Ok(builder.end())
}

// An arena that holds the built-in rows.
fn first_arena(alloc: Global, file: &str, uses: &Uses) -> Result<CoreArena, AllocError> {
    let file = Sequence::from_vec(Vec::from_slice(alloc, file.as_bytes())?);
    let arena = CoreArena::new(alloc, file);
    let mut builder = Builder::new(alloc, arena, &[], uses, None, 0);
    builder.begin_tables()?;
    let (arena, _) = builder.end();
    Ok(arena)
}

/// The nodes, tables and items of the prelude and of a program behind it. `append` is the name of the
/// prelude's function that appends two lists, and `next_name` is a number above those of all names.
pub fn make_core(
    alloc: Global,
    file: &str,
    prelude: Named<'_>,
    program: Named<'_>,
    append: Option<u32>,
    next_name: u32,
) -> Result<CoreArena, AllocError> {
    let arena = first_arena(alloc, file, program.uses)?;
    let (arena, next_name) = make_program(alloc, arena, prelude, append, next_name)?;
    let (arena, _) = make_program(alloc, arena, program, append, next_name)?;
    Ok(arena)
}
