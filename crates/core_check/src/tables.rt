//! What is worked out of an arena before its items are gone over.

ghost use Rattle.std.specs.Prelude.{◌≡◌, length, slice_index_or, IfOk};
ghost use Rattle.effect_meaning.specs.Scoped.{parameters_of, type_name};
ghost use Rattle.core_check.specs.Declares.{limit, Worked};

use crate::known::BUILTIN_TYPES;
use crate::written::{bound_table, reach_table};
use effect_meaning::{CoreArena, Item, ItemForm};
use std::alloc::{AllocError, Global};

/// For each written type a number above those of the types, and one above those of the type variables,
/// that it names; and for each type the count of types behind the item that declares it.
#[derive(Drop)]
pub struct Tables {
    pub reach: Vec<u64>,
    pub bound: Vec<u64>,
    pub limits: Vec<u32>,
}

impl Tables {
    /// The tables of an arena. Whether the limits are right is tested at each item.
    #[tactic(auto, using(crate::proofs::Writtens::has_reach, crate::proofs::Writtens::has_bound))]
    pub fn of(alloc: Global, arena: &CoreArena) -> Result<Tables, AllocError>
        ensures { IfOk result (λ tables. Worked arena.now tables) }
    {
        Ok(Tables {
            reach: reach_table(alloc, arena.types())?,
            bound: bound_table(alloc, arena.types())?,
            limits: limits(alloc, arena.items())?,
        })
    }

    /// The count of types behind the item that declares a type.
    pub fn limit(&self, row: u32) -> u32
        ensures { result ≡ limit self.now row }
    {
        match self.limits.get(row as usize) {
            Some(count) => *count,
            None => 0,
        }
    }
}

// Types that are declared together, behind others.
fn push_limits(limits: &mut Vec<u32>, count: usize) -> Result<(), AllocError> {
    let end = limits.len().checked_add(count).ok_or(AllocError)?;
    let end = u32::try_from(end).map_err(|_| AllocError)?;
    for _ in 0..count {
        limits.push(end)?;
    }
    Ok(())
}

fn limits(alloc: Global, items: &[Item]) -> Result<Vec<u32>, AllocError> {
    let mut limits = Vec::new(alloc);
    push_limits(&mut limits, BUILTIN_TYPES as usize)?;
    for item in items {
        if let ItemForm::Types(rows) = &item.form {
            push_limits(&mut limits, rows.len())?;
        }
    }
    Ok(limits)
}

/// How many parameters a type has.
pub fn parameter_count(arena: &CoreArena, row: u32) -> u64
    ensures { result ≡ length (parameters_of arena.now row) }
{
    match arena.type_rows().get(row as usize) {
        Some(row) => row.parameters.len() as u64,
        None => 0,
    }
}

/// The name of a type, or no letters where it isn't there.
pub fn type_name(arena: &CoreArena, row: u32) -> &[u8]
    ensures { result.now ≡ type_name arena.now row }
{
    match arena.type_rows().get(row as usize) {
        Some(row) => row.name.as_slice(),
        None => &[],
    }
}
