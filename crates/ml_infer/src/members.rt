//! Which rows of a table belong to each type.

ghost use Rattle.std.specs.Prelude.{◌≡◌, map, OnOk, IfOk};
ghost use Rattle.ml_infer.specs.Members.{belonging, count_of, first_of, member_added, next_of, no_members};

use crate::known::Known;
use effect_meaning::CoreArena;
use std::alloc::{AllocError, Global};

/// The rows of each type, in their order: the first of them, and behind each the next one.
#[derive(Drop)]
pub struct Members {
    pub firsts: Known<u32>,
    pub nexts: Known<u32>,
    pub counts: Known<u32>,
}

impl Members {
    /// The rows of a table, of which the types are given.
    pub fn new(alloc: Global, of_types: &[u32]) -> Result<Members, AllocError>
        ensures { IfOk result (λ members. members ≡ belonging 0 of_types.now) }
    {
        let mut members = Members {
            firsts: Known::new(alloc),
            nexts: Known::new(alloc),
            counts: Known::new(alloc),
        };
        if of_types.len() > u32::MAX as usize {
            return Err(AllocError);
        }
        for row in (0..of_types.len()).rev() {
            members.add(row as u32, of_types[row])?;
        }
        Ok(members)
    }

    // Puts a row before the others of its type.
    fn add(&mut self, row: u32, of_type: u32) -> Result<(), AllocError>
        ensures { OnOk result (self.new ≡ member_added row of_type self.old) }
    {
        if let Some(next) = self.first(of_type) {
            self.nexts.set(row, next)?;
        }
        let count = self.count(of_type).saturating_add(1);
        self.firsts.set(of_type, row)?;
        self.counts.set(of_type, count)
    }

    /// The first row of a type.
    pub fn first(&self, of_type: u32) -> Option<u32>
        ensures { result ≡ first_of self.now of_type }
    {
        self.firsts.get(of_type)
    }

    /// The next row of the same type.
    pub fn next(&self, row: u32) -> Option<u32>
        ensures { result ≡ next_of self.now row }
    {
        self.nexts.get(row)
    }

    /// How many rows a type has.
    pub fn count(&self, of_type: u32) -> u32
        ensures { result ≡ count_of self.now of_type }
    {
        match self.counts.get(of_type) {
            Some(count) => count,
            None => 0,
        }
    }
}

/// The constructors of each type.
pub fn variants_of(alloc: Global, arena: &CoreArena) -> Result<Members, AllocError>
    ensures { IfOk result (λ members. members ≡ belonging 0 (map (λ r. r.of_type) arena.now.variant_rows)) }
{
    let rows = arena.variant_rows().iter();
    let of_types: Vec<u32> = rows.map(|row| row.of_type).collect(alloc)?;
    Members::new(alloc, of_types.as_slice())
}

/// The fields of each type.
pub fn fields_of(alloc: Global, arena: &CoreArena) -> Result<Members, AllocError>
    ensures { IfOk result (λ members. members ≡ belonging 0 (map (λ r. r.of_type) arena.now.field_rows)) }
{
    let rows = arena.field_rows().iter();
    let of_types: Vec<u32> = rows.map(|row| row.of_type).collect(alloc)?;
    Members::new(alloc, of_types.as_slice())
}
