//! Whether an arena keeps the rules of Core.

ghost use Rattle.std.specs.Prelude.{◌≡◌, [], true, IfOk, IfSome, IsTrue};
ghost use Rattle.effect_meaning.specs.Scoped.{IsCore, names_scoped};
ghost use Rattle.core_check.specs.Declares.{Worked, RowsHold, ItemLeads};

use crate::declared::declared_hold;
use crate::effects::effects_hold;
use crate::fits::rows_hold;
use crate::items::value_holds;
use crate::known::Known;
use crate::names::Names;
use crate::tables::Tables;
use effect_meaning::{CoreArena, Item};
use std::alloc::{AllocError, Global};

// Whether the rules hold in an item. It gives what is in scope behind it; its names come into scope.
fn item_holds(
    alloc: Global,
    arena: &CoreArena,
    tables: &Tables,
    known: Known,
    item: &Item,
    names: &mut Names,
) -> Result<Option<Known>, AllocError>
    ensures { IfOk result (λ found. IfSome found (λ later. ItemLeads arena.now tables.now known names.old item.now later names.new)) }
{
    let Some(later) = declared_hold(alloc, arena, tables, known, &item.form)? else {
        return Ok(None);
    };
    if !value_holds(
        alloc,
        arena,
        tables.reach.as_slice(),
        known,
        &item.form,
        names,
    )? {
        return Ok(None);
    }
    Ok(Some(later))
}

// Whether the rules on names hold.
fn items_hold(alloc: Global, arena: &CoreArena, tables: &Tables) -> Result<bool, AllocError>
    ensures { IfOk result (λ holds. IsTrue holds → Worked arena.now tables.now → RowsHold arena.now tables.now → names_scoped arena.now ≡ true) }
{
    let mut names = Names::new(alloc);
    let mut known = Known::builtin();
    for item in arena.items() {
        let Some(later) = item_holds(alloc, arena, tables, known, item, &mut names)? else {
            return Ok(false);
        };
        known = later;
    }
    Ok(true)
}

/// Whether an arena keeps the rules of Core: each name, type, constructor and field is used within its
/// scope, nothing is bound twice where that is forbidden, both sides of an or-pattern bind the same
/// names, and the types of effects are closed. Its time goes up in proportion to the arena, where each
/// node is a part of one other.
pub fn is_core(alloc: Global, arena: &CoreArena) -> Result<bool, AllocError>
    ensures { IfOk result (λ holds. IsTrue holds → IsCore arena.now) }
{
    let tables = Tables::of(alloc, arena)?;
    if !effects_hold(arena, tables.bound.as_slice()) {
        return Ok(false);
    }
    if !rows_hold(alloc, arena, &tables)? {
        return Ok(false);
    }
    items_hold(alloc, arena, &tables)
}
