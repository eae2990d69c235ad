//! The rows of constructors and fields.

ghost use Rattle.std.specs.Prelude.{◌≡◌, suc, true, IfOk, IsTrue};
ghost use Rattle.std.specs.List.{list_all};
ghost use Rattle.core_check.specs.Declares.{variant_fits, field_fits, follows, ordered, RowsHold};

use crate::effects::{is_any_closed_by, is_closed_by};
use crate::rows::{is_any_within, is_within};
use crate::tables::{Tables, parameter_count};
use crate::texts::{fields_apart, variants_apart};
use effect_meaning::{CoreArena, FieldRow, VariantRow};
use std::alloc::{AllocError, Global};

fn variant_fits(arena: &CoreArena, tables: &Tables, row: &VariantRow) -> bool
    ensures { result ≡ variant_fits arena.now tables.now row.now }
{
    is_any_within(
        tables.reach.as_slice(),
        tables.limit(row.of_type),
        row.argument,
    ) && is_any_closed_by(
        tables.bound.as_slice(),
        parameter_count(arena, row.of_type),
        row.argument,
    )
}

fn field_fits(arena: &CoreArena, tables: &Tables, row: &FieldRow) -> bool
    ensures { result ≡ field_fits arena.now tables.now row.now }
{
    is_within(
        tables.reach.as_slice(),
        tables.limit(row.of_type),
        row.annotation,
    ) && is_closed_by(
        tables.bound.as_slice(),
        parameter_count(arena, row.of_type),
        row.annotation,
    )
}

fn variants_fit(arena: &CoreArena, tables: &Tables, rows: &[VariantRow]) -> bool
    ensures { result ≡ list_all (variant_fits arena.now tables.now) rows.now }
{
    for row in rows {
        if !variant_fits(arena, tables, row) {
            return false;
        }
    }
    true
}

fn fields_fit(arena: &CoreArena, tables: &Tables, rows: &[FieldRow]) -> bool
    ensures { result ≡ list_all (field_fits arena.now tables.now) rows.now }
{
    for row in rows {
        if !field_fits(arena, tables, row) {
            return false;
        }
    }
    true
}

// Whether a field stands behind one of this type and before this index.
fn follows(of_type: u32, index: u64, row: &FieldRow) -> bool
    ensures { result ≡ follows of_type index row.now }
{
    (row.of_type == of_type && row.index as u64 == index)
        || (of_type < row.of_type && row.index == 0)
}

// Whether the fields of each type stand together and in order.
fn are_ordered(rows: &[FieldRow]) -> bool
    ensures { result ≡ ordered 0 0 rows.now }
{
    let mut of_type = 0;
    let mut index = 0;
    for row in rows {
        if !follows(of_type, index, row) {
            return false;
        }
        of_type = row.of_type;
        index = row.index as u64 + 1;
    }
    true
}

/// Whether the rules on the rows of constructors and fields hold.
pub fn rows_hold(alloc: Global, arena: &CoreArena, tables: &Tables) -> Result<bool, AllocError>
    ensures { IfOk result (λ holds. IsTrue holds → RowsHold arena.now tables.now) }
{
    if !variants_apart(alloc, arena.variant_rows())? {
        return Ok(false);
    }
    if !fields_apart(alloc, arena.field_rows())? {
        return Ok(false);
    }
    Ok(
        variants_fit(arena, tables, arena.variant_rows())
            && fields_fit(arena, tables, arena.field_rows())
            && are_ordered(arena.field_rows()),
    )
}
