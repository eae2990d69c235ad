//! The types of effects.

ghost use Rattle.std.specs.Prelude.{◌≡◌, true, slice_index_or, IsTrue};
ghost use Rattle.effect_meaning.specs.Scoped.{effects_typed};
ghost use Rattle.core_check.specs.Written.{HasBound};
ghost use Rattle.core_check.specs.Effects.{is_closed_by, is_any_closed_by, is_one, effect_by, effects_by};
ghost use Rattle.effect_meaning.specs.declared.core_nodes.TypeExpression.TheVariants as type;

use effect_meaning::{CoreArena, EffectRow, TypeExpression};

/// Whether a written type has no blank and only the type variables below a number.
pub fn is_closed_by(table: &[u64], count: u64, written: u32) -> bool
    ensures { result ≡ is_closed_by table.now count written }
{
    match table.get(written as usize) {
        Some(bound) => *bound <= count && *bound < 4_294_967_297,
        None => false,
    }
}

/// The same of a written type that there may be.
pub fn is_any_closed_by(table: &[u64], count: u64, written: Option<u32>) -> bool
    ensures { result ≡ is_any_closed_by table.now count written }
{
    match written {
        Some(written) => is_closed_by(table, count, written),
        None => true,
    }
}

fn is_one(node: &TypeExpression) -> bool
    ensures { result ≡ is_one node.now }
{
    match node {
        TypeExpression::Variable(_) => false,
        TypeExpression::Any => false,
        TypeExpression::Applied { arguments, .. } => arguments.len() == 1,
    }
}

fn is_one_at(types: &[TypeExpression], written: u32) -> bool
    ensures { result ≡ is_one (slice_index_or types.now written type.Any) }
{
    match types.get(written as usize) {
        Some(node) => is_one(node),
        None => false,
    }
}

fn effect_by(types: &[TypeExpression], table: &[u64], row: &EffectRow) -> bool
    ensures { result ≡ effect_by types.now table.now row.now }
{
    is_one_at(types, row.result)
        && is_closed_by(table, 0, row.result)
        && is_any_closed_by(table, 0, row.argument)
}

fn effects_by(types: &[TypeExpression], table: &[u64], rows: &[EffectRow]) -> bool
    ensures { result ≡ effects_by types.now table.now rows.now }
{
    for row in rows {
        if !effect_by(types, table, row) {
            return false;
        }
    }
    true
}

/// Whether each effect's type is a type name applied to one type, without a blank and a type variable.
pub fn effects_hold(arena: &CoreArena, table: &[u64]) -> bool
    ensures { IsTrue result → HasBound arena.now table.now → effects_typed arena.now ≡ true }
{
    effects_by(arena.types(), table, arena.effect_rows())
}
