//! Pushes into an arena that test what they are given.

ghost use Rattle.std.specs.Prelude.{◌≡◌, ◌∷◌, [], ◌++◌, length, OnOk, OnErr, IfOk};
ghost use Rattle.effect_meaning.specs.Arena.{Parts};

use crate::stands::{
    effect_stands, exception_stands, field_stands, item_stands, pattern_stands, term_stands,
    type_stands, variant_stands,
};
use effect_meaning::{
    CoreArena, EffectRow, ExceptionRow, FieldRow, Item, PatternNode, TermNode, TypeExpression,
    VariantRow,
};
use std::alloc::AllocError;

/// A further written type, if it stands.
#[tactic(auto, using(crate::proofs::Needs::met_all))]
pub fn push_type(arena: &mut CoreArena, node: TypeExpression) -> Result<u32, AllocError>
    ensures number { IfOk result (λ n. n ≡ length arena.old.types) }
    ensures ok { OnOk result (arena.new ≡ record arena.old { types = arena.old.types ++ node ∷ [] }) }
    ensures err { OnErr result (arena.new ≡ arena.old) }
{
    if type_stands(arena, &node) {
        arena.push_type(node)
    } else {
        Err(AllocError)
    }
}

/// A further pattern, if it stands.
#[tactic(auto, using(crate::proofs::Needs::met_all))]
pub fn push_pattern(arena: &mut CoreArena, node: PatternNode) -> Result<u32, AllocError>
    ensures number { IfOk result (λ n. n ≡ length arena.old.patterns) }
    ensures ok { OnOk result (arena.new ≡ record arena.old { patterns = arena.old.patterns ++ node ∷ [] }) }
    ensures err { OnErr result (arena.new ≡ arena.old) }
{
    if pattern_stands(arena, &node) {
        arena.push_pattern(node)
    } else {
        Err(AllocError)
    }
}

/// A further term, if it stands.
#[tactic(auto, using(crate::proofs::Needs::met_all))]
pub fn push_term(arena: &mut CoreArena, node: TermNode) -> Result<u32, AllocError>
    ensures number { IfOk result (λ n. n ≡ length arena.old.terms) }
    ensures ok { OnOk result (arena.new ≡ record arena.old { terms = arena.old.terms ++ node ∷ [] }) }
    ensures err { OnErr result (arena.new ≡ arena.old) }
{
    if term_stands(arena, &node) {
        arena.push_term(node)
    } else {
        Err(AllocError)
    }
}

/// A further constructor of the tables, if it stands.
#[tactic(auto, using(crate::proofs::Needs::met_all))]
pub fn push_variant_row(arena: &mut CoreArena, row: VariantRow) -> Result<u32, AllocError>
    ensures number { IfOk result (λ n. n ≡ length arena.old.variant_rows) }
    ensures ok { OnOk result (arena.new ≡ record arena.old { variant_rows = arena.old.variant_rows ++ row ∷ [] }) }
    ensures err { OnErr result (arena.new ≡ arena.old) }
{
    if variant_stands(arena, &row) {
        arena.push_variant_row(row)
    } else {
        Err(AllocError)
    }
}

/// A further field of the tables, if it stands.
#[tactic(auto, using(crate::proofs::Needs::met_all))]
pub fn push_field_row(arena: &mut CoreArena, row: FieldRow) -> Result<u32, AllocError>
    ensures number { IfOk result (λ n. n ≡ length arena.old.field_rows) }
    ensures ok { OnOk result (arena.new ≡ record arena.old { field_rows = arena.old.field_rows ++ row ∷ [] }) }
    ensures err { OnErr result (arena.new ≡ arena.old) }
{
    if field_stands(arena, &row) {
        arena.push_field_row(row)
    } else {
        Err(AllocError)
    }
}

/// A further exception of the tables, if it stands.
#[tactic(auto, using(crate::proofs::Needs::met_all))]
pub fn push_exception_row(arena: &mut CoreArena, row: ExceptionRow) -> Result<u32, AllocError>
    ensures number { IfOk result (λ n. n ≡ length arena.old.exception_rows) }
    ensures ok { OnOk result (arena.new ≡ record arena.old { exception_rows = arena.old.exception_rows ++ row ∷ [] }) }
    ensures err { OnErr result (arena.new ≡ arena.old) }
{
    if exception_stands(arena, &row) {
        arena.push_exception_row(row)
    } else {
        Err(AllocError)
    }
}

/// A further effect of the tables, if it stands.
#[tactic(auto, using(crate::proofs::Needs::met_all))]
pub fn push_effect_row(arena: &mut CoreArena, row: EffectRow) -> Result<u32, AllocError>
    ensures number { IfOk result (λ n. n ≡ length arena.old.effect_rows) }
    ensures ok { OnOk result (arena.new ≡ record arena.old { effect_rows = arena.old.effect_rows ++ row ∷ [] }) }
    ensures err { OnErr result (arena.new ≡ arena.old) }
{
    if effect_stands(arena, &row) {
        arena.push_effect_row(row)
    } else {
        Err(AllocError)
    }
}

/// A further item, if it stands.
#[tactic(auto, using(crate::proofs::Needs::met_all))]
pub fn push_item(arena: &mut CoreArena, item: Item) -> Result<u32, AllocError>
    ensures number { IfOk result (λ n. n ≡ length arena.old.items) }
    ensures ok { OnOk result (arena.new ≡ record arena.old { items = arena.old.items ++ item ∷ [] }) }
    ensures err { OnErr result (arena.new ≡ arena.old) }
{
    if item_stands(arena, &item) {
        arena.push_item(item)
    } else {
        Err(AllocError)
    }
}
