//! Tests of the rows that a node names.

ghost use Rattle.std.specs.Prelude.{◌≡◌, ◌&&◌};
ghost use Rattle.core_check.specs.Walk.{is_known, are_known, is_within, is_any_within, is_reached, is_any_reached, effects_test, functions_test};

use crate::known::Known;
use effect_meaning::{Constructor, EffectClause, FieldPart, Function};

/// Whether a constructor is in scope.
pub fn is_known(known: Known, constructor: Constructor) -> bool
    ensures { result ≡ is_known known constructor }
{
    match constructor {
        Constructor::Variant(n) => n < known.variants,
        Constructor::Exception(n) => n < known.exceptions,
        Constructor::Effect(n) => n < known.effects,
    }
}

/// Whether fields are in scope.
pub fn are_known(known: Known, fields: &[FieldPart]) -> bool
    ensures { result ≡ are_known known fields.now }
{
    for field in fields {
        if field.field >= known.fields {
            return false;
        }
    }
    true
}

/// Whether all types that a written type names are below a number.
pub fn is_within(reach: &[u64], count: u32, written: u32) -> bool
    ensures { result ≡ is_within reach.now count written }
{
    match reach.get(written as usize) {
        Some(last) => *last <= count as u64,
        None => true,
    }
}

/// The same of a written type that there may be.
pub fn is_any_within(reach: &[u64], count: u32, written: Option<u32>) -> bool
    ensures { result ≡ is_any_within reach.now count written }
{
    match written {
        Some(written) => is_within(reach, count, written),
        None => true,
    }
}

/// Whether all types that a written type names are in scope.
pub fn is_reached(known: Known, reach: &[u64], written: u32) -> bool
    ensures { result ≡ is_reached known reach.now written }
{
    is_within(reach, known.types, written)
}

/// Whether all types that a written type names are in scope, if there is one.
pub fn is_any_reached(known: Known, reach: &[u64], written: Option<u32>) -> bool
    ensures { result ≡ is_any_reached known reach.now written }
{
    is_any_within(reach, known.types, written)
}

fn is_effect_reached(known: Known, reach: &[u64], clause: &EffectClause) -> bool
    ensures { result ≡ (is_known known clause.now.effect && is_any_reached known reach.now clause.now.annotation) }
{
    is_known(known, clause.effect) && is_any_reached(known, reach, clause.annotation)
}

/// Whether the effects and the types of clauses are in scope.
pub fn are_effects_reached(known: Known, reach: &[u64], clauses: &[EffectClause]) -> bool
    ensures { result ≡ effects_test known reach.now clauses.now }
{
    for clause in clauses {
        if !is_effect_reached(known, reach, clause) {
            return false;
        }
    }
    true
}

/// Whether the types of functions are in scope.
pub fn are_functions_reached(known: Known, reach: &[u64], functions: &[Function]) -> bool
    ensures { result ≡ functions_test known reach.now functions.now }
{
    for function in functions {
        if !is_any_reached(known, reach, function.annotation) {
            return false;
        }
    }
    true
}
