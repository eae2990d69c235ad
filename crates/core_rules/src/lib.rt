//! Tests of the rules that a program in Core keeps.
//!
//! The pushes add a node, a row or an item to an arena where all that it names stands there, and refuse
//! it as memory is refused where it doesn't.
//!
//! Stands on: `fx_base`, `effect_meaning`.
#![tactic(auto)]

mod push;
mod stands;

pub use push::{
    push_effect_row, push_exception_row, push_field_row, push_item, push_pattern, push_term,
    push_type, push_variant_row,
};
