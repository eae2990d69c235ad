//! What the names of a program stand for, node by node: what scopes find, and sugar reads.
//!
//! Stands on: `effect_meaning`.
#![tactic(auto)]

mod uses;
mod values;

pub use uses::{ItemUse, Use, Uses};
pub use values::{
    ATOMIC_TYPE, Builtin, CONS, DEEP_TYPE, DOMAIN_TYPE, EFFECT_TYPE, FUNCTION_TYPE, GREATEST,
    INT_TYPE, LEAST, NIL, SHALLOW_TYPE, TUPLE_TYPE, TypeValue, Value,
};
