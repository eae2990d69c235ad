//! Types as they become known while types are inferred: a graph in which equal types are one.
//!
//! A [`Types`] holds types by numbers: variables, and type constructors with their arguments. Types
//! are made equal by [`Types::unify`], without a search for types that are parts of themselves;
//! [`Sizes`] finds these, and how large types are. [`Types::copy`] makes a copy of a type with new
//! variables, in which outer types are shared.
//!
//! Promised: each function gives exactly what its description in `specs/` gives, on lists of nodes;
//! each is refused for want of memory alone, and always returns.
//!
//! Stands on: `effect_meaning`, for the built-in operations.
#![tactic(auto)]

mod builtin_types;
mod copying;
mod form;
mod outer;
mod parts;
mod signatures;
mod sizes;
mod stack;
#[cfg(test)]
mod tests;
mod types;
mod unifying;

pub use builtin_types::{
    ARRAY, ATOMIC, BOOL, CHAR, DEEP, DOMAIN, EFFECT, EXN, FUNCTION, INT, OPTION, REF, SHALLOW,
    STRING, TUPLE, UNIT,
};
pub use form::Form;
pub use signatures::Signature;
pub use sizes::{MOST, Sizes, TOO_LARGE};
pub use stack::Stack;
pub use types::{Node, Types};
