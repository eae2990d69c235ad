//! From Core with tests to flat functions, whose values are in slots.
//!
//! Nested functions become one of up to four parameters; what a function takes from outside is listed,
//! and each name becomes a slot, a captured word or a global. Loops that fit into registers alone stay
//! in the function that they stand in.
//!
//! A term is converted by tasks on a stack, which give and take the nodes of its parts, so that no
//! program is too deep.
//!
//! Promised: [`convert`] is refused where a function has more than 255 slots or free names and for want
//! of memory alone, and it always returns. What the functions do is tested.
//!
//! Stands on: `fx_base`, `effect_meaning`, `low_terms`, `core_shapes`, `slot_builder`, `indexmap`.
#![tactic(auto)]

mod applications;
mod blocks;
mod clauses;
mod conditions;
mod conversion;
mod converter;
mod functions;
mod handlers;
mod items;
mod loops;
mod names;
mod operations;
mod tasks;
mod terms;

pub use conversion::convert;
