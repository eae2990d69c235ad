//! Building the terms and tests of flat functions, each from its parts, with what its code depends on.
//!
//! Nodes are given to a stack; a form takes those of its parts from it.
//!
//! Promised: each function is safe and returns, and is refused for want of memory alone.
//!
//! Stands on: `effect_meaning`, `low_terms`, `core_shapes`, `fx_base`.
#![tactic(auto)]

mod blocks;
mod builder;
mod clauses;
mod facts;
mod operations;
mod sequences;
mod table;
mod test_facts;
mod test_places;

pub use builder::{SlotBuilder, UNIT};
pub use table::Table;
