//! From flat functions whose registers and stores are chosen to lines of assembly.
//!
//! [`select`] writes the lines of a program: each step of a block has a function that writes its
//! instructions, and nothing is chosen here. [`Statics`] says where the program's static words lie.
//!
//! Promised: it is refused only for want of memory. What the lines do is tested, not proved.
//!
//! Read `steps` first, the walk over the blocks, then `functions`; `loads`, `inline`, `comparisons`,
//! `cells`, `blocks`, `checks`, `conditions`, `clauses` and `transfers` write the steps; `selector` has
//! what they stand on.
//!
//! Stands on: `fx_base`, `effect_meaning`, `rv_model`, `rt_layout`, `low_terms`.
#![tactic(auto)]

mod blocks;
mod cells;
mod checks;
mod clauses;
mod comparisons;
mod conditions;
mod functions;
mod inline;
mod labels;
mod loads;
mod partials;
mod program;
mod selector;
mod statics;
mod steps;
mod tasks;
#[cfg(test)]
mod tests;
mod transfers;

pub use program::select;
pub use statics::{Statics, string_size};
