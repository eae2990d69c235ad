//! Whether the nodes and tables of a program keep the rules of Core: those on names and on the types of
//! effects.
//!
//! Promised: an arena that passes [`is_core`] keeps the rules (`IsCore` of `effect_meaning`). That each
//! arena that keeps them passes is not promised.
//!
//! The walk goes over terms and patterns by a stack of what is still to be done, and keeps the names in
//! scope in an ordered set, so that each node costs about the same. The rows in scope are those below a
//! count for each table.
//!
//! Stands on: `effect_meaning`, `indexmap`.
#![tactic(auto)]

mod check;
mod declared;
mod effects;
mod fits;
mod items;
mod kept;
mod known;
mod names;
mod rows;
mod tables;
mod task;
#[cfg(test)]
mod tests;
mod texts;
mod walk;
mod walk_clauses;
mod walk_patterns;
mod walk_terms;
mod written;

pub use check::is_core;
