//! From syntax to Core: scopes, sugar, and the prelude before each program.
//!
//! Promised: [`elaborate`] is refused only by a breach of the rules on names or for want of memory, and what it
//! gives keeps the rules of Core (`IsCore` of `effect_meaning`).
//!
//! Stands on: `fx_base`, `ml_syntax`, `effect_meaning`, `name_scopes`, `prelude_tree`, `core_check`, `core_sugar`.
#![tactic(auto)]

mod program;
#[cfg(test)]
mod tests;

pub use program::elaborate;
