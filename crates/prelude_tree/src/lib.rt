//! The prelude as a program: the nodes and the items of the tree that its text has.
//!
//! The tree is kept as a table, so that no text is read for it.
//!
//! Stands on: `fx_base`, `ml_syntax`.
#![tactic(auto)]

mod program;

pub use program::prelude_program;
