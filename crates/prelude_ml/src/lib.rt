//! Two texts in the source language: the prelude that stands before each program, and the made
//! program of a number.
//!
//! Promised: [`prelude`] gives the text that `specs/PreludeText` writes out, and [`make_program`] the
//! one that `specs/MadeText` builds from the number.
//!
//! Stands on: `fx_base`.
#![tactic(auto)]

mod made_text;
mod prelude_text;
#[cfg(test)]
mod tests;

pub use made_text::make_program;
pub use prelude_text::prelude;
