//! The assembler, and the listing of an image.
//!
//! [`assemble`] turns lines with labels into instructions: as few branches as possible stand for two
//! instructions. [`are_lines`] tests whether it may be called. [`listing`] writes an image as text, each
//! instruction with its word.
//!
//! Promised: the code is that of the lines in the layout with as few long branches as possible, and
//! each line's instructions do what the line says; lines that pass the test can be assembled; two images
//! with the same listing are equal.
//!
//! Stands on: `rv_table`, `rv_model` and `fx_base`, and `itoa` of the kit.
#![tactic(auto)]

mod assembled;
mod assembler;
mod constant;
mod labels;
mod layout;
mod list;
#[cfg(test)]
mod samples;
mod standing;
#[cfg(test)]
mod tests;
mod text;

pub use assembled::{Assembled, LabelPlace};
pub use assembler::{MOST, assemble, lines_are_done};
pub use list::{listing, listings_differ};
pub use standing::are_lines;
