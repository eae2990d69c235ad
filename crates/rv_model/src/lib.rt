//! The machine: a subset of RV64 whose harts share numbered words.
//!
//! Its definitions stand in `specs/`: the instruction table, one instruction of a hart, the runs of
//! all harts in any order, and where the log and the end of a run stand among the words. The types
//! here are those that the definitions speak of.
//!
//! Promised: each instruction of a [`Code`] is well-formed, the start words of an [`Image`] rise, and
//! register 0 of a [`Hart`] is 0. The words and harts that an image makes for its start are those of
//! the definitions.
//!
//! Stands on: `fx_base`.
#![tactic(auto)]

mod code;
mod hart;
mod image;
mod instr;
mod items;
mod layout;
mod line;
mod report;
#[cfg(test)]
mod tests;

pub use code::Code;
pub use hart::{Access, Hart, Part};
pub use image::{Image, StartWord};
pub use instr::{Instr, Op};
pub use items::Items;
pub use layout::{
    CURSOR_WORD, DETAIL_WORD, END_WORD, HARTS_WORD, HEAP_CURSOR_WORD, HEAP_SIZE_WORD, LOCK_WORD,
    LOG_SIZE_WORD, LOG_WORD, SLOTS_WORD, TEXT_WORD,
};
pub use line::Line;
pub use report::{Report, RunEnd};
