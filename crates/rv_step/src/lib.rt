//! One instruction of a hart, over any memory.
//!
//! A [`Memory`] is asked for one access at a time: the words of [`VecMemory`], or words that other
//! harts change as well.
//!
//! Promised: [`step`] takes one instruction as the machine's definition says, with at most one access
//! of the memory. Where the instruction waits, has stopped or can't be carried out, nothing is changed.
//!
//! Stands on: `rv_model`.
#![tactic(auto)]

mod act;
mod arithmetic;
mod instruction;
mod memory;
mod plan;
#[cfg(test)]
mod tests;
mod vec_memory;

pub use act::{Act, effect};
pub use instruction::{Turn, part_of, step};
pub use memory::Memory;
pub use plan::Planned;
pub use vec_memory::VecMemory;
