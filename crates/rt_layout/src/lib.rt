//! Where everything lies: registers, the words of an image, blocks, stacks, the parts of domains, and the
//! labels of the runtime's code; and the code that allocates.
//!
//! [`registers`], [`fixed`], [`blocks`], [`stacks`], [`parts`] and [`statics`] are tables of names, and
//! [`labels`] gives each place of the runtime's code its number. `assembly!` writes lines with these names.
//! What several routines have in common is written here once: the code that makes a block, that saves
//! and loads a fiber's registers, that raises an exception and that applies a closure.
//!
//! Promised: each call that writes lines adds exactly those of its definition, and is refused only for
//! want of memory.
//!
//! Stands on: `fx_base`, `rv_model`.
#![tactic(auto)]

mod allocation;
mod assembly;
pub mod blocks;
pub mod fixed;
pub mod labels;
pub mod parts;
pub mod registers;
mod shared;
pub mod stacks;
pub mod statics;
#[cfg(test)]
mod tests;

pub use allocation::{lines, put, put_alloc, put_header, put_new_block};
pub use blocks::{header_word, tagged};
pub use parts::part_words;
pub use rv_model::{Instr, Line, Op};
pub use shared::{
    put_apply_closure, put_enter, put_load, put_raise, put_raise_text, put_root_fiber, put_save,
};
