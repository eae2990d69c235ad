//! The instruction table: instructions as words of 32 bits, and back.
//!
//! The 48 rows stand once, in a macro that expands into both directions: [`encode`] puts an
//! instruction's fields round the fixed bits of its row, and [`decode`] finds the row whose fixed bits
//! a word has and reads the fields.
//!
//! Promised: both are those of the machine's definitions, so decoding undoes encoding and the other
//! way round, and a word without an instruction is told as such. Nothing here takes memory.
//!
//! Stands on: `rv_model`, and `byteorder` of the kit.
#![tactic(auto)]

mod bytes;
mod parts;
mod read;
mod rows;
mod table;
#[cfg(test)]
mod tests;
mod write;

pub use bytes::{decode_bytes, encode_bytes};
pub use rows::{Row, find};
pub use table::{ROWS, decode, encode};
