//! The tokens of an ML source text.
//!
//! Promised: [`lex`] gives the one list of tokens of a text, or the place of its first fault exactly
//! where there is none. A text has at most one list of tokens ([`one_reading`]), and a token before
//! a blank is one whatever follows ([`spaced_longest`]). [`integer_value`], [`character_byte`] and
//! [`string_bytes`] give just what literals stand for.
//!
//! Stands on: fx_base.
#![tactic(auto)]

mod bytes;
mod comments;
mod cut;
mod form;
mod laws;
mod piece;
mod scan;
mod tables;
#[cfg(test)]
mod tests;
mod token;
mod values;

pub use cut::lex;
pub use laws::{one_reading, spaced_longest};
pub use token::{Token, TokenKind, TokenView, Tokens, token_text};
pub use values::{character_byte, integer_value, string_bytes};
