//! Reads the tokens of a program into its arena.
//!
//! A pushdown automaton makes the moves that the tables of ml_moves say, and notes the reductions of
//! a bottom-up parse, from which ml_builder builds the program. Each token is looked at once, a form
//! ends once, and nothing recurses, so that it takes time in proportion to the text.
//!
//! Promised: [`parse`] gives just what the description of the automaton on lists gives: the program
//! of its reductions, or the place of the first token that it can't take; a limit exactly where that
//! program is deeper than 400. That these are the reductions of the grammar's derivation is compared
//! with another parser and tested, and not proved.
//!
//! Read `frames` (the stack of open forms), `changing` (one change), `settling` (which forms end),
//! `reading` (one token, and all), `parsing`.
//!
//! Stands on: fx_base, ml_lexer, ml_syntax, ml_builder, ml_moves.
#![tactic(auto)]

mod changing;
mod frames;
mod parsing;
mod reading;
mod settling;
mod signs;
#[cfg(test)]
mod tests;
#[cfg(test)]
mod worked_texts;

pub use parsing::parse;
