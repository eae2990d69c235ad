//! Worked texts, and what a check finds of their types.
//!
//! [`typed_of`] goes from a text to its types by the steps of the check, and [`answer_of`] tells in a
//! word what came of it. The tests hold texts against OCaml's rules, most of them beside a near miss.
//! Where this language isn't OCaml, its own rules say what is right: a comparison by content is at one of
//! five types, only a top-level function literal or `let rec` is generalised, a handler literal may leave
//! out the types that OCaml wants there, and a type has at most 4,096 nodes. A fault's place is that of
//! the form that doesn't fit, by the first token that is the form's own.
//!
//! Promised: it is safe, and always returns. No clause says what is answered; that is what the texts
//! are for.
//!
//! Stands on: `fx_base`, `ml_lexer`, `ml_parser`, `core_terms`, `type_terms`, `ml_infer`.
#![tactic(auto)]

mod answer;
#[cfg(test)]
mod tests;
#[cfg(test)]
mod worked_handlers;
#[cfg(test)]
mod worked_texts;

pub use answer::{Answer, answer_of, typed_of};
