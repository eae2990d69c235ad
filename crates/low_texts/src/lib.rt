//! Worked texts, and what the passes up to flat functions answer.
//!
//! [`answer_of`] goes from a text to its flat functions by the steps of the compiler, and tells in a
//! word what came of it. The tests hold programs of each sort of form, and programs at the limits on
//! slots and on free names and one beyond them.
//!
//! Promised: it is safe, and always returns. No clause says what is answered; that is what the texts
//! are for.
//!
//! Stands on: `fx_base`, `low_terms`, `match_lower`, `closure_convert`, `prelude_tree`, `typed_texts`.
#![tactic(auto)]

mod answer;
#[cfg(test)]
mod tests;

pub use answer::{Answer, answer_of};
