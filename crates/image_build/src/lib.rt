//! From a typed program to an image for the machine.
//!
//! [`build`] lowers the program, chooses registers, selects instructions, puts the code at the start and
//! the runtime's routines in front of them and assembles all; then it writes the words that aren't 0 at
//! the start: the static words and the domains' parts.
//!
//! Promised: an image has the settings that it was built with; each refusal has its cause. What an
//! image does is tested, not proved.
//!
//! Stands on: `fx_base`, `effect_meaning`, `type_terms`, `prelude_tree`, `low_terms`, `match_lower`,
//! `closure_convert`, `places`, `rv_model`, `rv_asm`, `rt_layout`, the runtime's crates and `rv_select`.
#![tactic(auto)]

mod building;
mod checked;
mod records;
mod regions;
mod runtime;
mod start;
mod start_words;
mod static_words;
#[cfg(test)]
mod tests;

pub use building::build;
