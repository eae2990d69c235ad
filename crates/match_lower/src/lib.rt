//! From typed Core to Core with tests in place of patterns, and with what later passes ask of it: the
//! slots that terms need, how often names are used, and what functions take from outside.
//!
//! Terms and patterns are gone over by their numbers where their parts alone are asked, and by a walk
//! with a stack of its own where what stands round them is, so that no program is too deep.
//!
//! Promised: [`lower`] is refused for want of memory alone, and it always returns. That the tests pass
//! what the patterns match is tested.
//!
//! Stands on: `fx_base`, `effect_meaning`, `type_terms`, `low_terms`, `indexmap`.
#![tactic(auto)]

mod compared;
mod lowering;
mod names;
mod needs;
mod owners;
mod pattern_tests;
mod test_facts;

pub use lowering::lower;
