//! Chooses registers and stores.
//!
//! [`place`] goes over the terms of flat functions with the places of their values: a value stays in
//! the register where it was made, is stored before the first call that it lives across, and a frame is
//! made where something is stored first. A register is free where no value that is used later is in it,
//! and the first free one is taken.
//!
//! Promised: it ends, and is refused only for want of memory. That the registers are right isn't
//! proved; it is tested by what programs print, and by the listings of another implementation.
//!
//! Stands on: `fx_base`, `effect_meaning`, `low_terms`, `rt_layout`.
#![tactic(auto)]

mod calls;
mod checks;
mod clauses;
mod functions;
mod keeping;
mod loads;
mod loops;
mod parts;
mod placer;
mod program;
mod state;
mod tasks;
mod terms;
mod ways;

pub use program::place;
