//! Programs between Core and instructions: with tests in place of patterns, as flat functions whose
//! values are in slots, and with registers and stores chosen.
//!
//! Here are the types, and how values are words. [`Core1`] has a test for each pattern. [`SlotProgram`] has flat functions,
//! whose captured names, slots and conditions are told. [`LowProgram`] names every register and every
//! store, in steps of three types: [`Flat`], [`Low`] and [`Body`].
//!
//! Stands on: `fx_base`, `effect_meaning`, `indexmap`.
#![tactic(auto)]

mod core1;
mod low;
mod operations;
mod slot_set;
mod slot_terms;
mod words;

pub use core1::{Core1, Owner, PartTest, Test, TestFacts};
pub use low::{
    Block, Body, Catch, Check, Clauses, Condition, Failure, Flat, Guard, Home, If, Low, LowClause,
    LowFunction, LowProgram, Match, Out, Room, Source, Target, Transfer,
};
pub use operations::{Inline, WordComparison, is_end, is_routine, word_comparison};
pub use slot_set::{MOST_SLOTS, SlotSet};
pub use slot_terms::{
    Atom, Closure, Definition, Destination, Facts, FunctionKind, Handler, Leading, Next,
    SlotClause, SlotForm, SlotFunction, SlotNode, SlotPart, SlotProgram, SlotTest, SlotTestFacts,
    Way,
};
pub use words::{ConstructorCounts, Variant, Variants, header, tagged};
