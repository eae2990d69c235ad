//! Type inference: unification in finite trees, and generalised names.
//!
//! [`infer`] walks over the items of a program, by tasks on a stack of its own, and makes equal, form by
//! form, the types that must be. A name that a top-level `let` binds to a function literal, or a
//! `let rec` binds, is generalised: each of its uses takes a copy of its type with new variables, which
//! shares the types of names that aren't generalised. Equations are taken without a search for types
//! that are parts of themselves; one pass at the end finds these, and the sizes of all types as trees.
//!
//! Promised: `infer` gives the verdict on the program that `specs/Verdict` describes: the types of its
//! comparisons in the order of the text, or the fault of types, or that a type is too large; and it
//! hands the program on, or back, as it is. Each function gives exactly what its description in the
//! file of the same name in `specs/` gives; read `Verdict`, `Items`, `Walk` and `Terms` first. Only
//! want of memory is refused besides. It always returns. That the description solves the equations of
//! `type_terms` isn't proved.
//!
//! Stands on: `fx_base`, `effect_meaning`, `type_terms`, `type_graph`.
#![tactic(auto)]

mod constructors;
mod declarations;
mod handlers;
mod inference;
mod items;
mod known;
mod members;
mod patterns;
mod tasks;
mod terms;
#[cfg(test)]
mod tests;
mod verdict;
mod walk;
mod written;

pub use verdict::infer;
