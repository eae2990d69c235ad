//! Builds the arena of a program from the reductions of its parse.
//!
//! A bottom-up parse is a list of steps, each of which makes a form of parts that are made already.
//! [`build`] goes over this list once, with a stack for each sort of part, and takes time in proportion
//! to the steps and to the parts that they take.
//!
//! The definitions stand in `specs/`: each file says for the rules of one sort what they take off the
//! stacks and which node, part or item they make; `Sort` which rule is of which sort; `Reduced` what one
//! reduction does to what is built so far, and what all of them do, one after another.
//!
//! Promised: what [`build`] gives is the program that the definition gives for these tokens and these
//! reductions: the same nodes under the same numbers, and the same items. Reductions that take more
//! than there is, or that name a token that isn't there, are refused as memory is, so no clause says
//! when. Nothing is promised of the reductions: that they are those of a parse is the parser's to show.
//!
//! Stands on: fx_base, ml_lexer, ml_syntax.
#![tactic(auto)]

mod bindings;
mod building;
mod clauses;
mod definitions;
mod expressions;
mod finish;
mod handlers;
mod items;
mod leaves;
mod named;
mod names;
mod operators;
mod patterns;
mod program;
mod records;
mod reduce;
mod reduction;
mod sort;
mod stack;
#[cfg(test)]
mod tests;
mod types;

pub use program::build;
pub use reduction::{Reduction, Rule};
