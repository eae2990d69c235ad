//! The syntax of programs: the arena that a parsed text is kept in, and what its grammar is.
//!
//! The definitions stand in `specs/`: `Tree` has the derivations with all their tokens and how they
//! are spelled, `Role` and `Level` what each token does, `Grammar` and `Programs` which derivations
//! there are, `Laid` and `Parses` the nodes and items of a derivation, and so which program a list of
//! tokens parses to, and `Depth` how deep it is.
//!
//! Promised: a node's parts stand before it in [`Nodes`], and a push adds what it is given and changes
//! nothing else. [`depth`] is exact. [`role_of`], [`goes_on`], [`takes`] and the other questions on
//! tokens give just what the definitions give. [`print`] refuses nothing but for want of memory; what
//! it prints is tested.
//!
//! Stands on: fx_base, ml_lexer.
#![tactic(auto)]

mod binding_pieces;
mod form_pieces;
mod handler_pieces;
mod item_pieces;
mod level;
mod node;
mod node_depth;
mod nodes;
mod pieces;
mod printing;
mod prog;
mod role;
mod sequence;
#[cfg(test)]
mod tests;

pub use level::{
    begins_argument, begins_expression, goes_on, operator_level, operator_of, right_level, takes,
};
pub use node::{
    BinaryOperator, Binding, Clause, EffectRule, Literal, LiteralKind, LongName, Name, NamedPart,
    Node,
};
pub use nodes::Nodes;
pub use printing::print;
pub use prog::{
    ConstructorDefinition, EffectDefinition, FieldDefinition, Item, Prog, TypeBody, TypeDefinition,
    depth,
};
pub use role::{Role, role_of};
pub use sequence::{Sequence, Text};
