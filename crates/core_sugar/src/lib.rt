//! What the forms of a program are made into: Core's nodes, tables and items.
//!
//! Each node is made into what it stands for, its parts first; a node of an arena stands before what is
//! made of it, so nothing recurses.
//!
//! Stands on: `fx_base`, `ml_lexer`, `ml_syntax`, `effect_meaning`, `name_uses`, `core_rules`.
#![tactic(auto)]

mod builder;
mod places;
mod program;
mod sugar_functions;
mod sugar_handlers;
mod sugar_items;
mod sugar_patterns;
mod sugar_terms;
mod sugar_types;
mod tables;

pub use program::{Named, make_core};
