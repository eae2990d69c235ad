//! What the names of a program stand for: scopes, and the breaches of their rules.
//!
//! [`resolve`] walks over the prelude and then over a program, and notes for each node what its name
//! stands for: a number for each name that is bound, a built-in operation, a row of the tables of types,
//! constructors, fields, exceptions and effects. A name that is used outside its scope, a second binding
//! where that is forbidden, and an or-pattern whose sides bind different names are breaches; the first
//! one in text order is the refusal.
//!
//! Promised: only a breach or want of memory is refused.
//!
//! Stands on: `fx_base`, `ml_syntax`, `effect_meaning`, `name_uses`, `indexmap`.
#![tactic(auto)]

mod builtins;
mod groups;
mod names;
mod program;
mod resolve_expressions;
mod resolve_items;
mod resolve_patterns;
mod resolve_types;
mod resolver;
mod scopes;

pub use program::{Resolved, resolve};
