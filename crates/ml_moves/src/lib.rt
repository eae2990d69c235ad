//! What each token does while a program is read: the tables of a pushdown automaton.
//!
//! A token is looked at up to three times. [`complete`] says what it shows of what stands before it,
//! that a name is whole, say; behind a whole part the forms end that [`made_before`] tells, and
//! [`join`] says whether a further part of the innermost one begins; [`take`] says what the token does
//! itself. Each answer is a [`Move`]: changes of the open forms and reductions, and what may come next.
//!
//! Promised: each table is just the function of the same name in specs/.
//!
//! Read `form` first (the open forms), then `awaits`, `moves` and `level` (which forms end before a
//! token), and then the tables: `types`, `patterns`, `expressions`, `endings`, `clauses`, `bindings`,
//! `definitions`, `handlers`, `items`, with `completing` and `taking` over them.
//!
//! Stands on: ml_syntax, ml_builder.
#![tactic(auto)]

mod awaits;
mod bindings;
mod clauses;
mod completing;
mod definitions;
mod endings;
mod expressions;
mod form;
mod handlers;
mod items;
mod level;
mod moves;
mod patterns;
mod taking;
mod types;

pub use awaits::Awaits;
pub use completing::{complete, join, join_dot};
pub use form::{Form, HandlerKind, Missing, Position, Types};
pub use handlers::Sign;
pub use level::{Last, made_before, made_by};
pub use moves::{Change, Move};
pub use taking::take;
