//! What a program means: Core, the configurations and steps of a run, what a run uses, and the law of
//! all runs.
//!
//! Promised: each [`Core`] keeps the rules on names, constants and effects that `specs/Arena` and
//! `specs/Scoped` state, and a push into a [`CoreArena`] adds what it is given and changes nothing
//! else. In every run each continuation is emptied by at most one step, and each other resumption of
//! it raises ([`one_shot`]). The definitions stand in `specs/`: read `Terms`, `Config` and `Step`
//! first, then `ArenaTrees` for the program that a [`Core`] is.
//!
//! Stands on: `fx_base`.
#![tactic(auto)]

ghost use Rattle.effect_meaning.specs.Laws.{OneShot, RepetitionRaises, ResumptionEmpties, StaysEmpty};

mod core_arena;
mod core_nodes;
mod core_program;
mod core_sequence;
mod core_tables;

pub use core_arena::CoreArena;
pub use core_nodes::{
    Clause, Comparison, Constant, Constructor, EffectClause, FieldPart, Function, HandlerKind,
    HandlerTypes, Operation, PatternForm, PatternNode, TermForm, TermNode, TypeExpression,
};
pub use core_program::Core;
pub use core_sequence::Sequence;
pub use core_tables::{EffectRow, ExceptionRow, FieldRow, Item, ItemForm, TypeRow, VariantRow};

/// The law that no continuation is resumed twice, over every run of every program with any number of
/// domains. Each continuation is emptied by at most one step. A resumption of a full one empties it;
/// an empty one stays empty, and a resumption of it raises `Effect.Continuation_already_resumed`.
/// OCaml 5 manual, "Language extensions: Effect handlers".
pub fn one_shot()
    ensures at_most_once { OneShot }
    ensures empties { ResumptionEmpties }
    ensures stays_empty { StaysEmpty }
    ensures raises_again { RepetitionRaises }
{}
