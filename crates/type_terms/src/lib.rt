//! Types: the typing rules of every form of Core as definitions, and programs with the types that
//! were inferred for them.
//!
//! The definitions stand in `specs/`: `TypeTrees` and `WrittenTypes` for types, `OperationTypes`,
//! `Constructors`, `PatternTypes`, `HandlerRules` and `Typing` for the forms, `Items` and
//! `Comparisons` for items, `Accepted` for programs. Read `Typing`, `Items` and `Accepted` first.
//!
//! Promised: an instance of a solution of a program's equations is a solution
//! ([`instances_solve`]), and a most general solution decides whether the program has types and
//! whether they fit ([`most_general_decides`]). A [`Typed`] holds the program and the types that it
//! was made of. It is what inference gave: no clause says yet that the definitions accept the
//! program, nor that the types are those of its comparisons.
//!
//! Stands on: `fx_base`, `effect_meaning`.
#![tactic(auto)]

ghost use Rattle.type_terms.specs.Laws.{InstancesSolve, DecidesComparisons, ComparesAlike, DecidesSize};

mod base_type;
mod typed_program;

pub use base_type::BaseTy;
pub use typed_program::Typed;

/// The law that each instance of a solution is one, over every program: where types stand for the
/// type variables that a solution leaves open, the definitions and the comparisons are at the
/// instances of their types.
pub fn instances_solve()
    ensures { InstancesSolve }
{}

/// The law of a most general solution, of which each other one is an instance, over every program.
/// All solutions compare at the five types exactly where it does, and then at the same ones; some
/// solution's types fit exactly where its types do.
pub fn most_general_decides()
    ensures comparisons { DecidesComparisons }
    ensures alike { ComparesAlike }
    ensures size { DecidesSize }
{}
