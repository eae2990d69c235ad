//! What a token does among the clauses of `match`, `try` and `function`.

ghost use Rattle.std.specs.Prelude.{◌≡◌};
ghost use Rattle.ml_moves.specs.Clauses.{begin_clause, begin_value, complete_clause, complete_effect, complete_exception, complete_first_clause, name_continuation, next_clause, open_effect_answer, take_first_bar, with_value};

use crate::awaits::Awaits;
use crate::form::Form;
use crate::moves::{Change, Move, by, by_two, goes};
use ml_builder::Rule;
use ml_syntax::Role;

// The same clauses, one of which is for values.
#[tactic(auto, unfolding(crate::specs::Clauses::with_value))]
fn with_value(form: Form) -> Form
    ensures { result ≡ with_value form }
{
    match form {
        Form::MatchClauses => Form::MatchValues,
        _ => form,
    }
}

// A clause for values.
#[tactic(auto, unfolding(crate::specs::Clauses::begin_value))]
fn begin_value(form: Form) -> Option<Move>
    ensures { result ≡ begin_value form }
{
    by_two(
        Change::Become(with_value(form)),
        Change::Open(Form::ValueClause, 1),
        Awaits::Pattern,
    )
}

// An `effect` where a clause begins: `match` and `try` take such clauses.
#[tactic(auto, unfolding(crate::specs::Clauses::complete_effect))]
fn complete_effect(form: Form) -> Option<Move>
    ensures { result ≡ complete_effect form }
{
    match form {
        Form::FunctionClauses => begin_value(form),
        _ => goes(Awaits::Clause),
    }
}

// An `exception` where a clause begins: `match` takes such clauses.
#[tactic(auto, unfolding(crate::specs::Clauses::complete_exception))]
fn complete_exception(form: Form) -> Option<Move>
    ensures { result ≡ complete_exception form }
{
    match form {
        Form::MatchClauses => goes(Awaits::Clause),
        Form::MatchValues => goes(Awaits::Clause),
        _ => begin_value(form),
    }
}

/// A token where one of these clauses begins: the keyword of a clause is left, and any other token
/// begins the pattern of a clause for values.
#[tactic(auto, unfolding(crate::specs::Clauses::complete_clause))]
pub fn complete_clause(role: Role, form: Form) -> Option<Move>
    ensures { result ≡ complete_clause role form }
{
    match role {
        Role::Effect => complete_effect(form),
        Role::Exception => complete_exception(form),
        _ => begin_value(form),
    }
}

/// A token where the first clause begins: a bar is left.
#[tactic(auto, unfolding(crate::specs::Clauses::complete_first_clause))]
pub fn complete_first_clause(role: Role, form: Form) -> Option<Move>
    ensures { result ≡ complete_first_clause role form }
{
    match role {
        Role::Bar => goes(Awaits::FirstClause),
        _ => complete_clause(role, form),
    }
}

/// A bar before the first clause.
#[tactic(auto, unfolding(crate::specs::Clauses::take_first_bar))]
pub fn take_first_bar(role: Role) -> Option<Move>
    ensures { result ≡ take_first_bar role }
{
    match role {
        Role::Bar => goes(Awaits::Clause),
        _ => None,
    }
}

/// The keyword of a clause.
#[tactic(auto, unfolding(crate::specs::Clauses::begin_clause))]
pub fn begin_clause(role: Role) -> Option<Move>
    ensures { result ≡ begin_clause role }
{
    match role {
        Role::Effect => by(Change::Open(Form::EffectClause, 1), Awaits::EffectPattern),
        Role::Exception => by(Change::Open(Form::ExceptionClause, 1), Awaits::Pattern),
        _ => None,
    }
}

/// A token where the continuation of an effect clause comes.
#[tactic(auto, unfolding(crate::specs::Clauses::name_continuation))]
pub fn name_continuation(role: Role) -> Option<Move>
    ensures { result ≡ name_continuation role }
{
    match role {
        Role::Lower => by(Change::Leaf(Rule::PatternName), Awaits::ContinuationArrow),
        Role::Underscore => by(Change::Leaf(Rule::PatternAny), Awaits::ContinuationArrow),
        _ => None,
    }
}

/// A token behind that continuation.
#[tactic(auto, unfolding(crate::specs::Clauses::open_effect_answer))]
pub fn open_effect_answer(role: Role) -> Option<Move>
    ensures { result ≡ open_effect_answer role }
{
    match role {
        Role::RightArrow => by(Change::Become(Form::EffectAnswer), Awaits::Expression),
        _ => None,
    }
}

/// A bar behind a clause, in this form.
#[tactic(auto, unfolding(crate::specs::Clauses::next_clause))]
pub fn next_clause(role: Role, form: Form) -> Option<Move>
    ensures { result ≡ next_clause role form }
{
    match role {
        Role::Bar => by(Change::Count(form), Awaits::Clause),
        _ => None,
    }
}
