//! What a token shows of what stands before it: that a name is whole, say, or what a part begins.
//! The token is looked at, and not yet taken.

ghost use Rattle.std.specs.Prelude.{◌≡◌};
ghost use Rattle.ml_moves.specs.Completing.{complete, complete_head, complete_item, join, join_dot, join_sort, unless_bracket, unless_parenthesis};

use crate::awaits::Awaits;
use crate::bindings::{complete_binding, complete_first_binding, complete_name};
use crate::clauses::{complete_clause, complete_first_clause};
use crate::definitions::{
    complete_body, complete_constructor_name, complete_definition, complete_definitions,
    complete_field_type, complete_first_effect, complete_opened,
};
use crate::endings::join_expression;
use crate::expressions::{
    complete_constructor, complete_indexed, complete_member, complete_selected, complete_sequence,
};
use crate::form::Form;
use crate::handlers::{complete_first_rule, complete_rule};
use crate::items::complete_first_item;
use crate::level::{Last, Sort, begins_pattern, made_of, sort_of};
use crate::moves::{Change, Move, by, goes};
use crate::patterns::{complete_pattern_constructor, join_pattern};
use crate::types::join_type;
use ml_syntax::Role;

// A `)` is left, and any other token begins a part.
#[tactic(auto, unfolding(crate::specs::Completing::unless_parenthesis))]
fn unless_parenthesis(role: Role, kept: Awaits, other: Awaits) -> Option<Move>
    ensures { result ≡ unless_parenthesis role kept other }
{
    match role {
        Role::RightParenthesis => goes(kept),
        _ => goes(other),
    }
}

// A closing bracket is left, and any other token begins a part.
#[tactic(auto, unfolding(crate::specs::Completing::unless_bracket))]
fn unless_bracket(role: Role, kept: Awaits, other: Awaits) -> Option<Move>
    ensures { result ≡ unless_bracket role kept other }
{
    match role {
        Role::RightBracket => goes(kept),
        Role::RightArrayBracket => goes(kept),
        _ => goes(other),
    }
}

// A token behind a name and its colon, or the like: a parameter begins with it, or it is left.
#[tactic(auto, unfolding(crate::specs::Completing::complete_head))]
fn complete_head(role: Role) -> Option<Move>
    ensures { result ≡ complete_head role }
{
    if begins_pattern(role) {
        by(Change::Count(Form::BindingParameters), Awaits::Pattern)
    } else {
        goes(Awaits::BindingHead)
    }
}

/// A token where this is awaited, with the innermost form, the one round it, and how many parts of
/// the innermost one have begun.
#[tactic(auto, unfolding(crate::specs::Completing::complete))]
pub fn complete(awaits: Awaits, role: Role, form: Form, outer: Form, parts: usize) -> Option<Move>
    ensures { result ≡ complete awaits role form outer parts }
{
    match awaits {
        Awaits::PatternOrUnit => unless_parenthesis(role, Awaits::PatternOrUnit, Awaits::Pattern),
        Awaits::PatternOrEmpty => unless_bracket(role, Awaits::PatternOrEmpty, Awaits::Pattern),
        Awaits::PatternConstructed => complete_pattern_constructor(role, outer),
        Awaits::ExpressionOrUnit => {
            unless_parenthesis(role, Awaits::ExpressionOrUnit, Awaits::Expression)
        }
        Awaits::ExpressionOrEmpty => {
            unless_bracket(role, Awaits::ExpressionOrEmpty, Awaits::Expression)
        }
        Awaits::Constructed => complete_constructor(role, outer),
        Awaits::Member => complete_member(role),
        Awaits::Selected => complete_selected(role),
        Awaits::Indexed => complete_indexed(role),
        Awaits::Sequel => complete_sequence(role, parts, made_of(outer)),
        Awaits::FirstClause => complete_first_clause(role, form),
        Awaits::Clause => complete_clause(role, form),
        Awaits::FirstBinding => complete_first_binding(role, form),
        Awaits::Binding => complete_binding(role, form),
        Awaits::Named => complete_name(role, form),
        Awaits::BindingHead => complete_head(role),
        Awaits::FirstRule => complete_first_rule(role, form),
        Awaits::Rule => complete_rule(role, form),
        _ => complete_item(awaits, role),
    }
}

// The same among items.
#[tactic(auto, unfolding(crate::specs::Completing::complete_item))]
fn complete_item(awaits: Awaits, role: Role) -> Option<Move>
    ensures { result ≡ complete_item awaits role }
{
    match awaits {
        Awaits::FirstItem => complete_first_item(role),
        Awaits::Definitions => complete_definitions(role),
        Awaits::Definition => complete_definition(),
        Awaits::DefinitionBody => complete_body(role),
        Awaits::ConstructorEnd => complete_constructor_name(role),
        Awaits::FieldTypeOrEnd => complete_field_type(role),
        Awaits::FirstEffect => complete_first_effect(role),
        Awaits::OpenEnd => complete_opened(role),
        _ => goes(awaits),
    }
}

// A token behind a whole part of this sort, once all forms before it have ended.
#[tactic(auto, unfolding(crate::specs::Completing::join_sort))]
fn join_sort(sort: Sort, role: Role, form: Form, last: Last) -> Option<Move>
    ensures { result ≡ join_sort sort role form last }
{
    match sort {
        Sort::Type(_) => join_type(role),
        Sort::Pattern => join_pattern(role, form),
        Sort::Expression => join_expression(role, form, last),
        Sort::Other => goes(Awaits::After),
    }
}

/// A token behind a whole part of this form, once all forms before it have ended: a further part
/// begins with it, or it is left. Where no form is open, the next item begins.
#[tactic(auto, unfolding(crate::specs::Completing::join))]
pub fn join(role: Role, form: Form, last: Last) -> Option<Move>
    ensures { result ≡ join role form last }
{
    match form {
        Form::Program => goes(Awaits::NextItem),
        _ => join_sort(sort_of(form), role, form, last),
    }
}

/// The dot behind a constructor that is no path, once all forms before it have ended.
#[tactic(auto, unfolding(crate::specs::Completing::join_dot))]
pub fn join_dot() -> Option<Move>
    ensures { result ≡ join_dot }
{
    by(Change::OpenBefore(Form::Select), Awaits::Selecting)
}
