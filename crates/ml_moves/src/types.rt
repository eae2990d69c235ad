//! What a token does in a type.

ghost use Rattle.std.specs.Prelude.{◌≡◌};
ghost use Rattle.ml_moves.specs.Types.{after_type, after_type_word, begin_one_of, begin_open_type, begin_type, close_type, end_type_path, equals_type, join_type, multiply_type, name_type_constructor, next_type, take_type_member, to_type};

use crate::awaits::Awaits;
use crate::form::{Form, Types};
use crate::level::{Sort, level_of};
use crate::moves::{Change, Move, by, by_three, by_two, goes};
use ml_builder::Rule;
use ml_syntax::Role;

// A type variable or `_`, which stand among any types alone.
#[tactic(auto, unfolding(crate::specs::Types::begin_open_type))]
fn begin_open_type(rule: Rule, types: Types) -> Option<Move>
    ensures { result ≡ begin_open_type rule types }
{
    match types {
        Types::Any => by(Change::Leaf(rule), Awaits::After),
        Types::Closed => None,
    }
}

// A token where one of these types begins.
#[tactic(auto, unfolding(crate::specs::Types::begin_one_of))]
fn begin_one_of(role: Role, types: Types) -> Option<Move>
    ensures { result ≡ begin_one_of role types }
{
    match role {
        Role::TypeVariable => begin_open_type(Rule::TypeVariable, types),
        Role::Underscore => begin_open_type(Rule::TypeAny, types),
        Role::LeftParenthesis => by(Change::Open(Form::TypeParenthesis(types), 1), Awaits::Type),
        Role::Lower => by(Change::Name(Rule::TypeName), Awaits::After),
        Role::Upper => {
            by_two(
                Change::Leaf(Rule::Word),
                Change::Open(Form::TypePath, 1),
                Awaits::TypeDot,
            )
        }
        _ => None,
    }
}

/// A token where a type begins, in a form that waits for a part of this sort.
#[tactic(auto, unfolding(crate::specs::Types::begin_type))]
pub fn begin_type(role: Role, sort: Sort) -> Option<Move>
    ensures { result ≡ begin_type role sort }
{
    match sort {
        Sort::Type(types) => begin_one_of(role, types),
        _ => None,
    }
}

/// A token behind an upper name in a type.
#[tactic(auto, unfolding(crate::specs::Types::after_type_word))]
pub fn after_type_word(role: Role) -> Option<Move>
    ensures { result ≡ after_type_word role }
{
    match role {
        Role::Dot => goes(Awaits::TypeMember),
        _ => None,
    }
}

// The last word of a type name, or of a type constructor's.
#[tactic(auto, unfolding(crate::specs::Types::end_type_path))]
fn end_type_path(form: Form) -> Option<Move>
    ensures { result ≡ end_type_path form }
{
    match form {
        Form::TypePath => by_three(
            Change::Leaf(Rule::Word),
            Change::Count(Form::TypePath),
            Change::Close(Rule::TypeName),
            Awaits::After,
        ),
        Form::ConstructorPath => by_three(
            Change::Leaf(Rule::Word),
            Change::Count(Form::ConstructorPath),
            Change::Close(Rule::LongName),
            Awaits::After,
        ),
        _ => None,
    }
}

/// A token behind an upper name and a dot in a type.
#[tactic(auto, unfolding(crate::specs::Types::take_type_member))]
pub fn take_type_member(role: Role, form: Form) -> Option<Move>
    ensures { result ≡ take_type_member role form }
{
    match role {
        Role::Upper => by_two(
            Change::Leaf(Rule::Word),
            Change::Count(form),
            Awaits::TypeDot,
        ),
        Role::Lower => end_type_path(form),
        _ => None,
    }
}

/// A token behind the arguments of a type constructor.
#[tactic(auto, unfolding(crate::specs::Types::name_type_constructor))]
pub fn name_type_constructor(role: Role) -> Option<Move>
    ensures { result ≡ name_type_constructor role }
{
    match role {
        Role::Lower => by(Change::Name(Rule::LongName), Awaits::After),
        Role::Upper => {
            by_two(
                Change::Leaf(Rule::Word),
                Change::Open(Form::ConstructorPath, 1),
                Awaits::TypeDot,
            )
        }
        _ => None,
    }
}

/// A name behind a type, which is its argument; any other token is left.
#[tactic(auto, unfolding(crate::specs::Types::join_type))]
pub fn join_type(role: Role) -> Option<Move>
    ensures { result ≡ join_type role }
{
    match role {
        Role::Lower => by(
            Change::Open(Form::TypeApplication, 1),
            Awaits::TypeConstructor,
        ),
        Role::Upper => by(
            Change::Open(Form::TypeApplication, 1),
            Awaits::TypeConstructor,
        ),
        _ => goes(Awaits::After),
    }
}

// A `*` behind a type.
#[tactic(auto, unfolding(crate::specs::Types::multiply_type))]
fn multiply_type(form: Form, types: Types) -> Option<Move>
    ensures { result ≡ multiply_type form types }
{
    match form {
        Form::TypeTuple(_) => by(Change::Count(form), Awaits::Type),
        _ => {
            if level_of(form) >= 2 {
                by(Change::Open(Form::TypeTuple(types), 2), Awaits::Type)
            } else {
                None
            }
        }
    }
}

// A `->` behind a type.
#[tactic(auto, unfolding(crate::specs::Types::to_type))]
fn to_type(form: Form, types: Types) -> Option<Move>
    ensures { result ≡ to_type form types }
{
    match form {
        Form::PlainEffect => by(Change::Become(Form::EffectOf), Awaits::Type),
        _ => {
            if level_of(form) >= 3 {
                by(Change::Open(Form::TypeArrow(types), 2), Awaits::Type)
            } else {
                None
            }
        }
    }
}

// A `)` behind a type.
#[tactic(auto, unfolding(crate::specs::Types::close_type))]
fn close_type(form: Form) -> Option<Move>
    ensures { result ≡ close_type form }
{
    match form {
        Form::TypeParenthesis(_) => by(Change::Close(Rule::TypeBracket), Awaits::After),
        Form::TypeArguments(_) => by(
            Change::Become(Form::TypeApplication),
            Awaits::TypeConstructor,
        ),
        Form::PatternAnnotation => by(Change::Close(Rule::PatternAnnotated), Awaits::After),
        Form::Annotation => by(Change::Close(Rule::Annotated), Awaits::After),
        Form::EffectBracket => by(
            Change::Turn(Rule::PatternAnnotated, Form::EffectAnnotated),
            Awaits::ParameterArrow,
        ),
        Form::ContinuationBracket => {
            by(Change::Close(Rule::PatternAnnotated), Awaits::ResumedArrow)
        }
        _ => None,
    }
}

// A comma behind a type.
#[tactic(auto, unfolding(crate::specs::Types::next_type))]
fn next_type(form: Form) -> Option<Move>
    ensures { result ≡ next_type form }
{
    match form {
        Form::TypeParenthesis(types) => by(Change::Count(Form::TypeArguments(types)), Awaits::Type),
        Form::TypeArguments(_) => by(Change::Count(form), Awaits::Type),
        _ => None,
    }
}

// A `=` behind a type.
#[tactic(auto, unfolding(crate::specs::Types::equals_type))]
fn equals_type(form: Form) -> Option<Move>
    ensures { result ≡ equals_type form }
{
    match form {
        Form::BindingAnnotation => by(Change::Become(Form::AnnotatedBody), Awaits::Expression),
        Form::RecursiveAnnotation => {
            by(Change::Become(Form::AnnotatedFunctionBody), Awaits::Literal)
        }
        _ => None,
    }
}

/// A token behind one of these types, in this form.
#[tactic(auto, unfolding(crate::specs::Types::after_type))]
pub fn after_type(role: Role, form: Form, types: Types) -> Option<Move>
    ensures { result ≡ after_type role form types }
{
    match role {
        Role::Star => multiply_type(form, types),
        Role::RightArrow => to_type(form, types),
        Role::RightParenthesis => close_type(form),
        Role::Comma => next_type(form),
        Role::Equals => equals_type(form),
        _ => None,
    }
}
