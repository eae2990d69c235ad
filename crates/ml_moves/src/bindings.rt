//! What a token does among the bindings of `let`.

ghost use Rattle.std.specs.Prelude.{◌≡◌};
ghost use Rattle.ml_moves.specs.Bindings.{after_bindings, begin_binding, begin_first_binding, begin_head, begin_pattern_binding, complete_binding, complete_first_binding, complete_name, complete_plain_name, goes_on_as_pattern, open_annotation, open_body, open_name, open_recursive, open_scope, open_scope_of, take_head};

use crate::awaits::Awaits;
use crate::form::{Form, Position};
use crate::level::begins_pattern;
use crate::moves::{Change, Move, by, by_two, goes};
use ml_builder::Rule;
use ml_syntax::Role;

// A binding that begins with a pattern, which `let rec` doesn't take.
#[tactic(auto, unfolding(crate::specs::Bindings::begin_pattern_binding))]
fn begin_pattern_binding(form: Form) -> Option<Move>
    ensures { result ≡ begin_pattern_binding form }
{
    match form {
        Form::Let(_) => by(Change::Open(Form::BindingPattern, 1), Awaits::Pattern),
        _ => None,
    }
}

/// A token where a binding begins, in this `let`: a name is left.
#[tactic(auto, unfolding(crate::specs::Bindings::complete_binding))]
pub fn complete_binding(role: Role, form: Form) -> Option<Move>
    ensures { result ≡ complete_binding role form }
{
    match role {
        Role::Lower => goes(Awaits::Binding),
        _ => begin_pattern_binding(form),
    }
}

/// A token behind `let`: `rec` is left.
#[tactic(auto, unfolding(crate::specs::Bindings::complete_first_binding))]
pub fn complete_first_binding(role: Role, form: Form) -> Option<Move>
    ensures { result ≡ complete_first_binding role form }
{
    match role {
        Role::Rec => goes(Awaits::FirstBinding),
        _ => complete_binding(role, form),
    }
}

// The name that a binding begins with.
#[tactic(auto, unfolding(crate::specs::Bindings::open_name))]
fn open_name(form: Form) -> Option<Move>
    ensures { result ≡ open_name form }
{
    match form {
        Form::Let(_) => by(Change::Open(Form::BindingName, 0), Awaits::Named),
        Form::LetRecursive(_) => by(Change::Open(Form::RecursiveName, 0), Awaits::Named),
        _ => None,
    }
}

/// A name where a binding begins.
#[tactic(auto, unfolding(crate::specs::Bindings::begin_binding))]
pub fn begin_binding(role: Role, form: Form) -> Option<Move>
    ensures { result ≡ begin_binding role form }
{
    match role {
        Role::Lower => open_name(form),
        _ => None,
    }
}

// A `rec` behind `let`.
#[tactic(auto, unfolding(crate::specs::Bindings::open_recursive))]
fn open_recursive(form: Form) -> Option<Move>
    ensures { result ≡ open_recursive form }
{
    match form {
        Form::Let(position) => by(
            Change::Become(Form::LetRecursive(position)),
            Awaits::Binding,
        ),
        _ => None,
    }
}

/// A token behind `let`: `rec`, or a name.
#[tactic(auto, unfolding(crate::specs::Bindings::begin_first_binding))]
pub fn begin_first_binding(role: Role, form: Form) -> Option<Move>
    ensures { result ≡ begin_first_binding role form }
{
    match role {
        Role::Rec => open_recursive(form),
        _ => begin_binding(role, form),
    }
}

// Whether a token goes on with a name as the beginning of a pattern.
#[tactic(auto, unfolding(crate::specs::Bindings::goes_on_as_pattern))]
fn goes_on_as_pattern(role: Role) -> bool
    ensures { result ≡ goes_on_as_pattern role }
{
    match role {
        Role::Comma => true,
        Role::DoubleColon => true,
        Role::Bar => true,
        Role::As => true,
        _ => false,
    }
}

// The name is a word, and what stands behind it its first parameter, `:` or `=`.
#[tactic(auto, unfolding(crate::specs::Bindings::begin_head))]
fn begin_head(role: Role, head: Form) -> Option<Move>
    ensures { result ≡ begin_head role head }
{
    if begins_pattern(role) {
        by_two(
            Change::Turn(Rule::Word, head),
            Change::Count(Form::BindingParameters),
            Awaits::Pattern,
        )
    } else {
        by(Change::Turn(Rule::Word, head), Awaits::BindingHead)
    }
}

// A token behind the name that a binding without `rec` begins with.
#[tactic(auto, unfolding(crate::specs::Bindings::complete_plain_name))]
fn complete_plain_name(role: Role) -> Option<Move>
    ensures { result ≡ complete_plain_name role }
{
    if goes_on_as_pattern(role) {
        by(
            Change::Turn(Rule::PatternName, Form::BindingPattern),
            Awaits::After,
        )
    } else {
        begin_head(role, Form::BindingHead)
    }
}

/// A token behind the name that a binding begins with: the name is a pattern or a part of one, or
/// it is a word.
#[tactic(auto, unfolding(crate::specs::Bindings::complete_name))]
pub fn complete_name(role: Role, form: Form) -> Option<Move>
    ensures { result ≡ complete_name role form }
{
    match form {
        Form::BindingName => complete_plain_name(role),
        Form::RecursiveName => begin_head(role, Form::RecursiveHead),
        _ => None,
    }
}

// A `=` behind a name.
#[tactic(auto, unfolding(crate::specs::Bindings::open_body))]
fn open_body(form: Form) -> Option<Move>
    ensures { result ≡ open_body form }
{
    match form {
        Form::BindingHead => by(Change::Become(Form::BindingBody), Awaits::Expression),
        Form::RecursiveHead => by(Change::Become(Form::FunctionBody), Awaits::Literal),
        _ => None,
    }
}

// A colon behind a name.
#[tactic(auto, unfolding(crate::specs::Bindings::open_annotation))]
fn open_annotation(form: Form) -> Option<Move>
    ensures { result ≡ open_annotation form }
{
    match form {
        Form::BindingHead => by(Change::Become(Form::BindingAnnotation), Awaits::Type),
        Form::RecursiveHead => by(Change::Become(Form::RecursiveAnnotation), Awaits::Type),
        _ => None,
    }
}

/// A token behind the name of a binding without parameters.
#[tactic(auto, unfolding(crate::specs::Bindings::take_head))]
pub fn take_head(role: Role, form: Form) -> Option<Move>
    ensures { result ≡ take_head role form }
{
    match role {
        Role::Equals => open_body(form),
        Role::Colon => open_annotation(form),
        _ => None,
    }
}

// An `in` behind bindings: the form that they belong to goes on; where an item began, it is an
// expression.
#[tactic(auto, unfolding(crate::specs::Bindings::open_scope))]
fn open_scope(position: Position, body: Form) -> Option<Move>
    ensures { result ≡ open_scope position body }
{
    match position {
        Position::Inside => by(Change::Become(body), Awaits::Expression),
        Position::Either => {
            by_two(
                Change::Become(Form::Evaluating),
                Change::OpenOver(body),
                Awaits::Expression,
            )
        }
        Position::Item => None,
    }
}

// An `in` behind the bindings of this form.
#[tactic(auto, unfolding(crate::specs::Bindings::open_scope_of))]
fn open_scope_of(form: Form) -> Option<Move>
    ensures { result ≡ open_scope_of form }
{
    match form {
        Form::Let(position) => open_scope(position, Form::LetBody),
        Form::LetRecursive(position) => open_scope(position, Form::LetRecursiveBody),
        _ => None,
    }
}

/// A token behind the bindings of this form.
#[tactic(auto, unfolding(crate::specs::Bindings::after_bindings))]
pub fn after_bindings(role: Role, form: Form) -> Option<Move>
    ensures { result ≡ after_bindings role form }
{
    match role {
        Role::And => by(Change::Count(form), Awaits::Binding),
        Role::In => open_scope_of(form),
        _ => None,
    }
}
