//! What a token does in a pattern.

ghost use Rattle.std.specs.Prelude.{◌≡◌};
ghost use Rattle.ml_moves.specs.Patterns.{after_pattern, after_pattern_constructor, alias_pattern, annotate_pattern, begin_effect_pattern, begin_pattern, close_empty_pattern, close_pattern, close_pattern_list, close_pattern_record, close_pattern_rest, close_unit_pattern, complete_pattern_constructor, equals_pattern, equals_pattern_field, guard_pattern, join_parameter, join_pattern, name_alias, name_pattern_field, name_pattern_field_or_rest, next_pattern, open_pattern, pair_pattern, take_pattern_member, to_answer};

use crate::awaits::Awaits;
use crate::form::Form;
use crate::level::{begins_pattern, level_of};
use crate::moves::{Change, Move, by, by_two, goes};
use ml_builder::Rule;
use ml_syntax::Role;

/// A token where a pattern begins.
#[tactic(auto, unfolding(crate::specs::Patterns::begin_pattern))]
pub fn begin_pattern(role: Role) -> Option<Move>
    ensures { result ≡ begin_pattern role }
{
    match role {
        Role::Lower => by(Change::Leaf(Rule::PatternName), Awaits::After),
        Role::Underscore => by(Change::Leaf(Rule::PatternAny), Awaits::After),
        Role::Upper => {
            by_two(
                Change::Leaf(Rule::Word),
                Change::Open(Form::PatternPath, 1),
                Awaits::PatternConstructed,
            )
        }
        Role::Integer => by(Change::Leaf(Rule::PatternConstant), Awaits::After),
        Role::Character => by(Change::Leaf(Rule::PatternConstant), Awaits::After),
        Role::Text => by(Change::Leaf(Rule::PatternConstant), Awaits::After),
        Role::True => by(Change::Leaf(Rule::PatternConstant), Awaits::After),
        Role::False => by(Change::Leaf(Rule::PatternConstant), Awaits::After),
        Role::LeftParenthesis => by(
            Change::Open(Form::PatternParenthesis, 1),
            Awaits::PatternOrUnit,
        ),
        Role::LeftBracket => by(Change::Open(Form::PatternList, 1), Awaits::PatternOrEmpty),
        Role::LeftBrace => by(Change::Open(Form::PatternRecord, 0), Awaits::PatternField),
        _ => None,
    }
}

/// A token where the pattern of an effect begins.
#[tactic(auto, unfolding(crate::specs::Patterns::begin_effect_pattern))]
pub fn begin_effect_pattern(role: Role) -> Option<Move>
    ensures { result ≡ begin_effect_pattern role }
{
    match role {
        Role::LeftParenthesis => by(
            Change::Open(Form::EffectParenthesis, 1),
            Awaits::EffectPattern,
        ),
        Role::Upper => {
            by_two(
                Change::Leaf(Rule::Word),
                Change::Open(Form::PatternPath, 1),
                Awaits::PatternConstructed,
            )
        }
        _ => None,
    }
}

/// A `)` directly behind `(`.
#[tactic(auto, unfolding(crate::specs::Patterns::close_unit_pattern))]
pub fn close_unit_pattern(role: Role) -> Option<Move>
    ensures { result ≡ close_unit_pattern role }
{
    match role {
        Role::RightParenthesis => by(Change::Empty(Rule::PatternUnit), Awaits::After),
        _ => None,
    }
}

/// A `]` directly behind `[`.
#[tactic(auto, unfolding(crate::specs::Patterns::close_empty_pattern))]
pub fn close_empty_pattern(role: Role) -> Option<Move>
    ensures { result ≡ close_empty_pattern role }
{
    match role {
        Role::RightBracket => by(Change::Empty(Rule::PatternList), Awaits::After),
        _ => None,
    }
}

/// A token behind a constructor, in a pattern in this form: a dot is left; a pattern is its
/// argument, where one of level 1 may stand.
#[tactic(auto, unfolding(crate::specs::Patterns::complete_pattern_constructor))]
pub fn complete_pattern_constructor(role: Role, outer: Form) -> Option<Move>
    ensures { result ≡ complete_pattern_constructor role outer }
{
    match role {
        Role::Dot => goes(Awaits::PatternConstructed),
        _ => {
            if begins_pattern(role) && level_of(outer) >= 1 {
                by_two(
                    Change::Close(Rule::LongName),
                    Change::Open(Form::PatternConstruct, 1),
                    Awaits::Pattern,
                )
            } else {
                by(Change::Close(Rule::PatternConstructor), Awaits::After)
            }
        }
    }
}

/// A dot behind a constructor.
#[tactic(auto, unfolding(crate::specs::Patterns::after_pattern_constructor))]
pub fn after_pattern_constructor(role: Role) -> Option<Move>
    ensures { result ≡ after_pattern_constructor role }
{
    match role {
        Role::Dot => goes(Awaits::PatternMember),
        _ => None,
    }
}

/// A token behind a constructor and a dot.
#[tactic(auto, unfolding(crate::specs::Patterns::take_pattern_member))]
pub fn take_pattern_member(role: Role) -> Option<Move>
    ensures { result ≡ take_pattern_member role }
{
    match role {
        Role::Upper => by_two(
            Change::Leaf(Rule::Word),
            Change::Count(Form::PatternPath),
            Awaits::PatternConstructed,
        ),
        _ => None,
    }
}

/// A token behind `as`.
#[tactic(auto, unfolding(crate::specs::Patterns::name_alias))]
pub fn name_alias(role: Role) -> Option<Move>
    ensures { result ≡ name_alias role }
{
    match role {
        Role::Lower => {
            by_two(
                Change::Leaf(Rule::Word),
                Change::Close(Rule::PatternAlias),
                Awaits::After,
            )
        }
        _ => None,
    }
}

/// A token where a field's name comes.
#[tactic(auto, unfolding(crate::specs::Patterns::name_pattern_field))]
pub fn name_pattern_field(role: Role) -> Option<Move>
    ensures { result ≡ name_pattern_field role }
{
    match role {
        Role::Lower => by_two(
            Change::Leaf(Rule::Word),
            Change::Count(Form::PatternRecord),
            Awaits::PatternFieldEquals,
        ),
        _ => None,
    }
}

/// A token where a field's name or `_` comes.
#[tactic(auto, unfolding(crate::specs::Patterns::name_pattern_field_or_rest))]
pub fn name_pattern_field_or_rest(role: Role) -> Option<Move>
    ensures { result ≡ name_pattern_field_or_rest role }
{
    match role {
        Role::Underscore => goes(Awaits::PatternRest),
        _ => name_pattern_field(role),
    }
}

/// A token behind a field's name.
#[tactic(auto, unfolding(crate::specs::Patterns::equals_pattern_field))]
pub fn equals_pattern_field(role: Role) -> Option<Move>
    ensures { result ≡ equals_pattern_field role }
{
    match role {
        Role::Equals => goes(Awaits::Pattern),
        _ => None,
    }
}

/// A token behind the `_` at the end of a record.
#[tactic(auto, unfolding(crate::specs::Patterns::close_pattern_rest))]
pub fn close_pattern_rest(role: Role) -> Option<Move>
    ensures { result ≡ close_pattern_rest role }
{
    match role {
        Role::RightBrace => by(Change::Close(Rule::PatternRecordOpen), Awaits::After),
        _ => None,
    }
}

/// A further parameter; any other token is left.
#[tactic(auto, unfolding(crate::specs::Patterns::join_pattern))]
pub fn join_pattern(role: Role, form: Form) -> Option<Move>
    ensures { result ≡ join_pattern role form }
{
    match form {
        Form::FunParameters => join_parameter(role, form),
        Form::BindingParameters => join_parameter(role, form),
        _ => goes(Awaits::After),
    }
}

// A pattern behind a parameter.
#[tactic(auto, unfolding(crate::specs::Patterns::join_parameter))]
fn join_parameter(role: Role, form: Form) -> Option<Move>
    ensures { result ≡ join_parameter role form }
{
    if begins_pattern(role) {
        by(Change::Count(form), Awaits::Pattern)
    } else {
        goes(Awaits::After)
    }
}

// A form of this level and its second part, where such a form may stand.
#[tactic(auto, unfolding(crate::specs::Patterns::open_pattern))]
fn open_pattern(level: u8, form: Form, outer: Form) -> Option<Move>
    ensures { result ≡ open_pattern level form outer }
{
    if level_of(outer) >= level {
        by(Change::Open(form, 2), Awaits::Pattern)
    } else {
        None
    }
}

// A comma behind a pattern.
#[tactic(auto, unfolding(crate::specs::Patterns::pair_pattern))]
fn pair_pattern(form: Form) -> Option<Move>
    ensures { result ≡ pair_pattern form }
{
    match form {
        Form::PatternTuple => by(Change::Count(form), Awaits::Pattern),
        Form::EffectClause => goes(Awaits::Continuation),
        _ => open_pattern(3, Form::PatternTuple, form),
    }
}

// An `as` behind a pattern.
#[tactic(auto, unfolding(crate::specs::Patterns::alias_pattern))]
fn alias_pattern(form: Form) -> Option<Move>
    ensures { result ≡ alias_pattern form }
{
    if level_of(form) >= 5 {
        by(Change::Open(Form::PatternAlias, 1), Awaits::PatternAlias)
    } else {
        None
    }
}

// A `)` behind a pattern.
#[tactic(auto, unfolding(crate::specs::Patterns::close_pattern))]
fn close_pattern(form: Form) -> Option<Move>
    ensures { result ≡ close_pattern form }
{
    match form {
        Form::PatternParenthesis => by(Change::Close(Rule::PatternBracket), Awaits::After),
        Form::EffectParenthesis => by(Change::Close(Rule::PatternBracket), Awaits::After),
        _ => None,
    }
}

// A semicolon behind a pattern.
#[tactic(auto, unfolding(crate::specs::Patterns::next_pattern))]
fn next_pattern(form: Form) -> Option<Move>
    ensures { result ≡ next_pattern form }
{
    match form {
        Form::PatternList => by(Change::Count(form), Awaits::Pattern),
        Form::PatternRecord => by(Change::Leaf(Rule::NamedPart), Awaits::PatternFieldOrRest),
        _ => None,
    }
}

// A `]` behind a pattern.
#[tactic(auto, unfolding(crate::specs::Patterns::close_pattern_list))]
fn close_pattern_list(form: Form) -> Option<Move>
    ensures { result ≡ close_pattern_list form }
{
    match form {
        Form::PatternList => by(Change::Close(Rule::PatternList), Awaits::After),
        _ => None,
    }
}

// A `}` behind a pattern.
#[tactic(auto, unfolding(crate::specs::Patterns::close_pattern_record))]
fn close_pattern_record(form: Form) -> Option<Move>
    ensures { result ≡ close_pattern_record form }
{
    match form {
        Form::PatternRecord => by_two(
            Change::Leaf(Rule::NamedPart),
            Change::Close(Rule::PatternRecord),
            Awaits::After,
        ),
        _ => None,
    }
}

// A colon behind a pattern.
#[tactic(auto, unfolding(crate::specs::Patterns::annotate_pattern))]
fn annotate_pattern(form: Form) -> Option<Move>
    ensures { result ≡ annotate_pattern form }
{
    match form {
        Form::PatternParenthesis => by(Change::Become(Form::PatternAnnotation), Awaits::Type),
        Form::BindingParameters => by(Change::Become(Form::BindingAnnotation), Awaits::Type),
        _ => None,
    }
}

// A `=` behind a pattern.
#[tactic(auto, unfolding(crate::specs::Patterns::equals_pattern))]
fn equals_pattern(form: Form) -> Option<Move>
    ensures { result ≡ equals_pattern form }
{
    match form {
        Form::BindingPattern => by(Change::Become(Form::PatternBody), Awaits::Expression),
        Form::BindingParameters => by(Change::Become(Form::BindingBody), Awaits::Expression),
        _ => None,
    }
}

// A `->` behind a pattern.
#[tactic(auto, unfolding(crate::specs::Patterns::to_answer))]
fn to_answer(form: Form) -> Option<Move>
    ensures { result ≡ to_answer form }
{
    match form {
        Form::FunParameters => by(Change::Become(Form::FunBody), Awaits::Expression),
        Form::ValueClause => by(Change::Become(Form::ValueAnswer), Awaits::Expression),
        Form::ExceptionClause => by(Change::Become(Form::ExceptionAnswer), Awaits::Expression),
        Form::RulePattern => goes(Awaits::Answer),
        _ => None,
    }
}

// A `when` behind a pattern.
#[tactic(auto, unfolding(crate::specs::Patterns::guard_pattern))]
fn guard_pattern(form: Form) -> Option<Move>
    ensures { result ≡ guard_pattern form }
{
    match form {
        Form::ValueClause => by(Change::Become(Form::ValueGuard), Awaits::Expression),
        Form::ExceptionClause => by(Change::Become(Form::ExceptionGuard), Awaits::Expression),
        _ => None,
    }
}

/// A token behind a pattern, in this form.
#[tactic(auto, unfolding(crate::specs::Patterns::after_pattern))]
pub fn after_pattern(role: Role, form: Form) -> Option<Move>
    ensures { result ≡ after_pattern role form }
{
    match role {
        Role::DoubleColon => open_pattern(2, Form::PatternCons, form),
        Role::Comma => pair_pattern(form),
        Role::Bar => open_pattern(4, Form::PatternOr, form),
        Role::As => alias_pattern(form),
        Role::RightParenthesis => close_pattern(form),
        Role::Semicolon => next_pattern(form),
        Role::RightBracket => close_pattern_list(form),
        Role::RightBrace => close_pattern_record(form),
        Role::Colon => annotate_pattern(form),
        Role::Equals => equals_pattern(form),
        Role::RightArrow => to_answer(form),
        Role::When => guard_pattern(form),
        _ => None,
    }
}
