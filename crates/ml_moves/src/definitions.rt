//! What a token does in the definitions of types, effects and exceptions.

ghost use Rattle.std.specs.Prelude.{◌≡◌};
ghost use Rattle.ml_moves.specs.Definitions.{after_definition, after_extended_word, after_field_type, after_opened_word, after_type_parameter, begin_body, begin_effect_item, begin_extended, begin_field_type, begin_type_head, close_record_type, complete_body, complete_constructor_name, complete_definition, complete_definitions, complete_field_type, complete_first_effect, complete_opened, equals_definition, extend, name_constructor, name_definition, name_effect, name_exception, name_field_type, name_opened, next_behind_bar, next_definition, open_argument, open_effect, open_field_type, take_extended_member, take_first_effect_bar, take_type_parameter};

use crate::awaits::Awaits;
use crate::form::Form;
use crate::moves::{Change, Move, by, by_three, by_two, goes};
use ml_builder::Rule;
use ml_syntax::Role;

/// A token where a type definition begins.
#[tactic(auto, unfolding(crate::specs::Definitions::complete_definition))]
pub fn complete_definition() -> Option<Move>
    ensures { result ≡ complete_definition }
{
    by_two(
        Change::Count(Form::Definitions),
        Change::Open(Form::TypeHead, 1),
        Awaits::DefinitionHead,
    )
}

/// A token behind `type`: `_` is left.
#[tactic(auto, unfolding(crate::specs::Definitions::complete_definitions))]
pub fn complete_definitions(role: Role) -> Option<Move>
    ensures { result ≡ complete_definitions role }
{
    match role {
        Role::Underscore => goes(Awaits::Definitions),
        _ => complete_definition(),
    }
}

/// A `_` behind `type`.
#[tactic(auto, unfolding(crate::specs::Definitions::begin_effect_item))]
pub fn begin_effect_item(role: Role) -> Option<Move>
    ensures { result ≡ begin_effect_item role }
{
    match role {
        Role::Underscore => by(Change::Become(Form::Effects), Awaits::Extended),
        _ => None,
    }
}

/// A token where the parameters or the name of a defined type come.
#[tactic(auto, unfolding(crate::specs::Definitions::begin_type_head))]
pub fn begin_type_head(role: Role) -> Option<Move>
    ensures { result ≡ begin_type_head role }
{
    match role {
        Role::TypeVariable => by_two(
            Change::Leaf(Rule::Word),
            Change::Count(Form::TypeHead),
            Awaits::DefinitionName,
        ),
        Role::LeftParenthesis => goes(Awaits::Parameter),
        _ => name_definition(role),
    }
}

/// A token where a type parameter comes in brackets.
#[tactic(auto, unfolding(crate::specs::Definitions::take_type_parameter))]
pub fn take_type_parameter(role: Role) -> Option<Move>
    ensures { result ≡ take_type_parameter role }
{
    match role {
        Role::TypeVariable => by_two(
            Change::Leaf(Rule::Word),
            Change::Count(Form::TypeHead),
            Awaits::ParameterEnd,
        ),
        _ => None,
    }
}

/// A token behind a type parameter in brackets.
#[tactic(auto, unfolding(crate::specs::Definitions::after_type_parameter))]
pub fn after_type_parameter(role: Role) -> Option<Move>
    ensures { result ≡ after_type_parameter role }
{
    match role {
        Role::Comma => goes(Awaits::Parameter),
        Role::RightParenthesis => goes(Awaits::DefinitionName),
        _ => None,
    }
}

/// A token where the name of a defined type comes.
#[tactic(auto, unfolding(crate::specs::Definitions::name_definition))]
pub fn name_definition(role: Role) -> Option<Move>
    ensures { result ≡ name_definition role }
{
    match role {
        Role::Lower => {
            by_two(
                Change::Leaf(Rule::Word),
                Change::Close(Rule::TypeHead),
                Awaits::DefinitionEquals,
            )
        }
        _ => None,
    }
}

/// A token behind the name of a defined type.
#[tactic(auto, unfolding(crate::specs::Definitions::equals_definition))]
pub fn equals_definition(role: Role) -> Option<Move>
    ensures { result ≡ equals_definition role }
{
    match role {
        Role::Equals => goes(Awaits::DefinitionBody),
        _ => None,
    }
}

/// A token where what a type is defined as begins: `{` and `|` are left.
#[tactic(auto, unfolding(crate::specs::Definitions::complete_body))]
pub fn complete_body(role: Role) -> Option<Move>
    ensures { result ≡ complete_body role }
{
    match role {
        Role::LeftBrace => goes(Awaits::DefinitionBody),
        Role::Bar => goes(Awaits::DefinitionBody),
        _ => by(Change::Open(Form::Variant, 0), Awaits::Constructor),
    }
}

/// A `{` or `|` behind the `=` of a definition.
#[tactic(auto, unfolding(crate::specs::Definitions::begin_body))]
pub fn begin_body(role: Role) -> Option<Move>
    ensures { result ≡ begin_body role }
{
    match role {
        Role::LeftBrace => by(Change::Open(Form::RecordType, 0), Awaits::FieldType),
        Role::Bar => by(Change::Open(Form::Variant, 0), Awaits::Constructor),
        _ => None,
    }
}

/// A token where a constructor's name comes.
#[tactic(auto, unfolding(crate::specs::Definitions::name_constructor))]
pub fn name_constructor(role: Role) -> Option<Move>
    ensures { result ≡ name_constructor role }
{
    match role {
        Role::Upper => by_two(
            Change::Leaf(Rule::Word),
            Change::Count(Form::Variant),
            Awaits::ConstructorEnd,
        ),
        _ => None,
    }
}

/// A token behind the name of a constructor or of an exception: `of` is left, and any other one
/// shows that there is no argument.
#[tactic(auto, unfolding(crate::specs::Definitions::complete_constructor_name))]
pub fn complete_constructor_name(role: Role) -> Option<Move>
    ensures { result ≡ complete_constructor_name role }
{
    match role {
        Role::Of => goes(Awaits::ConstructorEnd),
        _ => by(Change::LeafBefore(Rule::PlainConstructor), Awaits::After),
    }
}

/// An `of` behind that name.
#[tactic(auto, unfolding(crate::specs::Definitions::open_argument))]
pub fn open_argument(role: Role) -> Option<Move>
    ensures { result ≡ open_argument role }
{
    match role {
        Role::Of => by(Change::Open(Form::ConstructorArgument, 1), Awaits::Type),
        _ => None,
    }
}

/// A token where a field begins or a record type ends: `}` is left.
#[tactic(auto, unfolding(crate::specs::Definitions::complete_field_type))]
pub fn complete_field_type(role: Role) -> Option<Move>
    ensures { result ≡ complete_field_type role }
{
    match role {
        Role::RightBrace => goes(Awaits::FieldTypeOrEnd),
        _ => goes(Awaits::FieldType),
    }
}

/// A `}` behind the last semicolon of a record type.
#[tactic(auto, unfolding(crate::specs::Definitions::close_record_type))]
pub fn close_record_type(role: Role) -> Option<Move>
    ensures { result ≡ close_record_type role }
{
    match role {
        Role::RightBrace => by(Change::Close(Rule::RecordType), Awaits::After),
        _ => None,
    }
}

/// A token where a field begins.
#[tactic(auto, unfolding(crate::specs::Definitions::begin_field_type))]
pub fn begin_field_type(role: Role) -> Option<Move>
    ensures { result ≡ begin_field_type role }
{
    match role {
        Role::Mutable => by_two(
            Change::Count(Form::RecordType),
            Change::Open(Form::MutableFieldType, 1),
            Awaits::FieldTypeName,
        ),
        Role::Lower => by_three(
            Change::Leaf(Rule::Word),
            Change::Count(Form::RecordType),
            Change::Open(Form::FieldType, 1),
            Awaits::FieldTypeColon,
        ),
        _ => None,
    }
}

/// A token behind `mutable`.
#[tactic(auto, unfolding(crate::specs::Definitions::name_field_type))]
pub fn name_field_type(role: Role) -> Option<Move>
    ensures { result ≡ name_field_type role }
{
    match role {
        Role::Lower => by(Change::Leaf(Rule::Word), Awaits::FieldTypeColon),
        _ => None,
    }
}

/// A token behind the name of a field.
#[tactic(auto, unfolding(crate::specs::Definitions::open_field_type))]
pub fn open_field_type(role: Role) -> Option<Move>
    ensures { result ≡ open_field_type role }
{
    match role {
        Role::Colon => goes(Awaits::Type),
        _ => None,
    }
}

/// A token where the name of an extended type comes.
#[tactic(auto, unfolding(crate::specs::Definitions::begin_extended))]
pub fn begin_extended(role: Role) -> Option<Move>
    ensures { result ≡ begin_extended role }
{
    match role {
        Role::Lower => by(Change::Name(Rule::LongName), Awaits::ExtendedPlus),
        Role::Upper => {
            by_two(
                Change::Leaf(Rule::Word),
                Change::Open(Form::ExtendedPath, 1),
                Awaits::ExtendedDot,
            )
        }
        _ => None,
    }
}

/// A token behind an upper name in that name.
#[tactic(auto, unfolding(crate::specs::Definitions::after_extended_word))]
pub fn after_extended_word(role: Role) -> Option<Move>
    ensures { result ≡ after_extended_word role }
{
    match role {
        Role::Dot => goes(Awaits::ExtendedMember),
        _ => None,
    }
}

/// A token behind a dot in that name.
#[tactic(auto, unfolding(crate::specs::Definitions::take_extended_member))]
pub fn take_extended_member(role: Role) -> Option<Move>
    ensures { result ≡ take_extended_member role }
{
    match role {
        Role::Upper => {
            by_two(
                Change::Leaf(Rule::Word),
                Change::Count(Form::ExtendedPath),
                Awaits::ExtendedDot,
            )
        }
        Role::Lower => by_three(
            Change::Leaf(Rule::Word),
            Change::Count(Form::ExtendedPath),
            Change::Close(Rule::LongName),
            Awaits::ExtendedPlus,
        ),
        _ => None,
    }
}

/// A token behind the name of an extended type.
#[tactic(auto, unfolding(crate::specs::Definitions::extend))]
pub fn extend(role: Role) -> Option<Move>
    ensures { result ≡ extend role }
{
    match role {
        Role::PlusEquals => goes(Awaits::FirstEffect),
        _ => None,
    }
}

/// A token where the first effect comes: a bar is left.
#[tactic(auto, unfolding(crate::specs::Definitions::complete_first_effect))]
pub fn complete_first_effect(role: Role) -> Option<Move>
    ensures { result ≡ complete_first_effect role }
{
    match role {
        Role::Bar => goes(Awaits::FirstEffect),
        _ => goes(Awaits::Effect),
    }
}

/// A bar before the first effect.
#[tactic(auto, unfolding(crate::specs::Definitions::take_first_effect_bar))]
pub fn take_first_effect_bar(role: Role) -> Option<Move>
    ensures { result ≡ take_first_effect_bar role }
{
    match role {
        Role::Bar => goes(Awaits::Effect),
        _ => None,
    }
}

/// A token where an effect's name comes.
#[tactic(auto, unfolding(crate::specs::Definitions::name_effect))]
pub fn name_effect(role: Role) -> Option<Move>
    ensures { result ≡ name_effect role }
{
    match role {
        Role::Upper => {
            by_two(
                Change::Leaf(Rule::Word),
                Change::Count(Form::Effects),
                Awaits::EffectColon,
            )
        }
        _ => None,
    }
}

/// A token behind an effect's name.
#[tactic(auto, unfolding(crate::specs::Definitions::open_effect))]
pub fn open_effect(role: Role) -> Option<Move>
    ensures { result ≡ open_effect role }
{
    match role {
        Role::Colon => by(Change::Open(Form::PlainEffect, 1), Awaits::Type),
        _ => None,
    }
}

/// A token where the name of an exception comes.
#[tactic(auto, unfolding(crate::specs::Definitions::name_exception))]
pub fn name_exception(role: Role) -> Option<Move>
    ensures { result ≡ name_exception role }
{
    match role {
        Role::Upper => by(Change::Leaf(Rule::Word), Awaits::ConstructorEnd),
        _ => None,
    }
}

/// A token where an upper name of `open` comes.
#[tactic(auto, unfolding(crate::specs::Definitions::name_opened))]
pub fn name_opened(role: Role) -> Option<Move>
    ensures { result ≡ name_opened role }
{
    match role {
        Role::Upper => by_two(
            Change::Leaf(Rule::Word),
            Change::Count(Form::Open),
            Awaits::OpenEnd,
        ),
        _ => None,
    }
}

/// A token behind an upper name of `open`: a dot is left, and any other one ends the item.
#[tactic(auto, unfolding(crate::specs::Definitions::complete_opened))]
pub fn complete_opened(role: Role) -> Option<Move>
    ensures { result ≡ complete_opened role }
{
    match role {
        Role::Dot => goes(Awaits::OpenEnd),
        _ => goes(Awaits::After),
    }
}

/// A dot behind an upper name of `open`.
#[tactic(auto, unfolding(crate::specs::Definitions::after_opened_word))]
pub fn after_opened_word(role: Role) -> Option<Move>
    ensures { result ≡ after_opened_word role }
{
    match role {
        Role::Dot => goes(Awaits::Open),
        _ => None,
    }
}

// A semicolon or a `}` behind a field of a record type.
#[tactic(auto, unfolding(crate::specs::Definitions::after_field_type))]
fn after_field_type(role: Role) -> Option<Move>
    ensures { result ≡ after_field_type role }
{
    match role {
        Role::Semicolon => goes(Awaits::FieldTypeOrEnd),
        Role::RightBrace => by(Change::Close(Rule::RecordType), Awaits::After),
        _ => None,
    }
}

// A bar behind a part, where the next one comes.
#[tactic(auto, unfolding(crate::specs::Definitions::next_behind_bar))]
fn next_behind_bar(role: Role, next: Awaits) -> Option<Move>
    ensures { result ≡ next_behind_bar role next }
{
    match role {
        Role::Bar => goes(next),
        _ => None,
    }
}

// An `and` behind a type definition.
#[tactic(auto, unfolding(crate::specs::Definitions::next_definition))]
fn next_definition(role: Role) -> Option<Move>
    ensures { result ≡ next_definition role }
{
    match role {
        Role::And => goes(Awaits::Definition),
        _ => None,
    }
}

/// A token behind a whole part of a definition in this form.
#[tactic(auto, unfolding(crate::specs::Definitions::after_definition))]
pub fn after_definition(role: Role, form: Form) -> Option<Move>
    ensures { result ≡ after_definition role form }
{
    match form {
        Form::Definitions => next_definition(role),
        Form::Variant => next_behind_bar(role, Awaits::Constructor),
        Form::RecordType => after_field_type(role),
        Form::Effects => next_behind_bar(role, Awaits::Effect),
        _ => None,
    }
}
