//! What a token does that is taken.

ghost use Rattle.std.specs.Prelude.{◌≡◌};
ghost use Rattle.ml_moves.specs.Taking.{after, after_other, take, take_in_expression, take_in_handler, take_in_item};

use crate::awaits::Awaits;
use crate::bindings::{after_bindings, begin_binding, begin_first_binding, take_head};
use crate::clauses::{
    begin_clause, name_continuation, next_clause, open_effect_answer, take_first_bar,
};
use crate::definitions::{
    after_definition, after_extended_word, after_opened_word, after_type_parameter, begin_body,
    begin_effect_item, begin_extended, begin_field_type, begin_type_head, close_record_type,
    equals_definition, extend, name_constructor, name_definition, name_effect, name_exception,
    name_field_type, name_opened, open_argument, open_effect, open_field_type,
    take_extended_member, take_first_effect_bar, take_type_parameter,
};
use crate::endings::after_expression;
use crate::expressions::{
    after_constructor, begin, begin_literal, close_empty, close_unit, equals_expression,
    name_counter, name_field, select, set_element, set_field, take_member,
};
use crate::form::{Form, Position};
use crate::handlers::{
    Sign, after_last, after_parameter, annotate_parameter, begin_answer, begin_effects,
    begin_last_rule, begin_match, begin_resumption, close_effect_type, end_rules, equals_handler,
    name_effect_type, name_handler_field, next_rule, open_answer, open_resumption, open_rules,
    take_bracketed, take_bracketed_resumed, take_first_rule_bar, take_opened, take_parameter,
    take_resumed, take_subject,
};
use crate::items::begin_item;
use crate::level::{Last, Sort, sort_of};
use crate::moves::Move;
use crate::patterns::{
    after_pattern, after_pattern_constructor, begin_effect_pattern, begin_pattern,
    close_empty_pattern, close_pattern_rest, close_unit_pattern, equals_pattern_field, name_alias,
    name_pattern_field, name_pattern_field_or_rest, take_pattern_member,
};
use crate::types::{
    after_type, after_type_word, begin_type, name_type_constructor, take_type_member,
};
use ml_syntax::Role;

// A token behind a whole part that is no type, pattern or expression.
#[tactic(auto, unfolding(crate::specs::Taking::after_other))]
fn after_other(role: Role, form: Form) -> Option<Move>
    ensures { result ≡ after_other role form }
{
    match form {
        Form::MatchClauses => next_clause(role, form),
        Form::MatchValues => next_clause(role, form),
        Form::TryClauses => next_clause(role, form),
        Form::FunctionClauses => next_clause(role, form),
        Form::Let(_) => after_bindings(role, form),
        Form::LetRecursive(_) => after_bindings(role, form),
        _ => after_definition(role, form),
    }
}

// A token behind a whole part of this sort, in this form.
#[tactic(auto, unfolding(crate::specs::Taking::after))]
fn after(sort: Sort, role: Role, form: Form, last: Last) -> Option<Move>
    ensures { result ≡ after sort role form last }
{
    match sort {
        Sort::Type(types) => after_type(role, form, types),
        Sort::Pattern => after_pattern(role, form),
        Sort::Expression => after_expression(role, form, last),
        Sort::Other => after_other(role, form),
    }
}

/// A token where this is awaited, with the innermost form, the one round it, what was made last,
/// and what the token is to a handler.
#[tactic(auto, unfolding(crate::specs::Taking::take))]
pub fn take(
    awaits: Awaits,
    role: Role,
    sign: Sign,
    form: Form,
    outer: Form,
    last: Last,
) -> Option<Move>
    ensures { result ≡ take awaits role sign form outer last }
{
    match awaits {
        Awaits::After => after(sort_of(form), role, form, last),
        Awaits::Type => begin_type(role, sort_of(form)),
        Awaits::TypeDot => after_type_word(role),
        Awaits::TypeMember => take_type_member(role, form),
        Awaits::TypeConstructor => name_type_constructor(role),
        Awaits::Pattern => begin_pattern(role),
        Awaits::PatternOrUnit => close_unit_pattern(role),
        Awaits::PatternOrEmpty => close_empty_pattern(role),
        Awaits::PatternConstructed => after_pattern_constructor(role),
        Awaits::PatternMember => take_pattern_member(role),
        Awaits::PatternAlias => name_alias(role),
        Awaits::PatternField => name_pattern_field(role),
        Awaits::PatternFieldOrRest => name_pattern_field_or_rest(role),
        Awaits::PatternFieldEquals => equals_pattern_field(role),
        Awaits::PatternRest => close_pattern_rest(role),
        Awaits::EffectPattern => begin_effect_pattern(role),
        _ => take_in_expression(awaits, role, sign, form, outer),
    }
}

// The same in an expression.
#[tactic(auto, unfolding(crate::specs::Taking::take_in_expression))]
fn take_in_expression(
    awaits: Awaits,
    role: Role,
    sign: Sign,
    form: Form,
    outer: Form,
) -> Option<Move>
    ensures { result ≡ take_in_expression awaits role sign form outer }
{
    match awaits {
        Awaits::Expression => begin(role, form),
        Awaits::Literal => begin_literal(role),
        Awaits::ExpressionOrUnit => close_unit(role),
        Awaits::ExpressionOrEmpty => close_empty(role, form),
        Awaits::Constructed => after_constructor(role),
        Awaits::Member => take_member(role, outer),
        Awaits::Selecting => select(role),
        Awaits::Selected => set_field(role, outer),
        Awaits::Indexed => set_element(role, outer),
        Awaits::Field => name_field(role),
        Awaits::FieldEquals => equals_expression(role),
        Awaits::Counter => name_counter(role),
        Awaits::CounterEquals => equals_expression(role),
        Awaits::FirstClause => take_first_bar(role),
        Awaits::Clause => begin_clause(role),
        Awaits::Continuation => name_continuation(role),
        Awaits::ContinuationArrow => open_effect_answer(role),
        Awaits::FirstBinding => begin_first_binding(role, form),
        Awaits::Binding => begin_binding(role, form),
        Awaits::BindingHead => take_head(role, form),
        _ => take_in_item(awaits, role, sign, form),
    }
}

// The same in an item.
#[tactic(auto, unfolding(crate::specs::Taking::take_in_item))]
fn take_in_item(awaits: Awaits, role: Role, sign: Sign, form: Form) -> Option<Move>
    ensures { result ≡ take_in_item awaits role sign form }
{
    match awaits {
        Awaits::FirstItem => begin_item(role, Position::Either),
        Awaits::NextItem => begin_item(role, Position::Item),
        Awaits::Definitions => begin_effect_item(role),
        Awaits::DefinitionHead => begin_type_head(role),
        Awaits::Parameter => take_type_parameter(role),
        Awaits::ParameterEnd => after_type_parameter(role),
        Awaits::DefinitionName => name_definition(role),
        Awaits::DefinitionEquals => equals_definition(role),
        Awaits::DefinitionBody => begin_body(role),
        Awaits::Constructor => name_constructor(role),
        Awaits::ConstructorEnd => open_argument(role),
        Awaits::FieldType => begin_field_type(role),
        Awaits::FieldTypeOrEnd => close_record_type(role),
        Awaits::FieldTypeName => name_field_type(role),
        Awaits::FieldTypeColon => open_field_type(role),
        Awaits::Extended => begin_extended(role),
        Awaits::ExtendedDot => after_extended_word(role),
        Awaits::ExtendedMember => take_extended_member(role),
        Awaits::ExtendedPlus => extend(role),
        Awaits::FirstEffect => take_first_effect_bar(role),
        Awaits::Effect => name_effect(role),
        Awaits::EffectColon => open_effect(role),
        Awaits::Exception => name_exception(role),
        Awaits::Open => name_opened(role),
        Awaits::OpenEnd => after_opened_word(role),
        _ => take_in_handler(awaits, role, sign, form),
    }
}

// The same in a handler.
#[tactic(auto, unfolding(crate::specs::Taking::take_in_handler))]
fn take_in_handler(awaits: Awaits, role: Role, sign: Sign, form: Form) -> Option<Move>
    ensures { result ≡ take_in_handler awaits role sign form }
{
    match awaits {
        Awaits::HandlerField => name_handler_field(sign, form),
        Awaits::HandlerEquals => equals_handler(role, Awaits::Expression),
        Awaits::EffectsEquals => equals_handler(role, Awaits::Effects),
        Awaits::Effects => begin_effects(role),
        Awaits::EffectParameter => take_parameter(role, Awaits::EffectOpened),
        Awaits::EffectOpened => take_opened(role),
        Awaits::EffectType => name_effect_type(role),
        Awaits::EffectTypeEnd => close_effect_type(role),
        Awaits::TypedParameter => take_parameter(role, Awaits::TypedOpened),
        Awaits::TypedOpened => take_bracketed(role),
        Awaits::ParameterColon => annotate_parameter(role),
        Awaits::ParameterArrow => after_parameter(role),
        Awaits::EffectMatch => begin_match(role),
        Awaits::Subject => take_subject(sign),
        Awaits::SubjectWith => open_rules(role),
        Awaits::FirstRule => take_first_rule_bar(role),
        Awaits::Rule => begin_last_rule(role),
        Awaits::Answer => begin_answer(sign),
        Awaits::AnswerBracket => open_answer(role),
        Awaits::AnswerFun => begin_resumption(role),
        Awaits::Resumed => take_resumed(role),
        Awaits::ResumedOpened => take_bracketed_resumed(role),
        Awaits::ResumedColon => annotate_parameter(role),
        Awaits::ResumedArrow => open_resumption(role),
        Awaits::RuleBar => next_rule(role),
        Awaits::LastArrow => after_last(role),
        Awaits::LastAnswer => end_rules(sign, form),
        _ => None,
    }
}
