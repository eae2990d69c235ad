//! What a token does in a handler.

ghost use Rattle.std.specs.Prelude.{◌≡◌};
ghost use Rattle.ml_moves.specs.Handlers.{after_last, after_parameter, annotate_parameter, begin_answer, begin_effects, begin_last_rule, begin_match, begin_resumption, close_effect_type, close_rules, complete_first_rule, complete_rule, end_rules, equals_handler, name_effc, name_effect_type, name_exnc, name_handler_field, name_missing, name_parameter, name_resumed_as, name_retc, next_rule, open_answer, open_named_field, open_resumption, open_rules, take_bracketed, take_bracketed_resumed, take_first_rule_bar, take_opened, take_parameter, take_resumed, take_subject};

use crate::awaits::Awaits;
use crate::form::{Form, Missing};
use crate::moves::{Change, Move, by, by_two, goes};
use ml_builder::Rule;
use ml_syntax::Role;

/// What a name is that a handler asks for.
#[derive(Clone, Copy)]
pub enum Sign {
    Retc,
    Exnc,
    Effc,
    Some,
    None,
    /// The name of the parameter of `effc`.
    Parameter,
    Other,
}

// The field of a handler whose name comes, which then isn't missing.
#[tactic(auto, unfolding(crate::specs::Handlers::open_named_field))]
fn open_named_field(missing: Missing, next: Awaits) -> Option<Move>
    ensures { result ≡ open_named_field missing next }
{
    by_two(
        Change::Leaf(Rule::Word),
        Change::Count(Form::HandlerFields(missing)),
        next,
    )
}

// The name of a field, one of those that are missing.
#[tactic(auto, unfolding(crate::specs::Handlers::name_missing))]
fn name_missing(sign: Sign, missing: Missing) -> Option<Move>
    ensures { result ≡ name_missing sign missing }
{
    match sign {
        Sign::Retc => name_retc(missing),
        Sign::Exnc => name_exnc(missing),
        Sign::Effc => name_effc(missing),
        _ => None,
    }
}

// The name `retc`.
#[tactic(auto, unfolding(crate::specs::Handlers::name_retc))]
fn name_retc(missing: Missing) -> Option<Move>
    ensures { result ≡ name_retc missing }
{
    if missing.retc {
        open_named_field(
            Missing {
                retc: false,
                exnc: missing.exnc,
                effc: missing.effc,
            },
            Awaits::HandlerEquals,
        )
    } else {
        None
    }
}

// The name `exnc`.
#[tactic(auto, unfolding(crate::specs::Handlers::name_exnc))]
fn name_exnc(missing: Missing) -> Option<Move>
    ensures { result ≡ name_exnc missing }
{
    if missing.exnc {
        open_named_field(
            Missing {
                retc: missing.retc,
                exnc: false,
                effc: missing.effc,
            },
            Awaits::HandlerEquals,
        )
    } else {
        None
    }
}

// The name `effc`.
#[tactic(auto, unfolding(crate::specs::Handlers::name_effc))]
fn name_effc(missing: Missing) -> Option<Move>
    ensures { result ≡ name_effc missing }
{
    if missing.effc {
        open_named_field(
            Missing {
                retc: missing.retc,
                exnc: missing.exnc,
                effc: false,
            },
            Awaits::EffectsEquals,
        )
    } else {
        None
    }
}

/// A token where the name of a field comes, in this form.
#[tactic(auto, unfolding(crate::specs::Handlers::name_handler_field))]
pub fn name_handler_field(sign: Sign, form: Form) -> Option<Move>
    ensures { result ≡ name_handler_field sign form }
{
    match form {
        Form::HandlerFields(missing) => name_missing(sign, missing),
        _ => None,
    }
}

/// A token behind `retc` or `exnc`, or behind `effc`.
#[tactic(auto, unfolding(crate::specs::Handlers::equals_handler))]
pub fn equals_handler(role: Role, next: Awaits) -> Option<Move>
    ensures { result ≡ equals_handler role next }
{
    match role {
        Role::Equals => goes(next),
        _ => None,
    }
}

/// A token where the value of `effc` begins.
#[tactic(auto, unfolding(crate::specs::Handlers::begin_effects))]
pub fn begin_effects(role: Role) -> Option<Move>
    ensures { result ≡ begin_effects role }
{
    match role {
        Role::Fun => by(
            Change::Open(Form::EffectFunction, 1),
            Awaits::EffectParameter,
        ),
        Role::Function => by(Change::Open(Form::FunctionRules, 0), Awaits::FirstRule),
        _ => None,
    }
}

// The parameter of `effc`.
#[tactic(auto, unfolding(crate::specs::Handlers::name_parameter))]
fn name_parameter() -> Option<Move>
    ensures { result ≡ name_parameter }
{
    by_two(
        Change::Leaf(Rule::PatternName),
        Change::Open(Form::EffectParameter, 0),
        Awaits::ParameterArrow,
    )
}

/// A token where the parameter of `effc` comes; behind a bracket this comes next.
#[tactic(auto, unfolding(crate::specs::Handlers::take_parameter))]
pub fn take_parameter(role: Role, bracketed: Awaits) -> Option<Move>
    ensures { result ≡ take_parameter role bracketed }
{
    match role {
        Role::Lower => name_parameter(),
        Role::LeftParenthesis => by(Change::Open(Form::EffectBracket, 0), bracketed),
        _ => None,
    }
}

/// A token where the parameter of `effc` comes in brackets.
#[tactic(auto, unfolding(crate::specs::Handlers::take_bracketed))]
pub fn take_bracketed(role: Role) -> Option<Move>
    ensures { result ≡ take_bracketed role }
{
    match role {
        Role::Lower => by(Change::Leaf(Rule::PatternName), Awaits::ParameterColon),
        _ => None,
    }
}

/// A token in the first brackets behind the `fun` of `effc`.
#[tactic(auto, unfolding(crate::specs::Handlers::take_opened))]
pub fn take_opened(role: Role) -> Option<Move>
    ensures { result ≡ take_opened role }
{
    match role {
        Role::Type => by_two(
            Change::Withdraw,
            Change::Become(Form::TypedEffectFunction),
            Awaits::EffectType,
        ),
        _ => take_bracketed(role),
    }
}

/// A token behind `(type`.
#[tactic(auto, unfolding(crate::specs::Handlers::name_effect_type))]
pub fn name_effect_type(role: Role) -> Option<Move>
    ensures { result ≡ name_effect_type role }
{
    match role {
        Role::Lower => by(Change::Leaf(Rule::Word), Awaits::EffectTypeEnd),
        _ => None,
    }
}

/// A token behind `(type a`.
#[tactic(auto, unfolding(crate::specs::Handlers::close_effect_type))]
pub fn close_effect_type(role: Role) -> Option<Move>
    ensures { result ≡ close_effect_type role }
{
    match role {
        Role::RightParenthesis => goes(Awaits::TypedParameter),
        _ => None,
    }
}

/// A token behind a name in brackets, where its type comes next.
#[tactic(auto, unfolding(crate::specs::Handlers::annotate_parameter))]
pub fn annotate_parameter(role: Role) -> Option<Move>
    ensures { result ≡ annotate_parameter role }
{
    match role {
        Role::Colon => goes(Awaits::Type),
        _ => None,
    }
}

/// A token behind the parameter of `effc`.
#[tactic(auto, unfolding(crate::specs::Handlers::after_parameter))]
pub fn after_parameter(role: Role) -> Option<Move>
    ensures { result ≡ after_parameter role }
{
    match role {
        Role::RightArrow => goes(Awaits::EffectMatch),
        _ => None,
    }
}

/// A token where the `match` of `effc` comes.
#[tactic(auto, unfolding(crate::specs::Handlers::begin_match))]
pub fn begin_match(role: Role) -> Option<Move>
    ensures { result ≡ begin_match role }
{
    match role {
        Role::Match => goes(Awaits::Subject),
        _ => None,
    }
}

/// A token where the subject of that `match` comes: the parameter.
#[tactic(auto, unfolding(crate::specs::Handlers::take_subject))]
pub fn take_subject(sign: Sign) -> Option<Move>
    ensures { result ≡ take_subject sign }
{
    match sign {
        Sign::Parameter => by_two(
            Change::Leaf(Rule::Word),
            Change::RestartBefore(Form::MatchRules),
            Awaits::SubjectWith,
        ),
        _ => None,
    }
}

/// A token behind that subject.
#[tactic(auto, unfolding(crate::specs::Handlers::open_rules))]
pub fn open_rules(role: Role) -> Option<Move>
    ensures { result ≡ open_rules role }
{
    match role {
        Role::With => goes(Awaits::FirstRule),
        _ => None,
    }
}

/// A token where a rule begins, among these: `_` is left, and any other token begins a pattern.
#[tactic(auto, unfolding(crate::specs::Handlers::complete_rule))]
pub fn complete_rule(role: Role, form: Form) -> Option<Move>
    ensures { result ≡ complete_rule role form }
{
    match role {
        Role::Underscore => goes(Awaits::Rule),
        _ => by_two(
            Change::Count(form),
            Change::Open(Form::RulePattern, 1),
            Awaits::EffectPattern,
        ),
    }
}

/// A token where the first rule begins: a bar is left.
#[tactic(auto, unfolding(crate::specs::Handlers::complete_first_rule))]
pub fn complete_first_rule(role: Role, form: Form) -> Option<Move>
    ensures { result ≡ complete_first_rule role form }
{
    match role {
        Role::Bar => goes(Awaits::FirstRule),
        _ => complete_rule(role, form),
    }
}

/// A bar before the first rule.
#[tactic(auto, unfolding(crate::specs::Handlers::take_first_rule_bar))]
pub fn take_first_rule_bar(role: Role) -> Option<Move>
    ensures { result ≡ take_first_rule_bar role }
{
    match role {
        Role::Bar => goes(Awaits::Rule),
        _ => None,
    }
}

/// The `_` of the last rule.
#[tactic(auto, unfolding(crate::specs::Handlers::begin_last_rule))]
pub fn begin_last_rule(role: Role) -> Option<Move>
    ensures { result ≡ begin_last_rule role }
{
    match role {
        Role::Underscore => by(Change::Leaf(Rule::PatternAny), Awaits::LastArrow),
        _ => None,
    }
}

/// A token behind the pattern of a rule and its arrow.
#[tactic(auto, unfolding(crate::specs::Handlers::begin_answer))]
pub fn begin_answer(sign: Sign) -> Option<Move>
    ensures { result ≡ begin_answer sign }
{
    match sign {
        Sign::Some => by(Change::Restart(Form::Answer), Awaits::AnswerBracket),
        _ => None,
    }
}

/// A token behind `Some`.
#[tactic(auto, unfolding(crate::specs::Handlers::open_answer))]
pub fn open_answer(role: Role) -> Option<Move>
    ensures { result ≡ open_answer role }
{
    match role {
        Role::LeftParenthesis => goes(Awaits::AnswerFun),
        _ => None,
    }
}

/// A token behind that bracket.
#[tactic(auto, unfolding(crate::specs::Handlers::begin_resumption))]
pub fn begin_resumption(role: Role) -> Option<Move>
    ensures { result ≡ begin_resumption role }
{
    match role {
        Role::Fun => goes(Awaits::Resumed),
        _ => None,
    }
}

// The continuation of a rule, behind which this comes.
#[tactic(auto, unfolding(crate::specs::Handlers::name_resumed_as))]
fn name_resumed_as(role: Role, next: Awaits) -> Option<Move>
    ensures { result ≡ name_resumed_as role next }
{
    match role {
        Role::Lower => by(Change::Leaf(Rule::PatternName), next),
        Role::Underscore => by(Change::Leaf(Rule::PatternAny), next),
        _ => None,
    }
}

/// A token where the continuation of a rule comes, or a bracket before it.
#[tactic(auto, unfolding(crate::specs::Handlers::take_resumed))]
pub fn take_resumed(role: Role) -> Option<Move>
    ensures { result ≡ take_resumed role }
{
    match role {
        Role::LeftParenthesis => {
            by(
                Change::Open(Form::ContinuationBracket, 0),
                Awaits::ResumedOpened,
            )
        }
        _ => name_resumed_as(role, Awaits::ResumedArrow),
    }
}

/// A token where the continuation of a rule comes in brackets.
#[tactic(auto, unfolding(crate::specs::Handlers::take_bracketed_resumed))]
pub fn take_bracketed_resumed(role: Role) -> Option<Move>
    ensures { result ≡ take_bracketed_resumed role }
{
    name_resumed_as(role, Awaits::ResumedColon)
}

/// A token behind the continuation of a rule.
#[tactic(auto, unfolding(crate::specs::Handlers::open_resumption))]
pub fn open_resumption(role: Role) -> Option<Move>
    ensures { result ≡ open_resumption role }
{
    match role {
        Role::RightArrow => goes(Awaits::Expression),
        _ => None,
    }
}

/// A token behind a rule.
#[tactic(auto, unfolding(crate::specs::Handlers::next_rule))]
pub fn next_rule(role: Role) -> Option<Move>
    ensures { result ≡ next_rule role }
{
    match role {
        Role::Bar => goes(Awaits::Rule),
        _ => None,
    }
}

/// A token behind the last rule's `_`.
#[tactic(auto, unfolding(crate::specs::Handlers::after_last))]
pub fn after_last(role: Role) -> Option<Move>
    ensures { result ≡ after_last role }
{
    match role {
        Role::RightArrow => goes(Awaits::LastAnswer),
        _ => None,
    }
}

// The end of these rules.
#[tactic(auto, unfolding(crate::specs::Handlers::close_rules))]
fn close_rules(form: Form) -> Option<Move>
    ensures { result ≡ close_rules form }
{
    match form {
        Form::MatchRules => by(Change::Close(Rule::MatchCases), Awaits::After),
        Form::FunctionRules => by(Change::Close(Rule::FunctionCases), Awaits::After),
        _ => None,
    }
}

/// A token behind `_ ->`, among these rules.
#[tactic(auto, unfolding(crate::specs::Handlers::end_rules))]
pub fn end_rules(sign: Sign, form: Form) -> Option<Move>
    ensures { result ≡ end_rules sign form }
{
    match sign {
        Sign::None => close_rules(form),
        _ => None,
    }
}
