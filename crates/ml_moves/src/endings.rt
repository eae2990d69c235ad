//! What a token does behind an expression.

ghost use Rattle.std.specs.Prelude.{◌≡◌};
ghost use Rattle.ml_moves.specs.Endings.{after_expression, after_operand, all_missing, annotate, apply, apply_last, close_array, close_begin, close_brace, close_bracket, close_handler, close_loop, close_parenthesis, else_choose, end, follow, join_expression, next_handler_field, open_bound, open_clauses, open_handler, open_loop_body, open_operation, open_sequence, operate, pair, pair_with, select_from, then_choose, to_guarded_answer};

use crate::awaits::Awaits;
use crate::form::{Form, HandlerKind, Missing};
use crate::level::{Last, level_of};
use crate::moves::{Change, Move, by, by_three, by_two, goes};
use ml_builder::Rule;
use ml_syntax::{BinaryOperator, Role, begins_argument, operator_level, operator_of};

// An argument behind an expression, in this form.
#[tactic(auto, unfolding(crate::specs::Endings::apply))]
fn apply(form: Form) -> Option<Move>
    ensures { result ≡ apply form }
{
    match form {
        Form::Apply => by(Change::Count(form), Awaits::Expression),
        Form::HandleFirst(kind) => by(Change::Become(Form::HandleSecond(kind)), Awaits::Expression),
        Form::HandleSecond(_) => goes(Awaits::After),
        _ => by(Change::Open(Form::Apply, 1), Awaits::Expression),
    }
}

// An argument behind what was made last.
#[tactic(auto, unfolding(crate::specs::Endings::apply_last))]
fn apply_last(form: Form, last: Last) -> Option<Move>
    ensures { result ≡ apply_last form last }
{
    match last {
        Last::Loose => None,
        Last::Handled => None,
        _ => apply(form),
    }
}

/// An argument behind an expression; any other token is left.
#[tactic(auto, unfolding(crate::specs::Endings::join_expression))]
pub fn join_expression(role: Role, form: Form, last: Last) -> Option<Move>
    ensures { result ≡ join_expression role form last }
{
    if begins_argument(role) {
        apply_last(form, last)
    } else {
        goes(Awaits::After)
    }
}

// A form of this level and its second part, where such a form may stand.
#[tactic(auto, unfolding(crate::specs::Endings::open_operation))]
fn open_operation(level: u8, form: Form, outer: Form) -> Option<Move>
    ensures { result ≡ open_operation level form outer }
{
    if level_of(outer) >= level {
        by(Change::Open(form, 2), Awaits::Expression)
    } else {
        None
    }
}

// An operator behind an expression.
#[tactic(auto, unfolding(crate::specs::Endings::operate))]
fn operate(operator: BinaryOperator, form: Form, last: Last) -> Option<Move>
    ensures { result ≡ operate operator form last }
{
    match last {
        Last::Loose => None,
        _ => open_operation(operator_level(operator), Form::Operating(operator), form),
    }
}

// A further part of a tuple, or a tuple.
#[tactic(auto, unfolding(crate::specs::Endings::pair_with))]
fn pair_with(form: Form) -> Option<Move>
    ensures { result ≡ pair_with form }
{
    match form {
        Form::Tuple => by(Change::Count(form), Awaits::Expression),
        _ => open_operation(13, Form::Tuple, form),
    }
}

// A comma behind an expression.
#[tactic(auto, unfolding(crate::specs::Endings::pair))]
fn pair(form: Form, last: Last) -> Option<Move>
    ensures { result ≡ pair form last }
{
    match last {
        Last::Loose => None,
        _ => pair_with(form),
    }
}

// A dot behind an expression.
#[tactic(auto, unfolding(crate::specs::Endings::select_from))]
fn select_from(last: Last) -> Option<Move>
    ensures { result ≡ select_from last }
{
    match last {
        Last::Loose => None,
        Last::Handled => None,
        _ => by(Change::Open(Form::Select, 1), Awaits::Selecting),
    }
}

// A sequence, where one may stand.
#[tactic(auto, unfolding(crate::specs::Endings::open_sequence))]
fn open_sequence(form: Form) -> Option<Move>
    ensures { result ≡ open_sequence form }
{
    if level_of(form) >= 16 {
        by(Change::Open(Form::Sequence, 1), Awaits::Sequel)
    } else {
        None
    }
}

// A semicolon behind the value of a handler's field.
#[tactic(auto, unfolding(crate::specs::Endings::next_handler_field))]
fn next_handler_field(missing: Missing) -> Option<Move>
    ensures { result ≡ next_handler_field missing }
{
    if missing.retc || missing.exnc || missing.effc {
        by(Change::Leaf(Rule::NamedPart), Awaits::HandlerField)
    } else {
        None
    }
}

// A semicolon behind an expression.
#[tactic(auto, unfolding(crate::specs::Endings::follow))]
fn follow(form: Form) -> Option<Move>
    ensures { result ≡ follow form }
{
    match form {
        Form::Sequence => goes(Awaits::Sequel),
        Form::List => by(Change::Count(form), Awaits::Expression),
        Form::Array => by(Change::Count(form), Awaits::Expression),
        Form::Record => by(Change::Leaf(Rule::NamedPart), Awaits::Field),
        Form::HandlerFields(missing) => next_handler_field(missing),
        _ => open_sequence(form),
    }
}

// A `)` behind an expression.
#[tactic(auto, unfolding(crate::specs::Endings::close_parenthesis))]
fn close_parenthesis(form: Form) -> Option<Move>
    ensures { result ≡ close_parenthesis form }
{
    match form {
        Form::Parenthesis => by(Change::Close(Rule::Bracket), Awaits::After),
        Form::Index => goes(Awaits::Indexed),
        Form::Answer => by_two(
            Change::Close(Rule::Resumption),
            Change::Leaf(Rule::EffectRule),
            Awaits::RuleBar,
        ),
        _ => None,
    }
}

// A `]` behind an expression.
#[tactic(auto, unfolding(crate::specs::Endings::close_bracket))]
fn close_bracket(form: Form) -> Option<Move>
    ensures { result ≡ close_bracket form }
{
    match form {
        Form::List => by(Change::Close(Rule::List), Awaits::After),
        Form::Pick => by(Change::Close(Rule::StringElement), Awaits::After),
        _ => None,
    }
}

// A `|]` behind an expression.
#[tactic(auto, unfolding(crate::specs::Endings::close_array))]
fn close_array(form: Form) -> Option<Move>
    ensures { result ≡ close_array form }
{
    match form {
        Form::Array => by(Change::Close(Rule::Array), Awaits::After),
        _ => None,
    }
}

// A `}` behind the value of a handler's field: the handler, and the function that takes it.
#[tactic(auto, unfolding(crate::specs::Endings::close_handler))]
fn close_handler(missing: Missing) -> Option<Move>
    ensures { result ≡ close_handler missing }
{
    if missing.retc || missing.exnc || missing.effc {
        None
    } else {
        by_three(
            Change::Leaf(Rule::NamedPart),
            Change::Close(Rule::Handler),
            Change::Close(Rule::Handle),
            Awaits::After,
        )
    }
}

// A `}` behind an expression.
#[tactic(auto, unfolding(crate::specs::Endings::close_brace))]
fn close_brace(form: Form) -> Option<Move>
    ensures { result ≡ close_brace form }
{
    match form {
        Form::Record => {
            by_two(
                Change::Leaf(Rule::NamedPart),
                Change::Close(Rule::Record),
                Awaits::After,
            )
        }
        Form::HandlerFields(missing) => close_handler(missing),
        _ => None,
    }
}

// The fields of a handler.
#[tactic(auto, unfolding(crate::specs::Endings::all_missing))]
fn all_missing(kind: HandlerKind) -> Missing
    ensures { result ≡ all_missing kind }
{
    match kind {
        HandlerKind::Full => Missing {
            retc: true,
            exnc: true,
            effc: true,
        },
        HandlerKind::EffectsOnly => Missing {
            retc: false,
            exnc: false,
            effc: true,
        },
    }
}

// A `{` behind the arguments of a function that takes a handler.
#[tactic(auto, unfolding(crate::specs::Endings::open_handler))]
fn open_handler(form: Form) -> Option<Move>
    ensures { result ≡ open_handler form }
{
    match form {
        Form::HandleSecond(kind) => by(
            Change::Open(Form::HandlerFields(all_missing(kind)), 0),
            Awaits::HandlerField,
        ),
        _ => None,
    }
}

// A colon behind an expression.
#[tactic(auto, unfolding(crate::specs::Endings::annotate))]
fn annotate(form: Form) -> Option<Move>
    ensures { result ≡ annotate form }
{
    match form {
        Form::Parenthesis => by(Change::Become(Form::Annotation), Awaits::Type),
        _ => None,
    }
}

// A `->` behind a guard.
#[tactic(auto, unfolding(crate::specs::Endings::to_guarded_answer))]
fn to_guarded_answer(form: Form) -> Option<Move>
    ensures { result ≡ to_guarded_answer form }
{
    match form {
        Form::ValueGuard => by(Change::Become(Form::GuardedAnswer), Awaits::Expression),
        Form::ExceptionGuard => by(
            Change::Become(Form::GuardedExceptionAnswer),
            Awaits::Expression,
        ),
        _ => None,
    }
}

// A `then` behind an expression.
#[tactic(auto, unfolding(crate::specs::Endings::then_choose))]
fn then_choose(form: Form) -> Option<Move>
    ensures { result ≡ then_choose form }
{
    match form {
        Form::IfCondition => by(Change::Become(Form::IfThen), Awaits::Expression),
        _ => None,
    }
}

// An `else` behind an expression.
#[tactic(auto, unfolding(crate::specs::Endings::else_choose))]
fn else_choose(form: Form) -> Option<Move>
    ensures { result ≡ else_choose form }
{
    match form {
        Form::IfThen => by(Change::Become(Form::IfElse), Awaits::Expression),
        _ => None,
    }
}

// A `do` behind an expression.
#[tactic(auto, unfolding(crate::specs::Endings::open_loop_body))]
fn open_loop_body(form: Form) -> Option<Move>
    ensures { result ≡ open_loop_body form }
{
    match form {
        Form::WhileCondition => by(Change::Become(Form::WhileBody), Awaits::Expression),
        Form::ForUpTo => by(Change::Become(Form::ForUpward), Awaits::Expression),
        Form::ForDownTo => by(Change::Become(Form::ForDownward), Awaits::Expression),
        _ => None,
    }
}

// A `done` behind an expression.
#[tactic(auto, unfolding(crate::specs::Endings::close_loop))]
fn close_loop(form: Form) -> Option<Move>
    ensures { result ≡ close_loop form }
{
    match form {
        Form::WhileBody => by(Change::Close(Rule::While), Awaits::After),
        Form::ForUpward => by(Change::Close(Rule::ForUpward), Awaits::After),
        Form::ForDownward => by(Change::Close(Rule::ForDownward), Awaits::After),
        _ => None,
    }
}

// A `to` or a `downto` behind an expression, which makes the form another.
#[tactic(auto, unfolding(crate::specs::Endings::open_bound))]
fn open_bound(form: Form, bounded: Form) -> Option<Move>
    ensures { result ≡ open_bound form bounded }
{
    match form {
        Form::ForFirst => by(Change::Become(bounded), Awaits::Expression),
        _ => None,
    }
}

// An `end` behind an expression.
#[tactic(auto, unfolding(crate::specs::Endings::close_begin))]
fn close_begin(form: Form) -> Option<Move>
    ensures { result ≡ close_begin form }
{
    match form {
        Form::Begin => by(Change::Close(Rule::BeginEnd), Awaits::After),
        _ => None,
    }
}

// A `with` behind an expression.
#[tactic(auto, unfolding(crate::specs::Endings::open_clauses))]
fn open_clauses(form: Form) -> Option<Move>
    ensures { result ≡ open_clauses form }
{
    match form {
        Form::MatchSubject => by(Change::Become(Form::MatchClauses), Awaits::FirstClause),
        Form::TryBody => by(Change::Become(Form::TryClauses), Awaits::FirstClause),
        _ => None,
    }
}

// A token that ends an expression, in this form.
#[tactic(auto, unfolding(crate::specs::Endings::end))]
fn end(role: Role, form: Form) -> Option<Move>
    ensures { result ≡ end role form }
{
    match role {
        Role::RightParenthesis => close_parenthesis(form),
        Role::RightBracket => close_bracket(form),
        Role::RightArrayBracket => close_array(form),
        Role::RightBrace => close_brace(form),
        Role::LeftBrace => open_handler(form),
        Role::Colon => annotate(form),
        Role::RightArrow => to_guarded_answer(form),
        Role::Then => then_choose(form),
        Role::Else => else_choose(form),
        Role::Do => open_loop_body(form),
        Role::Done => close_loop(form),
        Role::To => open_bound(form, Form::ForUpTo),
        Role::Downto => open_bound(form, Form::ForDownTo),
        Role::End => close_begin(form),
        Role::With => open_clauses(form),
        _ => None,
    }
}

// A token behind an expression that is no operator.
#[tactic(auto, unfolding(crate::specs::Endings::after_operand))]
fn after_operand(role: Role, form: Form, last: Last) -> Option<Move>
    ensures { result ≡ after_operand role form last }
{
    match role {
        Role::Comma => pair(form, last),
        Role::Semicolon => follow(form),
        Role::Dot => select_from(last),
        _ => end(role, form),
    }
}

/// A token behind an expression in this form, where this was made last.
#[tactic(auto, unfolding(crate::specs::Endings::after_expression))]
pub fn after_expression(role: Role, form: Form, last: Last) -> Option<Move>
    ensures { result ≡ after_expression role form last }
{
    match operator_of(role) {
        Some(operator) => operate(operator, form, last),
        None => after_operand(role, form, last),
    }
}
