//! What a token does where an expression begins, and within names, fields and records.

ghost use Rattle.std.specs.Prelude.{◌≡◌};
ghost use Rattle.ml_moves.specs.Expressions.{after_constructor, begin, begin_least, begin_literal, begin_looser, close_empty, close_empty_array, close_empty_list, close_unit, complete_constructor, complete_indexed, complete_member, complete_selected, complete_sequence, end_with_outer, equals_expression, name_counter, name_field, open_assignment, open_handled, open_handled_member, open_looser, open_loosest, select, sequence_of, set_element, set_field, take_member};

use crate::awaits::Awaits;
use crate::form::{Form, HandlerKind, Position};
use crate::level::level_of;
use crate::moves::{Change, Move, by, by_three, by_two, goes};
use ml_builder::Rule;
use ml_syntax::{Role, begins_argument, begins_expression, takes};

// The least integer, which stands only directly behind a prefix `-`.
#[tactic(auto, unfolding(crate::specs::Expressions::begin_least))]
fn begin_least(form: Form) -> Option<Move>
    ensures { result ≡ begin_least form }
{
    match form {
        Form::Negate => by(Change::Leaf(Rule::LeastInteger), Awaits::After),
        _ => None,
    }
}

// A form that opens where one of this level may stand.
#[tactic(auto, unfolding(crate::specs::Expressions::open_looser))]
fn open_looser(level: u8, form: Form, outer: Form) -> Option<Move>
    ensures { result ≡ open_looser level form outer }
{
    if level_of(outer) >= level {
        by(Change::Open(form, 1), Awaits::Expression)
    } else {
        None
    }
}

// A form of level 17 that opens: as a last operand, and not as an argument.
#[tactic(auto, unfolding(crate::specs::Expressions::open_loosest))]
fn open_loosest(form: Form, next: Awaits, outer: Form) -> Option<Move>
    ensures { result ≡ open_loosest form next outer }
{
    if level_of(outer) == 2 {
        None
    } else {
        by(Change::Open(form, 1), next)
    }
}

// A function that takes a handler: its name, and the function with its arguments.
#[tactic(auto, unfolding(crate::specs::Expressions::open_handled))]
fn open_handled(kind: HandlerKind, outer: Form) -> Option<Move>
    ensures { result ≡ open_handled kind outer }
{
    if level_of(outer) >= 3 {
        by_two(
            Change::Name(Rule::LongName),
            Change::Open(Form::HandleFirst(kind), 1),
            Awaits::Expression,
        )
    } else {
        None
    }
}

/// A token where an expression begins, in this form.
#[tactic(auto, unfolding(crate::specs::Expressions::begin))]
pub fn begin(role: Role, outer: Form) -> Option<Move>
    ensures { result ≡ begin role outer }
{
    match role {
        Role::Lower => by(Change::Name(Rule::Variable), Awaits::After),
        Role::Upper => {
            by_two(
                Change::Leaf(Rule::Word),
                Change::Open(Form::Path, 1),
                Awaits::Constructed,
            )
        }
        Role::Integer => by(Change::Leaf(Rule::Constant), Awaits::After),
        Role::Character => by(Change::Leaf(Rule::Constant), Awaits::After),
        Role::Text => by(Change::Leaf(Rule::Constant), Awaits::After),
        Role::True => by(Change::Leaf(Rule::Constant), Awaits::After),
        Role::False => by(Change::Leaf(Rule::Constant), Awaits::After),
        Role::LeastInteger => begin_least(outer),
        Role::LeftParenthesis => by(Change::Open(Form::Parenthesis, 1), Awaits::ExpressionOrUnit),
        Role::LeftBracket => by(Change::Open(Form::List, 1), Awaits::ExpressionOrEmpty),
        Role::LeftArrayBracket => by(Change::Open(Form::Array, 1), Awaits::ExpressionOrEmpty),
        Role::LeftBrace => by(Change::Open(Form::Record, 0), Awaits::Field),
        Role::Begin => by(Change::Open(Form::Begin, 1), Awaits::Expression),
        Role::While => by(Change::Open(Form::WhileCondition, 1), Awaits::Expression),
        Role::For => by(Change::Open(Form::ForFirst, 1), Awaits::Counter),
        Role::Bang => by(Change::Open(Form::Dereference, 1), Awaits::Expression),
        _ => begin_looser(role, outer),
    }
}

// A token where an expression begins that is no argument.
#[tactic(auto, unfolding(crate::specs::Expressions::begin_looser))]
fn begin_looser(role: Role, outer: Form) -> Option<Move>
    ensures { result ≡ begin_looser role outer }
{
    match role {
        Role::Minus => open_looser(4, Form::Negate, outer),
        Role::If => open_looser(15, Form::IfCondition, outer),
        Role::Let => open_loosest(Form::Let(Position::Inside), Awaits::FirstBinding, outer),
        Role::Match => open_loosest(Form::MatchSubject, Awaits::Expression, outer),
        Role::Try => open_loosest(Form::TryBody, Awaits::Expression, outer),
        Role::Fun => open_loosest(Form::FunParameters, Awaits::Pattern, outer),
        Role::Function => open_loosest(Form::FunctionClauses, Awaits::FirstClause, outer),
        Role::TakesHandler => open_handled(HandlerKind::Full, outer),
        Role::TakesEffects => open_handled(HandlerKind::EffectsOnly, outer),
        _ => None,
    }
}

/// A token where a function literal has to begin.
#[tactic(auto, unfolding(crate::specs::Expressions::begin_literal))]
pub fn begin_literal(role: Role) -> Option<Move>
    ensures { result ≡ begin_literal role }
{
    match role {
        Role::Fun => by(Change::Open(Form::FunParameters, 1), Awaits::Pattern),
        Role::Function => by(Change::Open(Form::FunctionClauses, 1), Awaits::FirstClause),
        _ => None,
    }
}

/// A `)` directly behind `(`.
#[tactic(auto, unfolding(crate::specs::Expressions::close_unit))]
pub fn close_unit(role: Role) -> Option<Move>
    ensures { result ≡ close_unit role }
{
    match role {
        Role::RightParenthesis => by(Change::Empty(Rule::Unit), Awaits::After),
        _ => None,
    }
}

// A closing bracket directly behind `[`.
#[tactic(auto, unfolding(crate::specs::Expressions::close_empty_list))]
fn close_empty_list(role: Role) -> Option<Move>
    ensures { result ≡ close_empty_list role }
{
    match role {
        Role::RightBracket => by(Change::Empty(Rule::List), Awaits::After),
        _ => None,
    }
}

// A closing bracket directly behind `[|`.
#[tactic(auto, unfolding(crate::specs::Expressions::close_empty_array))]
fn close_empty_array(role: Role) -> Option<Move>
    ensures { result ≡ close_empty_array role }
{
    match role {
        Role::RightArrayBracket => by(Change::Empty(Rule::Array), Awaits::After),
        _ => None,
    }
}

/// A closing bracket directly behind the opening one of a list or an array.
#[tactic(auto, unfolding(crate::specs::Expressions::close_empty))]
pub fn close_empty(role: Role, form: Form) -> Option<Move>
    ensures { result ≡ close_empty role form }
{
    match form {
        Form::List => close_empty_list(role),
        Form::Array => close_empty_array(role),
        _ => None,
    }
}

/// A token behind a constructor, in this form: a dot is left; what may be an argument is its own
/// one, where an application may stand.
#[tactic(auto, unfolding(crate::specs::Expressions::complete_constructor))]
pub fn complete_constructor(role: Role, outer: Form) -> Option<Move>
    ensures { result ≡ complete_constructor role outer }
{
    match role {
        Role::Dot => goes(Awaits::Constructed),
        _ => {
            if begins_argument(role) && level_of(outer) >= 3 {
                by_two(
                    Change::Close(Rule::LongName),
                    Change::Open(Form::Construct, 1),
                    Awaits::Expression,
                )
            } else {
                by(Change::Close(Rule::Constructor), Awaits::After)
            }
        }
    }
}

/// A dot behind a constructor.
#[tactic(auto, unfolding(crate::specs::Expressions::after_constructor))]
pub fn after_constructor(role: Role) -> Option<Move>
    ensures { result ≡ after_constructor role }
{
    match role {
        Role::Dot => goes(Awaits::Member),
        _ => None,
    }
}

/// A token behind a constructor and a dot: a bracket shows that the constructor stood alone; any
/// other one is left.
#[tactic(auto, unfolding(crate::specs::Expressions::complete_member))]
pub fn complete_member(role: Role) -> Option<Move>
    ensures { result ≡ complete_member role }
{
    match role {
        Role::LeftParenthesis => by(Change::Close(Rule::Constructor), Awaits::AfterDot),
        Role::LeftBracket => by(Change::Close(Rule::Constructor), Awaits::AfterDot),
        _ => goes(Awaits::Member),
    }
}

// A function that takes a handler, behind the path of its name.
#[tactic(auto, unfolding(crate::specs::Expressions::open_handled_member))]
fn open_handled_member(kind: HandlerKind, outer: Form) -> Option<Move>
    ensures { result ≡ open_handled_member kind outer }
{
    if level_of(outer) >= 3 {
        by_three(
            Change::Leaf(Rule::Word),
            Change::Count(Form::Path),
            Change::Turn(Rule::LongName, Form::HandleFirst(kind)),
            Awaits::Expression,
        )
    } else {
        None
    }
}

/// A name behind upper names and a dot, in this form.
#[tactic(auto, unfolding(crate::specs::Expressions::take_member))]
pub fn take_member(role: Role, outer: Form) -> Option<Move>
    ensures { result ≡ take_member role outer }
{
    match role {
        Role::Upper => {
            by_two(
                Change::Leaf(Rule::Word),
                Change::Count(Form::Path),
                Awaits::Constructed,
            )
        }
        Role::Lower => by_three(
            Change::Leaf(Rule::Word),
            Change::Count(Form::Path),
            Change::Close(Rule::Variable),
            Awaits::After,
        ),
        Role::TakesHandler => open_handled_member(HandlerKind::Full, outer),
        Role::TakesEffects => open_handled_member(HandlerKind::EffectsOnly, outer),
        _ => None,
    }
}

/// A token behind an expression and a dot.
#[tactic(auto, unfolding(crate::specs::Expressions::select))]
pub fn select(role: Role) -> Option<Move>
    ensures { result ≡ select role }
{
    match role {
        Role::Lower => by(Change::Leaf(Rule::Word), Awaits::Selected),
        Role::LeftParenthesis => by(Change::Become(Form::Index), Awaits::Expression),
        Role::LeftBracket => by(Change::Become(Form::Pick), Awaits::Expression),
        _ => None,
    }
}

/// A token behind `e.f`: an arrow is left, and any other one shows that the form is whole.
#[tactic(auto, unfolding(crate::specs::Expressions::complete_selected))]
pub fn complete_selected(role: Role) -> Option<Move>
    ensures { result ≡ complete_selected role }
{
    match role {
        Role::LeftArrow => goes(Awaits::Selected),
        _ => by(Change::Close(Rule::Field), Awaits::After),
    }
}

/// A token behind `e.(e)`, likewise.
#[tactic(auto, unfolding(crate::specs::Expressions::complete_indexed))]
pub fn complete_indexed(role: Role) -> Option<Move>
    ensures { result ≡ complete_indexed role }
{
    match role {
        Role::LeftArrow => goes(Awaits::Indexed),
        _ => by(Change::Close(Rule::ArrayElement), Awaits::After),
    }
}

// An assignment, where one may stand.
#[tactic(auto, unfolding(crate::specs::Expressions::open_assignment))]
fn open_assignment(form: Form, outer: Form) -> Option<Move>
    ensures { result ≡ open_assignment form outer }
{
    if level_of(outer) >= 14 {
        by(Change::Restart(form), Awaits::Expression)
    } else {
        None
    }
}

/// An arrow behind `e.f`, in this form.
#[tactic(auto, unfolding(crate::specs::Expressions::set_field))]
pub fn set_field(role: Role, outer: Form) -> Option<Move>
    ensures { result ≡ set_field role outer }
{
    match role {
        Role::LeftArrow => open_assignment(Form::SetField, outer),
        _ => None,
    }
}

/// An arrow behind `e.(e)`, in this form.
#[tactic(auto, unfolding(crate::specs::Expressions::set_element))]
pub fn set_element(role: Role, outer: Form) -> Option<Move>
    ensures { result ≡ set_element role outer }
{
    match role {
        Role::LeftArrow => open_assignment(Form::SetElement, outer),
        _ => None,
    }
}

/// A token where a field's name comes.
#[tactic(auto, unfolding(crate::specs::Expressions::name_field))]
pub fn name_field(role: Role) -> Option<Move>
    ensures { result ≡ name_field role }
{
    match role {
        Role::Lower => {
            by_two(
                Change::Leaf(Rule::Word),
                Change::Count(Form::Record),
                Awaits::FieldEquals,
            )
        }
        _ => None,
    }
}

/// A token where the name of a counter comes.
#[tactic(auto, unfolding(crate::specs::Expressions::name_counter))]
pub fn name_counter(role: Role) -> Option<Move>
    ensures { result ≡ name_counter role }
{
    match role {
        Role::Lower => by(Change::Leaf(Rule::Word), Awaits::CounterEquals),
        _ => None,
    }
}

/// A token behind the name of a field or of a counter.
#[tactic(auto, unfolding(crate::specs::Expressions::equals_expression))]
pub fn equals_expression(role: Role) -> Option<Move>
    ensures { result ≡ equals_expression role }
{
    match role {
        Role::Equals => goes(Awaits::Expression),
        _ => None,
    }
}

// The end of a sequence that has so many parts: one part alone is no sequence.
#[tactic(auto, unfolding(crate::specs::Expressions::sequence_of))]
fn sequence_of(parts: usize) -> Change
    ensures { result ≡ sequence_of parts }
{
    if parts >= 2 {
        Change::Close(Rule::Sequence)
    } else {
        Change::Withdraw
    }
}

// The end of a sequence, and then of the form whose body it is.
#[tactic(auto, unfolding(crate::specs::Expressions::end_with_outer))]
fn end_with_outer(parts: usize, outer: Option<Rule>) -> Option<Move>
    ensures { result ≡ end_with_outer parts outer }
{
    match outer {
        Some(rule) => by_two(sequence_of(parts), Change::Close(rule), Awaits::After),
        None => None,
    }
}

/// A token behind the semicolon of a sequence of so many parts: a further part, or the end. What
/// goes on with an expression then goes on with the form that this sequence is the body of, which is
/// made by the rule `outer`.
#[tactic(auto, unfolding(crate::specs::Expressions::complete_sequence))]
pub fn complete_sequence(role: Role, parts: usize, outer: Option<Rule>) -> Option<Move>
    ensures { result ≡ complete_sequence role parts outer }
{
    if begins_expression(role) {
        by(Change::Count(Form::Sequence), Awaits::Expression)
    } else {
        if takes(role, 16) {
            end_with_outer(parts, outer)
        } else {
            by(sequence_of(parts), Awaits::After)
        }
    }
}
