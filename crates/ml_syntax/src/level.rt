//! The levels of the forms, and how a token may go on with the form before it.

ghost use Rattle.std.specs.Prelude.{◌≡◌, Some, None, if◌then◌else◌};
ghost use Rattle.ml_syntax.specs.Level.{begins_argument, begins_expression, begins_looser, goes_on, groups_left, is_operator, joined_level, left_level, operator_level, operator_of, right_level, takes};

use crate::node::BinaryOperator;
use crate::role::Role;

/// The level of the form that an operator makes of two operands: from 5, the tightest, to 14.
#[tactic(auto, unfolding(crate::specs::Level::operator_level))]
pub fn operator_level(operator: BinaryOperator) -> u8
    ensures { result ≡ operator_level operator }
{
    match operator {
        BinaryOperator::ShiftLeft
        | BinaryOperator::ShiftRightLogical
        | BinaryOperator::ShiftRightArithmetic => 5,
        BinaryOperator::Multiply
        | BinaryOperator::Divide
        | BinaryOperator::Modulo
        | BinaryOperator::LogicalAnd
        | BinaryOperator::LogicalOr
        | BinaryOperator::LogicalXor => 6,
        BinaryOperator::Add | BinaryOperator::Subtract => 7,
        BinaryOperator::Cons => 8,
        BinaryOperator::Concatenate | BinaryOperator::Append | BinaryOperator::ApplyTo => 9,
        BinaryOperator::Equal
        | BinaryOperator::Different
        | BinaryOperator::Same
        | BinaryOperator::NotSame
        | BinaryOperator::Below
        | BinaryOperator::Above
        | BinaryOperator::AtMost
        | BinaryOperator::AtLeast
        | BinaryOperator::Pipe => 10,
        BinaryOperator::And => 11,
        BinaryOperator::Or => 12,
        BinaryOperator::Assign => 14,
    }
}

/// The loosest level of an operator's right operand.
#[tactic(auto, unfolding(crate::specs::Level::operator_level))]
pub fn right_level(operator: BinaryOperator) -> u8
    ensures { result ≡ right_level operator }
{
    match operator {
        BinaryOperator::ShiftLeft
        | BinaryOperator::ShiftRightLogical
        | BinaryOperator::ShiftRightArithmetic => 5,
        BinaryOperator::Multiply
        | BinaryOperator::Divide
        | BinaryOperator::Modulo
        | BinaryOperator::LogicalAnd
        | BinaryOperator::LogicalOr
        | BinaryOperator::LogicalXor => 5,
        BinaryOperator::Add | BinaryOperator::Subtract => 6,
        BinaryOperator::Cons => 8,
        BinaryOperator::Concatenate | BinaryOperator::Append | BinaryOperator::ApplyTo => 9,
        BinaryOperator::Equal
        | BinaryOperator::Different
        | BinaryOperator::Same
        | BinaryOperator::NotSame
        | BinaryOperator::Below
        | BinaryOperator::Above
        | BinaryOperator::AtMost
        | BinaryOperator::AtLeast
        | BinaryOperator::Pipe => 9,
        BinaryOperator::And => 11,
        BinaryOperator::Or => 12,
        BinaryOperator::Assign => 14,
    }
}

/// The operator between two operands whose token this is, if it is one's.
#[tactic(auto, unfolding(crate::specs::Level::is_operator, crate::specs::Level::operator_of))]
pub fn operator_of(role: Role) -> Option<BinaryOperator>
    ensures { result ≡ if is_operator role then Some (operator_of role) else None }
{
    match role {
        Role::Infix(operator) => Some(operator),
        Role::Equals => Some(BinaryOperator::Equal),
        Role::Star => Some(BinaryOperator::Multiply),
        Role::Minus => Some(BinaryOperator::Subtract),
        Role::DoubleColon => Some(BinaryOperator::Cons),
        _ => None,
    }
}

/// Whether an argument may begin with a token.
#[tactic(auto, unfolding(crate::specs::Level::begins_argument))]
pub fn begins_argument(role: Role) -> bool
    ensures { result ≡ begins_argument role }
{
    matches!(
        role,
        Role::Lower
            | Role::Upper
            | Role::Integer
            | Role::Character
            | Role::Text
            | Role::True
            | Role::False
            | Role::LeftParenthesis
            | Role::LeftBracket
            | Role::LeftArrayBracket
            | Role::LeftBrace
            | Role::Begin
            | Role::While
            | Role::For
            | Role::Bang
    )
}

// Whether an expression that is no argument may begin with a token.
#[tactic(auto, unfolding(crate::specs::Level::begins_looser))]
fn begins_looser(role: Role) -> bool
    ensures { result ≡ begins_looser role }
{
    matches!(
        role,
        Role::TakesHandler
            | Role::TakesEffects
            | Role::Minus
            | Role::If
            | Role::Let
            | Role::Match
            | Role::Try
            | Role::Fun
            | Role::Function
    )
}

/// Whether an expression may begin with a token.
pub fn begins_expression(role: Role) -> bool
    ensures { result ≡ begins_expression role }
{
    begins_argument(role) || begins_looser(role)
}

// The level of the form that a token makes with what stands before it, if it begins no argument.
#[tactic(auto, unfolding(crate::specs::Level::joined_level))]
fn joined_level(role: Role) -> u8
    ensures { result ≡ joined_level role }
{
    match role {
        Role::Dot => 2,
        Role::Infix(operator) => operator_level(operator),
        Role::Star => 6,
        Role::Minus => 7,
        Role::DoubleColon => 8,
        Role::Equals => 10,
        Role::Comma => 13,
        Role::LeftArrow => 14,
        Role::Semicolon => 16,
        _ => 18,
    }
}

/// The level of the form that a token makes with the operand before it, or 18 where it makes none.
pub fn goes_on(role: Role) -> u8
    ensures { result ≡ goes_on role }
{
    if begins_argument(role) {
        3
    } else {
        joined_level(role)
    }
}

/// Whether an operand of the levels up to `most` takes in the token behind it.
pub fn takes(role: Role, most: u8) -> bool
    ensures { result ≡ takes role most }
{
    goes_on(role) <= most
}
