//! What a token does in a program.

ghost use Rattle.std.specs.Prelude.{◌≡◌};
ghost use Rattle.ml_lexer.specs.Seen.{seen};
ghost use Rattle.ml_syntax.specs.Role.{integer_role, kind_role, role, takes_handler, word_role};

use crate::node::BinaryOperator;
use ml_lexer::{TokenKind, TokenView, integer_value};

/// What a token does in a program. The tokens of infix operators do much the same, and the words
/// that the grammar never takes do nothing.
#[derive(Clone, Copy, Debug, PartialEq, Eq)]
pub enum Role {
    /// A lower name, but for the four names that take a handler.
    Lower,
    /// `match_with`, `continue_with` or `discontinue_with`, whose handler has three fields.
    TakesHandler,
    /// `try_with`, whose handler has the field `effc` alone.
    TakesEffects,
    Upper,
    TypeVariable,
    /// An integer below 4,611,686,018,427,387,904.
    Integer,
    /// The integer 4,611,686,018,427,387,904.
    LeastInteger,
    Character,
    Text,
    True,
    False,
    LeftParenthesis,
    RightParenthesis,
    LeftBracket,
    RightBracket,
    LeftBrace,
    RightBrace,
    LeftArrayBracket,
    RightArrayBracket,
    Comma,
    Semicolon,
    DoubleSemicolon,
    Colon,
    Dot,
    RightArrow,
    LeftArrow,
    /// `=`, an operator and the sign of a definition.
    Equals,
    /// `*`, an operator and the sign between the types of a tuple.
    Star,
    /// `-`, before an operand and between two.
    Minus,
    /// `::`, in expressions and patterns.
    DoubleColon,
    /// Any other operator between two operands.
    Infix(BinaryOperator),
    Bang,
    Bar,
    PlusEquals,
    Underscore,
    And,
    As,
    Begin,
    Do,
    Done,
    Downto,
    Effect,
    Else,
    End,
    Exception,
    For,
    Fun,
    Function,
    If,
    In,
    Let,
    Match,
    Mutable,
    Of,
    Open,
    Rec,
    Then,
    To,
    Try,
    Type,
    When,
    While,
    With,
    /// A word that is kept free.
    Other,
}

// What a lower name does.
// Whether a lower name takes a handler with three fields.
fn takes_handler(text: &[u8]) -> bool
    ensures { result ≡ takes_handler text.now }
{
    text == b"match_with".as_slice()
        || text == b"continue_with".as_slice()
        || text == b"discontinue_with".as_slice()
}

// What a lower name does.
#[tactic(auto, unfolding(crate::specs::Role::word_role))]
fn word_role(text: &[u8]) -> Role
    ensures { result ≡ word_role text.now }
{
    if takes_handler(text) {
        Role::TakesHandler
    } else if text == b"try_with".as_slice() {
        Role::TakesEffects
    } else {
        Role::Lower
    }
}

// What a token of this kind does, where its text doesn't matter.
#[tactic(auto, unfolding(crate::specs::Role::kind_role))]
fn kind_role(kind: TokenKind) -> Role
    ensures { result ≡ kind_role kind }
{
    match kind {
        TokenKind::LowerName => Role::Lower,
        TokenKind::UpperName => Role::Upper,
        TokenKind::TypeVariable => Role::TypeVariable,
        TokenKind::Integer => Role::Integer,
        TokenKind::Character => Role::Character,
        TokenKind::Text => Role::Text,
        TokenKind::LeftParenthesis => Role::LeftParenthesis,
        TokenKind::RightParenthesis => Role::RightParenthesis,
        TokenKind::LeftBracket => Role::LeftBracket,
        TokenKind::RightBracket => Role::RightBracket,
        TokenKind::LeftBrace => Role::LeftBrace,
        TokenKind::RightBrace => Role::RightBrace,
        TokenKind::LeftArrayBracket => Role::LeftArrayBracket,
        TokenKind::RightArrayBracket => Role::RightArrayBracket,
        TokenKind::Comma => Role::Comma,
        TokenKind::Semicolon => Role::Semicolon,
        TokenKind::DoubleSemicolon => Role::DoubleSemicolon,
        TokenKind::Colon => Role::Colon,
        TokenKind::DoubleColon => Role::DoubleColon,
        TokenKind::Dot => Role::Dot,
        TokenKind::RightArrow => Role::RightArrow,
        TokenKind::LeftArrow => Role::LeftArrow,
        TokenKind::ColonEquals => Role::Infix(BinaryOperator::Assign),
        TokenKind::Equals => Role::Equals,
        TokenKind::LessGreater => Role::Infix(BinaryOperator::Different),
        TokenKind::DoubleEquals => Role::Infix(BinaryOperator::Same),
        TokenKind::BangEquals => Role::Infix(BinaryOperator::NotSame),
        TokenKind::Less => Role::Infix(BinaryOperator::Below),
        TokenKind::Greater => Role::Infix(BinaryOperator::Above),
        TokenKind::LessEquals => Role::Infix(BinaryOperator::AtMost),
        TokenKind::GreaterEquals => Role::Infix(BinaryOperator::AtLeast),
        TokenKind::Plus => Role::Infix(BinaryOperator::Add),
        TokenKind::Minus => Role::Minus,
        TokenKind::Star => Role::Star,
        TokenKind::Slash => Role::Infix(BinaryOperator::Divide),
        TokenKind::Caret => Role::Infix(BinaryOperator::Concatenate),
        TokenKind::At => Role::Infix(BinaryOperator::Append),
        TokenKind::DoubleAt => Role::Infix(BinaryOperator::ApplyTo),
        TokenKind::BarGreater => Role::Infix(BinaryOperator::Pipe),
        TokenKind::DoubleAmpersand => Role::Infix(BinaryOperator::And),
        TokenKind::DoubleBar => Role::Infix(BinaryOperator::Or),
        TokenKind::Bang => Role::Bang,
        TokenKind::Bar => Role::Bar,
        TokenKind::PlusEquals => Role::PlusEquals,
        TokenKind::Underscore => Role::Underscore,
        TokenKind::And => Role::And,
        TokenKind::As => Role::As,
        TokenKind::Asr => Role::Infix(BinaryOperator::ShiftRightArithmetic),
        TokenKind::Begin => Role::Begin,
        TokenKind::Do => Role::Do,
        TokenKind::Done => Role::Done,
        TokenKind::Downto => Role::Downto,
        TokenKind::Effect => Role::Effect,
        TokenKind::Else => Role::Else,
        TokenKind::End => Role::End,
        TokenKind::Exception => Role::Exception,
        TokenKind::False => Role::False,
        TokenKind::For => Role::For,
        TokenKind::Fun => Role::Fun,
        TokenKind::Function => Role::Function,
        TokenKind::If => Role::If,
        TokenKind::In => Role::In,
        TokenKind::Land => Role::Infix(BinaryOperator::LogicalAnd),
        TokenKind::Let => Role::Let,
        TokenKind::Lor => Role::Infix(BinaryOperator::LogicalOr),
        TokenKind::Lsl => Role::Infix(BinaryOperator::ShiftLeft),
        TokenKind::Lsr => Role::Infix(BinaryOperator::ShiftRightLogical),
        TokenKind::Lxor => Role::Infix(BinaryOperator::LogicalXor),
        TokenKind::Match => Role::Match,
        TokenKind::Mod => Role::Infix(BinaryOperator::Modulo),
        TokenKind::Mutable => Role::Mutable,
        TokenKind::Of => Role::Of,
        TokenKind::Open => Role::Open,
        TokenKind::Rec => Role::Rec,
        TokenKind::Then => Role::Then,
        TokenKind::To => Role::To,
        TokenKind::True => Role::True,
        TokenKind::Try => Role::Try,
        TokenKind::Type => Role::Type,
        TokenKind::When => Role::When,
        TokenKind::While => Role::While,
        TokenKind::With => Role::With,
        TokenKind::Assert
        | TokenKind::Class
        | TokenKind::Constraint
        | TokenKind::External
        | TokenKind::Functor
        | TokenKind::Include
        | TokenKind::Inherit
        | TokenKind::Initializer
        | TokenKind::Lazy
        | TokenKind::Method
        | TokenKind::Module
        | TokenKind::New
        | TokenKind::Nonrec
        | TokenKind::Object
        | TokenKind::Or
        | TokenKind::Private
        | TokenKind::Sig
        | TokenKind::Struct
        | TokenKind::Val
        | TokenKind::Virtual => Role::Other,
    }
}

// What an integer does.
#[tactic(auto, unfolding(crate::specs::Role::integer_role))]
fn integer_role(text: &[u8]) -> Role
    ensures { result ≡ integer_role text.now }
{
    match integer_value(text) {
        Some(4_611_686_018_427_387_904) => Role::LeastInteger,
        _ => Role::Integer,
    }
}

/// What a token does.
#[tactic(auto, unfolding(crate::specs::Role::text_role))]
pub fn role_of(token: &TokenView<'_>) -> Role
    ensures { result ≡ role (seen token.now) }
{
    match token.kind {
        TokenKind::LowerName => word_role(token.text),
        TokenKind::Integer => integer_role(token.text),
        kind => kind_role(kind),
    }
}
