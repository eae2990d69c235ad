//! The piece at the front of a text.

ghost use Rattle.std.specs.Prelude.{◌≡◌, ℕ, ◌≤◌, ◌<◌, length, option_map, IfSome};
ghost use Rattle.ml_lexer.specs.Bytes.{is_blank};
ghost use Rattle.ml_lexer.specs.Lexes as lexes;
ghost use Rattle.ml_lexer.specs.Pieces.{found_of};
ghost use Rattle.ml_lexer.specs.Scan.{first_piece};

use crate::comments::{comment_len, opens};
use crate::form::Form;
use crate::scan::lexeme_at;
use crate::tables::{double_symbol, keyword, single_symbol};
use crate::token::TokenKind;
use crate::values::integer_value;

/// What a piece of a text is.
#[derive(Clone, Copy, Debug, PartialEq, Eq)]
pub enum Sort {
    Blank,
    Comment,
    Lexeme(TokenKind),
}

// The kind of a word that is no keyword.
fn name_kind(word: &[u8]) -> TokenKind
    ensures { result ≡ lexes.name_kind word.now }
{
    match word {
        [b'_'] => TokenKind::Underscore,
        [b'A'..=b'Z', ..] => TokenKind::UpperName,
        _ => TokenKind::LowerName,
    }
}

fn word_kind(word: &[u8]) -> TokenKind
    ensures { result ≡ lexes.word_kind word.now }
{
    match keyword(word) {
        Some(kind) => kind,
        None => name_kind(word),
    }
}

// A type variable is named by a lower name.
fn variable_kind(name: TokenKind) -> Option<TokenKind>
    ensures { result ≡ lexes.variable_kind name }
{
    match name {
        TokenKind::LowerName => Some(TokenKind::TypeVariable),
        _ => None,
    }
}

fn symbol_kind(symbol: &[u8]) -> Option<TokenKind>
    ensures { result ≡ lexes.symbol_kind symbol.now }
{
    match symbol {
        [byte] => single_symbol(*byte),
        [first, second] => double_symbol(*first, *second),
        _ => None,
    }
}

// The kind of a lexeme of a form, if it has one.
fn kind_of(form: Form, text: &[u8]) -> Option<TokenKind>
    ensures { result ≡ lexes.kind_of form text.now }
{
    match form {
        Form::Word => Some(word_kind(text)),
        Form::Number => integer_value(text).map(|_| TokenKind::Integer),
        Form::Character => Some(TokenKind::Character),
        Form::Variable => match text {
            [_, name @ ..] => variable_kind(word_kind(name)),
            [] => None,
        },
        Form::Text => Some(TokenKind::Text),
        Form::Symbol => symbol_kind(text),
    }
}

fn is_blank_byte(byte: u8) -> bool
    ensures { result ≡ is_blank byte }
{
    matches!(byte, b' ' | b'\t' | b'\r' | b'\x0c' | b'\n')
}

/// The piece at the front: what it is, and how many bytes it takes.
pub fn piece_at(bytes: &[u8]) -> Option<(Sort, usize)>
    ensures value { result ≡ option_map found_of (first_piece bytes.now) }
    ensures bound { IfSome result (λ found. (0 < found.1) × (found.1 ≤ length bytes.now)) }
{
    if bytes.is_empty() {
        return None;
    }
    if is_blank_byte(bytes[0]) {
        return Some((Sort::Blank, 1));
    }
    if opens(bytes) {
        return match comment_len(&bytes[2..]) {
            Some(length) => Some((Sort::Comment, 2 + length)),
            None => None,
        };
    }
    let (form, length) = lexeme_at(bytes)?;
    let kind = kind_of(form, &bytes[..length])?;
    Some((Sort::Lexeme(kind), length))
}
