//! The tokens of the form that compiles: `let () = print_int A`.

ghost use Rattle.std.specs.Prelude.{◌≡◌, ◌<◌, ◌≤◌, List, length, IfOk, IfSome, IfNone};
ghost use Rattle.effects_top.specs.Pieces.{word_length, piece_length, decimal_of, word_of, token_read};
ghost use Rattle.effects_top.specs.Spelling.{is_blank, is_digit, is_word, Spells};

use std::alloc::{AllocError, Global};

/// The greatest integer.
const MAX_INT: u64 = 4_611_686_018_427_387_903;

/// A token.
#[derive(Clone, Copy, Debug, PartialEq, Eq)]
pub enum Token {
    Let,
    PrintInt,
    Open,
    Close,
    Equals,
    Plus,
    Minus,
    Times,
    /// A literal, at most the greatest integer.
    Literal(u64),
}

fn is_blank_byte(byte: u8) -> bool
    ensures { result ≡ is_blank byte }
{
    matches!(byte, b' ' | b'\t' | b'\n')
}

fn is_digit_byte(byte: u8) -> bool
    ensures { result ≡ is_digit byte }
{
    matches!(byte, b'0'..=b'9')
}

fn is_word_byte(byte: u8) -> bool
    ensures { result ≡ is_word byte }
{
    matches!(byte, b'a'..=b'z' | b'A'..=b'Z') || is_digit_byte(byte) || byte == b'_'
}

// How many bytes at the front are of a word.
fn word_len(text: &[u8]) -> usize
    ensures value { result ≡ word_length text.now }
    ensures within { result ≤ length text.now }
{
    for (i, byte) in text.iter().enumerate() {
        if !is_word_byte(*byte) {
            return i;
        }
    }
    text.len()
}

// How long the piece is that begins the text: a whole word, or one other byte.
fn piece_len(text: &[u8]) -> usize
    requires { 0 < length text.now }
    ensures some { 0 < result }
    ensures value { result ≡ piece_length text.now }
    ensures within { result ≤ length text.now }
{
    let word = word_len(text);
    if word == 0 { 1 } else { word }
}

/// The value of decimal digits, where it is at most the greatest.
pub fn decimal(digits: &[u8], greatest: u64) -> Option<u64>
    ensures { result ≡ decimal_of greatest digits.now }
{
    let mut value: u128 = 0;
    for digit in digits {
        if !is_digit_byte(*digit) {
            return None;
        }
        value = value * 10 + u128::from(*digit - b'0');
        if value > u128::from(greatest) {
            return None;
        }
    }
    Some(value as u64)
}

fn word(piece: &[u8]) -> Option<Token>
    ensures { result ≡ word_of piece.now }
{
    if piece == b"print_int".as_slice() {
        return Some(Token::PrintInt);
    }
    match piece {
        b"let" => Some(Token::Let),
        b"(" => Some(Token::Open),
        b")" => Some(Token::Close),
        b"=" => Some(Token::Equals),
        b"+" => Some(Token::Plus),
        b"-" => Some(Token::Minus),
        b"*" => Some(Token::Times),
        _ => None,
    }
}

fn token_of(piece: &[u8]) -> Option<Token>
    requires { 0 < length piece.now }
    ensures { result ≡ token_read piece.now }
{
    if is_digit_byte(piece[0]) {
        Some(Token::Literal(decimal(piece, MAX_INT)?))
    } else {
        word(piece)
    }
}

/// The tokens that a text spells; `None` where it spells none.
pub fn tokens_of(alloc: Global, text: &[u8]) -> Result<Option<Vec<Token>>, AllocError>
    ensures some { IfOk result (λ read. IfSome read (λ tokens. Spells text.now tokens.items)) }
    ensures only { IfOk result (λ read. IfSome read (λ tokens. (other : List Token) → Spells text.now other → other ≡ tokens.items)) }
    ensures none { IfOk result (λ read. IfNone read ((tokens : List Token) → Spells text.now tokens → ⊥)) }
{
    let mut tokens = Vec::new(alloc);
    let mut rest = text;
    while let Some((first, others)) = rest.split_first() {
        if is_blank_byte(*first) {
            rest = others;
            continue;
        }
        let (piece, after) = rest.split_at(piece_len(rest));
        let Some(token) = token_of(piece) else {
            return Ok(None);
        };
        tokens.push(token)?;
        rest = after;
    }
    Ok(Some(tokens))
}
