//! The length of the lexeme at the front of a text.

ghost use Rattle.std.specs.Prelude.{◌≡◌, ℕ, ◌<◌, ◌≤◌, length, option_map, take, IfSome, IsTrue};
ghost use Rattle.ml_lexer.specs.Bytes.{continues_name, in_base, is_digit};
ghost use Rattle.ml_lexer.specs.Forms.{is_coded_literal, is_plain_literal, is_short_literal, or_underscore};
ghost use Rattle.ml_lexer.specs.Part.{PartIs};
ghost use Rattle.ml_lexer.specs.Scan.{run, scan, scan_character, scan_number, scan_parts, scan_quoted, scan_symbol, scan_variable};

use crate::bytes::{
    Class, class_of, is_base_digit, is_byte_code, is_decimal, is_escape, is_lower_start,
    is_name_byte, is_plain_in_character, is_string_escape,
};
use crate::form::Form;
use crate::tables::{double_symbol, single_symbol};

// How many bytes at the front go on with a name.
fn name_run(bytes: &[u8]) -> usize
    ensures value { result ≡ run continues_name bytes.now }
    ensures bound { result ≤ length bytes.now }
{
    for (i, byte) in bytes.iter().enumerate() {
        if !is_name_byte(*byte) {
            return i;
        }
    }
    bytes.len()
}

// How many bytes at the front are decimal digits or `_`.
fn decimal_run(bytes: &[u8]) -> usize
    ensures value { result ≡ run (or_underscore is_digit) bytes.now }
    ensures bound { result ≤ length bytes.now }
{
    for (i, byte) in bytes.iter().enumerate() {
        if *byte != b'_' && !is_decimal(*byte) {
            return i;
        }
    }
    bytes.len()
}

// How many bytes at the front are digits of a base or `_`.
fn based_run(letter: u8, bytes: &[u8]) -> usize
    ensures value { result ≡ run (or_underscore (in_base letter)) bytes.now }
    ensures bound { result ≤ length bytes.now }
{
    for (i, byte) in bytes.iter().enumerate() {
        if *byte != b'_' && !is_base_digit(letter, *byte) {
            return i;
        }
    }
    bytes.len()
}

// The length of the number that begins with the first byte.
fn number_len(bytes: &[u8]) -> usize
    ensures value { result ≡ scan_number bytes.now }
    ensures positive { 0 < length bytes.now → 0 < result }
    ensures bound { result ≤ length bytes.now }
{
    match bytes {
        [] => 0,
        [b'0', letter, digit, rest @ ..] if is_base_digit(*letter, *digit) => {
            3 + based_run(*letter, rest)
        }
        [_, rest @ ..] => 1 + decimal_run(rest),
    }
}

// Whether `'`, a byte that stands for itself and `'` are at the front.
fn begins_plain(bytes: &[u8]) -> bool
    ensures value { result ≡ is_plain_literal (take 3 bytes.now) }
    ensures within { IsTrue result → 3 ≤ length bytes.now }
{
    matches!(bytes, [b'\'', byte, b'\'', ..] if is_plain_in_character(*byte))
}

// Whether `'`, a `\` and one byte, and `'` are at the front.
fn begins_short(bytes: &[u8]) -> bool
    ensures value { result ≡ is_short_literal (take 4 bytes.now) }
    ensures within { IsTrue result → 4 ≤ length bytes.now }
{
    matches!(bytes, [b'\'', b'\\', byte, b'\'', ..] if is_escape(*byte))
}

// Whether `'`, a `\` and three bytes, and `'` are at the front.
fn begins_coded(bytes: &[u8]) -> bool
    ensures value { result ≡ is_coded_literal (take 6 bytes.now) }
    ensures within { IsTrue result → 6 ≤ length bytes.now }
{
    matches!(
        bytes,
        [b'\'', b'\\', first, second, third, b'\'', ..]
            if is_byte_code(*first, *second, *third)
    )
}

/// The length of the character literal at the front.
pub fn character_len(bytes: &[u8]) -> Option<usize>
    ensures value { result ≡ scan_character bytes.now }
    ensures bound { IfSome result (λ n. (0 < n) × (n ≤ length bytes.now)) }
{
    if begins_plain(bytes) {
        Some(3)
    } else if begins_short(bytes) {
        Some(4)
    } else if begins_coded(bytes) {
        Some(6)
    } else {
        None
    }
}

// The length of the type variable at the front.
fn variable_len(bytes: &[u8]) -> Option<usize>
    ensures value { result ≡ scan_variable bytes.now }
    ensures bound { IfSome result (λ n. (0 < n) × (n ≤ length bytes.now)) }
{
    match bytes {
        [b'\'', start, rest @ ..] if is_lower_start(*start) => Some(2 + name_run(rest)),
        _ => None,
    }
}

// The length of the symbol at the front.
fn symbol_len(bytes: &[u8]) -> Option<usize>
    ensures value { result ≡ scan_symbol bytes.now }
    ensures bound { IfSome result (λ n. (0 < n) × (n ≤ length bytes.now)) }
{
    match bytes {
        [first, second, ..] if double_symbol(*first, *second).is_some() => Some(2),
        [first, ..] if single_symbol(*first).is_some() => Some(1),
        _ => None,
    }
}

/// What stands at the front inside a string.
#[derive(Clone, Copy, Debug, PartialEq, Eq)]
pub enum Part {
    /// The `"` at the end.
    End,
    /// A byte or an escape of so many bytes.
    Bytes(u8),
    /// Nothing that may stand there.
    Fault,
}

// The part at the front inside a string.
fn part_at(bytes: &[u8]) -> Part
    ensures { PartIs result bytes.now }
{
    match bytes {
        [b'"', ..] => Part::End,
        [b'\\', byte, ..] if is_string_escape(*byte) => Part::Bytes(2),
        [b'\\', first, second, third, ..] if is_byte_code(*first, *second, *third) => {
            Part::Bytes(4)
        }
        [b'\\', ..] => Part::Fault,
        [_, ..] => Part::Bytes(1),
        [] => Part::Fault,
    }
}

/// The length of the parts of a string and the `"` at its end.
pub fn parts_len(bytes: &[u8]) -> Option<usize>
    ensures value { result ≡ scan_parts bytes.now }
    ensures bound { IfSome result (λ n. n ≤ length bytes.now) }
{
    let mut at = 0;
    while at < bytes.len() {
        match part_at(&bytes[at..]) {
            Part::End => return Some(at + 1),
            Part::Bytes(length) => at += usize::from(length),
            Part::Fault => return None,
        }
    }
    None
}

// The lexeme at the front where it begins with `'`: a character literal is tried first.
fn quoted_at(bytes: &[u8]) -> Option<(Form, usize)>
    ensures value { result ≡ scan_quoted (scan_character bytes.now) bytes.now }
    ensures bound { IfSome result (λ found. (0 < found.1) × (found.1 ≤ length bytes.now)) }
{
    match character_len(bytes) {
        Some(length) => Some((Form::Character, length)),
        None => Some((Form::Variable, variable_len(bytes)?)),
    }
}

/// The lexeme at the front, by its form, and its length.
pub fn lexeme_at(bytes: &[u8]) -> Option<(Form, usize)>
    ensures value { result ≡ scan bytes.now }
    ensures bound { IfSome result (λ found. (0 < found.1) × (found.1 ≤ length bytes.now)) }
{
    if bytes.is_empty() {
        return None;
    }
    match class_of(bytes[0]) {
        Class::Blank => None,
        Class::Letter => Some((Form::Word, 1 + name_run(&bytes[1..]))),
        Class::Digit => Some((Form::Number, number_len(bytes))),
        Class::Quote => Some((Form::Text, 1 + parts_len(&bytes[1..])?)),
        Class::Apostrophe => quoted_at(bytes),
        Class::Mark => Some((Form::Symbol, symbol_len(bytes)?)),
    }
}
