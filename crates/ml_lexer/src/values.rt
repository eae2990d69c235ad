//! What literals stand for.

ghost use Rattle.std.specs.Prelude.{◌≡◌, ℕ, ◌+◌, ◌*◌, ◌<◌, ◌≤◌, length, ◌++◌, [], IfOk, OnOk, IsOkUnless};
ghost use Rattle.ml_lexer.specs.Values as values;
ghost use Rattle.ml_lexer.specs.Values.{before, byte_of_character, bytes_of_string, digits_value, in_range, indent, part, value_of_integer};

use crate::bytes::{
    coded_byte, digit_value, escaped_byte, is_base_digit, is_escape, is_plain_in_character,
};
use fx_base::Refusal;
use std::alloc::{AllocError, Global};

/// The greatest integer: 2 ^ 62.
const GREATEST: u64 = 4611686018427387904;

// The value of digits, where it is at most 2 ^ 62.
fn digits_in_range(base: u8, digits: &[u8]) -> Option<u64>
    requires { (1 ≤ base) × (base ≤ 16) }
    ensures { result ≡ in_range (digits_value base 0 digits.now) }
{
    let mut value: u128 = 0;
    for digit in digits {
        if *digit != b'_' {
            value = value * u128::from(base) + u128::from(digit_value(*digit));
        }
        if value > u128::from(GREATEST) {
            return None;
        }
    }
    Some(value as u64)
}

/// The value of an integer literal, in base 10, 16, 8 or 2, where it is at most 2 ^ 62.
pub fn integer_value(text: &[u8]) -> Option<u64>
    ensures { result ≡ value_of_integer text.now }
{
    match text {
        [b'0', b'x', digit, ..] if is_base_digit(b'x', *digit) => digits_in_range(16, &text[2..]),
        [b'0', b'o', digit, ..] if is_base_digit(b'o', *digit) => digits_in_range(8, &text[2..]),
        [b'0', b'b', digit, ..] if is_base_digit(b'b', *digit) => digits_in_range(2, &text[2..]),
        _ => digits_in_range(10, text),
    }
}

/// The byte that a character literal stands for, if the text is one.
pub fn character_byte(text: &[u8]) -> Option<u8>
    ensures { result ≡ byte_of_character text.now }
{
    match text {
        [b'\'', byte, b'\''] if is_plain_in_character(*byte) => Some(*byte),
        [b'\'', b'\\', byte, b'\''] if is_escape(*byte) => Some(escaped_byte(*byte)),
        [b'\'', b'\\', first, second, third, b'\''] => coded_byte(*first, *second, *third),
        _ => None,
    }
}

// How many spaces and tabs stand at the front.
fn indent_len(bytes: &[u8]) -> usize
    ensures value { result ≡ indent bytes.now }
    ensures bound { result ≤ length bytes.now }
{
    for (i, byte) in bytes.iter().enumerate() {
        if *byte != b' ' && *byte != b'\t' {
            return i;
        }
    }
    bytes.len()
}

// The part of a string at the front: the byte that it stands for, and how many bytes it takes.
fn part_at(bytes: &[u8]) -> (Option<u8>, usize)
    ensures value { result ≡ part bytes.now }
    ensures positive { 0 < result.1 }
    ensures bound { 0 < length bytes.now → result.1 ≤ length bytes.now }
{
    match bytes {
        [b'\\', b'\n', rest @ ..] => (None, 2 + indent_len(rest)),
        [b'\\', first, second, third, ..] if let Some(byte) = coded_byte(*first, *second, *third) =>
            { (Some(byte), 4) }
        [b'\\', byte, ..] => (Some(escaped_byte(*byte)), 2),
        [byte, ..] => (Some(*byte), 1),
        [] => (None, 1),
    }
}

// Adds the byte of a part, if it stands for one.
fn add(bytes: &mut Vec<u8>, byte: Option<u8>) -> Result<(), AllocError>
    ensures { OnOk result (bytes.new.items ≡ bytes.old.items ++ before byte []) }
{
    if let Some(byte) = byte {
        bytes.push(byte)?;
    }
    Ok(())
}

// The bytes that the parts of a string stand for.
fn parts_bytes(alloc: Global, parts: &[u8]) -> Result<Vec<u8>, AllocError>
    ensures { IfOk result (λ bytes. bytes.items ≡ values.parts_bytes 0 parts.now) }
{
    let mut bytes = Vec::new(alloc);
    let mut at = 0;
    while at < parts.len() {
        let (byte, length) = part_at(&parts[at..]);
        add(&mut bytes, byte)?;
        at += length;
    }
    Ok(bytes)
}

/// The bytes that a string literal stands for: those of its parts, between the quotation marks.
///
/// # Errors
///
/// [`Refusal::Memory`] alone.
pub fn string_bytes(alloc: Global, text: &[u8]) -> Result<Vec<u8>, Refusal>
    ensures bytes { IfOk result (λ bytes. bytes.items ≡ bytes_of_string text.now) }
    ensures refused { IsOkUnless result Refusal.Memory }
{
    match text {
        [_, parts @ .., _] => Ok(parts_bytes(alloc, parts)?),
        _ => Ok(Vec::new(alloc)),
    }
}
