//! The classes of bytes, and what an escape may hold.

ghost use Rattle.std.specs.Prelude.{◌≡◌, ◌≤◌, Some, None, if◌then◌else◌};
ghost use Rattle.ml_lexer.specs.Bytes.{begins_lower, class, continues_name, in_base, is_blank, is_code, is_digit, is_escaped, is_escaped_in_string, is_hexadecimal, is_plain_character, is_upper};
ghost use Rattle.ml_lexer.specs.Values as values;

/// What a byte begins.
#[derive(Clone, Copy, Debug, PartialEq, Eq)]
pub enum Class {
    Blank,
    Letter,
    Digit,
    Quote,
    Apostrophe,
    Mark,
}

/// The class of a byte.
pub fn class_of(byte: u8) -> Class
    ensures { result ≡ class byte }
{
    match byte {
        b' ' | b'\t' | b'\r' | b'\x0c' | b'\n' => Class::Blank,
        b'a'..=b'z' | b'A'..=b'Z' | b'_' => Class::Letter,
        b'0'..=b'9' => Class::Digit,
        b'"' => Class::Quote,
        b'\'' => Class::Apostrophe,
        _ => Class::Mark,
    }
}

/// A letter, a digit, `_` or `'`.
pub fn is_name_byte(byte: u8) -> bool
    ensures { result ≡ continues_name byte }
{
    matches!(byte, b'a'..=b'z' | b'A'..=b'Z' | b'0'..=b'9' | b'_' | b'\'')
}

/// A lower-case letter or `_`.
pub fn is_lower_start(byte: u8) -> bool
    ensures { result ≡ begins_lower byte }
{
    matches!(byte, b'a'..=b'z' | b'_')
}

pub fn is_decimal(byte: u8) -> bool
    ensures { result ≡ is_digit byte }
{
    matches!(byte, b'0'..=b'9')
}

fn is_hexadecimal_digit(byte: u8) -> bool
    ensures { result ≡ is_hexadecimal byte }
{
    matches!(byte, b'0'..=b'9' | b'a'..=b'f' | b'A'..=b'F')
}

/// A digit of the base that the letter behind a 0 stands for.
pub fn is_base_digit(letter: u8, byte: u8) -> bool
    ensures { result ≡ in_base letter byte }
{
    match letter {
        b'x' => is_hexadecimal_digit(byte),
        b'o' => matches!(byte, b'0'..=b'7'),
        b'b' => matches!(byte, b'0'..=b'1'),
        _ => false,
    }
}

/// A byte of a character literal that stands for itself.
pub fn is_plain_in_character(byte: u8) -> bool
    ensures { result ≡ is_plain_character byte }
{
    !matches!(byte, b'\'' | b'\\' | b'\n')
}

/// What may stand behind a `\` alone.
pub fn is_escape(byte: u8) -> bool
    ensures { result ≡ is_escaped byte }
{
    matches!(
        byte,
        b'\\' | b'"' | b'\'' | b'n' | b't' | b'r' | b'b' | b' '
    )
}

/// What may stand behind a `\` alone in a string.
pub fn is_string_escape(byte: u8) -> bool
    ensures { result ≡ is_escaped_in_string byte }
{
    matches!(
        byte,
        b'\\' | b'"' | b'\'' | b'n' | b't' | b'r' | b'b' | b' ' | b'\n'
    )
}

/// Whether three bytes behind a `\` are a code.
pub fn is_byte_code(first: u8, second: u8, third: u8) -> bool
    ensures { result ≡ is_code first second third }
{
    coded_byte(first, second, third).is_some()
}

/// The value of a digit, in any base.
pub fn digit_value(digit: u8) -> u8
    ensures value { result ≡ values.digit_value digit }
    ensures bound { result ≤ 208 }
{
    match digit {
        b'0'..=b'9' => digit - b'0',
        b'a'.. => digit - 87,
        b'7'.. => digit - 55,
        _ => 0,
    }
}

/// The byte that a `\` and three bytes stand for, if they are a code.
pub fn coded_byte(first: u8, second: u8, third: u8) -> Option<u8>
    ensures { result ≡ (if is_code first second third then Some (values.coded_byte first second third) else None) }
{
    if is_decimal(first) && is_decimal(second) && is_decimal(third) {
        let value = u16::from(first - b'0') * 100
            + u16::from(second - b'0') * 10
            + u16::from(third - b'0');
        return u8::try_from(value).ok();
    }
    if first == b'x' && is_hexadecimal_digit(second) && is_hexadecimal_digit(third) {
        return Some(digit_value(second) * 16 + digit_value(third));
    }
    None
}

/// The byte that a `\` and one byte stand for.
pub fn escaped_byte(byte: u8) -> u8
    ensures { result ≡ values.escaped_byte byte }
{
    match byte {
        b'n' => b'\n',
        b't' => b'\t',
        b'r' => b'\r',
        b'b' => 8,
        _ => byte,
    }
}
