//! The length of a comment.

ghost use Rattle.std.specs.Prelude.{◌≡◌, ℕ, ◌≤◌, length, IfSome, IsTrue};
ghost use Rattle.ml_lexer.specs.Comments.{closes_comment, opens_comment};
ghost use Rattle.ml_lexer.specs.Scan.{inside};
ghost use Rattle.ml_lexer.specs.Turn.{TurnIs};

use crate::scan::{character_len, parts_len};

/// Whether a comment begins here.
pub fn opens(bytes: &[u8]) -> bool
    ensures value { result ≡ opens_comment bytes.now }
    ensures two { IsTrue result → 2 ≤ length bytes.now }
{
    matches!(bytes, [b'(', b'*', ..])
}

// Whether a comment ends here.
fn closes(bytes: &[u8]) -> bool
    ensures { result ≡ closes_comment bytes.now }
{
    matches!(bytes, [b'*', b')', ..])
}

/// What stands at the front inside a comment.
#[derive(Clone, Copy, Debug, PartialEq, Eq)]
pub enum Turn {
    Opens,
    Closes,
    /// A literal of so many bytes, or another byte.
    Bytes(usize),
    /// The end of the text, or a string without an end.
    Fault,
}

// What stands at the front inside a comment.
fn turn_at(bytes: &[u8]) -> Turn
    ensures { (depth : ℕ) → TurnIs result depth bytes.now }
{
    if opens(bytes) {
        return Turn::Opens;
    }
    if closes(bytes) {
        return Turn::Closes;
    }
    if bytes.is_empty() {
        return Turn::Fault;
    }
    if bytes[0] == b'"' {
        return match parts_len(&bytes[1..]) {
            Some(length) => Turn::Bytes(1 + length),
            None => Turn::Fault,
        };
    }
    match character_len(bytes) {
        Some(length) => Turn::Bytes(length),
        None => Turn::Bytes(1),
    }
}

/// The length of the rest of a comment, up to its end.
pub fn comment_len(bytes: &[u8]) -> Option<usize>
    ensures value { result ≡ inside 1 0 bytes.now }
    ensures bound { IfSome result (λ n. n ≤ length bytes.now) }
{
    let mut at = 0;
    let mut depth: usize = 1;
    while depth > 0 {
        match turn_at(&bytes[at..]) {
            Turn::Opens => {
                depth += 1;
                at += 2;
            }
            Turn::Closes => {
                depth -= 1;
                at += 2;
            }
            Turn::Bytes(length) => at += length,
            Turn::Fault => return None,
        }
    }
    Some(at)
}
