//! Cuts a text into tokens.

ghost use Rattle.std.specs.Prelude.{◌≡◌, ℕ, ◌+◌, ◌<◌, ◌≤◌, ◌^◌, ◌++◌, List, All, length, map, Ok, Err, IfOk, IfErr, OnOk};
ghost use Rattle.fx_base.specs.declared.refusal.Refusal.TheVariants.{Syntax};
ghost use Rattle.fx_base.specs.declared.refusal.Place.{Place};
ghost use Rattle.ml_lexer.specs.Lexeme.{Lexeme, lexeme_at, LiesIn};
ghost use Rattle.ml_lexer.specs.Lexes.{FaultsAt, Lexes, first_place, place_after};
ghost use Rattle.ml_lexer.specs.Pieces.{made, read_from};
ghost use Rattle.ml_lexer.specs.Refuses.{IsRefused, IsSyntax};

use crate::piece::{Sort, piece_at};
use crate::token::{Token, Tokens};
use fx_base::{Place, Refusal};
use std::alloc::{AllocError, Global};

// The place behind bytes.
fn advanced(place: Place, bytes: &[u8]) -> Place
    requires { (place.line + length bytes.now < 2 ^ 32) × (place.column + length bytes.now < 2 ^ 32) }
    ensures value { result ≡ place_after place bytes.now }
    ensures bound { (result.line ≤ place.line + length bytes.now) × (result.column ≤ place.column + length bytes.now) }
{
    let mut line = place.line;
    let mut column = place.column;
    for byte in bytes {
        if *byte == b'\n' {
            line += 1;
            column = 1;
        } else {
            column += 1;
        }
    }
    Place { line, column }
}

// Adds the token of a piece, if it is one.
fn add(
    tokens: &mut Vec<Token>,
    sort: Sort,
    at: usize,
    length: usize,
    place: Place,
) -> Result<(), AllocError>
    requires { at + length < 2 ^ 32 }
    ensures { OnOk result (tokens.new.items ≡ tokens.old.items ++ made sort at length place) }
{
    if let Sort::Lexeme(kind) = sort {
        tokens.push(Token {
            kind,
            from: at as u32,
            to: (at + length) as u32,
            place,
        })?;
    }
    Ok(())
}

// The tokens of a text and the place behind it, or the place where no piece begins.
fn cut(alloc: Global, bytes: &[u8]) -> Result<Result<(Vec<Token>, Place), Place>, AllocError>
    requires { length bytes.now ≤ 16777216 }
    ensures read { IfOk result (λ found. IfOk found (λ all. read_from first_place bytes.now ≡ Ok (map (lexeme_at bytes.now) all.0.items))) }
    ensures lies { IfOk result (λ found. IfOk found (λ all. All (LiesIn bytes.now) all.0.items)) }
    ensures end { IfOk result (λ found. IfOk found (λ all. all.1 ≡ place_after first_place bytes.now)) }
    ensures fault { IfOk result (λ found. IfErr found (λ place. read_from first_place bytes.now ≡ Err place)) }
{
    let mut tokens = Vec::new(alloc);
    let mut place = Place { line: 1, column: 1 };
    let mut at = 0;
    while at < bytes.len() {
        let Some((sort, length)) = piece_at(&bytes[at..]) else {
            return Ok(Err(place));
        };
        add(&mut tokens, sort, at, length, place)?;
        place = advanced(place, &bytes[at..at + length]);
        at += length;
    }
    Ok(Ok((tokens, place)))
}

/// The one list of tokens of a text of at most 16,777,216 bytes, and the place behind the text.
///
/// # Errors
///
/// [`Refusal::Syntax`] exactly where the text has no list of tokens, with the place of the first
/// byte at which neither a blank nor a comment nor a token begins; and [`Refusal::Memory`].
pub fn lex(alloc: Global, bytes: &[u8]) -> Result<Tokens, Refusal>
    requires { length bytes.now ≤ 16777216 }
    ensures ok { IfOk result (λ tokens. Lexes bytes.now tokens.lexemes) }
    ensures one { IfOk result (λ tokens. (other : List Lexeme) → Lexes bytes.now other → other ≡ tokens.lexemes) }
    ensures end { IfOk result (λ tokens. tokens.ending ≡ place_after first_place bytes.now) }
    ensures syntax { IfErr result (λ refusal. IsSyntax refusal → (other : List Lexeme) → Lexes bytes.now other → ⊥) }
    ensures refused { IfErr result (λ refusal. IsRefused bytes.now refusal) }
    ensures place { IfErr result (λ refusal. (place : Place) → FaultsAt bytes.now place → IsSyntax refusal → refusal ≡ Syntax place) }
{
    match cut(alloc, bytes)? {
        Ok((tokens, end)) => Ok(Tokens::new(bytes.to_vec(alloc)?, tokens, end)),
        Err(place) => Err(Refusal::Syntax(place)),
    }
}
