//! The reader of the form that compiles.
//!
//! ```text
//! file = "let" "(" ")" "=" "print_int" A
//! A    = literal | "(" E ")"
//! E    = T (("+" | "-") T)*
//! T    = A ("*" A)*
//! ```
//!
//! Brackets nest at most 100 deep, and there are at most 1,000 literals.

ghost use Rattle.std.specs.Prelude.{◌≡◌, ◌<◌, List, ◌∷◌, Some, None, IfOk, IfErr, IfSome, IfNone, MatchOption, length, vec_len};
ghost use Rattle.effects_top.specs.Expression.{Expression, postfix_of};
ghost use Rattle.effects_top.specs.Form.{Atom, Product, Sum, DerivesFile, IsFormOf};
ghost use Rattle.effects_top.specs.declared.reader.Stop.TheVariants.{Memory};
ghost use Rattle.effects_top.specs.Reading.{operator_at, IsOperator, Reads, ReadsFile, Unread};

use crate::token::{Token, tokens_of};
use std::alloc::{AllocError, AllocFailed, Global};

/// The most brackets that may be open at one place.
const MOST_OPEN: u32 = 100;

/// The most literals of a file.
const MOST_LITERALS: usize = 1000;

/// An operation on two integers.
#[derive(Clone, Copy, Debug, PartialEq, Eq)]
pub enum Arith {
    Plus,
    Minus,
    Times,
}

/// A part of an expression in postfix order.
#[derive(Clone, Copy, Debug, PartialEq, Eq)]
pub enum Postfix {
    /// The next value is this literal.
    Literal(u64),
    /// The last two values give way to their result.
    Apply(Arith),
}

// Why reading stopped.
#[derive(Clone, Copy, Debug, PartialEq, Eq)]
enum Stop {
    NotOfTheForm,
    Memory,
}

impl From<AllocError> for Stop {
    ghost from_gives = { λ _ stop. stop ≡ Memory };

    fn from(_error: AllocError) -> Stop {
        Stop::Memory
    }
}

impl<T: Drop> From<AllocFailed<T>> for Stop {
    ghost from_gives = { λ _ stop. stop ≡ Memory };

    fn from(_error: AllocFailed<T>) -> Stop {
        Stop::Memory
    }
}

// The `*` at the front, and the tokens behind it.
fn times_at<'a>(tokens: &'a [Token]) -> Option<(Arith, &'a [Token])>
    ensures { MatchOption result (operator_at Product tokens.now ≡ None) (λ found. IsOperator Product tokens.now found.0 found.1.now) }
{
    let (first, rest) = tokens.split_first()?;
    match first {
        Token::Times => Some((Arith::Times, rest)),
        _ => None,
    }
}

// The `+` or `-` at the front, and the tokens behind it.
fn sign_at<'a>(tokens: &'a [Token]) -> Option<(Arith, &'a [Token])>
    ensures { MatchOption result (operator_at Sum tokens.now ≡ None) (λ found. IsOperator Sum tokens.now found.0 found.1.now) }
{
    let (first, rest) = tokens.split_first()?;
    match first {
        Token::Plus => Some((Arith::Plus, rest)),
        Token::Minus => Some((Arith::Minus, rest)),
        _ => None,
    }
}

// The tokens behind a `)` at the front.
fn closed<'a>(tokens: &'a [Token]) -> Option<&'a [Token]>
    ensures { MatchOption result ((rest : List Token) → tokens.now ≡ Token.Close ∷ rest → ⊥) (λ rest. tokens.now ≡ Token.Close ∷ rest.now) }
{
    let (first, rest) = tokens.split_first()?;
    match first {
        Token::Close => Some(rest),
        _ => None,
    }
}

// Reads an A, and answers the tokens after it. So many brackets may still be opened.
#[cycle(expression)]
fn atom<'a>(tokens: &'a [Token], room: u32, postfix: &mut Vec<Postfix>) -> Result<&'a [Token], Stop>
    ensures read { IfOk result (λ rest. Reads Atom room tokens.now rest.now postfix.old.items postfix.new.items) }
    ensures unread { IfErr result (λ stop. stop ≡ Stop.NotOfTheForm → Unread Atom room tokens.now) }
    ensures shorter { IfOk result (λ rest. length rest.now < length tokens.now) }
{
    let Some((first, rest)) = tokens.split_first() else {
        return Err(Stop::NotOfTheForm);
    };
    match first {
        Token::Literal(value) => {
            postfix.push(Postfix::Literal(*value))?;
            Ok(rest)
        }
        Token::Open => {
            if room == 0 {
                return Err(Stop::NotOfTheForm);
            }
            let inner = sum(rest, room - 1, postfix)?;
            match closed(inner) {
                Some(behind) => Ok(behind),
                None => Err(Stop::NotOfTheForm),
            }
        }
        _ => Err(Stop::NotOfTheForm),
    }
}

// Reads a T, and answers the tokens after it.
#[cycle(expression)]
fn product<'a>(
    tokens: &'a [Token],
    room: u32,
    postfix: &mut Vec<Postfix>,
) -> Result<&'a [Token], Stop>
    ensures read { IfOk result (λ rest. Reads Product room tokens.now rest.now postfix.old.items postfix.new.items) }
    ensures unread { IfErr result (λ stop. stop ≡ Stop.NotOfTheForm → Unread Product room tokens.now) }
    ensures shorter { IfOk result (λ rest. length rest.now < length tokens.now) }
{
    let mut rest = atom(tokens, room, postfix)?;
    while let Some((operation, right)) = times_at(rest) {
        rest = atom(right, room, postfix)?;
        postfix.push(Postfix::Apply(operation))?;
    }
    Ok(rest)
}

// Reads an E, and answers the tokens after it.
#[cycle(expression)]
fn sum<'a>(tokens: &'a [Token], room: u32, postfix: &mut Vec<Postfix>) -> Result<&'a [Token], Stop>
    ensures read { IfOk result (λ rest. Reads Sum room tokens.now rest.now postfix.old.items postfix.new.items) }
    ensures unread { IfErr result (λ stop. stop ≡ Stop.NotOfTheForm → Unread Sum room tokens.now) }
    ensures shorter { IfOk result (λ rest. length rest.now < length tokens.now) }
{
    let mut rest = product(tokens, room, postfix)?;
    while let Some((operation, right)) = sign_at(rest) {
        rest = product(right, room, postfix)?;
        postfix.push(Postfix::Apply(operation))?;
    }
    Ok(rest)
}

fn expression(tokens: &[Token], postfix: &mut Vec<Postfix>) -> Result<(), Stop>
    ensures read { IfOk result (λ _. ReadsFile tokens.now postfix.old.items postfix.new.items) }
    ensures unread { IfErr result (λ stop. stop ≡ Stop.NotOfTheForm → (e : Expression) → DerivesFile tokens.now e → ⊥) }
{
    let [
        Token::Let,
        Token::Open,
        Token::Close,
        Token::Equals,
        Token::PrintInt,
        rest @ ..,
    ] = tokens
    else {
        return Err(Stop::NotOfTheForm);
    };
    if atom(rest, MOST_OPEN, postfix)?.is_empty() {
        Ok(())
    } else {
        Err(Stop::NotOfTheForm)
    }
}

/// The expression of a text of the form, in postfix order; `None` where the text is of another form.
pub fn read_form(alloc: Global, text: &[u8]) -> Result<Option<Vec<Postfix>>, AllocError>
    ensures some { IfOk result (λ read. IfSome read (λ postfix. (e : Expression) × IsFormOf text.now e × (postfix.items ≡ postfix_of e))) }
    ensures none { IfOk result (λ read. IfNone read ((e : Expression) → ¬ IsFormOf text.now e)) }
    ensures short { IfOk result (λ read. IfSome read (λ postfix. vec_len postfix < 2000)) }
{
    let Some(tokens) = tokens_of(alloc, text)? else {
        return Ok(None);
    };
    let mut postfix = Vec::new(alloc);
    match expression(&tokens, &mut postfix) {
        // There is one operation fewer than there are literals.
        Ok(()) if postfix.len() < 2 * MOST_LITERALS => Ok(Some(postfix)),
        Ok(()) => Ok(None),
        Err(Stop::NotOfTheForm) => Ok(None),
        Err(Stop::Memory) => Err(AllocError),
    }
}
