//! The names that a handler asks for.

ghost use Rattle.std.specs.Prelude.{◌≡◌};
ghost use Rattle.ml_parser.specs.Signs.{answer_sign, answer_text_sign, field_sign, field_text_sign, parameter_of, parameter_text, sign_at, subject_sign};

use crate::frames::{Frame, Frames};
use ml_lexer::{Tokens, token_text};
use ml_moves::{Awaits, Form, Sign};
use ml_syntax::Role;

// What the name of a field is.
#[tactic(auto, unfolding(crate::specs::Signs::field_text_sign))]
fn field_text_sign(text: &[u8]) -> Sign
    ensures { result ≡ field_text_sign text.now }
{
    if text == b"retc".as_slice() {
        Sign::Retc
    } else if text == b"exnc".as_slice() {
        Sign::Exnc
    } else if text == b"effc".as_slice() {
        Sign::Effc
    } else {
        Sign::Other
    }
}

// What a token is where the name of a field comes.
#[tactic(auto, unfolding(crate::specs::Signs::field_sign))]
fn field_sign(role: Role, text: &[u8]) -> Sign
    ensures { result ≡ field_sign role text.now }
{
    match role {
        Role::Lower => field_text_sign(text),
        _ => Sign::Other,
    }
}

// What an upper name is that may be an answer.
#[tactic(auto, unfolding(crate::specs::Signs::answer_text_sign))]
fn answer_text_sign(text: &[u8]) -> Sign
    ensures { result ≡ answer_text_sign text.now }
{
    if text == b"Some".as_slice() {
        Sign::Some
    } else if text == b"None".as_slice() {
        Sign::None
    } else {
        Sign::Other
    }
}

// What a token is where an answer comes.
#[tactic(auto, unfolding(crate::specs::Signs::answer_sign))]
fn answer_sign(role: Role, text: &[u8]) -> Sign
    ensures { result ≡ answer_sign role text.now }
{
    match role {
        Role::Upper => answer_text_sign(text),
        _ => Sign::Other,
    }
}

// What a token is where the parameter of `effc` comes again.
#[tactic(auto, unfolding(crate::specs::Signs::subject_sign))]
fn subject_sign(role: Role, text: &[u8], parameter: &[u8]) -> Sign
    ensures { result ≡ subject_sign role text.now parameter.now }
{
    match role {
        Role::Lower => {
            if text == parameter {
                Sign::Parameter
            } else {
                Sign::Other
            }
        }
        _ => Sign::Other,
    }
}

// The number of the token that is the name of this parameter of `effc`.
#[tactic(auto, unfolding(crate::specs::Signs::parameter_of, crate::specs::Signs::parameter_in))]
fn parameter_of(frame: Frame) -> usize
    ensures { result ≡ parameter_of frame }
{
    match frame.form {
        Form::EffectAnnotated => frame.token.saturating_add(1),
        _ => frame.token,
    }
}

// The name of the parameter of `effc`, where this is the innermost form.
fn parameter_text<'a>(tokens: &'a Tokens, frames: &Frames) -> &'a [u8]
    ensures { result.now ≡ parameter_text tokens.now.lexemes frames.now }
{
    let number = parameter_of(frames.at(0));
    if number < tokens.len() {
        token_text(tokens, number)
    } else {
        b"".as_slice()
    }
}

/// What a token is to a handler, where this is awaited.
#[tactic(auto, unfolding(crate::specs::Signs::sign_at))]
pub fn sign_at(tokens: &Tokens, awaits: Awaits, frames: &Frames, role: Role, text: &[u8]) -> Sign
    ensures { result ≡ sign_at tokens.now.lexemes awaits frames.now role text.now }
{
    match awaits {
        Awaits::HandlerField => field_sign(role, text),
        Awaits::Answer => answer_sign(role, text),
        Awaits::LastAnswer => answer_sign(role, text),
        Awaits::Subject => subject_sign(role, text, parameter_text(tokens, frames)),
        _ => Sign::Other,
    }
}
