//! Reads tokens, one after another.

ghost use Rattle.std.specs.Prelude.{◌≡◌, Some, IfOk};
ghost use Rattle.std.specs.Option.{option_map};
ghost use Rattle.ml_parser.specs.Reading.{ended, joined, reading, situation, stepped, token_read};

use crate::changing::change;
use crate::frames::Frames;
use crate::settling::{last_made, settle};
use crate::signs::sign_at;
use fx_base::Place;
use ml_builder::Reduction;
use ml_lexer::Tokens;
use ml_moves::{Awaits, Move, Sign, complete, join, join_dot, take};
use ml_syntax::{Role, Sequence, role_of};
use std::alloc::{AllocError, Global};

// Makes a move at a token, if there is one: what may come next.
fn step(
    made: Option<Move>,
    number: usize,
    frames: &mut Frames,
    reductions: &mut Sequence<Reduction>,
) -> Result<Option<Awaits>, AllocError>
    ensures { IfOk result (λ next. stepped made number frames.old reductions.old ≡ option_map (λ a. situation a frames.new reductions.new) next) }
{
    match made {
        Some(made) => {
            change(made.first, number, frames, reductions)?;
            change(made.second, number, frames, reductions)?;
            change(made.third, number, frames, reductions)?;
            Ok(Some(made.next))
        }
        None => Ok(None),
    }
}

// Ends the forms before a token that stands behind a whole part, and lets a further part begin.
#[tactic(auto, unfolding(crate::specs::Reading::joined))]
fn settle_and_join(
    awaits: Awaits,
    role: Role,
    number: usize,
    frames: &mut Frames,
    reductions: &mut Sequence<Reduction>,
) -> Result<Option<Awaits>, AllocError>
    ensures { IfOk result (λ next. joined awaits role number frames.old reductions.old ≡ option_map (λ a. situation a frames.new reductions.new) next) }
{
    match awaits {
        Awaits::After => {
            settle(role, frames, reductions)?;
            let made = join(role, frames.innermost(), last_made(reductions));
            step(made, number, frames, reductions)
        }
        Awaits::AfterDot => {
            settle(Role::Dot, frames, reductions)?;
            step(join_dot(), number, frames, reductions)
        }
        _ => Ok(Some(awaits)),
    }
}

// Reads a token: what may come behind it, or none where it can't stand here.
fn read_token(
    role: Role,
    sign: Sign,
    number: usize,
    awaits: Awaits,
    frames: &mut Frames,
    reductions: &mut Sequence<Reduction>,
) -> Result<Option<Awaits>, AllocError>
    ensures { IfOk result (λ next. token_read role sign number awaits frames.old reductions.old ≡ option_map (λ a. situation a frames.new reductions.new) next) }
{
    let seen = complete(
        awaits,
        role,
        frames.innermost(),
        frames.around(),
        frames.parts(),
    );
    let Some(awaits) = step(seen, number, frames, reductions)? else {
        return Ok(None);
    };
    let Some(awaits) = settle_and_join(awaits, role, number, frames, reductions)? else {
        return Ok(None);
    };
    let last = last_made(reductions);
    let taken = take(
        awaits,
        role,
        sign,
        frames.innermost(),
        frames.around(),
        last,
    );
    step(taken, number, frames, reductions)
}

// Reads the end of the text, which is as a `;;`.
fn read_end(
    number: usize,
    end: Place,
    awaits: Awaits,
    frames: &mut Frames,
    mut reductions: Sequence<Reduction>,
) -> Result<Result<Sequence<Reduction>, Place>, AllocError>
    ensures { IfOk result (λ outcome. ended number end awaits frames.old reductions ≡ outcome) }
{
    let role = Role::DoubleSemicolon;
    match read_token(role, Sign::Other, number, awaits, frames, &mut reductions)? {
        Some(_) => Ok(Ok(reductions)),
        None => Ok(Err(end)),
    }
}

/// The reductions of a program's tokens, or the place of the first token with which no program can
/// go on, or that of the end of the text.
pub fn read(
    alloc: Global,
    tokens: &Tokens,
) -> Result<Result<Sequence<Reduction>, Place>, AllocError>
    ensures { IfOk result (λ outcome. reading tokens.now ≡ outcome) }
{
    let mut frames = Frames::new(alloc);
    let mut reductions = Sequence::empty(alloc);
    let mut awaits = Awaits::FirstItem;
    for i in 0..tokens.len() {
        let token = tokens.view(i);
        let role = role_of(&token);
        let sign = sign_at(tokens, awaits, &frames, role, token.text);
        match read_token(role, sign, i, awaits, &mut frames, &mut reductions)? {
            Some(next) => awaits = next,
            None => return Ok(Err(token.place)),
        }
    }
    read_end(tokens.len(), tokens.end(), awaits, &mut frames, reductions)
}
