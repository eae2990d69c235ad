//! Makes the changes that a token asks for.

ghost use Rattle.std.specs.Prelude.{◌≡◌, ◌+◌, [], ◌∷◌, ◌++◌, Some, OnOk};
ghost use Rattle.ml_parser.specs.Changed.{changed, changed_frame, state};

use crate::frames::{Frame, Frames};
use ml_builder::{Reduction, Rule};
use ml_moves::{Change, Form};
use ml_syntax::Sequence;
use std::alloc::AllocError;

/// One more reduction.
pub fn reduce(
    rule: Rule,
    token: usize,
    count: usize,
    reductions: &mut Sequence<Reduction>,
) -> Result<(), AllocError>
    ensures { OnOk result (reductions.new ≡ reductions.old ++ record { rule = rule; token = token; count = count } ∷ []) }
{
    reductions.push(Reduction { rule, token, count })
}

// A further part of a form.
fn counted(frame: Frame, form: Form, frames: &mut Frames) -> Result<(), AllocError>
    ensures { OnOk result (frames.new ≡ record { form = form; token = frame.token; parts = frame.parts + 1 } ∷ frames.old) }
{
    match frame.parts.checked_add(1) {
        Some(parts) => frames.push(Frame {
            form,
            token: frame.token,
            parts,
        }),
        None => Err(AllocError),
    }
}

// A change of the innermost form, which is off the stack. Nothing else is one.
#[tactic(auto, unfolding(crate::specs::Changed::changed_frame))]
fn change_frame(
    change: Change,
    token: usize,
    frame: Frame,
    frames: &mut Frames,
    reductions: &mut Sequence<Reduction>,
) -> Result<(), AllocError>
    ensures { OnOk result (changed_frame change token frame frames.old reductions.old ≡ Some (state frames.new reductions.new)) }
{
    match change {
        Change::OpenOver(form) => {
            frames.push(frame)?;
            frames.push(Frame { form, ..frame })
        }
        Change::Become(form) => frames.push(Frame { form, ..frame }),
        Change::Count(form) => counted(frame, form, frames),
        Change::Restart(form) => frames.push(Frame {
            form,
            token,
            ..frame
        }),
        Change::RestartBefore(form) => frames.push(Frame {
            form,
            token: token.saturating_sub(1),
            ..frame
        }),
        Change::Close(rule) => reduce(rule, frame.token, frame.parts, reductions),
        Change::Empty(rule) => reduce(rule, frame.token, 0, reductions),
        Change::Turn(rule, form) => {
            reduce(rule, frame.token, frame.parts, reductions)?;
            frames.push(Frame { form, ..frame })
        }
        Change::Withdraw => Ok(()),
        _ => Err(AllocError),
    }
}

/// Makes a change at the token of this number. Where the change is of an open form and nothing is
/// open, that is refused as memory is.
#[tactic(auto, unfolding(crate::specs::Changed::changed))]
pub fn change(
    change: Change,
    token: usize,
    frames: &mut Frames,
    reductions: &mut Sequence<Reduction>,
) -> Result<(), AllocError>
    ensures { OnOk result (changed change token frames.old reductions.old ≡ Some (state frames.new reductions.new)) }
{
    match change {
        Change::Nothing => Ok(()),
        Change::Leaf(rule) => reduce(rule, token, 0, reductions),
        Change::LeafBefore(rule) => reduce(rule, token.saturating_sub(1), 0, reductions),
        Change::Name(rule) => {
            reduce(Rule::Word, token, 0, reductions)?;
            reduce(rule, token, 1, reductions)
        }
        Change::Open(form, parts) => frames.push(Frame { form, token, parts }),
        Change::OpenBefore(form) => frames.push(Frame {
            form,
            token: token.saturating_sub(1),
            parts: 1,
        }),
        _ => {
            let frame = frames.pop()?;
            change_frame(change, token, frame, frames, reductions)
        }
    }
}
