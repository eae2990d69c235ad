//! Ends the forms that end before a token.

ghost use Rattle.std.specs.Prelude.{◌≡◌, Some, OnOk};
ghost use Rattle.ml_parser.specs.Changed.{state};
ghost use Rattle.ml_parser.specs.Settled.{last_made, settled};

use crate::changing::change;
use crate::frames::Frames;
use ml_builder::Reduction;
use ml_moves::{Change, Last, made_before, made_by};
use ml_syntax::{Role, Sequence};
use std::alloc::AllocError;

/// What the last reduction made.
pub fn last_made(reductions: &Sequence<Reduction>) -> Last
    ensures { result ≡ last_made reductions.now }
{
    match reductions.as_slice().last() {
        Some(reduction) => made_by(reduction.rule, reduction.count),
        None => Last::Other,
    }
}

/// Ends the forms that end before a token.
#[tactic(auto, using(crate::proofs::EndsForms::settled_once, crate::proofs::EndsForms::settled_none, crate::proofs::EndsForms::fewer))]
pub fn settle(
    role: Role,
    frames: &mut Frames,
    reductions: &mut Sequence<Reduction>,
) -> Result<(), AllocError>
    ensures { OnOk result (settled role frames.old reductions.old ≡ state frames.new reductions.new) }
{
    while let Some(rule) = made_before(role, frames.innermost(), last_made(reductions)) {
        change(Change::Close(rule), 0, frames, reductions)?;
    }
    Ok(())
}
