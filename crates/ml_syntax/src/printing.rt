//! A program as a text again.

ghost use Rattle.std.specs.Prelude.{◌≡◌, IfErr};
ghost use Rattle.fx_base.specs.declared.refusal.Refusal.TheVariants.{Memory};

use crate::form_pieces::node_pieces;
use crate::item_pieces::item_pieces;
use crate::nodes::Nodes;
use crate::pieces::{Piece, Pieces};
use crate::prog::{Item, Prog};
use fx_base::Refusal;
use std::alloc::{AllocError, Global};

// Turns round what stands from a place on.
fn reverse_from(pieces: &mut Pieces<'_>, kept: usize) {
    if kept <= pieces.len() {
        pieces.as_mut_slice()[kept..].reverse();
    }
}

// Puts the pieces of a form on a stack, the first one on top.
fn push_form<'a>(pieces: &mut Pieces<'a>, nodes: &'a Nodes, number: u32) -> Result<(), AllocError> {
    let kept = pieces.len();
    if let Some(node) = nodes.as_slice().get(number as usize) {
        node_pieces(pieces, node)?;
    }
    reverse_from(pieces, kept);
    Ok(())
}

// Prints the pieces on a stack, each word with a blank behind it.
fn print_pieces<'a>(
    nodes: &'a Nodes,
    mut pieces: Pieces<'a>,
    out: &mut Vec<u8>,
) -> Result<(), AllocError> {
    for _ in 0..u64::MAX {
        match pieces.pop() {
            Some(Piece::Word(text)) => {
                out.extend_from_slice(text)?;
                out.push(b' ')?;
            }
            Some(Piece::Form(number)) => push_form(&mut pieces, nodes, number)?,
            None => return Ok(()),
        }
    }
    // The text of so many pieces fits no memory.
    Err(AllocError)
}

// Prints an item on a line, with `;;` at its end.
fn print_item(
    alloc: Global,
    nodes: &Nodes,
    item: &Item,
    out: &mut Vec<u8>,
) -> Result<(), AllocError> {
    let mut pieces = Vec::new(alloc);
    item_pieces(&mut pieces, item)?;
    reverse_from(&mut pieces, 0);
    print_pieces(nodes, pieces, out)?;
    out.extend_from_slice(b";;\n")?;
    Ok(())
}

/// A text that parses to the same program, places aside: its tokens with a blank behind each, and
/// `;;` and a newline behind each item.
///
/// # Errors
///
/// [`Refusal::Memory`] alone.
pub fn print(alloc: Global, prog: &Prog) -> Result<Vec<u8>, Refusal>
    ensures memory { IfErr result (λ refusal. refusal ≡ Memory) }
{
    let mut out = Vec::new(alloc);
    for item in prog.items.as_slice() {
        print_item(alloc, &prog.nodes, item, &mut out)?;
    }
    Ok(out)
}
