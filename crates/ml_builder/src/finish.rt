//! A form that is read to its end.

ghost use Rattle.std.specs.Prelude.{◌≡◌, [], ◌∷◌, ◌++◌, length, OnOk};

use crate::stack::Stack;
use ml_syntax::{Node, Nodes};
use std::alloc::AllocError;

/// Appends a node, whose number is the top of the numbers.
pub fn finish(node: Node, numbers: &mut Stack<u32>, nodes: &mut Nodes) -> Result<(), AllocError>
    ensures nodes { OnOk result (nodes.new ≡ nodes.old ++ node ∷ []) }
    ensures numbers { OnOk result (numbers.new ≡ length nodes.old ∷ numbers.old) }
{
    nodes.push(node)?;
    numbers.push(nodes.last_number())
}
