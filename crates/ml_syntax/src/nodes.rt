//! The arena of nodes.

ghost use Rattle.std.specs.Prelude.{◌≡◌, ◌<◌, ◌≤◌, ◌-◌, ◌+◌, ◌^◌, [], ◌∷◌, ◌++◌, length, drop, OnOk, OnErr, IsErr};
ghost use Rattle.ml_syntax.specs.Depth.{AreBelow, depth};

use crate::node::Node;
use crate::node_depth::depth_behind;
use std::alloc::{AllocError, Global};
use std::marker::Model;

/// Nodes by their numbers, from 0. A node's parts stand before it.
#[derive(Drop)]
pub struct Nodes {
    nodes: Vec<Node>,
    depths: Vec<u32>,
    deepest: u32,
}

impl Model for Nodes {
    ghost use Rattle.std.specs.Prelude.{List};
    ghost use Rattle.ml_syntax.specs.declared.node.Node.{Node};
    ghost use Rattle.ml_syntax.specs.Arena.{IsArena};

    ghost Value = { List Node };

    ghost view = { λ a. a.nodes.items };

    ghost invariant = { λ a. IsArena a.nodes.items a.depths.items a.deepest };
}

// Lets a value go.
fn refused<T: Drop>(_value: T) -> Result<(), AllocError>
    ensures { IsErr result }
{
    Err(AllocError)
}

// Puts a value and a number at the ends of two lists, or leaves both as they were.
fn append_both<T: Drop>(
    values: &mut Vec<T>,
    numbers: &mut Vec<u32>,
    value: T,
    number: u32,
) -> Result<(), AllocError>
    ensures few { OnOk result (length values.old.items < 2 ^ 32 - 1) }
    ensures values { OnOk result (values.new.items ≡ values.old.items ++ value ∷ []) }
    ensures numbers { OnOk result (numbers.new.items ≡ numbers.old.items ++ number ∷ []) }
    ensures values_kept { OnErr result (values.new.items ≡ values.old.items) }
    ensures numbers_kept { OnErr result (numbers.new.items ≡ numbers.old.items) }
{
    if values.len() >= u32::MAX as usize {
        return Err(AllocError);
    }
    numbers.push(number)?;
    if values.push(value).is_err() {
        let _ = numbers.pop();
        return Err(AllocError);
    }
    Ok(())
}

impl Nodes {
    /// No nodes. It takes no memory.
    #[tactic(auto, using(crate::proofs::Grows::empty_arena))]
    pub fn new(alloc: Global) -> Nodes
        ensures { result ≡ [] }
    {
        Nodes {
            nodes: Vec::new(alloc),
            depths: Vec::new(alloc),
            deepest: 0,
        }
    }

    /// How many nodes there are.
    pub fn len(&self) -> usize
        ensures { result ≡ length self.now }
    {
        self.nodes.len()
    }

    /// The number of the last node, or 0 where there is none.
    pub fn last_number(&self) -> u32
        ensures { result ≡ length self.now - 1 }
    {
        let len = self.nodes.len();
        if len == 0 { 0 } else { (len - 1) as u32 }
    }

    /// One more node at the end. A node that names a part which isn't there, and a number of nodes or
    /// a depth above 4,294,967,295, are refused as memory is; nothing is changed then.
    pub fn push(&mut self, node: Node) -> Result<(), AllocError>
        ensures ok { OnOk result (self.new ≡ self.old ++ node ∷ []) }
        ensures err { OnErr result (self.new ≡ self.old) }
    {
        match depth_behind(self.depths.as_slice(), &node) {
            Some(depth) => {
                append_both(&mut self.nodes, &mut self.depths, node, depth)?;
                self.deepest = self.deepest.max(depth);
                Ok(())
            }
            None => refused(node),
        }
    }

    /// The nodes, to be read. A part's number is below its form's.
    pub fn as_slice(&self) -> &[Node]
        ensures nodes { result.now ≡ self.now }
        ensures below { AreBelow self.now }
    {
        self.nodes.as_slice()
    }

    /// The depth of the deepest node, or 0 where there is none.
    pub fn depth(&self) -> u64
        ensures { result ≡ depth self.now }
    {
        self.deepest as u64
    }
}
