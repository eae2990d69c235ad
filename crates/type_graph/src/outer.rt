//! Types become outer.

ghost use Rattle.std.specs.Prelude.{◌≡◌, ◌∷◌, [], OnOk};
ghost use Rattle.type_graph.specs.Outer.{item_ended, made_outer, outward, root_outer};

use crate::stack::Stack;
use crate::types::{Node, Types};
use std::alloc::AllocError;
use std::mem;

impl Types {
    // A root becomes outer, and its parts are to become so.
    fn make_root_outer(&mut self, root: u32, pending: &mut Stack<u32>) -> Result<(), AllocError>
        ensures { OnOk result (root_outer root pending.old self.old ≡ outward pending.new self.new) }
    {
        let node = self.node(root);
        if node.is_outer {
            return Ok(());
        }
        pending.push_all(self.arguments(node.form))?;
        self.set(
            root,
            Node {
                is_outer: true,
                ..node
            },
        );
        Ok(())
    }

    /// From here on types and their parts are outer.
    pub fn make_each_outer(&mut self, mut pending: Stack<u32>) -> Result<(), AllocError>
        ensures { OnOk result (self.new ≡ made_outer u64.MAX pending self.old) }
    {
        for _step in 0..u64::MAX {
            let Some(n) = pending.pop() else {
                return Ok(());
            };
            self.make_root_outer(self.root(n), &mut pending)?;
        }
        Err(AllocError)
    }

    /// From here on a type and its parts are outer.
    pub fn make_outer(&mut self, n: u32) -> Result<(), AllocError>
        ensures { OnOk result (self.new ≡ made_outer u64.MAX (n ∷ []) self.old) }
    {
        let mut pending = Stack::new(self.alloc);
        pending.push(n)?;
        self.make_each_outer(pending)
    }

    /// What an item gave to outer variables is outer from here on.
    pub fn end_item(&mut self) -> Result<(), AllocError>
        ensures { OnOk result (self.new ≡ item_ended self.old) }
    {
        let given = mem::replace(&mut self.given, Stack::new(self.alloc));
        self.make_each_outer(given)
    }
}
