//! Copies of the types of generalised names.
//!
//! A copy is made from its first type on: each new type first stands for what was copied, and then its
//! arguments are copied in turn. A type knows the number of its latest copy, which is one of the copy
//! at hand where it isn't below the first number of that.

ghost use Rattle.std.specs.Prelude.{◌≡◌, ◌-◌, slice_get, IfOk, OnOk};
ghost use Rattle.type_graph.specs.Copied.{arguments_copied, copied, copied_from, copy_is, forwarded, forwarded_argument, forwarded_arguments};

use crate::form::Form;
use crate::types::{MOST, Node, Types, UNKNOWN};
use std::alloc::AllocError;

impl Types {
    // What stands for a type in the copy whose types begin at this number.
    fn forward(&mut self, base: u32, n: u32) -> Result<u32, AllocError>
        ensures { IfOk result (λ copy. forwarded base n self.old ≡ copy_is copy self.new) }
    {
        let root = self.root(n);
        let node = self.node(root);
        if node.is_outer {
            return Ok(root);
        }
        if node.copy >= base {
            return Ok(node.copy);
        }
        let copy = self.push(Node {
            form: node.form,
            ..UNKNOWN
        })?;
        self.set(root, Node { copy, ..node });
        Ok(copy)
    }

    // Copies the argument of a form at a place, as the last argument of all.
    fn forward_argument(&mut self, base: u32, form: Form, place: usize) -> Result<(), AllocError>
        ensures { OnOk result (self.new ≡ forwarded_argument base form place self.old) }
    {
        if let Some(argument) = self.argument(form, place) {
            let copy = self.forward(base, argument)?;
            self.arguments.push(copy)?;
        }
        Ok(())
    }

    // Copies so many arguments of a form.
    fn forward_arguments(&mut self, base: u32, form: Form, count: u32) -> Result<(), AllocError>
        ensures { OnOk result (self.new ≡ forwarded_arguments count base form 0 self.old) }
    {
        for place in 0..count as usize {
            self.forward_argument(base, form, place)?;
        }
        Ok(())
    }

    // Copies the arguments of a node of the copy.
    fn copy_arguments(&mut self, base: u32, at: u32, node: Node) -> Result<(), AllocError>
        ensures { OnOk result (self.new ≡ arguments_copied base at node self.old) }
    {
        let Form::Applied {
            constructor,
            count,
            ..
        } = node.form
        else {
            return Ok(());
        };
        let first = self.arguments.len();
        if first >= MOST {
            return Err(AllocError);
        }
        self.forward_arguments(base, node.form, count)?;
        let form = Form::Applied {
            constructor,
            first: first as u32,
            count,
        };
        self.set(at, Node { form, ..node });
        Ok(())
    }

    // The node of a number, if there is one.
    fn get(&self, n: usize) -> Option<Node>
        ensures { result ≡ slice_get self.now.nodes n }
    {
        self.nodes.get(n).copied()
    }

    // Copies the arguments of all types of the copy.
    fn copy_from(&mut self, base: usize) -> Result<(), AllocError>
        ensures { OnOk result (self.new ≡ copied_from (33554432 - base) base base self.old) }
    {
        for at in base..MOST {
            let Some(node) = self.get(at) else {
                return Ok(());
            };
            self.copy_arguments(base as u32, at as u32, node)?;
        }
        Err(AllocError)
    }

    /// A copy of a type, with new variables. It shares the outer types.
    pub fn copy(&mut self, n: u32) -> Result<u32, AllocError>
        ensures { IfOk result (λ copy. copied n self.old ≡ copy_is copy self.new) }
    {
        let base = self.len();
        if base >= MOST {
            return Err(AllocError);
        }
        let copy = self.forward(base as u32, n)?;
        self.copy_from(base)?;
        Ok(copy)
    }
}
