//! Types are made equal.
//!
//! Two roots become one by a link from the one of lower rank, so that no row of links is long.

ghost use Rattle.std.specs.Prelude.{◌≡◌, ◌∷◌, [], IfOk, OnOk};
ghost use Rattle.type_graph.specs.Unified.{argument_pairs, clash, merge, merged, merged_outer, pairs, roots_unified, unified, unified_is};

use crate::form::Form;
use crate::stack::Stack;
use crate::types::{Node, Types, UNKNOWN};
use std::alloc::AllocError;

// Whether two type constructors differ, or take a different number of arguments.
fn clash(left: Form, right: Form) -> bool
    ensures { result ≡ clash left right }
{
    match (left, right) {
        (
            Form::Applied {
                constructor: one,
                count: some,
                ..
            },
            Form::Applied {
                constructor: other,
                count,
                ..
            },
        ) => one != other || some != count,
        _ => false,
    }
}

// Whether a type that is both is outer. What an outer variable becomes isn't yet.
fn merged_outer(left: Node, right: Node) -> bool
    ensures { result ≡ merged_outer left right }
{
    match (left.form.is_variable(), right.form.is_variable()) {
        (true, false) => right.is_outer,
        (false, true) => left.is_outer,
        _ => left.is_outer || right.is_outer,
    }
}

// The one node of two roots.
fn merged(left: Node, right: Node) -> Node
    ensures { result ≡ merged left right }
{
    let form = if left.form.is_variable() {
        right.form
    } else {
        left.form
    };
    let rank = if left.rank == right.rank {
        left.rank.saturating_add(1)
    } else {
        left.rank.max(right.rank)
    };
    Node {
        form,
        is_outer: merged_outer(left, right),
        rank,
        copy: 0,
    }
}

impl Types {
    // Makes two different roots one. An outer variable gives what it becomes to earlier items.
    fn merge(&mut self, a: u32, b: u32) -> Result<(), AllocError>
        ensures { OnOk result (self.new ≡ merge a b self.old) }
    {
        let (left, right) = (self.node(a), self.node(b));
        let node = merged(left, right);
        let (kept, gone) = if left.rank < right.rank {
            (b, a)
        } else {
            (a, b)
        };
        if (left.is_outer || right.is_outer) && !node.is_outer {
            self.given.push(kept)?;
        }
        self.set(kept, node);
        self.set(
            gone,
            Node {
                form: Form::Link(kept),
                ..UNKNOWN
            },
        );
        Ok(())
    }

    // Puts the pairs of the arguments of two forms before those that are to be made equal.
    #[tactic(auto, using(crate::proofs::Opening::pair_opened, crate::proofs::Opening::none_opened))]
    fn open_arguments(
        &self,
        left: Form,
        right: Form,
        pending: &mut Stack<(u32, u32)>,
    ) -> Result<(), AllocError>
        ensures { OnOk result (pending.new ≡ argument_pairs self.now left right pending.old) }
    {
        let (mut first, mut second) = (self.arguments(left), self.arguments(right));
        while let (Some((x, xs)), Some((y, ys))) = (first.split_first(), second.split_first()) {
            pending.push((*x, *y))?;
            (first, second) = (xs, ys);
        }
        Ok(())
    }

    // Makes two roots equal. It tells whether they don't clash.
    fn unify_roots(
        &mut self,
        a: u32,
        b: u32,
        pending: &mut Stack<(u32, u32)>,
    ) -> Result<bool, AllocError>
        ensures { IfOk result (λ fits. roots_unified a b pending.old self.old ≡ pairs fits pending.new self.new) }
    {
        if a == b {
            return Ok(true);
        }
        let (left, right) = (self.node(a).form, self.node(b).form);
        if clash(left, right) {
            return Ok(false);
        }
        self.open_arguments(left, right, pending)?;
        self.merge(a, b)?;
        Ok(true)
    }

    /// Makes two types equal. It tells whether they can be, where a type may be a part of itself.
    pub fn unify(&mut self, a: u32, b: u32) -> Result<bool, AllocError>
        ensures { IfOk result (λ fits. unified u64.MAX ((a, b) ∷ []) self.old ≡ unified_is fits self.new) }
    {
        let mut pending = Stack::new(self.alloc);
        pending.push((a, b))?;
        for _step in 0..u64::MAX {
            let Some((a, b)) = pending.pop() else {
                return Ok(true);
            };
            let (a, b) = (self.root(a), self.root(b));
            if !self.unify_roots(a, b, &mut pending)? {
                return Ok(false);
            }
        }
        Err(AllocError)
    }
}
