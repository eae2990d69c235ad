//! Stacks of what is still to be done.

ghost use Rattle.std.specs.Prelude.{◌≡◌, [], ◌∷◌, ◌++◌, reverse, Some, None, IfSome, OnOk};

use std::alloc::{AllocError, Global};
use std::marker::Model;

/// A stack, which contracts see as a list, the top first.
#[derive(Drop)]
pub struct Stack<T> {
    items: Vec<T>,
}

impl<T> Model for Stack<T> {
    ghost use Rattle.std.specs.Prelude.{List, reverse};

    ghost Value = { List T };

    ghost view = { λ a. reverse a.items.items };
}

impl<T: Copy + Drop> Stack<T> {
    /// Nothing.
    pub fn new(alloc: Global) -> Stack<T>
        ensures { result ≡ [] }
    {
        Stack {
            items: Vec::new(alloc),
        }
    }

    /// Puts a value on top.
    pub fn push(&mut self, item: T) -> Result<(), AllocError>
        ensures { OnOk result (self.new ≡ item ∷ self.old) }
    {
        self.items.push(item)?;
        Ok(())
    }

    /// Puts values on top, the last of them uppermost.
    pub fn push_all(&mut self, items: &[T]) -> Result<(), AllocError>
        ensures { OnOk result (self.new ≡ reverse items.now ++ self.old) }
    {
        self.items.extend_from_slice(items)?;
        Ok(())
    }

    /// Puts values on top, the first of them uppermost.
    #[tactic(auto, using(crate::proofs::Uppermost::one_uppermost, crate::proofs::Uppermost::none_uppermost))]
    pub fn push_first(&mut self, items: &[T]) -> Result<(), AllocError>
        ensures { OnOk result (self.new ≡ items.now ++ self.old) }
    {
        let mut left = items;
        while let Some((last, rest)) = left.split_last() {
            self.push(*last)?;
            left = rest;
        }
        Ok(())
    }

    /// All values, the top last.
    #[tactic(auto, using(crate::proofs::Uppermost::turned_twice))]
    pub fn as_slice(&self) -> &[T]
        ensures { result.now ≡ reverse self.now }
    {
        self.items.as_slice()
    }

    /// Takes the top off, if there is one.
    pub fn pop(&mut self) -> Option<T>
        ensures some { IfSome result (λ top. self.old ≡ top ∷ self.new) }
        ensures none { result ≡ None → self.old ≡ [] }
        ensures empty { result ≡ None → self.new ≡ [] }
    {
        self.items.pop()
    }
}
