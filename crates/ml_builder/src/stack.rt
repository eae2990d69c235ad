//! Stacks of what is read.

ghost use Rattle.std.specs.Prelude.{◌≡◌, [], ◌∷◌, IfOk, OnOk, drop};
ghost use Rattle.ml_builder.specs.Stack.{top};

use ml_syntax::Sequence;
use std::alloc::{AllocError, Global};
use std::marker::Model;

/// A stack, which contracts see as a list, the top first.
#[derive(Drop)]
pub struct Stack<T> {
    items: Vec<T>,
}

impl<T> Model for Stack<T> {
    ghost use Rattle.std.specs.Prelude.{List, reverse};

    ghost Value = { List T };

    ghost view = { λ a. reverse a.items.items };
}

impl<T: Drop> Stack<T> {
    /// Nothing.
    pub fn new(alloc: Global) -> Stack<T>
        ensures { result ≡ [] }
    {
        Stack {
            items: Vec::new(alloc),
        }
    }

    /// Puts a value on top.
    pub fn push(&mut self, item: T) -> Result<(), AllocError>
        ensures { OnOk result (self.new ≡ item ∷ self.old) }
    {
        self.items.push(item)?;
        Ok(())
    }

    /// Takes the top off. An empty stack is refused as memory is.
    pub fn pop(&mut self) -> Result<T, AllocError>
        ensures { IfOk result (λ top. self.old ≡ top ∷ self.new) }
    {
        match self.items.pop() {
            Some(item) => Ok(item),
            None => Err(AllocError),
        }
    }

    /// Takes so many values off, and gives them in the order in which they were pushed. A stack of
    /// fewer is refused as memory is.
    pub fn take(&mut self, count: usize) -> Result<Sequence<T>, AllocError>
        ensures taken { IfOk result (λ values. values ≡ top count self.old) }
        ensures left { OnOk result (self.new ≡ drop count self.old) }
    {
        if count > self.items.len() {
            return Err(AllocError);
        }
        let values = self.items.split_off(self.items.len() - count)?;
        Ok(Sequence::from_vec(values))
    }
}
