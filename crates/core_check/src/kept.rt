//! The names of the left sides of or-patterns whose right sides are walked over.

ghost use Rattle.std.specs.Prelude.{◌≡◌, ◌∷◌, [], OnOk, IfSome};

use effect_meaning::Sequence;
use std::alloc::{AllocError, Global};
use std::marker::Model;

/// Lists of names, the last one on top.
#[derive(Drop)]
pub struct Kept {
    lists: Vec<Sequence<u32>>,
}

impl Model for Kept {
    ghost use Rattle.std.specs.Prelude.{List, ℕ, reverse};

    ghost Value = { List (List ℕ) };

    ghost view = { λ a. reverse a.lists.items };
}

impl Kept {
    /// No lists. It takes no memory.
    pub fn new(alloc: Global) -> Kept
        ensures { result ≡ [] }
    {
        Kept {
            lists: Vec::new(alloc),
        }
    }

    /// A further list.
    pub fn push(&mut self, names: Sequence<u32>) -> Result<(), AllocError>
        ensures { OnOk result (self.new ≡ names ∷ self.old) }
    {
        self.lists.push(names)?;
        Ok(())
    }

    /// Takes the last list off.
    pub fn pop(&mut self) -> Option<Sequence<u32>>
        ensures { IfSome result (λ names. self.old ≡ names ∷ self.new) }
    {
        self.lists.pop()
    }
}
