//! The names that are in scope.

ghost use Rattle.std.specs.Prelude.{◌≡◌, ◌-◌, ◌∷◌, [], Bool, true, false, length, drop, take, reverse, IfOk, IsTrue};
ghost use Rattle.effect_meaning.specs.Scoped.{holds};
ghost use Rattle.core_check.specs.Walk.{all_held, none_held, bound_behind};

use effect_meaning::Sequence;
use indexmap::IndexSet;
use std::alloc::{AllocError, Global};
use std::marker::Model;

/// The names that are in scope, each once, in the order in which they were bound.
#[derive(Drop)]
pub struct Names {
    numbers: IndexSet<u32>,
}

impl Model for Names {
    ghost use Rattle.std.specs.Prelude.{List, ℕ, reverse};

    ghost Value = { List ℕ };

    ghost view = { λ a. reverse a.numbers.keys };
}

impl Names {
    /// No names. It takes no memory.
    pub fn new(alloc: Global) -> Names
        ensures { result ≡ [] }
    {
        Names {
            numbers: IndexSet::new(alloc),
        }
    }

    /// How many names are in scope.
    pub fn len(&self) -> usize
        ensures { result ≡ length self.now }
    {
        self.numbers.len()
    }

    /// Whether a name is in scope.
    #[tactic(auto, using(crate::proofs::Lists::holds_reverse))]
    pub fn holds(&self, name: u32) -> bool
        ensures { result ≡ holds self.now name }
    {
        self.numbers.contains(&name)
    }

    /// Brings a name into scope, if it isn't there. It gives whether it was brought there.
    #[tactic(auto, using(crate::proofs::Lists::holds_reverse))]
    pub fn bind(&mut self, name: u32) -> Result<bool, AllocError>
        ensures new { IfOk result (λ bound. IsTrue bound → holds self.old name ≡ false) }
        ensures bound { IfOk result (λ bound. IsTrue bound → self.new ≡ name ∷ self.old) }
    {
        if self.holds(name) {
            return Ok(false);
        }
        self.numbers.insert(name)?;
        Ok(true)
    }

    /// The names behind the first ones go out of scope.
    #[tactic(auto, using(crate::proofs::Lists::reverse_take))]
    pub fn leave(&mut self, first: usize)
        ensures { self.new ≡ drop (length self.old - first) self.old }
    {
        self.numbers.truncate(first);
    }

    /// The names behind the first ones, the earliest first.
    #[tactic(auto, using(crate::proofs::Lists::reverse_take_back))]
    pub fn behind(&self, alloc: Global, first: usize) -> Result<Sequence<u32>, AllocError>
        ensures { IfOk result (λ names. names ≡ reverse (take (length self.now - first) self.now)) }
    {
        let numbers = self.numbers.as_slice();
        if first > numbers.len() {
            return Err(AllocError);
        }
        Ok(Sequence::from_vec(Vec::from_slice(alloc, &numbers[first..])?))
    }

    /// Whether all names of a list are in scope.
    pub fn all_held(&self, names: &[u32]) -> bool
        ensures { result ≡ all_held self.now names.now }
    {
        for name in names {
            if !self.holds(*name) {
                return false;
            }
        }
        true
    }

    /// Whether no name of a list is in scope.
    pub fn none_held(&self, names: &[u32]) -> bool
        ensures { result ≡ none_held self.now names.now }
    {
        for name in names {
            if self.holds(*name) {
                return false;
            }
        }
        true
    }

    /// Brings the names of a list into scope, in turn. It gives whether each of them was brought there.
    pub fn bind_each(&mut self, names: &[u32]) -> Result<bool, AllocError>
        ensures { IfOk result (λ bound. IsTrue bound → self.new ≡ bound_behind self.old names.now) }
    {
        for name in names {
            if !self.bind(*name)? {
                return Ok(false);
            }
        }
        Ok(true)
    }
}
