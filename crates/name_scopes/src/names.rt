//! What names stand for, scope by scope.

use indexmap::IndexMap;
use std::alloc::{AllocError, Global};

/// A binding that is left later: the name by its number in the map, and what it stood for before.
#[derive(Drop)]
struct Hidden<M: Drop> {
    name: usize,
    before: Option<M>,
}

/// Names of one sort, and what each stands for where it is in scope.
#[derive(Drop)]
pub struct Names<'a, M: Copy + Drop> {
    meanings: IndexMap<&'a [u8], Option<M>>,
    hidden: Vec<Hidden<M>>,
}

impl<'a, M: Copy + Drop> Names<'a, M> {
    /// No names. It takes no memory.
    pub fn new(alloc: Global) -> Names<'a, M> {
        Names {
            meanings: IndexMap::new(alloc),
            hidden: Vec::new(alloc),
        }
    }

    /// What a name stands for, if it is in scope.
    pub fn meaning(&self, name: &[u8]) -> Option<M> {
        match self.meanings.get(name) {
            Some(meaning) => *meaning,
            None => None,
        }
    }

    /// From here on a name stands for something, until the scope is left.
    pub fn bind(&mut self, name: &'a [u8], meaning: M) -> Result<(), AllocError> {
        let before = self.meaning(name);
        self.hidden.reserve(1)?;
        self.meanings.insert(name, Some(meaning))?;
        if let Some(number) = self.meanings.get_index_of(name) {
            self.hidden.push(Hidden {
                name: number,
                before,
            })?;
        }
        Ok(())
    }

    /// How many bindings there are that can be left.
    pub fn bindings(&self) -> usize {
        self.hidden.len()
    }

    /// Leaves the bindings but for the first ones, as many as are given.
    pub fn leave(&mut self, bindings: usize) {
        for _ in bindings..self.hidden.len() {
            if let Some(hidden) = self.hidden.pop()
                && let Some(meaning) = self.meanings.get_index_mut(hidden.name)
            {
                *meaning = hidden.before;
            }
        }
    }
}
