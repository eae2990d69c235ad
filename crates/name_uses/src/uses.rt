//! What the names of a program stand for, node by node.

use crate::values::{TypeValue, Value};
use effect_meaning::Constructor;
use std::alloc::{AllocError, Global};

/// What the name of a node stands for.
#[derive(Clone, Copy)]
pub enum Use {
    /// The node has no name, or the name stands for nothing.
    Nothing,
    /// The value of a lower name.
    Value(Value),
    Constructor(Constructor),
    /// The field of a field access, by its row.
    Field(u32),
    Type(TypeValue),
    /// A type variable of the item.
    Variable(u32),
    /// A name that the node binds.
    Name(u32),
    /// The rows of the fields of a record, or the names that the bindings of a `let` bind: the
    /// numbers from here on.
    Numbers(usize),
}

/// What the names of an item stand for.
#[derive(Clone, Copy)]
pub enum ItemUse {
    Nothing,
    /// The names that the bindings of a `let` bind: the numbers from here on.
    Numbers(usize),
    /// The row of the type that an item of effects extends.
    Extended(u32),
}

/// What the names of a program stand for.
#[derive(Drop)]
pub struct Uses {
    nodes: Vec<Use>,
    items: Vec<ItemUse>,
    numbers: Vec<u32>,
}

impl Uses {
    /// Nothing is known of so many nodes.
    pub fn new(alloc: Global, count: usize) -> Result<Uses, AllocError> {
        let mut nodes = Vec::with_capacity(alloc, count)?;
        for _ in 0..count {
            nodes.push(Use::Nothing)?;
        }
        Ok(Uses {
            nodes,
            items: Vec::new(alloc),
            numbers: Vec::new(alloc),
        })
    }

    /// What the name of a node stands for.
    pub fn of_node(&self, node: u32) -> Use {
        match self.nodes.get(node as usize) {
            Some(meaning) => *meaning,
            None => Use::Nothing,
        }
    }

    /// Notes what the name of a node stands for.
    pub fn set(&mut self, node: u32, meaning: Use) {
        if let Some(place) = self.nodes.get_mut(node as usize) {
            *place = meaning;
        }
    }

    /// What the names of an item stand for.
    pub fn of_item(&self, item: usize) -> ItemUse {
        match self.items.get(item) {
            Some(meaning) => *meaning,
            None => ItemUse::Nothing,
        }
    }

    /// Notes what the names of the next item stand for.
    pub fn add_item(&mut self, meaning: ItemUse) -> Result<(), AllocError> {
        self.items.push(meaning)?;
        Ok(())
    }

    /// How many numbers there are.
    pub fn len(&self) -> usize {
        self.numbers.len()
    }

    /// A further number, at the end.
    pub fn add(&mut self, number: u32) -> Result<(), AllocError> {
        self.numbers.push(number)?;
        Ok(())
    }

    /// The number at a place, or 0.
    pub fn number(&self, at: usize) -> u32 {
        match self.numbers.get(at) {
            Some(number) => *number,
            None => 0,
        }
    }

    /// The number so many places behind a first one, or 0.
    pub fn number_behind(&self, first: usize, count: usize) -> u32 {
        match first.checked_add(count) {
            Some(at) => self.number(at),
            None => 0,
        }
    }

    /// Changes the number at a place.
    pub fn set_number(&mut self, at: usize, number: u32) {
        if let Some(place) = self.numbers.get_mut(at) {
            *place = number;
        }
    }
}
