//! A list inside a node or a row.

ghost use Rattle.std.specs.Prelude.{◌≡◌, [], length};

use std::alloc::Global;
use std::marker::Model;

/// A `Vec` that contracts see as the list of its elements.
#[derive(Drop)]
pub struct Sequence<T> {
    elements: Vec<T>,
}

impl<T> Model for Sequence<T> {
    ghost use Rattle.std.specs.Prelude.{List};
    ghost use Rattle.std.specs.Coded.{coded_list};

    ghost Value = { List T };

    ghost coded = { coded_list T.code };

    ghost view = { λ s. s.elements.items };
}

impl<T> Sequence<T> {
    /// The sequence of no elements. It takes no memory.
    pub fn empty(alloc: Global) -> Sequence<T>
        ensures { result ≡ [] }
    {
        Sequence {
            elements: Vec::new(alloc),
        }
    }

    /// The sequence of these elements. It takes no memory.
    pub fn from_vec(elements: Vec<T>) -> Sequence<T>
        ensures { result ≡ elements.items }
    {
        Sequence { elements }
    }

    /// The elements. It takes no memory.
    pub fn into_vec(self) -> Vec<T>
        ensures { result.items ≡ self }
    {
        let Sequence { elements } = self;
        elements
    }

    /// The elements, to be read.
    pub fn as_slice(&self) -> &[T]
        ensures { result.now ≡ self.now }
    {
        self.elements.as_slice()
    }

    /// How many elements there are.
    pub fn len(&self) -> usize
        ensures { result ≡ length self.now }
    {
        self.elements.len()
    }
}
