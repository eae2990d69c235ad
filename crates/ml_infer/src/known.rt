//! What is known by number.

ghost use Rattle.std.specs.Prelude.{◌≡◌, [], OnOk};
ghost use Rattle.ml_infer.specs.Known.{known, noted, put, reaching};

use std::alloc::{AllocError, Global};
use std::marker::Model;

/// What is known of each number, so far as anything is. Contracts see it as a list.
#[derive(Drop)]
pub struct Known<T> {
    items: Vec<Option<T>>,
}

impl<T> Model for Known<T> {
    ghost use Rattle.std.specs.Prelude.{List, Option};

    ghost Value = { List (Option T) };

    ghost view = { λ k. k.items.items };
}

impl<T: Copy + Drop> Known<T> {
    /// Nothing is known of any number.
    pub fn new(alloc: Global) -> Known<T>
        ensures { result ≡ [] }
    {
        Known {
            items: Vec::new(alloc),
        }
    }

    /// What is known of a number.
    pub fn get(&self, n: u32) -> Option<T>
        ensures { result ≡ known self.now n }
    {
        match self.items.get(n as usize) {
            Some(item) => *item,
            None => None,
        }
    }

    // Makes room for a number.
    #[tactic(auto, using(crate::proofs::Room::more_room, crate::proofs::Room::no_room))]
    fn reach(&mut self, n: u32) -> Result<(), AllocError>
        ensures { OnOk result (self.new ≡ reaching n self.old) }
    {
        let missing = (n as usize + 1).saturating_sub(self.items.len());
        for _more in 0..missing {
            self.items.push(None)?;
        }
        Ok(())
    }

    /// From here on this is known of a number, or nothing.
    pub fn put(&mut self, n: u32, item: Option<T>) -> Result<(), AllocError>
        ensures { OnOk result (self.new ≡ put n item self.old) }
    {
        self.reach(n)?;
        if (n as usize) < self.items.len() {
            self.items[n as usize] = item;
        }
        Ok(())
    }

    /// From here on this is known of a number.
    pub fn set(&mut self, n: u32, item: T) -> Result<(), AllocError>
        ensures { OnOk result (self.new ≡ noted n item self.old) }
    {
        self.put(n, Some(item))
    }
}
