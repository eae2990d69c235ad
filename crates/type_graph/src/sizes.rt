//! How large types are, written out as trees.
//!
//! Types are counted depth first, each once. One that is met while its parts are being counted is a
//! part of itself.

ghost use Rattle.std.specs.Prelude.{◌≡◌, IfOk, OnOk, slice_set};
ghost use Rattle.type_graph.specs.Sized.{all_counted, begun, capped_sum, finished, if_fits, is_too_large, part_counted, part_met, size_at, stepped, type_counted, uncounted};

use crate::stack::Stack;
use crate::types::Types;
use std::alloc::{AllocError, Global};
use std::marker::Model;

/// The greatest size that is allowed.
pub const MOST: u32 = 4096;

/// The least one that is too large, at which counting ends.
pub const TOO_LARGE: u32 = 4097;

/// The size of a type.
#[derive(Clone, Copy)]
pub enum Size {
    Unknown,
    /// Those of its parts are being counted.
    Open,
    Known(u32),
}

/// A type whose parts are being counted: how many of them are, and the sum so far.
#[derive(Clone, Copy)]
pub struct Count {
    pub root: u32,
    pub counted: usize,
    pub total: u32,
}

/// The sizes of all types, as far as the least one that is too large.
#[derive(Drop)]
pub struct Sizes {
    sizes: Vec<Size>,
    /// The types whose parts are being counted, the innermost on top.
    counts: Stack<Count>,
}

impl Model for Sizes {
    ghost use Rattle.type_graph.specs.Sized.{Counting};

    ghost Value = { Counting };

    ghost view = { λ s. record { sizes = s.sizes.items; counts = s.counts } };
}

// A sum of sizes, as far as the least size that is too large.
fn capped_sum(m: u32, n: u32) -> u32
    ensures { result ≡ capped_sum m n }
{
    m.saturating_add(n).min(TOO_LARGE)
}

impl Sizes {
    /// The sizes of all types; none where a type is a part of itself.
    pub fn count(alloc: Global, types: &Types) -> Result<Option<Sizes>, AllocError>
        ensures { IfOk result (λ found. all_counted types.now ≡ found) }
    {
        let Ok(count) = u32::try_from(types.len()) else {
            return Err(AllocError);
        };
        let mut sizes = Sizes::uncounted(alloc, types.len())?;
        for n in 0..count {
            if !sizes.count_one(types, n)? {
                return Ok(None);
            }
        }
        Ok(Some(sizes))
    }

    /// Whether a type is too large.
    pub fn is_too_large(&self, root: u32) -> bool
        ensures { result ≡ is_too_large self.now root }
    {
        match self.size(root) {
            Size::Known(size) => size == TOO_LARGE,
            _ => false,
        }
    }

    // Nothing is known of so many types.
    fn uncounted(alloc: Global, count: usize) -> Result<Sizes, AllocError>
        ensures { IfOk result (λ s. s ≡ uncounted count) }
    {
        Ok(Sizes {
            sizes: vec![in alloc; Size::Unknown; count]?,
            counts: Stack::new(alloc),
        })
    }

    fn size(&self, root: u32) -> Size
        ensures { result ≡ size_at self.now.sizes root }
    {
        match self.sizes.get(root as usize) {
            Some(size) => *size,
            None => Size::Unknown,
        }
    }

    fn set(&mut self, root: u32, size: Size)
        ensures { self.new ≡ record self.old { sizes = slice_set self.old.sizes root size } }
    {
        if (root as usize) < self.sizes.len() {
            self.sizes[root as usize] = size;
        }
    }

    // The parts of a type come next.
    fn begin(&mut self, root: u32) -> Result<(), AllocError>
        ensures { OnOk result (self.new ≡ begun root self.old) }
    {
        self.set(root, Size::Open);
        self.counts.push(Count {
            root,
            counted: 0,
            total: 1,
        })
    }

    // A further part of the innermost type has this size.
    fn add(&mut self, size: u32) -> Result<(), AllocError>
        ensures { OnOk result (self.new ≡ record self.old { counts = part_counted size self.old.counts }) }
    {
        let Some(count) = self.counts.pop() else {
            return Ok(());
        };
        let Some(counted) = count.counted.checked_add(1) else {
            return Err(AllocError);
        };
        self.counts.push(Count {
            root: count.root,
            counted,
            total: capped_sum(count.total, size),
        })
    }

    // The next part of the innermost type. It tells whether it is no part of itself.
    #[tactic(auto, unfolding(crate::specs::Sized::part_met))]
    fn meet(&mut self, root: u32) -> Result<bool, AllocError>
        ensures { IfOk result (λ fits. part_met root self.old ≡ if_fits fits self.new) }
    {
        match self.size(root) {
            Size::Unknown => self.begin(root)?,
            Size::Open => return Ok(false),
            Size::Known(size) => self.add(size)?,
        }
        Ok(true)
    }

    // One step, at the innermost type, which is off the stack. It tells whether counting goes on.
    #[tactic(auto, unfolding(crate::specs::Sized::stepped))]
    fn step(&mut self, types: &Types, count: Count) -> Result<bool, AllocError>
        ensures { IfOk result (λ fits. stepped types.now count self.old ≡ if_fits fits self.new) }
    {
        let form = types.form(count.root);
        let Some(part) = types.argument(form, count.counted) else {
            self.set(count.root, Size::Known(count.total));
            self.add(count.total)?;
            return Ok(true);
        };
        self.counts.push(count)?;
        self.meet(types.root(part))
    }

    // Steps until no type is being counted. It tells whether none is a part of itself.
    fn finish(&mut self, types: &Types) -> Result<bool, AllocError>
        ensures { IfOk result (λ fits. finished u64.MAX types.now self.old.sizes self.old.counts ≡ if_fits fits self.new) }
    {
        for _step in 0..u64::MAX {
            let Some(count) = self.counts.pop() else {
                return Ok(true);
            };
            if !self.step(types, count)? {
                return Ok(false);
            }
        }
        Err(AllocError)
    }

    // Counts a type, unless it was. It tells whether it is no part of itself.
    #[tactic(auto, unfolding(crate::specs::Sized::type_counted))]
    fn count_one(&mut self, types: &Types, n: u32) -> Result<bool, AllocError>
        ensures { IfOk result (λ fits. type_counted types.now n self.old ≡ if_fits fits self.new) }
    {
        let root = types.root(n);
        match self.size(root) {
            Size::Unknown => {
                self.begin(root)?;
                self.finish(types)
            }
            _ => Ok(true),
        }
    }
}
