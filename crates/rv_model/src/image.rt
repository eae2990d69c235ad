//! Images.

ghost use Rattle.rv_model.specs.Start.{AreRising, AreNotZero, AreBelow};

use crate::code::Code;
use crate::hart::Hart;
use crate::items::Items;
use fx_base::Settings;
use std::alloc::{AllocError, Global};

/// A word that isn't 0 at the start: its number and its value.
#[derive(Clone, Copy, PartialEq, Eq, Debug)]
pub struct StartWord {
    pub at: u64,
    pub value: u64,
}

/// A program for the machine: its settings, its code, the words that aren't 0 at the start, by rising
/// number, and the number of all words.
#[derive(Debug, Drop)]
pub struct Image {
    pub settings: Settings,
    pub code: Code,
    pub start: Items<StartWord>,
    pub size: u64,
    pub ghost rising: { AreRising start },
    pub ghost not_zero: { AreNotZero start },
    pub ghost below: { AreBelow size start },
}

impl Image {
    ghost use Rattle.std.specs.Prelude.{◌≡◌, length, IfOk};
    ghost use Rattle.rv_model.specs.Machine.{words_of};
    ghost use Rattle.rv_model.specs.Start.{first_harts, start_words};

    /// The words at the start of a run. Refused only for want of memory.
    pub fn first_words(&self, alloc: Global) -> Result<Vec<u64>, AllocError>
        ensures size { IfOk result (λ words. length words.items ≡ self.now.size) }
        ensures words { IfOk result (λ words. words_of words.items ≡ start_words self.now.start) }
    {
        let mut words = vec![in alloc; 0; self.size as usize]?;
        for word in self.start.as_slice() {
            words[word.at as usize] = word.value;
        }
        Ok(words)
    }

    /// The harts at the start of a run. Refused only for want of memory.
    pub fn first_harts(&self, alloc: Global) -> Result<Vec<Hart>, AllocError>
        ensures { IfOk result (λ harts. harts.items ≡ first_harts 0 self.now.settings.domains) }
    {
        let mut harts = Vec::with_capacity(alloc, self.settings.domains as usize)?;
        for number in 0..self.settings.domains {
            harts.push(Hart::first(number as u64))?;
        }
        Ok(harts)
    }
}
