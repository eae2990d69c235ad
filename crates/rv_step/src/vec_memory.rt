//! Words in a vector.

ghost use Rattle.std.specs.Prelude.{◌≡◌, Some, length, ◌==◌, if◌then◌else◌};
ghost use Rattle.std.proofs.Common.{le_refl};
ghost use Rattle.rv_model.specs.Machine.{words_of};

use crate::memory::Memory;
use rv_model::{Code, Hart};

/// Words in a vector, which are told.
#[derive(Debug, Drop)]
pub struct VecMemory {
    pub words: Vec<u64>,
    /// What the last access with an answer gave.
    pub last: u64,
}

impl VecMemory {
    /// Takes the words; no memory is taken.
    pub fn new(words: Vec<u64>) -> VecMemory
        ensures { result.words.items ≡ words.items }
    {
        VecMemory { words, last: 0 }
    }

    pub fn words(&self) -> &[u64]
        ensures { result.now ≡ self.now.words.items }
    {
        self.words.as_slice()
    }

    /// Gives the words back; no memory is taken.
    pub fn into_words(self) -> Vec<u64>
        ensures { result.items ≡ self.words.items }
    {
        let VecMemory { words, last: _ } = self;
        words
    }
}

fn exchanged(word: u64, expected: u64, value: u64) -> u64
    ensures { result ≡ (if word == expected then value else word) }
{
    if word == expected { value } else { word }
}

impl Memory for VecMemory {
    ghost words = { λ m. Some (words_of m.words.items) };

    ghost extent = { λ m. length m.words.items };

    ghost most = { λ m. 4294967295 };

    ghost leads = { λ m code h. Unit {0} };

    ghost Kept = { Unit {0} };

    ghost kept = { λ m. tt };

    ghost last = { λ m. m.last };

    ghost few = { λ m. le_refl 4294967295 };

    ghost goes_on = { λ m code h to r l b p. tt };

    fn size(&self) -> u64 {
        self.words.len() as u64
    }

    fn load(&mut self, _code: &Code, _hart: &Hart, at: u64) -> u64 {
        self.last = self.words[at as usize];
        self.last
    }

    fn store(&mut self, _code: &Code, _hart: &Hart, at: u64, value: u64) {
        self.words[at as usize] = value;
    }

    fn swap(&mut self, _code: &Code, _hart: &Hart, at: u64, value: u64) -> u64 {
        self.last = self.words[at as usize];
        self.words[at as usize] = value;
        self.last
    }

    fn add(&mut self, _code: &Code, _hart: &Hart, at: u64, value: u64) -> u64 {
        self.last = self.words[at as usize];
        self.words[at as usize] = self.last.wrapping_add(value);
        self.last
    }

    fn and(&mut self, _code: &Code, _hart: &Hart, at: u64, value: u64) -> u64 {
        self.last = self.words[at as usize];
        self.words[at as usize] = self.last & value;
        self.last
    }

    fn compare_exchange(
        &mut self,
        _code: &Code,
        _hart: &Hart,
        at: u64,
        expected: u64,
        value: u64,
    ) -> u64 {
        self.last = self.words[at as usize];
        self.words[at as usize] = exchanged(self.last, expected, value);
        self.last
    }
}
