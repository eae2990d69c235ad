//! The test of what an image promises of its start words.

ghost use Rattle.std.specs.Prelude.{IsTrue};
ghost use Rattle.rv_model.specs.Start.{AreRising, AreNotZero, AreBelow};

use rv_model::StartWord;

/// Whether the numbers of the words rise and are below `size`, and no word is 0.
pub fn are_start_words(start: &[StartWord], size: u64) -> bool
    ensures rising { IsTrue result → AreRising start.now }
    ensures not_zero { IsTrue result → AreNotZero start.now }
    ensures below { IsTrue result → AreBelow size start.now }
{
    let mut least = 0;
    for word in start {
        if word.value == 0 || word.at < least || word.at >= size {
            return false;
        }
        least = word.at + 1;
    }
    true
}
