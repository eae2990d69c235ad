//! What an instruction asks of the words.

ghost use Rattle.std.specs.Prelude.{◌≡◌, ℕ, ◌<◌, ◌≤◌, List, Option};
ghost use Rattle.rv_model.specs.declared.instr.Instr.{Instr as InstrOf};
ghost use Rattle.rv_model.specs.declared.hart.Access.TheVariants.{Loading, Storing, Swapping, Adding, Masking, Exchanging};
ghost use Rattle.rv_model.specs.Machine.{Words, Regs, Hart as SeenHart, plan, Moves, moved, hart_of};
ghost use Rattle.rv_step.specs.Told.{told_after, IsWordOf, IsJust, after};

use rv_model::{Code, Hart};

/// Numbered words. Each of the six methods that are passed a hart makes one access, in one step; `hart`
/// stands before the instruction that makes just this access, and `at` is the word's number. Those with
/// an answer give the word's value before the access.
pub trait Memory {
    // The words, where they are told.
    ghost words: { Self → Option Words };

    // How many words there are.
    ghost extent: { Self → ℕ };

    // A hart that has retired so many instructions takes none.
    ghost most: { Self → ℕ };

    // The memory may be asked for this hart.
    ghost leads: { Self → List InstrOf → SeenHart → Type 0 };

    // What the accesses keep.
    ghost Kept: { Type 0 };

    ghost kept: { Self → Kept };

    // What the last access with an answer gave.
    ghost last: { Self → ℕ };

    /// How many words there are; makes no access.
    fn size(&self) -> u64
        ensures { result ≡ extent self.now };

    /// Reads the word.
    fn load(&mut self, code: &Code, hart: &Hart, at: u64) -> u64
        requires inside { at < extent self.old }
        requires just { IsJust (Loading at) (plan (extent self.old) code.now (hart_of hart.now)) }
        requires led { leads self.old code.now (hart_of hart.now) }
        requires below { hart.now.retired < most self.old }
        ensures told { words self.new ≡ told_after (Loading at) (words self.old) }
        ensures found { IsWordOf result at (words self.old) }
        ensures last { last self.new ≡ result }
        ensures same { (extent self.new ≡ extent self.old) × (most self.new ≡ most self.old) × (kept self.new ≡ kept self.old) }
        ensures led { leads self.new code.now (after (extent self.old) code.now (hart_of hart.now) result) };

    /// Writes the word.
    fn store(&mut self, code: &Code, hart: &Hart, at: u64, value: u64)
        requires inside { at < extent self.old }
        requires just { IsJust (Storing at value) (plan (extent self.old) code.now (hart_of hart.now)) }
        requires led { leads self.old code.now (hart_of hart.now) }
        requires below { hart.now.retired < most self.old }
        ensures told { words self.new ≡ told_after (Storing at value) (words self.old) }
        ensures same { (extent self.new ≡ extent self.old) × (most self.new ≡ most self.old) × (kept self.new ≡ kept self.old) }
        ensures led { leads self.new code.now (after (extent self.old) code.now (hart_of hart.now) 0) };

    /// Writes the word and gives what it was.
    fn swap(&mut self, code: &Code, hart: &Hart, at: u64, value: u64) -> u64
        requires inside { at < extent self.old }
        requires just { IsJust (Swapping at value) (plan (extent self.old) code.now (hart_of hart.now)) }
        requires led { leads self.old code.now (hart_of hart.now) }
        requires below { hart.now.retired < most self.old }
        ensures told { words self.new ≡ told_after (Swapping at value) (words self.old) }
        ensures found { IsWordOf result at (words self.old) }
        ensures last { last self.new ≡ result }
        ensures same { (extent self.new ≡ extent self.old) × (most self.new ≡ most self.old) × (kept self.new ≡ kept self.old) }
        ensures led { leads self.new code.now (after (extent self.old) code.now (hart_of hart.now) result) };

    /// Adds to the word, modulo 2^64, and gives what it was.
    fn add(&mut self, code: &Code, hart: &Hart, at: u64, value: u64) -> u64
        requires inside { at < extent self.old }
        requires just { IsJust (Adding at value) (plan (extent self.old) code.now (hart_of hart.now)) }
        requires led { leads self.old code.now (hart_of hart.now) }
        requires below { hart.now.retired < most self.old }
        ensures told { words self.new ≡ told_after (Adding at value) (words self.old) }
        ensures found { IsWordOf result at (words self.old) }
        ensures last { last self.new ≡ result }
        ensures same { (extent self.new ≡ extent self.old) × (most self.new ≡ most self.old) × (kept self.new ≡ kept self.old) }
        ensures led { leads self.new code.now (after (extent self.old) code.now (hart_of hart.now) result) };

    /// Masks the word by AND and gives what it was.
    fn and(&mut self, code: &Code, hart: &Hart, at: u64, value: u64) -> u64
        requires inside { at < extent self.old }
        requires just { IsJust (Masking at value) (plan (extent self.old) code.now (hart_of hart.now)) }
        requires led { leads self.old code.now (hart_of hart.now) }
        requires below { hart.now.retired < most self.old }
        ensures told { words self.new ≡ told_after (Masking at value) (words self.old) }
        ensures found { IsWordOf result at (words self.old) }
        ensures last { last self.new ≡ result }
        ensures same { (extent self.new ≡ extent self.old) × (most self.new ≡ most self.old) × (kept self.new ≡ kept self.old) }
        ensures led { leads self.new code.now (after (extent self.old) code.now (hart_of hart.now) result) };

    /// Writes the word where it was as expected, and gives what it was.
    fn compare_exchange(
        &mut self,
        code: &Code,
        hart: &Hart,
        at: u64,
        expected: u64,
        value: u64,
    ) -> u64
        requires inside { at < extent self.old }
        requires just { IsJust (Exchanging at expected value) (plan (extent self.old) code.now (hart_of hart.now)) }
        requires led { leads self.old code.now (hart_of hart.now) }
        requires below { hart.now.retired < most self.old }
        ensures told { words self.new ≡ told_after (Exchanging at expected value) (words self.old) }
        ensures found { IsWordOf result at (words self.old) }
        ensures last { last self.new ≡ result }
        ensures same { (extent self.new ≡ extent self.old) × (most self.new ≡ most self.old) × (kept self.new ≡ kept self.old) }
        ensures led { leads self.new code.now (after (extent self.old) code.now (hart_of hart.now) result) };

    // The number that `most` gives is small.
    ghost few: { (m : Self) → most m ≤ 4294967295 };

    // A register-only instruction keeps `leads`.
    ghost goes_on: { (m : Self) (code : List InstrOf) (h : SeenHart) (to : ℕ) (r : Regs) → leads m code h → h.retired < most m → plan (extent m) code h ≡ Moves to r → leads m code (moved h to r) };
}
