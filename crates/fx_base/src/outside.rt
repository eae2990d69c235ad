//! The outside world, as the program meets it: a file that is read, and a place that bytes go to.
//!
//! Each has a count of faults that never falls, so that a clause can say when a fault may be
//! answered: only where the count rose.

ghost use Rattle.std.specs.Prelude.{◌≡◌, ℕ, ◌+◌, ◌<◌, ◌≤◌, List, Option, None, Some, IsSome, IfOk, OnErr, length};
ghost use Rattle.fx_base.specs.Faults.{Rose};
ghost use Rattle.fx_base.specs.Told.{Told, Reads, count_of, appended};
ghost use Rattle.std.specs.String.{string_bytes};

/// A fault of reading or writing.
#[derive(Clone, Copy, Debug, PartialEq, Eq)]
pub struct Failed;

/// Files of which one is opened and read once, from its beginning to its end.
pub trait Files {
    // The opened name.
    ghost opened: { Self → Option (List ℕ) };

    // Which bytes a name holds, where that is told.
    ghost told: { Self → List ℕ → Told };

    // How many bytes of the opened name were taken.
    ghost taken: { Self → ℕ };

    // How many faults there were.
    ghost faults: { Self → ℕ };

    /// Opens a name. A name without a file is opened too: each `read` of it fails.
    fn open(&mut self, name: String)
        requires { opened self.old ≡ None }
        ensures opened { opened self.new ≡ Some (string_bytes name) }
        ensures taken { taken self.new ≡ 0 }
        ensures told { told self.new ≡ told self.old }
        ensures faults { faults self.new ≡ faults self.old };

    /// Reads the next bytes of the opened name into the front of `buf`, and answers how many.
    ///
    /// It answers 0 into a buffer that isn't empty exactly at the end. A failed call takes nothing.
    fn read(&mut self, buf: &mut [u8]) -> Result<usize, Failed>
        requires { IsSome (opened self.old) }
        ensures reads { (name : List ℕ) → opened self.old ≡ Some name →
            Reads (told self.old name) (taken self.old) buf.old buf.new result }
        ensures failed { OnErr result (Rose (faults self.old) (faults self.new)) }
        ensures taken { taken self.new ≡ taken self.old + count_of result }
        ensures opened { opened self.new ≡ opened self.old }
        ensures told { told self.new ≡ told self.old }
        ensures faults { faults self.old ≤ faults self.new };
}

/// A place that bytes are appended to.
pub trait Sink: Send {
    // The bytes that it holds, where they are told.
    ghost held: { Self → Option (List ℕ) };

    // How many faults there were.
    ghost faults: { Self → ℕ };

    /// Appends some bytes from the front of `bytes`, at least one where there is one, and answers
    /// how many. A failed call appends nothing.
    fn write(&mut self, bytes: &[u8]) -> Result<usize, Failed>
        ensures within { IfOk result (λ n. n ≤ length bytes.now) }
        ensures some { 0 < length bytes.now → IfOk result (λ n. 0 < n) }
        ensures held { held self.new ≡ appended (held self.old) (count_of result) bytes.now }
        ensures failed { OnErr result (Rose (faults self.old) (faults self.new)) }
        ensures faults { faults self.old ≤ faults self.new };

    /// Hands on what was appended, where that waits. It appends nothing.
    fn flush(&mut self) -> Result<(), Failed>
        ensures held { held self.new ≡ held self.old }
        ensures failed { OnErr result (Rose (faults self.old) (faults self.new)) }
        ensures faults { faults self.old ≤ faults self.new };
}
