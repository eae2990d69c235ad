//! The settings of a run, and how it ends for the caller.

ghost use Rattle.std.specs.Prelude.{◌≡◌, ◌≤◌};

/// The room and the budget that a run has.
#[derive(Clone, Copy, Debug, PartialEq, Eq)]
pub struct Settings {
    /// Words of the heap.
    pub heap: u64,
    /// Words of one fiber's stack.
    pub stack: u64,
    /// Bytes of the output log.
    pub out: u64,
    /// Instructions of one hart.
    pub budget: u64,
    /// Domains that may live at once.
    pub domains: u32,
    pub ghost heap_in_range: { (16384 ≤ heap) × (heap ≤ 16777216) },
    pub ghost stack_in_range: { (256 ≤ stack) × (stack ≤ 1048576) },
    pub ghost out_in_range: { (1024 ≤ out) × (out ≤ 67108864) },
    pub ghost budget_in_range: { (1 ≤ budget) × (budget ≤ 4294967295) },
    pub ghost domains_in_range: { (1 ≤ domains) × (domains ≤ 8) },
}

impl Settings {
    /// The settings that hold where the command words name none.
    pub fn usual() -> Settings
        ensures heap { result.heap ≡ 1048576 }
        ensures stack { result.stack ≡ 131072 }
        ensures out { result.out ≡ 1048576 }
        ensures budget { result.budget ≡ 1073741824 }
        ensures domains { result.domains ≡ 4 }
    {
        Settings {
            heap: 1_048_576,
            stack: 131_072,
            out: 1_048_576,
            budget: 1_073_741_824,
            domains: 4,
        }
    }
}

/// How many instructions a hart takes before the next hart's turn comes.
#[derive(Clone, Copy, Debug, PartialEq, Eq)]
pub struct Turns {
    pub count: u32,
    pub ghost in_range: { (1 ≤ count) × (count ≤ 1000000) },
}

impl Turns {
    /// The count that holds where the command words name none.
    pub fn usual() -> Turns
        ensures { result.count ≡ 1000 }
    {
        Turns { count: 1000 }
    }
}

/// The status that the process ends with.
#[derive(Clone, Copy, Debug, PartialEq, Eq)]
pub struct Status(pub u8);

/// Whether all bytes reached the output.
#[derive(Clone, Copy, Debug, PartialEq, Eq)]
pub enum Written {
    Whole,
    Failed,
}
