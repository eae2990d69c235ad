//! What a run leaves.

use crate::hart::Hart;
use crate::items::Items;

/// How a run ended.
#[derive(Debug, Drop)]
pub enum RunEnd {
    /// The program exited with this status.
    Exited(u8),
    /// An exception left the program; its text, at most 1,024 bytes.
    Uncaught(Items<u8>),
    /// The heap is too small: words used, words asked for, words that there are.
    HeapFull { used: u64, asked: u64, size: u64 },
    /// A stack is too small: words needed, words that there are.
    StackFull { need: u64, size: u64 },
    /// Too many C calls with callbacks are active.
    CallsFull { active: u32 },
    /// The log is too small: bytes used, bytes asked for, bytes that there are.
    OutputFull { used: u64, asked: u64, size: u64 },
    /// The hart has carried out as many instructions as it may.
    BudgetSpent { hart: u32, count: u64 },
    /// Each hart waits or has stopped.
    Deadlock,
    /// The image broke the machine's promise: a hart is at fault, or the end word, its details or the
    /// log's cursor are out of their ranges. Must never be seen; goes once every image is known to keep
    /// the promise.
    Broken,
}

/// The end of a run, what it printed, and the harts and words that it left.
#[derive(Debug, Drop)]
pub struct Report {
    pub end: RunEnd,
    pub printed: Items<u8>,
    pub harts: Items<Hart>,
    pub words: Items<u64>,
}
