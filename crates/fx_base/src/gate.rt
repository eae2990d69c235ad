//! What a test may do before each instruction of a hart on a thread of its own.

/// Is told of each instruction before it, and may hold it back.
pub trait Gate: Sync {
    /// Comes before an instruction of this hart, which has retired so many.
    fn before(&self, hart: u32, retired: u64);
}

/// The gate that holds nothing back.
#[derive(Clone, Copy, Debug, PartialEq, Eq)]
pub struct NoGate;

impl Gate for NoGate {
    fn before(&self, _hart: u32, _retired: u64) {}
}
