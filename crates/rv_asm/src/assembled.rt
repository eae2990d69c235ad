//! What lines are assembled to.

use rv_model::{Code, Items};

/// A label, and the address of the instruction that follows it.
#[derive(Clone, Copy, PartialEq, Eq, Debug)]
pub struct LabelPlace {
    pub label: u32,
    pub pc: u64,
}

/// The code of some lines, and the place of each label, in the order of the lines.
#[derive(Debug, Drop)]
pub struct Assembled {
    pub code: Code,
    pub places: Items<LabelPlace>,
}
