//! Made programs.

ghost use Rattle.std.specs.Prelude.{◌≤◌};

/// The number of a made program.
#[derive(Clone, Copy, Debug, PartialEq, Eq)]
pub struct MadeNumber {
    pub count: u32,
    pub ghost in_range: { (1 ≤ count) × (count ≤ 500) },
}
