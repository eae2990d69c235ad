//! Why an input is refused.

ghost use Rattle.std.specs.Prelude.{◌≡◌};
ghost use Rattle.fx_base.specs.declared.refusal.Refusal.TheVariants.{Memory};

use std::alloc::{AllocError, AllocFailed};
use thiserror::Error;

/// A place in a source text: the line and the column, both from 1. A column counts bytes.
#[derive(Clone, Copy, Debug, PartialEq, Eq)]
pub struct Place {
    pub line: u32,
    pub column: u32,
}

/// Which limit an input passes.
#[derive(Clone, Copy, Debug, PartialEq, Eq)]
pub enum LimitKind {
    /// Bytes of the source text.
    Source,
    /// Depth of the parsed tree.
    Depth,
    /// Nodes of a top-level definition's type.
    TypeSize,
    /// Slots of a function.
    Slots,
    /// Free names of a function.
    Free,
    /// Instructions of an image.
    Code,
}

/// Why an input is refused before it runs.
///
/// The text of the derived `Display` is for logs; the lines on standard error are written by the
/// program itself.
#[derive(Clone, Copy, Debug, PartialEq, Eq, Error)]
pub enum Refusal {
    /// The command words have no reading.
    #[error("usage")]
    Usage,
    /// Reading the file failed.
    #[error("file")]
    File,
    /// The text has no derivation; the place is that of the first fault.
    #[error("syntax at {}:{}", .0.line, .0.column)]
    Syntax(Place),
    /// A name is used outside its scope, or bound twice.
    #[error("name at {}:{}", .0.line, .0.column)]
    Name(Place),
    /// The typing equations have no solution.
    #[error("type at {}:{}", .0.line, .0.column)]
    IllTyped(Place),
    /// A quantity, `found`, is above its `bound`.
    #[error("limit {kind:?} {found} {bound}")]
    Limit {
        kind: LimitKind,
        found: u64,
        bound: u64,
    },
    /// Memory is not there.
    #[error("memory")]
    Memory,
}

impl From<AllocError> for Refusal {
    ghost from_gives = { λ _ refusal. refusal ≡ Memory };

    fn from(_error: AllocError) -> Refusal {
        Refusal::Memory
    }
}

impl<T: Drop> From<AllocFailed<T>> for Refusal {
    ghost from_gives = { λ _ refusal. refusal ≡ Memory };

    fn from(_error: AllocFailed<T>) -> Refusal {
        Refusal::Memory
    }
}
