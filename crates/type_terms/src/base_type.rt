//! The types at which programs compare by content.

/// A type whose values are compared by content.
#[derive(Clone, Copy, Debug, PartialEq, Eq)]
pub enum BaseTy {
    Int,
    Bool,
    Char,
    Unit,
    Str,
}
