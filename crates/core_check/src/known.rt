//! The rows that are in scope.

ghost use Rattle.std.specs.Prelude.{◌≡◌};
ghost use Rattle.core_check.specs.Declares.{builtin_known};

/// How many types are built in.
pub const BUILTIN_TYPES: u32 = 17;

/// How many rows of each table are in scope: those below these numbers.
#[derive(Clone, Copy)]
pub struct Known {
    pub types: u32,
    pub variants: u32,
    pub fields: u32,
    pub exceptions: u32,
    pub effects: u32,
}

impl Known {
    /// The built-in rows.
    pub fn builtin() -> Known
        ensures { result ≡ builtin_known }
    {
        Known {
            types: BUILTIN_TYPES,
            variants: 4,
            fields: 0,
            exceptions: 10,
            effects: 0,
        }
    }
}
