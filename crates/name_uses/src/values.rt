//! What names can stand for.

use effect_meaning::{Constructor, Operation};

/// A built-in name that takes arguments: its operation, and how many arguments it takes.
#[derive(Clone, Copy, Debug, PartialEq, Eq)]
pub struct Builtin {
    pub operation: Operation,
    pub arguments: usize,
}

/// What a lower name stands for as an expression.
#[derive(Clone, Copy, Debug, PartialEq, Eq)]
pub enum Value {
    /// A name of the program, by its number.
    Name(u32),
    Builtin(Builtin),
    /// `max_int` and `min_int`.
    Integer(i64),
    /// One of the four functions that take a handler.
    TakesHandler,
}

/// What a lower name stands for as a type.
#[derive(Clone, Copy, Debug, PartialEq, Eq)]
pub enum TypeValue {
    /// A type of the table of types, by its row.
    Row(u32),
    /// The type that a handler literal names, by its type variable.
    Variable(u32),
}

/// The number of the type `int`, and of the others that Core's own forms need.
pub const INT_TYPE: u32 = 0;

pub const EFFECT_TYPE: u32 = 10;

pub const DEEP_TYPE: u32 = 11;

pub const SHALLOW_TYPE: u32 = 12;

pub const DOMAIN_TYPE: u32 = 13;

pub const ATOMIC_TYPE: u32 = 14;

pub const FUNCTION_TYPE: u32 = 15;

pub const TUPLE_TYPE: u32 = 16;

/// The numbers of `[]` and `::`.
pub const NIL: Constructor = Constructor::Variant(2);

pub const CONS: Constructor = Constructor::Variant(3);

/// The greatest and the least integer.
pub const GREATEST: i64 = 4_611_686_018_427_387_903;

pub const LEAST: i64 = -4_611_686_018_427_387_904;
