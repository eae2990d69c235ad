//! The rows of the built-in types.

pub const INT: u32 = 0;

pub const BOOL: u32 = 1;

pub const CHAR: u32 = 2;

pub const STRING: u32 = 3;

pub const UNIT: u32 = 4;

pub const EXN: u32 = 5;

pub const OPTION: u32 = 7;

pub const REF: u32 = 8;

pub const ARRAY: u32 = 9;

pub const EFFECT: u32 = 10;

pub const DEEP: u32 = 11;

pub const SHALLOW: u32 = 12;

pub const DOMAIN: u32 = 13;

pub const ATOMIC: u32 = 14;

pub const FUNCTION: u32 = 15;

pub const TUPLE: u32 = 16;
