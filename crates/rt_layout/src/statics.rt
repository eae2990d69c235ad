//! The static words whose places don't depend on the program, and the numbers of built-in exceptions.
//!
//! ```text
//!   offset from STATIC
//!   0      the string that is the file's text
//!   8      the table of exceptions
//!   16     the texts of the exceptions that a run raises by itself, six strings
//!   208    the program's: a word for each name of the top level, string literals, the table of
//!          exceptions (a word for each constructor: its record), and the records
//! ```
//!
//! The record of an exception: a word with twice the bytes of its name, plus 1 where it has an argument;
//! the name in whole words; then the argument's shape, symbols of three bits, 21 to a word from the low
//! end, with a 1 above them. A symbol is a kind plus 4 for the last part of its tuple; the parts of a
//! tuple follow it. A tuple that isn't a last part keeps its place on the system stack meanwhile.

/// The file's text.
pub const S_FILE: i64 = 0;
/// The table of exceptions.
pub const S_EXNS: i64 = 8;

/// The text `index out of bounds`.
pub const S_INDEX_OUT_OF_BOUNDS: i64 = 24;
/// The text `String.sub`.
pub const S_STRING_SUB: i64 = 64;
/// The text `Array.make`.
pub const S_ARRAY_MAKE: i64 = 96;
/// The text `Char.chr`.
pub const S_CHAR_CHR: i64 = 128;
/// The text `Fiberq.take_from`.
pub const S_TAKE_FROM: i64 = 152;
/// The text `Domain.spawn`.
pub const S_SPAWN: i64 = 184;
/// The first word of the program's own.
pub const S_PROGRAM: i64 = 208;

/// The number of `Not_found`.
pub const EXN_NOT_FOUND: u64 = 0;
/// The number of `Failure`.
pub const EXN_FAILURE: u64 = 1;
/// The number of `Invalid_argument`.
pub const EXN_INVALID_ARGUMENT: u64 = 2;
/// The number of `Division_by_zero`.
pub const EXN_DIVISION_BY_ZERO: u64 = 3;
/// The number of `Match_failure`.
pub const EXN_MATCH_FAILURE: u64 = 4;
/// The number of `Exit`.
pub const EXN_EXIT: u64 = 5;
/// The number of `Effect.Unhandled`.
pub const EXN_UNHANDLED: u64 = 6;
/// The number of `Effect.Continuation_already_resumed`.
pub const EXN_CONTINUATION_ALREADY_RESUMED: u64 = 7;
/// The number of `Queue.Empty`.
pub const EXN_QUEUE_EMPTY: u64 = 8;
/// The number of `Fiberq.Full`.
pub const EXN_FIBERQ_FULL: u64 = 9;
/// The number of the first exception of the program's own.
pub const BUILT_IN_EXCEPTIONS: u64 = 10;

/// The symbol of an integer.
pub const SHOW_INT: u64 = 0;
/// The symbol of a string.
pub const SHOW_STRING: u64 = 1;
/// The symbol of a value that isn't shown.
pub const SHOW_OTHER: u64 = 2;
/// The symbol of a tuple.
pub const SHOW_OPEN: u64 = 3;
