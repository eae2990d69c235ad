//! The words at fixed addresses, in bytes, and the numbers of the ends.
//!
//! ```text
//!   word 0     0                        an image, a word a line where nothing else is said
//!   1          the end
//!   2 to 4     details of the end
//!   5          the log's lock
//!   6          the log's cursor, in bytes
//!   7          the log's size, in bytes
//!   8          the heap's cursor, in words
//!   9          the heap's size, in words
//!   10         the slots in use, a bit each
//!   11         the number of harts
//!   12 to 15   0
//!   16 to 143  the text of an uncaught exception
//!   144 on     the log
//!              the static words
//!              a part for each domain
//!              the heap
//! ```

/// The end word.
pub const END: u64 = 8;
/// The first detail of the end.
pub const DETAIL: u64 = 16;
/// The second detail of the end.
pub const SECOND_DETAIL: u64 = 24;
/// The third detail of the end.
pub const THIRD_DETAIL: u64 = 32;
/// The log's lock: 0 free, 1 taken.
pub const LOCK: u64 = 40;
/// The bytes in the log.
pub const CURSOR: u64 = 48;
/// The bytes that the log can hold.
pub const LOG_SIZE: u64 = 56;
/// The words of the heap that are in use.
pub const HEAP_CURSOR: u64 = 64;
/// The words of the heap.
pub const HEAP_SIZE: u64 = 72;
/// The slots in use: bit i is that of slot i.
pub const MASK: u64 = 80;
/// The number of harts.
pub const HARTS: u64 = 88;
/// The text of an uncaught exception.
pub const TEXT: u64 = 128;
/// One past the text's last byte.
pub const PAST_TEXT: u64 = 1152;
/// The log.
pub const LOG: u64 = 1152;

/// From an address in the text to the bytes before it.
pub const BEFORE_TEXT: i64 = -128;

/// The program ended, with a status.
pub const END_EXITED: u64 = 1;
/// An exception wasn't caught: its text's length.
pub const END_UNCAUGHT: u64 = 2;
/// The heap has no room: the words in use and asked for together, those asked for, the heap's words.
pub const END_HEAP_FULL: u64 = 3;
/// A stack has no room: the words that it needs, and those that it may have.
pub const END_STACK_FULL: u64 = 4;
/// There are too many C frames: their number.
pub const END_CALLS_FULL: u64 = 5;
/// The log has no room: its bytes, those that it needs more, and its size.
pub const END_LOG_FULL: u64 = 6;
