//! The numbers of the words that have a fixed meaning in each image. Word 0 is always 0, and words 12
//! to 15 are kept free.

/// 0 while the run goes on; else how it ended: 1 exited, 2 uncaught, 3 heap full, 4 stack full, 5 calls
/// full, 6 log full.
pub const END_WORD: u64 = 1;
/// The first of three words with the details of the end, in the order of the fields of `RunEnd`; for an
/// uncaught exception the length of its text.
pub const DETAIL_WORD: u64 = 2;
/// The log's lock: 0 free, 1 taken.
pub const LOCK_WORD: u64 = 5;
/// The bytes in the log.
pub const CURSOR_WORD: u64 = 6;
/// The size of the log in bytes.
pub const LOG_SIZE_WORD: u64 = 7;
/// The words used of the heap.
pub const HEAP_CURSOR_WORD: u64 = 8;
/// The size of the heap in words.
pub const HEAP_SIZE_WORD: u64 = 9;
/// One bit per live domain.
pub const SLOTS_WORD: u64 = 10;
/// The number of harts.
pub const HARTS_WORD: u64 = 11;
/// The first of 128 words with the text of an uncaught exception.
pub const TEXT_WORD: u64 = 16;
/// The first word of the log.
pub const LOG_WORD: u64 = 144;
