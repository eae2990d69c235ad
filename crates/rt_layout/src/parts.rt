//! The part of the image that belongs to a domain's slot.
//!
//! ```text
//!   offset from the domain register
//!   -41224           queue: the counters' word, then 1,024 entries
//!   -33024           system stack: 4,096 words, C frames of 8 words, upwards
//!   -256 to -144     heads of the lists of free stacks, of class 0 to 14
//!   -64 to -48       digits: the text of an integer or a character
//!   -40              all ones but this slot's bit
//!   -32              the address of this slot's queue
//!   -24              this slot's number as an integer value
//!   -16              the block of the domain that runs here, or of the last one; 0 at first
//!   -8               the mailbox
//!   0                the test area, as large as the program's tests need
//! ```
//!
//! The counters' word of a queue has the head in its low half and the tail in its high half; the entry of
//! counter c is word 1 + c mod 1,024. A C frame:
//!
//! ```text
//!   offset from CSP
//!   -64   the fiber that called
//!   -56   the function
//!   -48   the array
//!   -40   the index of the next element
//!   -32   the element that waits
//!   -24   unused, three words
//! ```

ghost use Rattle.std.specs.Prelude.{◌≡◌, ◌<◌, ◌^◌};
ghost use Rattle.rt_layout.specs.Part.{part_words_of};

/// The mailbox: the block of the domain that is to run here.
pub const M_MAILBOX: i64 = -8;
/// The block of the domain that runs here, or of the last one.
pub const M_BLOCK: i64 = -16;
/// This slot's number as an integer value.
pub const M_SELF: i64 = -24;
/// The address of this slot's queue.
pub const M_QUEUE: i64 = -32;
/// All ones but this slot's bit.
pub const M_NOT_BIT: i64 = -40;
/// Three words for the text of an integer.
pub const M_DIGITS: i64 = -64;
/// The free stacks of class 0; those of class k are 8 k bytes above, k from 0 to 14.
pub const M_POOL: i64 = -256;

/// The words between the system stack and the test area.
pub const FIELD_WORDS: u64 = 32;
/// The words of the system stack.
pub const SYSTEM_WORDS: u64 = 4096;
/// The words of a queue.
pub const QUEUE_WORDS: u64 = 1025;
/// The words of a part below the domain register.
pub const WORDS_BELOW: u64 = QUEUE_WORDS + SYSTEM_WORDS + FIELD_WORDS;

/// The bytes of a C frame.
pub const C_FRAME: i64 = 64;
/// The same downwards.
pub const C_FRAME_OFF: i64 = -64;
/// The fiber that called.
pub const C_FIBER: i64 = -64;
/// The function.
pub const C_F: i64 = -56;
/// The array.
pub const C_ARRAY: i64 = -48;
/// The index of the next element.
pub const C_INDEX: i64 = -40;
/// The element that waits.
pub const C_ELEM: i64 = -32;
/// The greatest number of C frames.
pub const MOST_CALLS: u64 = 255;

/// From a part's first byte, that of the queue, to the address in the domain register.
pub const DOM_OFFSET: u64 = 8 * WORDS_BELOW;
/// The word that goes from the domain register to the system stack, in two's complement.
pub const SYSTEM_OFFSET: u64 = u64::MAX - 8 * (SYSTEM_WORDS + FIELD_WORDS) + 1;
/// The word that goes from the domain register to `CSP` where no further C frame may be put.
pub const LAST_CALL: u64 = SYSTEM_OFFSET + 64 * MOST_CALLS;
/// The number 1 below 0 as a word.
pub const MINUS_ONE: u64 = u64::MAX;

/// The words of a part whose test area has so many.
pub fn part_words(scratch: u64) -> u64
    requires few { scratch < 2 ^ 32 }
    ensures { result ≡ part_words_of scratch }
{
    WORDS_BELOW + scratch
}
