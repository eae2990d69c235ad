//! Blocks of the heap.
//!
//! The integer n is the word 2 n + 1; characters, booleans, the unit and constructors without argument
//! are integers. Every other value is the address of a block's first word, behind the header, which is
//! the number of words after it times 1,024, plus the tag.
//!
//! ```text
//!   closure                    | header | code address | captured values ..          |
//!   partial application        | header | code address | closure, if any | arguments .. |
//!   tuple, record, array       | header | parts ..                                   |
//!   cell                       | header | content |
//!   constructor with argument  | header | argument |          tag: its number
//!   exception, effect          | header | constructor's word | argument, or unit |
//!   string of n bytes          | header | n | bytes, least first, zeros behind the last .. |
//!   continuation               | header | innermost fiber, or 0 | outermost fiber | unused |
//!   domain                     | header | state | result | closure |
//!   handler record             | header | address of the first test | captured values .. |
//! ```
//!
//! A handler's code for a returned value begins 4 bytes before the first test, that for an exception 8.
//! A continuation's fibers are linked by their parents, from the innermost to the outermost:
//!
//! ```text
//!   continuation --> innermost fiber --> .. --> outermost fiber --> (no meaning while it waits)
//!         |                                            ^
//!         +--------------------------------------------+
//! ```

ghost use Rattle.std.specs.Prelude.{◌≡◌, ◌≤◌, ◌<◌, ◌*◌, ◌+◌, ◌^◌};
ghost use Rattle.rt_layout.specs.Block.{header_of, tagged_of};

/// The tag of blocks without a tag of their own.
pub const TAG_PLAIN: u64 = 0;
/// The tag of continuations.
pub const TAG_CONT: u64 = 245;
/// The tag of closures and partial applications.
pub const TAG_CLOSURE: u64 = 247;
/// The tag of strings.
pub const TAG_STRING: u64 = 252;

/// The word of 0, of the unit, of false and of `[]`.
pub const UNIT: u64 = 1;
/// The word of `None`.
pub const NONE: u64 = 1;

/// From a block to its header.
pub const HEADER: i64 = -8;

/// In a handler record: the address of the first clause's test.
pub const H_TEST: i64 = 0;
/// From the first test to the code for a returned value.
pub const RETC: i64 = -4;
/// From the first test to the code for an exception.
pub const EXNC: i64 = -8;

/// In a continuation: the innermost fiber while it is full, else 0.
pub const K_INNER: i64 = 0;
/// In a continuation: the outermost fiber.
pub const K_OUTER: i64 = 8;

/// In a domain's block: 0 while it runs, 1 with a value, 2 with an exception.
pub const D_STATE: i64 = 0;
/// In a domain's block: its value or exception.
pub const D_RESULT: i64 = 8;
/// In a domain's block: the closure that it runs.
pub const D_CLOSURE: i64 = 16;

/// The header of a block with so many words after it.
pub fn header_word(words: u64, tag: u64) -> u64
    requires few { words < 2 ^ 50 }
    requires tag { tag < 1024 }
    ensures { result ≡ header_of words tag }
{
    words * 1024 + tag
}

/// The word of an integer.
pub fn tagged(value: u64) -> u64
    ensures { result ≡ tagged_of value }
{
    value.wrapping_mul(2).wrapping_add(1)
}
