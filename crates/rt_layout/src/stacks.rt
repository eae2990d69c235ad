//! Stacks of fibers.
//!
//! A stack of class k has 64 * 2^k words, or the greatest number that the settings give where that is
//! less. It is named by its high end, the address one past its last word.
//!
//! ```text
//!   high end ->  +--------------------------+          a stack with two frames
//!     -8         | class                    |
//!    -16         | limit                    |
//!    -24         | parent                   |
//!    -32         | handler                  |
//!    -40         | base exception frame     |  <- EXN = 40 where no catch is open
//!    -48         | saved SP                 |
//!    -56         | saved RA                 |
//!    -64         | saved EXN                |
//!                +--------------------------+
//!                | slots of the first frame |  (an open catch has its word in one of them)
//!                | closure                  |  <- its SP - 32
//!                | return address = foot    |  <- its SP - 40
//!                +--------------------------+
//!                | slots of the second      |
//!                | closure                  |
//!                | return address           |  <- SP - 40
//!                +--------------------------+
//!                | no meaning               |
//!   LIMIT - 40   +--------------------------+  low end
//! ```
//!
//! An exception frame is one word in a slot: the offset of the exception frame before it times 2^20, plus
//! the address of its handler's code. The base exception frame has none before it.

/// The class; it stays.
pub const F_CLASS: i64 = -8;
/// The least `SP` that its room permits: the low end plus 40; it stays.
pub const F_LIMIT: i64 = -16;
/// The fiber below the handler, or 0; of a free stack the next free one.
pub const F_PARENT: i64 = -24;
/// The handler record, or 0.
pub const F_HANDLER: i64 = -32;
/// The base exception frame: the address of the foot's code for exceptions.
pub const F_BASE: i64 = -40;
/// `SP` while the fiber doesn't run.
pub const F_SP: i64 = -48;
/// `RA` while the fiber doesn't run.
pub const F_RA: i64 = -56;
/// `EXN` while the fiber doesn't run.
pub const F_EXN: i64 = -64;

/// `EXN` where no catch is open.
pub const BASE_EXN: u64 = 40;
/// From a fiber to its `SP` where it has no frames.
pub const SP_START: i64 = -24;

/// The bytes of a frame besides its slots.
pub const FRAME_EXTRA: i64 = 16;
/// The return address, from the frame's `SP`.
pub const FRAME_RA: i64 = -40;
/// The closure or the handler record, from the frame's `SP`.
pub const FRAME_CLOSURE: i64 = -32;
/// Slot 0, from the frame's `SP`; slot i is 8 i bytes above.
pub const FRAME_SLOT: i64 = -24;
/// From a frame's lowest byte to its `SP`.
pub const FRAME_LOW: i64 = 40;

/// The bytes of a frame of one slot.
pub const FRAME_OF_ONE_SLOT: i64 = FRAME_EXTRA + 8;
/// From a fiber to its `SP` where it has one frame, of one slot.
pub const SP_OF_ONE_SLOT: i64 = SP_START - FRAME_OF_ONE_SLOT;
/// From the least `SP` down to the low end.
pub const TO_LOW_END: i64 = -FRAME_LOW;
/// From the block that a stack lies in, 8 bytes past its low end, to the least `SP`.
pub const TO_LIMIT: i64 = FRAME_LOW - 8;

/// The words of a stack of class 0.
pub const FIRST_STACK: u64 = 64;
