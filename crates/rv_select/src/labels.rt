//! The labels of compiled code: each is of a kind, and of the number of a function, a node, a test or a
//! clause.

use rt_layout::labels::FIRST_CODE_LABEL;
use std::alloc::AllocError;

/// What stands at a label.
#[derive(Clone, Copy)]
pub enum Kind {
    /// Of a function: its code.
    Entry,
    /// The code that takes the first, second, third or fourth argument alone.
    FirstArgument,
    SecondArgument,
    ThirdArgument,
    FourthArgument,
    /// Behind the frame of a function that keeps it.
    Again,
    /// A handler's way for its body's value, before its first test.
    OnValue,
    OnException,
    /// An item's term.
    Term,
    /// Where an item's value doesn't match its pattern.
    Mismatch,
    /// Where an item's term returns to.
    TermBack,
    /// Behind the test for room of a frame that is made at the begin of the code.
    EntryRoom,
    /// Of a node: where a call returns to.
    Back,
    /// Behind the test for room of a frame that is made there.
    Room,
    /// The second way of a form of two.
    Other,
    /// Behind a condition of two, of which the first decided.
    Skip,
    /// Behind a form.
    End,
    /// Where each round of a loop begins.
    Loop,
    /// Where an exception comes to.
    Caught,
    /// Of a test: its second side.
    TestOther,
    /// Behind a test.
    TestEnd,
    /// Of a clause: behind it.
    No,
}

/// One more than the greatest number that has labels.
const NUMBERS: u32 = 1 << 26;

/// The label of this kind that the number has. There is none for a number of 2^26 or more.
pub fn label(number: u32, kind: Kind) -> Result<u32, AllocError> {
    if number >= NUMBERS {
        return Err(AllocError);
    }
    Ok(FIRST_CODE_LABEL + 32 * number + u32::from(kind as u8))
}

/// The label of a function's code.
pub fn entry(function: u32) -> Result<u32, AllocError> {
    label(function, Kind::Entry)
}

/// The label of the code of a function that takes this argument alone, from 1 to 4.
pub fn partial(function: u32, argument: u32) -> Result<u32, AllocError> {
    match argument {
        1 => label(function, Kind::FirstArgument),
        2 => label(function, Kind::SecondArgument),
        3 => label(function, Kind::ThirdArgument),
        4 => label(function, Kind::FourthArgument),
        _ => Err(AllocError),
    }
}
