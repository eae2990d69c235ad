//! What becomes of the built-in operations.

use effect_meaning::{Comparison, Operation};

/// An operation that is a few instructions in place.
#[derive(Clone, Copy)]
pub enum Inline {
    /// A built-in operation; comparisons are of words.
    Plain(Operation),
    /// A comparison of strings.
    CompareTexts(Comparison),
    /// The field of this number of a record.
    Field { index: u32, mutable: bool },
    /// The assignment to a field.
    SetField { index: u32 },
}

impl Inline {
    /// Whether its value is always `()`.
    pub fn gives_unit(self) -> bool {
        match self {
            Inline::Plain(operation) => matches!(
                operation,
                Operation::Relax
                    | Operation::ArraySet
                    | Operation::SetReference
                    | Operation::AtomicSet
                    | Operation::IncrementReference
                    | Operation::DecrementReference
                    | Operation::AtomicIncrement
                    | Operation::AtomicDecrement
            ),
            Inline::CompareTexts(_) | Inline::Field { .. } => false,
            Inline::SetField { .. } => true,
        }
    }
}

/// A comparison of two words, as a condition.
#[derive(Clone, Copy)]
pub enum WordComparison {
    Equal,
    Different,
    Below,
    AtLeast,
    Above,
    AtMost,
}

/// The comparison of words that an operation is, where it is one.
pub fn word_comparison(operation: Operation) -> Option<WordComparison> {
    match operation {
        Operation::Compare(Comparison::Equal) | Operation::Same => Some(WordComparison::Equal),
        Operation::Compare(Comparison::Different) | Operation::Other => {
            Some(WordComparison::Different)
        }
        Operation::Compare(Comparison::Below) => Some(WordComparison::Below),
        Operation::Compare(Comparison::AtLeast) => Some(WordComparison::AtLeast),
        Operation::Compare(Comparison::Above) => Some(WordComparison::Above),
        Operation::Compare(Comparison::AtMost) => Some(WordComparison::AtMost),
        _ => None,
    }
}

/// Whether an operation calls a routine of the runtime.
pub fn is_routine(operation: Operation) -> bool {
    matches!(
        operation,
        Operation::PrintInteger
            | Operation::PrintCharacter
            | Operation::PrintString
            | Operation::PrintLine
            | Operation::PrintNewline
            | Operation::StringOfInteger
            | Operation::Concatenate
            | Operation::StringSub
            | Operation::ArrayMake
            | Operation::CallIterate
            | Operation::CallFold
            | Operation::CallTry
            | Operation::Perform
            | Operation::Continue
            | Operation::Discontinue
            | Operation::Fiber
            | Operation::Spawn
            | Operation::Join
            | Operation::QueuePush
            | Operation::QueueTake
    )
}

/// Whether an operation never gives a value.
pub fn is_end(operation: Operation) -> bool {
    matches!(
        operation,
        Operation::Raise | Operation::FailWith | Operation::InvalidArgument | Operation::Exit
    )
}
