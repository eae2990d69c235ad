//! The types of the built-in operations.

ghost use Rattle.std.specs.Prelude.{◌≡◌, length, IfOk, OnOk, slice_index_or};
ghost use Rattle.type_graph.specs.Signatures.{Signed, array_signature, atomic_signature, callback_signature, comparison_gives, domain_signature, effect_signature, function_added, one_part, part_type, plain_signature, printing_signature, queue_signature, reference_signature, signature_of, text_signature, three_parts, two_parts};

use crate::builtin_types::{
    ARRAY, ATOMIC, BOOL, CHAR, DEEP, DOMAIN, EFFECT, EXN, FUNCTION, INT, OPTION, REF, SHALLOW,
    STRING, TUPLE, UNIT,
};
use crate::types::Types;
use effect_meaning::{Comparison, Operation};
use std::alloc::AllocError;

/// The types of the parts of an operation, of which there are so many, and the type of what it gives.
#[derive(Clone, Copy)]
pub struct Signature {
    pub parts: [u32; 3],
    pub count: usize,
    pub gives: u32,
}

impl Signature {
    fn one(part: u32, gives: u32) -> Signature
        ensures { result ≡ one_part part gives }
    {
        Signature {
            parts: [part, UNIT, UNIT],
            count: 1,
            gives,
        }
    }

    fn two(first: u32, second: u32, gives: u32) -> Signature
        ensures { result ≡ two_parts first second gives }
    {
        Signature {
            parts: [first, second, UNIT],
            count: 2,
            gives,
        }
    }

    fn three(first: u32, second: u32, third: u32, gives: u32) -> Signature
        ensures { result ≡ three_parts first second third gives }
    {
        Signature {
            parts: [first, second, third],
            count: 3,
            gives,
        }
    }

    /// The type of the part at a place, from 0.
    pub fn part(&self, place: usize) -> u32
        ensures { result ≡ part_type self.now place }
    {
        match self.parts.get(place) {
            Some(part) => *part,
            None => UNIT,
        }
    }
}

// A comparison gives a bool, `compare` an int.
fn comparison_gives(comparison: Comparison) -> u32
    ensures { result ≡ comparison_gives comparison }
{
    match comparison {
        Comparison::Compare => INT,
        _ => BOOL,
    }
}

impl Types {
    /// A function from one type to another one.
    pub fn function(&mut self, argument: u32, body: u32) -> Result<u32, AllocError>
        ensures number { IfOk result (λ n. n ≡ length self.old.nodes) }
        ensures ok { OnOk result (self.new ≡ function_added argument body self.old) }
    {
        self.apply(FUNCTION, &[argument, body])
    }

    /// The types of an operation, with new variables.
    #[tactic(auto, unfolding(crate::specs::Signatures::signature_of))]
    pub fn signature(&mut self, operation: Operation) -> Result<Signature, AllocError>
        ensures { IfOk result (λ s. signature_of operation self.old ≡ record { signature = s; types = self.new }) }
    {
        match operation {
            Operation::Add
            | Operation::Subtract
            | Operation::Multiply
            | Operation::Divide
            | Operation::Modulo
            | Operation::LogicalAnd
            | Operation::LogicalOr
            | Operation::LogicalXor
            | Operation::ShiftLeft
            | Operation::ShiftRightLogical
            | Operation::ShiftRightArithmetic
            | Operation::Minimum
            | Operation::Maximum => Ok(Signature::two(INT, INT, INT)),
            Operation::Negate
            | Operation::Absolute
            | Operation::Successor
            | Operation::Predecessor => Ok(Signature::one(INT, INT)),
            Operation::Not => Ok(Signature::one(BOOL, BOOL)),
            other => self.printing_signature(other),
        }
    }

    // Printing and the numbers of queues, and else texts.
    #[tactic(auto, unfolding(crate::specs::Signatures::printing_signature))]
    fn printing_signature(&mut self, operation: Operation) -> Result<Signature, AllocError>
        ensures { IfOk result (λ s. printing_signature operation self.old ≡ record { signature = s; types = self.new }) }
    {
        match operation {
            Operation::PrintInteger => Ok(Signature::one(INT, UNIT)),
            Operation::PrintCharacter => Ok(Signature::one(CHAR, UNIT)),
            Operation::PrintString | Operation::PrintLine => Ok(Signature::one(STRING, UNIT)),
            Operation::PrintNewline | Operation::Relax => Ok(Signature::one(UNIT, UNIT)),
            Operation::QueueSelf | Operation::QueueSlots => Ok(Signature::one(UNIT, INT)),
            other => self.text_signature(other),
        }
    }

    // Texts and characters, and else operations with a new variable.
    #[tactic(auto, unfolding(crate::specs::Signatures::text_signature))]
    fn text_signature(&mut self, operation: Operation) -> Result<Signature, AllocError>
        ensures { IfOk result (λ s. text_signature operation self.old ≡ record { signature = s; types = self.new }) }
    {
        match operation {
            Operation::StringOfInteger => Ok(Signature::one(INT, STRING)),
            Operation::Concatenate => Ok(Signature::two(STRING, STRING, STRING)),
            Operation::StringLength => Ok(Signature::one(STRING, INT)),
            Operation::StringGet => Ok(Signature::two(STRING, INT, CHAR)),
            Operation::StringSub => Ok(Signature::three(STRING, INT, INT, STRING)),
            Operation::CharacterCode => Ok(Signature::one(CHAR, INT)),
            Operation::CharacterOfCode => Ok(Signature::one(INT, CHAR)),
            other => {
                let a = self.variable()?;
                self.plain_signature(other, a)
            }
        }
    }

    // Operations at values of any type, and else references.
    #[tactic(auto, unfolding(crate::specs::Signatures::plain_signature))]
    fn plain_signature(&mut self, operation: Operation, a: u32) -> Result<Signature, AllocError>
        ensures { IfOk result (λ s. plain_signature operation a self.old ≡ record { signature = s; types = self.new }) }
    {
        match operation {
            Operation::First => {
                let b = self.variable()?;
                let pair = self.apply(TUPLE, &[a, b])?;
                Ok(Signature::one(pair, a))
            }
            Operation::Second => {
                let b = self.variable()?;
                let pair = self.apply(TUPLE, &[a, b])?;
                Ok(Signature::one(pair, b))
            }
            Operation::Ignore => Ok(Signature::one(a, UNIT)),
            Operation::Compare(comparison) => {
                Ok(Signature::two(a, a, comparison_gives(comparison)))
            }
            Operation::Same | Operation::Other => Ok(Signature::two(a, a, BOOL)),
            Operation::Raise => Ok(Signature::one(EXN, a)),
            Operation::FailWith | Operation::InvalidArgument => Ok(Signature::one(STRING, a)),
            Operation::Exit => Ok(Signature::one(INT, a)),
            other => self.reference_signature(other, a),
        }
    }

    // References, and else arrays.
    #[tactic(auto, unfolding(crate::specs::Signatures::reference_signature))]
    fn reference_signature(&mut self, operation: Operation, a: u32) -> Result<Signature, AllocError>
        ensures { IfOk result (λ s. reference_signature operation a self.old ≡ record { signature = s; types = self.new }) }
    {
        match operation {
            Operation::MakeReference => Ok(Signature::one(a, self.apply(REF, &[a])?)),
            Operation::GetReference => Ok(Signature::one(self.apply(REF, &[a])?, a)),
            Operation::SetReference => Ok(Signature::two(self.apply(REF, &[a])?, a, UNIT)),
            Operation::IncrementReference | Operation::DecrementReference => {
                Ok(Signature::one(self.apply(REF, &[INT])?, UNIT))
            }
            other => self.array_signature(other, a),
        }
    }

    // Arrays, and else callbacks.
    #[tactic(auto, unfolding(crate::specs::Signatures::array_signature))]
    fn array_signature(&mut self, operation: Operation, a: u32) -> Result<Signature, AllocError>
        ensures { IfOk result (λ s. array_signature operation a self.old ≡ record { signature = s; types = self.new }) }
    {
        match operation {
            Operation::ArrayMake => Ok(Signature::two(INT, a, self.apply(ARRAY, &[a])?)),
            Operation::ArrayLength => Ok(Signature::one(self.apply(ARRAY, &[a])?, INT)),
            Operation::ArrayGet => Ok(Signature::two(self.apply(ARRAY, &[a])?, INT, a)),
            Operation::ArraySet => Ok(Signature::three(self.apply(ARRAY, &[a])?, INT, a, UNIT)),
            other => self.callback_signature(other, a),
        }
    }

    // `c_iter`, `c_fold` and `c_try`, and else effects.
    #[tactic(auto, unfolding(crate::specs::Signatures::callback_signature))]
    fn callback_signature(&mut self, operation: Operation, a: u32) -> Result<Signature, AllocError>
        ensures { IfOk result (λ s. callback_signature operation a self.old ≡ record { signature = s; types = self.new }) }
    {
        match operation {
            Operation::CallIterate => {
                let function = self.function(a, UNIT)?;
                let array = self.apply(ARRAY, &[a])?;
                Ok(Signature::two(function, array, UNIT))
            }
            Operation::CallFold => {
                let b = self.variable()?;
                let inner = self.function(b, a)?;
                let function = self.function(a, inner)?;
                let array = self.apply(ARRAY, &[b])?;
                Ok(Signature::three(function, a, array, a))
            }
            Operation::CallTry => {
                let function = self.function(UNIT, a)?;
                let result = self.apply(OPTION, &[a])?;
                Ok(Signature::one(function, result))
            }
            other => self.effect_signature(other, a),
        }
    }

    // Effects and continuations, and else queues.
    #[tactic(auto, unfolding(crate::specs::Signatures::effect_signature))]
    fn effect_signature(&mut self, operation: Operation, a: u32) -> Result<Signature, AllocError>
        ensures { IfOk result (λ s. effect_signature operation a self.old ≡ record { signature = s; types = self.new }) }
    {
        match operation {
            Operation::Perform => Ok(Signature::one(self.apply(EFFECT, &[a])?, a)),
            Operation::Continue => {
                let b = self.variable()?;
                let continuation = self.apply(DEEP, &[a, b])?;
                Ok(Signature::two(continuation, a, b))
            }
            Operation::Discontinue => {
                let b = self.variable()?;
                let continuation = self.apply(DEEP, &[a, b])?;
                Ok(Signature::two(continuation, EXN, b))
            }
            Operation::Fiber => {
                let b = self.variable()?;
                let function = self.function(a, b)?;
                let continuation = self.apply(SHALLOW, &[a, b])?;
                Ok(Signature::one(function, continuation))
            }
            other => self.queue_signature(other, a),
        }
    }

    // Queues of continuations, and else domains.
    #[tactic(auto, unfolding(crate::specs::Signatures::queue_signature))]
    fn queue_signature(&mut self, operation: Operation, a: u32) -> Result<Signature, AllocError>
        ensures { IfOk result (λ s. queue_signature operation a self.old ≡ record { signature = s; types = self.new }) }
    {
        match operation {
            Operation::QueuePush => {
                let continuation = self.apply(DEEP, &[UNIT, UNIT])?;
                Ok(Signature::one(continuation, UNIT))
            }
            Operation::QueueTake => {
                let continuation = self.apply(DEEP, &[UNIT, UNIT])?;
                let result = self.apply(OPTION, &[continuation])?;
                Ok(Signature::one(INT, result))
            }
            other => self.domain_signature(other, a),
        }
    }

    // Domains, and else atomic cells.
    #[tactic(auto, unfolding(crate::specs::Signatures::domain_signature))]
    fn domain_signature(&mut self, operation: Operation, a: u32) -> Result<Signature, AllocError>
        ensures { IfOk result (λ s. domain_signature operation a self.old ≡ record { signature = s; types = self.new }) }
    {
        match operation {
            Operation::Spawn => {
                let function = self.function(UNIT, a)?;
                let domain = self.apply(DOMAIN, &[a])?;
                Ok(Signature::one(function, domain))
            }
            Operation::Join => Ok(Signature::one(self.apply(DOMAIN, &[a])?, a)),
            other => self.atomic_signature(other, a),
        }
    }

    // Atomic cells. Where a number is added to one, it holds an int.
    #[tactic(auto, unfolding(crate::specs::Signatures::atomic_signature))]
    fn atomic_signature(&mut self, operation: Operation, a: u32) -> Result<Signature, AllocError>
        ensures { IfOk result (λ s. atomic_signature operation a self.old ≡ record { signature = s; types = self.new }) }
    {
        match operation {
            Operation::AtomicMake => Ok(Signature::one(a, self.apply(ATOMIC, &[a])?)),
            Operation::AtomicGet => Ok(Signature::one(self.apply(ATOMIC, &[a])?, a)),
            Operation::AtomicSet => Ok(Signature::two(self.apply(ATOMIC, &[a])?, a, UNIT)),
            Operation::AtomicExchange => Ok(Signature::two(self.apply(ATOMIC, &[a])?, a, a)),
            Operation::AtomicCompareAndSet => {
                Ok(Signature::three(self.apply(ATOMIC, &[a])?, a, a, BOOL))
            }
            Operation::AtomicFetchAndAdd => {
                Ok(Signature::two(self.apply(ATOMIC, &[INT])?, INT, INT))
            }
            _ => Ok(Signature::one(self.apply(ATOMIC, &[INT])?, UNIT)),
        }
    }
}
