//! Going to other code.

use crate::labels::{Kind, entry, label};
use crate::selector::Selector;
use effect_meaning::Operation;
use low_terms::{Out, Target, Transfer};
use rt_layout::assembly;
use rt_layout::blocks::tagged;
use rt_layout::labels::{
    ARRAY_MAKE, C_FOLD, C_ITER, C_TRY, CONCAT, DISCONTINUE, DISCONTINUE_WITH, EXIT, FAILWITH,
    HANDLE, INVALID_ARG, JOIN, PERFORM, PRINT_CHAR, PRINT_ENDLINE, PRINT_INT, PRINT_NEWLINE,
    PRINT_STRING, PUSH, RAISE, RESUME, RESUME_WITH, SPAWN, STRING_OF_INT, STRING_SUB, TAKE_FROM,
    WAITING_FIBER,
};
use rt_layout::registers::{A0, A1, A2, AUX, LINK, NEW, RA, ZERO};
use std::alloc::AllocError;

/// Where a transfer goes once its last registers are written.
#[derive(Clone, Copy)]
enum Destination {
    Label(u32),
    /// The address in `LINK`.
    Address,
    /// Behind the frame of the running function.
    Again(u32),
}

// The routine of an operation.
fn routine(operation: Operation) -> Result<u32, AllocError> {
    match operation {
        Operation::PrintInteger => Ok(PRINT_INT),
        Operation::PrintCharacter => Ok(PRINT_CHAR),
        Operation::PrintString => Ok(PRINT_STRING),
        Operation::PrintLine => Ok(PRINT_ENDLINE),
        Operation::PrintNewline => Ok(PRINT_NEWLINE),
        Operation::StringOfInteger => Ok(STRING_OF_INT),
        Operation::Concatenate => Ok(CONCAT),
        Operation::StringSub => Ok(STRING_SUB),
        Operation::ArrayMake => Ok(ARRAY_MAKE),
        Operation::CallIterate => Ok(C_ITER),
        Operation::CallFold => Ok(C_FOLD),
        Operation::CallTry => Ok(C_TRY),
        Operation::Continue => Ok(RESUME),
        Operation::Discontinue => Ok(DISCONTINUE),
        Operation::Fiber => Ok(WAITING_FIBER),
        Operation::Spawn => Ok(SPAWN),
        Operation::Join => Ok(JOIN),
        Operation::QueuePush => Ok(PUSH),
        Operation::QueueTake => Ok(TAKE_FROM),
        _ => Err(AllocError),
    }
}

impl Selector {
    /// An operation that never gives a value, on `a0`.
    pub fn end(&mut self, operation: Operation) -> Result<(), AllocError> {
        match operation {
            Operation::Raise => self.jump(RAISE),
            Operation::FailWith => self.jump(FAILWITH),
            Operation::InvalidArgument => self.jump(INVALID_ARG),
            Operation::Exit => self.jump(EXIT),
            _ => Err(AllocError),
        }
    }

    /// A form that goes to other code, from in a frame or from in front of it.
    pub fn transfer(&mut self, transfer: Transfer, framed: bool) -> Result<(), AllocError> {
        let destination = self.prepare(transfer.target)?;
        if let Destination::Again(to) = destination {
            return self.jump(to);
        }
        match transfer.out {
            Out::Falls => {
                self.go(RA, destination)?;
                self.label(label(transfer.node, Kind::Back)?)
            }
            Out::Leaves => {
                if framed {
                    self.pop_frame()?;
                }
                self.go(ZERO, destination)
            }
        }
    }

    fn go(&mut self, link: u8, destination: Destination) -> Result<(), AllocError> {
        match destination {
            Destination::Label(to) | Destination::Again(to) => {
                self.put(&assembly![call link, to;])
            }
            Destination::Address => self.put(&assembly![callr link, LINK;]),
        }
    }

    // Writes the last registers that the target looks at.
    fn prepare(&mut self, target: Target) -> Result<Destination, AllocError> {
        match target {
            Target::Closure => {
                self.put(&assembly![ld LINK, 0, A1;])?;
                Ok(Destination::Address)
            }
            Target::Known(function) => Ok(Destination::Label(entry(function)?)),
            Target::Again(function) => Ok(Destination::Again(label(function, Kind::Again)?)),
            Target::Routine(operation) => Ok(Destination::Label(routine(operation)?)),
            Target::Perform(row) => {
                self.put(&assembly![li A0, tagged(u64::from(row));])?;
                Ok(Destination::Label(PERFORM))
            }
            Target::PerformValue => {
                self.put(&assembly![ld A2, 8, A0; ld A0, 0, A0;])?;
                Ok(Destination::Label(PERFORM))
            }
            other => self.prepare_handler(other),
        }
    }

    // The record is in `NEW`.
    fn prepare_handler(&mut self, target: Target) -> Result<Destination, AllocError> {
        let to = match target {
            Target::HandleFunction(function) => {
                let code = entry(function)?;
                self.put(&assembly![mv A1, NEW; code AUX, code;])?;
                HANDLE
            }
            Target::HandleClosure => {
                self.put(&assembly![ld AUX, 0, A1;])?;
                HANDLE
            }
            Target::ContinueWith => RESUME_WITH,
            Target::DiscontinueWith => DISCONTINUE_WITH,
            _ => return Err(AllocError),
        };
        self.copy(A2, NEW)?;
        Ok(Destination::Label(to))
    }

    /// Leaves the function, in a frame or in front of it.
    pub fn leave(&mut self, framed: bool) -> Result<(), AllocError> {
        if framed {
            self.pop_frame()?;
        }
        self.put(&assembly![jr RA, 0;])
    }
}
