//! What is still to be written.

use low_terms::{Failure, Source};
use rv_model::Line;

/// Something that is still to be written.
#[derive(Clone, Copy)]
pub enum Task {
    /// The steps of a block, from this one on.
    Steps { block: u32, from: usize },
    /// The checks of a block, from this one on. Where one fails, the code goes to the label.
    Checks { block: u32, from: usize, no: u32 },
    /// Goes to the label where the condition is `when`, and on where it isn't.
    Branch { condition: u32, to: u32, when: bool },
    /// A clause. The end of its body goes to the label, if there is one and other code follows.
    Clause { clause: u32, end: Option<u32> },
    /// What is done where no clause matches.
    Fail(Failure),
    /// Reads a value.
    Load { rd: u8, source: Source },
    /// A line.
    Line(Line),
}

impl Task {
    /// All steps of a block.
    pub fn steps(block: u32) -> Task {
        Task::Steps { block, from: 0 }
    }

    /// All checks of a block.
    pub fn checks(block: u32, no: u32) -> Task {
        Task::Checks { block, from: 0, no }
    }

    /// A label.
    pub fn label(label: u32) -> Task {
        Task::Line(Line::Label(label))
    }

    /// A jump.
    pub fn jump(to: u32) -> Task {
        Task::Line(Line::Jump { rd: 0, to })
    }
}
