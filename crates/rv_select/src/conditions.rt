//! Conditions, and forms of two ways.

use crate::labels::{Kind, label};
use crate::selector::Selector;
use crate::tasks::Task;
use low_terms::{Condition, If, LowProgram, Out, WordComparison};
use rt_layout::registers::{T0, ZERO};
use rt_layout::{assembly_line, branch_line};
use rv_model::Line;
use std::alloc::AllocError;

/// Two conditions, and the block between them.
#[derive(Clone, Copy)]
struct Two {
    node: u32,
    first: u32,
    between: u32,
    second: u32,
}

/// The label behind a form, where what stands behind it goes on.
pub fn end_label(node: u32, out: Out) -> Result<Option<u32>, AllocError> {
    match out {
        Out::Falls => Ok(Some(label(node, Kind::End)?)),
        Out::Leaves => Ok(None),
    }
}

// The branch to the label where the comparison is `when`.
fn comparison_line(comparison: WordComparison, when: bool, a: u8, b: u8, to: u32) -> Line {
    match (comparison, when) {
        (WordComparison::Equal, true) | (WordComparison::Different, false) => {
            assembly_line!(beq a, b, to)
        }
        (WordComparison::Equal, false) | (WordComparison::Different, true) => {
            assembly_line!(bne a, b, to)
        }
        (WordComparison::Below, true) | (WordComparison::AtLeast, false) => {
            assembly_line!(blt a, b, to)
        }
        (WordComparison::Below, false) | (WordComparison::AtLeast, true) => {
            assembly_line!(bge a, b, to)
        }
        (WordComparison::Above, true) | (WordComparison::AtMost, false) => {
            assembly_line!(blt b, a, to)
        }
        (WordComparison::Above, false) | (WordComparison::AtMost, true) => {
            assembly_line!(bge b, a, to)
        }
    }
}

// The branch to the label where T0, a bit of the value, is `when`.
fn bit_line(when: bool, to: u32) -> Line {
    if when {
        branch_line!(Bne, T0, ZERO, to)
    } else {
        branch_line!(Beq, T0, ZERO, to)
    }
}

impl Selector {
    /// Goes to the label where the condition is `when`, and on where it isn't.
    pub fn branch(
        &mut self,
        low: &LowProgram,
        condition: u32,
        to: u32,
        when: bool,
    ) -> Result<(), AllocError> {
        let Some(found) = low.conditions.get(condition as usize) else {
            return Err(AllocError);
        };
        match *found {
            Condition::Compare {
                before,
                comparison,
                left,
                right,
            } => {
                let line = comparison_line(comparison, when, left, right, to);
                self.next(&[Task::steps(before), Task::Line(line)])
            }
            Condition::Not(condition) => self.next(&[Task::Branch {
                condition,
                to,
                when: !when,
            }]),
            Condition::True { before, register } => self.next(&[
                Task::steps(before),
                Task::Line(assembly_line!(andi T0, register, 2)),
                Task::Line(bit_line(when, to)),
            ]),
            both_or_either => self.branch_on_two(both_or_either, to, when),
        }
    }

    // The same for a condition on two others.
    fn branch_on_two(
        &mut self,
        condition: Condition,
        to: u32,
        when: bool,
    ) -> Result<(), AllocError> {
        let (two, past) = match condition {
            Condition::Both {
                node,
                first,
                between,
                second,
            } => {
                let two = Two {
                    node,
                    first,
                    between,
                    second,
                };
                (two, when)
            }
            Condition::Either {
                node,
                first,
                between,
                second,
            } => {
                let two = Two {
                    node,
                    first,
                    between,
                    second,
                };
                (two, !when)
            }
            _ => return Err(AllocError),
        };
        self.two(two, to, when, past)
    }

    // Two conditions. Where the first isn't `when`, the code goes past the second, or looks at it.
    fn two(&mut self, two: Two, to: u32, when: bool, past: bool) -> Result<(), AllocError> {
        let second = Task::Branch {
            condition: two.second,
            to,
            when,
        };
        let between = Task::steps(two.between);
        if !past {
            let first = Task::Branch {
                condition: two.first,
                to,
                when,
            };
            return self.next(&[first, between, second]);
        }
        let skip = label(two.node, Kind::Skip)?;
        let first = Task::Branch {
            condition: two.first,
            to: skip,
            when: !when,
        };
        self.next(&[first, between, second, Task::label(skip)])
    }

    /// A form of two ways.
    pub fn choice(&mut self, form: If) -> Result<(), AllocError> {
        let other = label(form.node, Kind::Other)?;
        let end = end_label(form.node, form.out)?;
        if let Some(end) = end {
            self.next(&[Task::label(end)])?;
        }
        if let Some(alternative) = form.alternative {
            self.next(&[Task::label(other), Task::steps(alternative)])?;
            if let Some(end) = end {
                self.next(&[Task::jump(end)])?;
            }
        } else {
            self.next(&[Task::label(other)])?;
        }
        self.next(&[
            Task::Branch {
                condition: form.condition,
                to: other,
                when: false,
            },
            Task::steps(form.consequence),
        ])
    }
}
