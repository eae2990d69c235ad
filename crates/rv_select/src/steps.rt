//! The walk over the steps of blocks.

use crate::blocks::NewBlock;
use crate::labels::{Kind, label};
use crate::loads::home_offset;
use crate::selector::Selector;
use crate::tasks::Task;
use low_terms::{Block, Body, Flat, Low, LowProgram, Room};
use rt_layout::registers::SP;
use std::alloc::AllocError;

impl Selector {
    /// Does all that is still to be done.
    pub fn finish(&mut self, low: &LowProgram) -> Result<(), AllocError> {
        for _step in 0..u64::MAX {
            let Some(task) = self.tasks.pop() else {
                return Ok(());
            };
            self.act(low, task)?;
        }
        Err(AllocError)
    }

    fn act(&mut self, low: &LowProgram, task: Task) -> Result<(), AllocError> {
        match task {
            Task::Steps { block, from } => self.steps(low, block, from),
            Task::Checks { block, from, no } => self.checks(low, block, from, no),
            Task::Branch {
                condition,
                to,
                when,
            } => self.branch(low, condition, to, when),
            Task::Clause { clause, end } => self.clause(low, clause, end),
            Task::Fail(failure) => self.fail(failure),
            Task::Load { rd, source } => self.load(rd, source),
            Task::Line(line) => self.put(&[line]),
        }
    }

    // The next step of a block.
    fn steps(&mut self, low: &LowProgram, block: u32, from: usize) -> Result<(), AllocError> {
        let Some(found) = low.blocks.get(block as usize) else {
            return Err(AllocError);
        };
        let rest = Task::Steps {
            block,
            from: from.saturating_add(1),
        };
        match found {
            Block::Flat(steps) => {
                let Some(step) = steps.as_slice().get(from) else {
                    return Ok(());
                };
                self.tasks.push(rest)?;
                self.flat(low, step)
            }
            Block::Low(steps) => {
                let Some(step) = steps.as_slice().get(from) else {
                    return Ok(());
                };
                self.tasks.push(rest)?;
                self.framed(low, step)
            }
            Block::Body(steps) => {
                let Some(step) = steps.as_slice().get(from) else {
                    return Ok(());
                };
                self.tasks.push(rest)?;
                self.unframed(low, step)
            }
            Block::Checks(_) => Err(AllocError),
        }
    }

    // The next check of a block.
    fn checks(
        &mut self,
        low: &LowProgram,
        block: u32,
        from: usize,
        no: u32,
    ) -> Result<(), AllocError> {
        let Some(Block::Checks(checks)) = low.blocks.get(block as usize) else {
            return Err(AllocError);
        };
        let Some(check) = checks.as_slice().get(from) else {
            return Ok(());
        };
        self.tasks.push(Task::Checks {
            block,
            from: from.saturating_add(1),
            no,
        })?;
        self.check(*check, no)
    }

    // A step that calls nothing.
    fn flat(&mut self, low: &LowProgram, step: &Flat) -> Result<(), AllocError> {
        match step {
            Flat::Load { rd, source } => self.load(*rd, *source),
            Flat::Copy { rd, rs } => self.copy(*rd, *rs),
            Flat::Operation {
                node,
                operation,
                rd,
                operands,
            } => self.operation(*node, *operation, *rd, *operands),
            Flat::OperationConstant {
                operation,
                rd,
                operand,
                number,
            } => self.operation_by_number(*operation, *rd, *operand, *number),
            Flat::End(operation) => self.end(*operation),
            Flat::If(form) => self.choice(*form),
            Flat::Match(form) => self.matching(form),
            Flat::Loop { node, body } => {
                self.label(label(*node, Kind::Loop)?)?;
                self.next(&[Task::steps(*body)])
            }
            Flat::Again { node } => self.jump(label(*node, Kind::Loop)?),
            other => self.making(low, other),
        }
    }

    // A step that makes a block.
    fn making(&mut self, low: &LowProgram, step: &Flat) -> Result<(), AllocError> {
        match step {
            Flat::Block {
                rd,
                made_in,
                header,
                leading,
                inner,
                parts,
            } => {
                let block = NewBlock {
                    made_in: *made_in,
                    header: *header,
                    leading: *leading,
                    inner: *inner,
                };
                self.block(*rd, block, parts.as_slice())
            }
            Flat::Closure { function, count } => self.closure(low, *function, *count),
            Flat::Captures { base, names } => self.captures(*base, names.as_slice()),
            Flat::Record { first, count } => self.record(*first, *count),
            _ => Err(AllocError),
        }
    }

    // A step in the frame.
    fn framed(&mut self, low: &LowProgram, step: &Low) -> Result<(), AllocError> {
        match step {
            Low::Flat(step) => self.flat(low, step),
            Low::Save { register, home } => self.store_to(*register, home_offset(*home), SP),
            Low::Transfer(form) => self.transfer(*form, true),
            Low::If(form) => self.choice(*form),
            Low::Match(form) => self.matching(form),
            Low::Catch(form) => self.catch(form),
            Low::Return => self.leave(true),
        }
    }

    // A step in front of the frame.
    fn unframed(&mut self, low: &LowProgram, step: &Body) -> Result<(), AllocError> {
        match step {
            Body::Flat(step) => self.flat(low, step),
            Body::Transfer(form) => self.transfer(*form, false),
            Body::If(form) => self.choice(*form),
            Body::Match(form) => self.matching(form),
            Body::Framed { room, rest } => {
                let room = match room {
                    Room::Node(node) => label(*node, Kind::Room)?,
                    Room::Entry => label(self.function, Kind::EntryRoom)?,
                };
                self.push_frame(room)?;
                self.next(&[Task::steps(*rest)])
            }
            Body::Return => self.leave(false),
        }
    }
}
