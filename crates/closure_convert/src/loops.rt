//! The conversion of loops, which are in registers alone.

use crate::converter::Converter;
use crate::tasks::Task;
use core_shapes::{MOST_PARAMETERS, form_of, last_body, literal_of_function, number_of, unfold};
use effect_meaning::{Function, TermForm};
use low_terms::SlotForm;
use std::alloc::AllocError;

/// The registers that values are kept in.
const POOL: u32 = 8;

/// A loop that was made of a `let rec`.
#[derive(Clone, Copy)]
pub struct MadeLoop {
    pub term: u32,
    pub node: u32,
    /// Whether a set of slots tells all its slots apart.
    pub is_within: bool,
}

impl<'a> Converter<'a> {
    // Whether a `let rec` is a loop.
    fn is_loop(&self, term: u32) -> bool {
        self.flat.get(term as usize).copied().unwrap_or(false)
    }

    /// Converts a `let rec`.
    pub fn let_rec(
        &mut self,
        term: u32,
        functions: &[Function],
        body: u32,
        depth: u32,
    ) -> Result<(), AllocError> {
        if self.is_loop(term) {
            self.push(Task::Build { term, depth })?;
            self.push(Task::Loop { term, depth })?;
            return self.push_arguments(body, depth);
        }
        self.local_group(term, functions, body, depth)
    }

    /// Converts the body of a loop behind its first arguments. Its parameters have the slots from
    /// `depth` on.
    pub fn begin_loop(&mut self, term: u32, depth: u32) -> Result<(), AllocError> {
        let TermForm::LetRec { functions, .. } = form_of(self.core1, term)? else {
            return Err(AllocError);
        };
        let Some(function) = functions.as_slice().first() else {
            return Err(AllocError);
        };
        let literal = literal_of_function(function);
        let levels = unfold(self.alloc, self.core1, literal, MOST_PARAMETERS)?;
        self.names.loops.put(function.name, Some(depth))?;
        self.bind_parameters(&levels, depth)?;
        self.loop_marks.push(self.beyond)?;
        let count = number_of(levels.len())?;
        self.push_term(last_body(&levels)?, depth.saturating_add(count))
    }

    /// The node of a `let rec`.
    pub fn build_let_rec(
        &mut self,
        term: u32,
        functions: &[Function],
        depth: u32,
    ) -> Result<(), AllocError> {
        match functions {
            [function] if self.is_loop(term) => self.build_loop(term, function, depth),
            _ => self.build_group(functions, depth),
        }
    }

    fn build_loop(&mut self, term: u32, function: &Function, depth: u32) -> Result<(), AllocError> {
        let literal = literal_of_function(function);
        let levels = unfold(self.alloc, self.core1, literal, MOST_PARAMETERS)?;
        let body = self.slots.take()?;
        let form = SlotForm::Loop {
            count: number_of(levels.len())?,
            parts: self.slots.take_list(levels.len())?,
            body,
        };
        let node = self.slots.node(form, depth)?;
        let is_within = self.loop_marks.pop() == Some(self.beyond);
        self.loops.push(MadeLoop {
            term,
            node,
            is_within,
        })?;
        self.slots.give(node)
    }

    // Whether a loop has the registers for itself.
    fn fits_alone(&self, made: &MadeLoop) -> bool {
        match self.slots.program.nodes.get(made.node as usize) {
            Some(node) => {
                let facts = &node.facts;
                let registers = facts.uses.len().saturating_add(facts.width);
                made.is_within && facts.flat && registers <= POOL
            }
            None => false,
        }
    }

    /// Refuses the loops that don't fit into the registers. Whether there are any.
    pub fn refuse_loops(&self, refused: &mut Vec<bool>) -> Result<bool, AllocError> {
        let mut is_any = false;
        for made in &self.loops {
            if !self.fits_alone(made) {
                let Some(is_refused) = refused.get_mut(made.term as usize) else {
                    return Err(AllocError);
                };
                *is_refused = true;
                is_any = true;
            }
        }
        Ok(is_any)
    }
}
