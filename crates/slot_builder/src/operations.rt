//! Built-in operations.

use crate::builder::{SlotBuilder, UNIT};
use core_shapes::form_of;
use effect_meaning::{Constructor, Operation, Sequence, TermForm};
use low_terms::{Atom, Inline, SlotForm, is_end, is_routine};
use std::alloc::AllocError;

impl<'a> SlotBuilder<'a> {
    /// Whether a term is a comparison of strings.
    pub fn compares_texts(&self, term: u32) -> bool {
        self.core1
            .compares_texts
            .get(term as usize)
            .copied()
            .unwrap_or(false)
    }

    fn build_perform(&mut self, effect: u32, depth: u32) -> Result<(), AllocError> {
        let parts = self.take_list(1)?;
        let form = match form_of(self.core1, effect)? {
            TermForm::Construct {
                constructor: Constructor::Effect(row),
                ..
            } => SlotForm::Perform {
                effect: *row,
                parts,
            },
            _ => SlotForm::PerformValue(parts),
        };
        self.give_new(form, depth)
    }

    /// The node of an operation whose parts were converted.
    pub fn build_primitive(
        &mut self,
        term: u32,
        operation: Operation,
        parts: &[u32],
        depth: u32,
    ) -> Result<(), AllocError> {
        match (operation, parts) {
            (Operation::Ignore, _) => {
                let unit = self.node(SlotForm::Atom(Atom::Word(UNIT)), depth)?;
                self.give(unit)?;
                self.build_sequence(2, depth)
            }
            (Operation::Perform, [effect]) => self.build_perform(*effect, depth),
            (Operation::Compare(comparison), _) if self.compares_texts(term) => {
                let parts = self.take_list(parts.len())?;
                let operation = Inline::CompareTexts(comparison);
                self.give_new(SlotForm::Operation { operation, parts }, depth)
            }
            _ => {
                let parts = self.take_parts(parts.len())?;
                self.give_operation(operation, parts, depth)
            }
        }
    }

    // An operation on nodes, the last operand first.
    fn give_operation(
        &mut self,
        operation: Operation,
        nodes: Vec<u32>,
        depth: u32,
    ) -> Result<(), AllocError> {
        if is_routine(operation) {
            let parts = Sequence::from_vec(nodes);
            return self.give_new(SlotForm::Routine { operation, parts }, depth);
        }
        if is_end(operation) {
            let parts = Sequence::from_vec(nodes);
            return self.give_new(SlotForm::End { operation, parts }, depth);
        }
        let mut nodes = nodes;
        if self.swaps(operation, &nodes) {
            nodes.reverse();
        }
        if let [second, first] = nodes.as_slice()
            && let Some(number) = self.small_number(operation, *second)
        {
            let form = SlotForm::OperationConstant {
                operation,
                part: *first,
                number,
            };
            return self.give_new(form, depth);
        }
        let form = SlotForm::Operation {
            operation: Inline::Plain(operation),
            parts: Sequence::from_vec(nodes),
        };
        self.give_new(form, depth)
    }

    // The word that a node is, if it is one.
    fn word_of(&self, node: u32) -> Option<u64> {
        match self.atom_of(node) {
            Some(Atom::Word(word)) => Some(word),
            _ => None,
        }
    }

    // Whether the first operand is a constant, and may as well be the second one.
    fn swaps(&self, operation: Operation, nodes: &[u32]) -> bool {
        match (operation, nodes) {
            (Operation::Add | Operation::Multiply, [_, first]) => self.word_of(*first).is_some(),
            _ => false,
        }
    }

    // The number that a second operand is, if the operation has a form for it.
    fn small_number(&self, operation: Operation, node: u32) -> Option<i64> {
        let number = self.word_of(node)?.cast_signed() >> 1;
        let has_form = match operation {
            Operation::Add | Operation::Subtract | Operation::Multiply => {
                -900 <= number && number <= 900
            }
            Operation::Divide | Operation::Modulo => number != 0,
            _ => false,
        };
        if has_form { Some(number) } else { None }
    }
}
