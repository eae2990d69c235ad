//! The conversion of handlers.

use crate::converter::Converter;
use crate::tasks::Task;
use core_shapes::{Literal, form_of, literal_of, need_of, number_of, owner_of, place_of, test_of};
use effect_meaning::{Constructor, EffectClause, HandlerKind, Sequence, TermForm};
use indexmap::IndexSet;
use low_terms::{Atom, FunctionKind, Handler, Next, SlotForm, Way};
use slot_builder::UNIT;
use std::alloc::AllocError;

/// A handler whose parts and clauses are being converted.
#[derive(Drop)]
pub struct Handling {
    /// What its functions and clauses capture together.
    names: Vec<u32>,
    /// The functions among its parts that are literal ones.
    literals: [Option<u32>; 4],
    /// The functions of its clauses.
    clauses: Vec<u32>,
}

/// The parts of a handler.
#[derive(Clone, Copy)]
struct Parts<'a> {
    kind: HandlerKind,
    /// The subject, its argument, and what is done with its value and its exception.
    terms: [u32; 4],
    clauses: &'a [EffectClause],
}

impl<'a> Converter<'a> {
    fn parts_of(&self, term: u32) -> Result<Parts<'a>, AllocError> {
        match form_of(self.core1, term)? {
            TermForm::Handle {
                kind,
                types: _,
                subject,
                argument,
                on_value,
                on_exception,
                clauses,
            } => Ok(Parts {
                kind: *kind,
                terms: [*subject, *argument, *on_value, *on_exception],
                clauses: clauses.as_slice(),
            }),
            _ => Err(AllocError),
        }
    }

    // The function literal that a part of a handler is, if no closure is made of it: nothing but the
    // handler can name it.
    fn part_literal(
        &self,
        kind: HandlerKind,
        index: usize,
        term: u32,
    ) -> Result<Option<Literal>, AllocError> {
        if index >= 2 || index == 0 && kind == HandlerKind::Deep {
            literal_of(self.core1, term)
        } else {
            Ok(None)
        }
    }

    // Adds the free names of the function or the clause with this body.
    fn add_free(&self, names: &mut IndexSet<u32>, body: u32) -> Result<(), AllocError> {
        for name in owner_of(self.core1, body)?.free.iter() {
            names.insert(*name)?;
        }
        Ok(())
    }

    fn add_parts(&self, names: &mut IndexSet<u32>, parts: Parts<'a>) -> Result<(), AllocError> {
        for (index, term) in parts.terms.iter().enumerate() {
            if let Some(literal) = self.part_literal(parts.kind, index, *term)? {
                self.add_free(names, literal.body)?;
            }
        }
        Ok(())
    }

    // What the functions and the clauses of a handler capture together.
    fn captured_by(&self, parts: Parts<'a>) -> Result<Vec<u32>, AllocError> {
        let mut names = IndexSet::new(self.alloc);
        self.add_parts(&mut names, parts)?;
        for clause in parts.clauses {
            self.add_free(&mut names, clause.body)?;
        }
        Vec::from_slice(self.alloc, names.as_slice())
    }

    /// Converts a handler.
    pub fn handle(&mut self, term: u32, depth: u32) -> Result<(), AllocError> {
        let parts = self.parts_of(term)?;
        let names = self.captured_by(parts)?;
        self.handlings.push(Handling {
            names,
            literals: [None; 4],
            clauses: Vec::new(self.alloc),
        })?;
        self.push(Task::Build { term, depth })?;
        self.push_effect_clauses(term, number_of(parts.clauses.len())?)?;
        self.push_handler_parts(parts, depth)
    }

    fn push_effect_clauses(&mut self, term: u32, count: u32) -> Result<(), AllocError> {
        for number in (0..count).rev() {
            self.push(Task::EffectClause { term, number })?;
        }
        Ok(())
    }

    fn push_handler_parts(&mut self, parts: Parts<'a>, depth: u32) -> Result<(), AllocError> {
        let mut at = depth;
        for (index, term) in parts.terms.iter().enumerate().rev() {
            match self.part_literal(parts.kind, index, *term)? {
                Some(literal) => self.push(Task::Part {
                    literal,
                    index: number_of(index)?,
                })?,
                None => self.push_term(*term, at)?,
            }
            at = at.saturating_add(1);
        }
        Ok(())
    }

    /// What the innermost handler captures.
    pub fn handler_names(&self) -> Result<Vec<u32>, AllocError> {
        match self.handlings.last() {
            Some(handling) => Vec::from_slice(self.alloc, &handling.names),
            None => Err(AllocError),
        }
    }

    /// Converts a function literal among the innermost handler's parts.
    pub fn handler_part(&mut self, literal: Literal, index: u32) -> Result<(), AllocError> {
        let function = self.begin(literal, 1)?;
        let Some(handling) = self.handlings.last_mut() else {
            return Err(AllocError);
        };
        let Some(part) = handling.literals.get_mut(index as usize) else {
            return Err(AllocError);
        };
        *part = Some(function);
        self.finish_part(function, literal)
    }

    // The function of an effect clause, without its test and its body.
    fn new_clause(
        &mut self,
        kind: HandlerKind,
        clause: &EffectClause,
        names: u32,
    ) -> Result<u32, AllocError> {
        let Constructor::Effect(effect) = clause.effect else {
            return Err(AllocError);
        };
        let need = need_of(self.core1, clause.body)?;
        let function_kind = FunctionKind::Clause {
            effect,
            argument: None,
            names,
            shallow: kind != HandlerKind::Deep,
            next: Next::End,
            body: u32::MAX,
        };
        let mut function = self.slots.bare_function(function_kind, clause.place);
        function.slots = need.saturating_add(names).saturating_add(2);
        function.closure = owner_of(self.core1, clause.body)?.free.len() > 0;
        self.slots.new_function(function)
    }

    // The test of an effect clause's argument, whose names go to cells.
    fn clause_test(&mut self, test: Option<u32>, names: &[u32]) -> Result<Option<u32>, AllocError> {
        let Some(test) = test else {
            return Ok(None);
        };
        self.slots.note_test(test, number_of(names.len())?)?;
        self.slots.to_cells(names)?;
        Ok(Some(self.slots.place_test(test)?))
    }

    // The test of the argument of an effect clause, by its number in Core, and its names.
    fn argument_of(&self, clause: &EffectClause) -> Result<(Option<u32>, Vec<u32>), AllocError> {
        match clause.argument {
            Some(pattern) => {
                let test = test_of(self.core1, pattern)?;
                Ok((Some(test), self.slots.names_of_test(test)?))
            }
            None => Ok((None, Vec::new(self.alloc))),
        }
    }

    /// Converts the effect clause of this number of the innermost handler. The continuation has slot 1,
    /// and names have the slots from 2 on.
    pub fn effect_clause(&mut self, term: u32, number: u32) -> Result<(), AllocError> {
        let parts = self.parts_of(term)?;
        let Some(clause) = parts.clauses.get(number as usize) else {
            return Err(AllocError);
        };
        let (test, names) = self.argument_of(clause)?;
        let count = number_of(names.len())?;
        let function = self.new_clause(parts.kind, clause, count)?;
        let test = self.clause_test(test, &names)?;
        self.set_argument(function, test)?;
        let captured = self.handler_names()?;
        self.names.enter()?;
        self.names.capture(&captured)?;
        self.names.bind(clause.continuation, Atom::Slot(1))?;
        self.names.bind_slots(&names, 2)?;
        self.push(Task::Leave { function })?;
        self.push_term(clause.body, count.saturating_add(2))
    }

    // The clause of this function has a test, and is the next one of the innermost handler.
    fn set_argument(&mut self, function: u32, test: Option<u32>) -> Result<(), AllocError> {
        let Some(found) = self.slots.program.functions.get_mut(function as usize) else {
            return Err(AllocError);
        };
        let FunctionKind::Clause { argument, .. } = &mut found.kind else {
            return Err(AllocError);
        };
        *argument = test;
        let Some(handling) = self.handlings.last_mut() else {
            return Err(AllocError);
        };
        handling.clauses.push(function)?;
        Ok(())
    }

    // Takes the parts that were evaluated, the last one first; `()` stands for literal functions.
    fn take_handler_parts(
        &mut self,
        literals: &[Option<u32>; 4],
        depth: u32,
    ) -> Result<Vec<u32>, AllocError> {
        let mut parts = Vec::new(self.alloc);
        for literal in literals.iter().rev() {
            let part = match literal {
                Some(_) => self.slots.node(SlotForm::Atom(Atom::Word(UNIT)), depth)?,
                None => self.slots.take()?,
            };
            parts.push(part)?;
        }
        Ok(parts)
    }

    // A way out of a handler: the code of a literal function, or a further captured value.
    fn way(
        &self,
        literal: Option<u32>,
        part: u32,
        slot: u32,
        captures: &mut Vec<Atom>,
    ) -> Result<Way, AllocError> {
        if let Some(function) = literal {
            return Ok(Way::Function(function));
        }
        let number = number_of(captures.len())?;
        captures.push(self.slots.atom_of(part).unwrap_or(Atom::Slot(slot)))?;
        Ok(Way::Captured(number))
    }

    // Each clause is tested where the one before it doesn't take the effect.
    fn link_clauses(&mut self, clauses: &[u32]) -> Result<(), AllocError> {
        for (function, following) in clauses.iter().zip(clauses.iter().skip(1)) {
            self.set_next(*function, *following)?;
        }
        Ok(())
    }

    // The function whose code tests the first clause of a handler.
    fn first_of(&mut self, term: u32, clauses: &[u32]) -> Result<u32, AllocError> {
        self.link_clauses(clauses)?;
        match clauses.first() {
            Some(function) => Ok(*function),
            None => {
                let place = place_of(self.core1, term)?;
                let head = self.slots.bare_function(FunctionKind::Head, place);
                self.slots.new_function(head)
            }
        }
    }

    // A further handler, by its number.
    fn new_handler(&mut self, handler: Handler) -> Result<u32, AllocError> {
        let number = number_of(self.slots.program.handlers.len())?;
        match self.slots.program.functions.get_mut(handler.first as usize) {
            Some(function) => function.head = Some(number),
            None => return Err(AllocError),
        }
        self.slots.program.handlers.push(handler)?;
        Ok(number)
    }

    /// The node of a handler.
    pub fn build_handle(&mut self, term: u32, depth: u32) -> Result<(), AllocError> {
        let kind = self.parts_of(term)?.kind;
        let Some(handling) = self.handlings.pop() else {
            return Err(AllocError);
        };
        let Handling {
            names,
            literals,
            clauses,
        } = handling;
        let parts = self.take_handler_parts(&literals, depth)?;
        let [on_exception, on_value, ..] = parts.as_slice() else {
            return Err(AllocError);
        };
        let mut captures = self.atoms(&names)?;
        let [subject, _, value_literal, exception_literal] = literals;
        let value_slot = depth.saturating_add(1);
        let on_value = self.way(value_literal, *on_value, value_slot, &mut captures)?;
        let on_exception = self.way(exception_literal, *on_exception, depth, &mut captures)?;
        let handler = Handler {
            first: self.first_of(term, &clauses)?,
            captures: Sequence::from_vec(captures),
            subject,
            on_value,
            on_exception,
        };
        let form = SlotForm::Handle {
            kind,
            handler: self.new_handler(handler)?,
            parts: Sequence::from_vec(parts),
        };
        self.slots.give_new(form, depth)
    }
}
