//! Whether a function keeps its frame: it calls itself in tail position at a place where it has a
//! frame, and nowhere else.

use low_terms::{Atom, SlotClause, SlotForm, SlotProgram, SlotTestFacts};
use std::alloc::{AllocError, Global};

// A term that is still to be looked at: whether it is in tail position, and whether there is a frame.
#[derive(Clone, Copy)]
struct Left {
    node: u32,
    tail: bool,
    framed: bool,
}

// The walk over a function's body.
#[derive(Drop)]
struct Search<'a> {
    program: &'a SlotProgram,
    function: u32,
    left: Vec<Left>,
    /// The calls of the function by itself, and those of them in tail position.
    all: u32,
    tail: u32,
    /// Whether one of these comes back where there is a frame.
    comes_back: bool,
}

impl<'a> Search<'a> {
    fn push(&mut self, node: u32, tail: bool, framed: bool) -> Result<(), AllocError> {
        self.left.push(Left { node, tail, framed })?;
        Ok(())
    }

    fn parts(&mut self, parts: &[u32]) -> Result<(), AllocError> {
        for part in parts {
            self.push(*part, false, false)?;
        }
        Ok(())
    }

    fn is_flat(&self, node: u32) -> bool {
        match self.program.nodes.get(node as usize) {
            Some(node) => node.facts.flat,
            None => true,
        }
    }

    fn are_flat(&self, nodes: &[u32]) -> bool {
        for node in nodes {
            if !self.is_flat(*node) {
                return false;
            }
        }
        true
    }

    fn has_named_or(&self, clause: &SlotClause) -> bool {
        let facts: Option<&SlotTestFacts> = self.program.test_facts.get(clause.test as usize);
        match facts {
            Some(facts) => facts.named_or,
            None => false,
        }
    }

    // Whether a frame is made in front of one of the clauses' bodies.
    fn makes_frame(&self, clauses: &[SlotClause]) -> bool {
        for clause in clauses {
            if self.has_named_or(clause) {
                return true;
            }
            if let Some(guard) = clause.guard {
                if !self.is_flat(guard) {
                    return true;
                }
            }
        }
        false
    }

    fn clauses(
        &mut self,
        clauses: &[SlotClause],
        tail: bool,
        framed: bool,
    ) -> Result<(), AllocError> {
        for clause in clauses {
            if let Some(guard) = clause.guard {
                self.push(guard, false, false)?;
            }
            self.push(clause.body, tail, framed)?;
        }
        Ok(())
    }

    // A call of a function of the text.
    fn known(
        &mut self,
        this: Left,
        function: u32,
        closure: Option<Atom>,
        parts: &[u32],
    ) -> Result<(), AllocError> {
        if function == self.function {
            self.all = self.all.saturating_add(1);
            self.tail = self.tail.saturating_add(u32::from(this.tail));
            let is_own = matches!(closure, None | Some(Atom::Own));
            if this.tail && is_own && (this.framed || !self.are_flat(parts)) {
                self.comes_back = true;
            }
        }
        self.parts(parts)
    }

    // A term: its calls, and the terms in it.
    fn look(&mut self, this: Left) -> Result<(), AllocError> {
        let program = self.program;
        let Some(term) = program.nodes.get(this.node as usize) else {
            return Ok(());
        };
        let Left { tail, framed, .. } = this;
        match &term.form {
            SlotForm::Known {
                function,
                closure,
                parts,
            } => self.known(this, *function, *closure, parts.as_slice()),
            SlotForm::Let { value, body } => {
                let framed = framed || !self.is_flat(*value);
                self.push(*value, false, false)?;
                self.push(*body, tail, framed)
            }
            SlotForm::LetRec { body, .. } => self.push(*body, tail, framed),
            SlotForm::Sequence(terms) => self.sequence(terms.as_slice(), tail, framed),
            SlotForm::If {
                condition,
                consequence,
                alternative,
            }
            | SlotForm::When {
                condition,
                consequence,
                alternative,
            } => {
                let framed = framed || !self.is_flat(*condition);
                self.push(*condition, false, false)?;
                self.push(*consequence, tail, framed)?;
                self.push(*alternative, tail, framed)
            }
            SlotForm::Match { value, clauses, .. } => {
                let clauses = clauses.as_slice();
                let framed = framed || !self.is_flat(*value) || self.makes_frame(clauses);
                self.push(*value, false, false)?;
                self.clauses(clauses, tail, framed)
            }
            SlotForm::Look { clauses, .. } => {
                let clauses = clauses.as_slice();
                let framed = framed || self.makes_frame(clauses);
                self.clauses(clauses, tail, framed)
            }
            other => self.look_inside(other, tail),
        }
    }

    fn sequence(&mut self, terms: &[u32], tail: bool, framed: bool) -> Result<(), AllocError> {
        let Some((last, first)) = terms.split_last() else {
            return Ok(());
        };
        let framed = framed || !self.are_flat(first);
        self.parts(first)?;
        self.push(*last, tail, framed)
    }

    // The terms in a form that has none in tail position, but for the clauses of a catch.
    fn look_inside(&mut self, form: &SlotForm, tail: bool) -> Result<(), AllocError> {
        match form {
            SlotForm::Catch {
                body,
                values,
                exceptions,
                ..
            } => {
                self.push(*body, false, false)?;
                self.clauses(values.as_slice(), tail, true)?;
                self.clauses(exceptions.as_slice(), tail, true)
            }
            SlotForm::Call(parts)
            | SlotForm::Operation { parts, .. }
            | SlotForm::End { parts, .. }
            | SlotForm::Routine { parts, .. }
            | SlotForm::Perform { parts, .. }
            | SlotForm::PerformValue(parts)
            | SlotForm::Block { parts, .. }
            | SlotForm::Handle { parts, .. }
            | SlotForm::Again { parts, .. }
            | SlotForm::Compare { parts, .. } => self.parts(parts.as_slice()),
            SlotForm::Loop { parts, body, .. } => {
                self.parts(parts.as_slice())?;
                self.push(*body, false, false)
            }
            SlotForm::OperationConstant { part, .. } => self.push(*part, false, false),
            SlotForm::Not(inner) | SlotForm::True(inner) => self.push(*inner, false, false),
            SlotForm::Both(first, second) | SlotForm::Either(first, second) => {
                self.push(*first, false, false)?;
                self.push(*second, false, false)
            }
            _ => Ok(()),
        }
    }

    fn run(&mut self) -> Result<(), AllocError> {
        for _step in 0..u64::MAX {
            let Some(this) = self.left.pop() else {
                return Ok(());
            };
            self.look(this)?;
        }
        Err(AllocError)
    }
}

/// Whether the function of this number, whose body is the term, keeps its frame.
pub fn keeps_frame(
    alloc: Global,
    program: &SlotProgram,
    function: u32,
    body: u32,
) -> Result<bool, AllocError> {
    let mut search = Search {
        program,
        function,
        left: Vec::new(alloc),
        all: 0,
        tail: 0,
        comes_back: false,
    };
    search.push(body, true, false)?;
    search.run()?;
    Ok(search.comes_back && search.all == search.tail)
}
