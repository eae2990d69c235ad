//! Types as they are written in the text.

ghost use Rattle.std.specs.Prelude.{◌≡◌, ◌++◌, map, OnOk, IfOk};
ghost use Rattle.std.specs.List.{list_all};
ghost use Rattle.ml_infer.specs.Inference.{gives};
ghost use Rattle.ml_infer.specs.Written.{annotated_if, entered, found_of, item_variable, left, noted_read, read_before, reading, takes, type_variable, visited, visited_one, written};

use crate::inference::{Inference, Read};
use effect_meaning::{CoreArena, TypeExpression};
use fx_base::Place;
use std::alloc::{AllocError, Global};
use type_graph::{Stack, TUPLE, UNIT};

/// What the variables of a written type stand for.
#[derive(Clone, Copy)]
pub enum Variables {
    /// Each for one type within the item.
    OfItem,
    /// For the parameters of a declaration, whose types have the numbers from the first one on.
    Parameters { first: u32, count: u32 },
}

/// A step of reading a written type.
#[derive(Clone, Copy)]
pub enum Visit {
    Enter(u32),
    /// Its arguments are read.
    Leave(u32),
}

impl Inference {
    /// The type that a written one stands for. A type constructor with a wrong number of arguments is
    /// a fault at the place.
    pub fn written(
        &mut self,
        arena: &CoreArena,
        n: u32,
        variables: Variables,
        place: Place,
    ) -> Result<u32, AllocError>
        ensures { IfOk result (λ found. written arena.now n variables place self.old ≡ gives found self.new) }
    {
        let mut visits = Stack::new(self.types.alloc());
        visits.push(Visit::Enter(n))?;
        self.read_all(arena, variables, place, visits)?;
        Ok(self.found(n))
    }

    /// A type is the one that is written, if one is.
    pub fn annotate(
        &mut self,
        arena: &CoreArena,
        place: Place,
        found: u32,
        annotation: Option<u32>,
    ) -> Result<(), AllocError>
        ensures { OnOk result (self.new ≡ annotated_if arena.now place found annotation self.old) }
    {
        match annotation {
            Some(annotation) => {
                let expected = self.written(arena, annotation, Variables::OfItem, place)?;
                self.equate(place, found, expected)
            }
            None => Ok(()),
        }
    }

    // Takes all steps.
    fn read_all(
        &mut self,
        arena: &CoreArena,
        variables: Variables,
        place: Place,
        mut visits: Stack<Visit>,
    ) -> Result<(), AllocError>
        ensures { OnOk result (self.new ≡ visited u64.MAX arena.now variables place visits self.old) }
    {
        for _step in 0..u64::MAX {
            let Some(visit) = visits.pop() else {
                return Ok(());
            };
            self.visit(arena, variables, place, visit, &mut visits)?;
        }
        Err(AllocError)
    }

    // Takes a step.
    fn visit(
        &mut self,
        arena: &CoreArena,
        variables: Variables,
        place: Place,
        visit: Visit,
        visits: &mut Stack<Visit>,
    ) -> Result<(), AllocError>
        ensures { OnOk result (visited_one arena.now variables place visit visits.old self.old ≡ reading visits.new self.new) }
    {
        match visit {
            Visit::Enter(n) => self.enter(arena, variables, place, n, visits),
            Visit::Leave(n) => self.leave(arena, n),
        }
    }

    // What a written type was read as.
    fn found(&self, n: u32) -> u32
        ensures { result ≡ found_of self.now.read n }
    {
        match self.read.get(n) {
            Some(read) => read.found,
            None => UNIT,
        }
    }

    // Whether a written type was read, and no variable is in it.
    fn is_closed(&self, n: u32) -> bool
        ensures { result ≡ read_before self.now.read n }
    {
        match self.read.get(n) {
            Some(read) => read.is_closed,
            None => false,
        }
    }

    // Begins with a written type, which may have been read before.
    fn enter(
        &mut self,
        arena: &CoreArena,
        variables: Variables,
        place: Place,
        n: u32,
        visits: &mut Stack<Visit>,
    ) -> Result<(), AllocError>
        ensures { OnOk result (entered arena.now variables place n visits.old self.old ≡ reading visits.new self.new) }
    {
        if self.is_closed(n) {
            return Ok(());
        }
        match arena.types().get(n as usize) {
            Some(TypeExpression::Variable(v)) => {
                let found = self.type_variable(variables, *v)?;
                self.note_read(n, found, false)
            }
            Some(
                TypeExpression::Applied {
                    constructor,
                    arguments,
                },
            ) => {
                if !takes(arena, *constructor, arguments.len()) {
                    self.refuse(place);
                }
                visits.push(Visit::Leave(n))?;
                let entered = enter_each(self.types.alloc(), arguments.as_slice())?;
                visits.push_first(entered.as_slice())
            }
            _ => {
                let found = self.variable()?;
                self.note_read(n, found, false)
            }
        }
    }

    // Ends a written type, whose arguments are read.
    fn leave(&mut self, arena: &CoreArena, n: u32) -> Result<(), AllocError>
        ensures { OnOk result (self.new ≡ left arena.now n self.old) }
    {
        let Some(
            TypeExpression::Applied {
                constructor,
                arguments,
            },
        ) = arena.types().get(n as usize)
        else {
            return Ok(());
        };
        let parts = self.found_all(arguments.as_slice())?;
        let is_closed = self.are_closed(arguments.as_slice());
        let found = if is_closed {
            self.types.apply_closed(*constructor, parts.as_slice())?
        } else {
            self.types.apply(*constructor, parts.as_slice())?
        };
        self.note_read(n, found, is_closed)
    }

    fn found_all(&self, arguments: &[u32]) -> Result<Vec<u32>, AllocError>
        ensures { IfOk result (λ parts. parts.items ≡ map (found_of self.now.read) arguments.now) }
    {
        arguments
            .iter()
            .map(|n| self.found(*n))
            .collect(self.types.alloc())
    }

    fn are_closed(&self, arguments: &[u32]) -> bool
        ensures { result ≡ list_all (read_before self.now.read) arguments.now }
    {
        arguments.iter().all(|n| self.is_closed(*n))
    }

    fn note_read(&mut self, n: u32, found: u32, is_closed: bool) -> Result<(), AllocError>
        ensures { OnOk result (self.new ≡ noted_read n found is_closed self.old) }
    {
        self.read.set(n, Read { found, is_closed })
    }

    fn type_variable(&mut self, variables: Variables, v: u32) -> Result<u32, AllocError>
        ensures { IfOk result (λ found. type_variable variables v self.old ≡ gives found self.new) }
    {
        match variables {
            Variables::OfItem => self.item_variable(v),
            Variables::Parameters { first, count } => {
                if v < count {
                    Ok(first.saturating_add(v))
                } else {
                    self.variable()
                }
            }
        }
    }

    // The type of a type variable of the item.
    fn item_variable(&mut self, v: u32) -> Result<u32, AllocError>
        ensures { IfOk result (λ found. item_variable v self.old ≡ gives found self.new) }
    {
        if let Some(known) = self.variables.get(v)
            && known.item == self.item
        {
            return Ok(known.found);
        }
        let found = self.variable()?;
        self.set_variable(v, found)?;
        Ok(found)
    }
}

// Written types to be read, in their order.
fn enter_each(alloc: Global, arguments: &[u32]) -> Result<Vec<Visit>, AllocError>
    ensures { IfOk result (λ visits. visits.items ≡ map (λ n. Visit.Enter n) arguments.now) }
{
    arguments.iter().map(|n| Visit::Enter(*n)).collect(alloc)
}

// Whether a type constructor takes so many arguments.
fn takes(arena: &CoreArena, constructor: u32, count: usize) -> bool
    ensures { result ≡ takes arena.now constructor count }
{
    match arena.type_rows().get(constructor as usize) {
        Some(row) => constructor == TUPLE || row.parameters.len() == count,
        None => false,
    }
}
