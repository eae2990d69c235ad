//! The program that is built, and its small steps.

use crate::table::Table;
use crate::test_places::TestTask;
use core_shapes::number_of;
use effect_meaning::Sequence;
use fx_base::Place;
use low_terms::{
    Atom, Core1, Destination, FunctionKind, SlotForm, SlotFunction, SlotNode, SlotProgram, Variants,
};
use std::alloc::{AllocError, Global};

/// The word of `()`.
pub const UNIT: u64 = 1;

/// A program that is built.
#[derive(Drop)]
pub struct SlotBuilder<'a> {
    pub alloc: Global,
    pub core1: &'a Core1<'a>,
    pub variants: Variants,
    /// The globals of top-level names.
    pub globals: Table<u32>,
    /// Where the values of a pattern's names go.
    pub destinations: Table<Destination>,
    /// The nodes that were given, and the tests of clauses among them.
    pub results: Vec<u32>,
    pub test_tasks: Vec<TestTask>,
    pub test_results: Vec<u32>,
    pub in_prelude: bool,
    pub has_exception: Vec<bool>,
    pub program: SlotProgram,
}

// A program without functions.
fn no_program(alloc: Global) -> SlotProgram {
    SlotProgram {
        functions: Vec::new(alloc),
        nodes: Vec::new(alloc),
        tests: Vec::new(alloc),
        test_facts: Vec::new(alloc),
        handlers: Vec::new(alloc),
        order: Vec::new(alloc),
        first_item: None,
        strings: Vec::new(alloc),
        exceptions: Vec::new(alloc),
        globals: 0,
        scratch: 0,
    }
}

impl<'a> SlotBuilder<'a> {
    /// A program with the text of its file alone.
    pub fn new(alloc: Global, core1: &'a Core1<'a>) -> Result<SlotBuilder<'a>, AllocError> {
        let mut has_exception = Vec::new(alloc);
        has_exception.resize(core1.arena.exception_rows().len(), false)?;
        let mut builder = SlotBuilder {
            alloc,
            core1,
            variants: Variants::new(alloc, core1.arena)?,
            globals: Table::new(alloc, core1.uses.len())?,
            destinations: Table::new(alloc, core1.uses.len())?,
            results: Vec::new(alloc),
            test_tasks: Vec::new(alloc),
            test_results: Vec::new(alloc),
            in_prelude: true,
            has_exception,
            program: no_program(alloc),
        };
        builder.string(core1.arena.file())?;
        Ok(builder)
    }

    /// A further static string, by its number.
    pub fn string(&mut self, text: &[u8]) -> Result<u32, AllocError> {
        let number = number_of(self.program.strings.len())?;
        let text = Vec::from_slice(self.alloc, text)?;
        self.program.strings.push(Sequence::from_vec(text))?;
        Ok(number)
    }

    /// The static string of a literal, by its number. Equal literals have strings of their own.
    pub fn literal_text(&mut self, literal: u32) -> Result<u32, AllocError> {
        let arena = self.core1.arena;
        match arena.literals().get(literal as usize) {
            Some(text) => self.string(text.as_slice()),
            None => Err(AllocError),
        }
    }

    /// The global of a top-level name.
    pub fn global(&mut self, name: u32) -> Result<u32, AllocError> {
        if let Some(global) = self.globals.get(name) {
            return Ok(global);
        }
        let global = self.program.globals;
        self.globals.put(name, Some(global))?;
        self.program.globals = global.saturating_add(1);
        Ok(global)
    }

    /// Whether a name is a top-level one.
    pub fn is_top(&self, name: u32) -> bool {
        self.core1
            .is_top
            .get(name as usize)
            .copied()
            .unwrap_or(false)
    }

    /// The program makes or tests an exception.
    pub fn exception(&mut self, row: u32) -> Result<(), AllocError> {
        let Some(is_there) = self.has_exception.get_mut(row as usize) else {
            return Err(AllocError);
        };
        if !*is_there {
            *is_there = true;
            self.program.exceptions.push(row)?;
        }
        Ok(())
    }

    /// A further function, by its number.
    pub fn new_function(&mut self, function: SlotFunction) -> Result<u32, AllocError> {
        let number = number_of(self.program.functions.len())?;
        self.program.functions.push(function)?;
        Ok(number)
    }

    /// A function without slots, of a kind.
    pub fn bare_function(&self, kind: FunctionKind, place: Place) -> SlotFunction {
        SlotFunction {
            kind,
            place,
            in_prelude: self.in_prelude,
            slots: 0,
            closure: false,
            head: None,
        }
    }

    /// A further node, by its number.
    pub fn node(&mut self, form: SlotForm, depth: u32) -> Result<u32, AllocError> {
        let number = number_of(self.program.nodes.len())?;
        let facts = self.facts_of(&form, depth)?;
        self.program.nodes.push(SlotNode { form, depth, facts })?;
        Ok(number)
    }

    /// Gives a node.
    pub fn give(&mut self, node: u32) -> Result<(), AllocError> {
        self.results.push(node)?;
        Ok(())
    }

    /// Gives a new node.
    pub fn give_new(&mut self, form: SlotForm, depth: u32) -> Result<(), AllocError> {
        let node = self.node(form, depth)?;
        self.give(node)
    }

    /// Takes the node that was given last.
    pub fn take(&mut self) -> Result<u32, AllocError> {
        match self.results.pop() {
            Some(node) => Ok(node),
            None => Err(AllocError),
        }
    }

    /// Takes the nodes that were given last, so many of them, the last one first.
    pub fn take_parts(&mut self, count: usize) -> Result<Vec<u32>, AllocError> {
        let mut parts = Vec::new(self.alloc);
        for _part in 0..count {
            parts.push(self.take()?)?;
        }
        Ok(parts)
    }

    /// The same, as a list of a form.
    pub fn take_list(&mut self, count: usize) -> Result<Sequence<u32>, AllocError> {
        Ok(Sequence::from_vec(self.take_parts(count)?))
    }

    /// The atom that a node is, if it is one.
    pub fn atom_of(&self, node: u32) -> Option<Atom> {
        match self.program.nodes.get(node as usize) {
            Some(
                SlotNode {
                    form: SlotForm::Atom(atom),
                    ..
                },
            ) => Some(*atom),
            _ => None,
        }
    }

    /// A test goes on while values wait in so many cells.
    pub fn note_depth(&mut self, cells: u32) {
        self.program.scratch = self.program.scratch.max(cells);
    }

    /// The values of a pattern's names go to slots from the first one on.
    pub fn to_slots(&mut self, names: &[u32], first: u32) -> Result<(), AllocError> {
        let mut slot = first;
        for name in names {
            self.destinations.put(*name, Some(Destination::Slot(slot)))?;
            slot = slot.saturating_add(1);
        }
        Ok(())
    }

    /// The values of a pattern's names go to the first cells of the test area.
    pub fn to_cells(&mut self, names: &[u32]) -> Result<(), AllocError> {
        let mut cell = 0u32;
        for name in names {
            self.destinations.put(*name, Some(Destination::Cell(cell)))?;
            cell = cell.saturating_add(1);
        }
        Ok(())
    }

    /// The program, whose functions have this order.
    pub fn end(self, order: Vec<u32>, first_item: Option<u32>) -> SlotProgram {
        let SlotBuilder {
            alloc: _,
            core1: _,
            variants: _,
            globals: _,
            destinations: _,
            results: _,
            test_tasks: _,
            test_results: _,
            in_prelude: _,
            has_exception: _,
            program,
        } = self;
        SlotProgram {
            order,
            first_item,
            ..program
        }
    }
}
