//! From flat functions to the tree that instructions are selected from.

use crate::placer::Placer;
use low_terms::{Block, Condition, LowClause, LowFunction, LowProgram, SlotProgram};
use std::alloc::{AllocError, Global};

// The functions of a program, with their blocks, conditions and clauses.
#[derive(Drop)]
struct Placed {
    functions: Vec<LowFunction>,
    blocks: Vec<Block>,
    conditions: Vec<Condition>,
    clauses: Vec<LowClause>,
}

fn place_functions(alloc: Global, program: &SlotProgram) -> Result<Placed, AllocError> {
    let mut placer = Placer::new(alloc, program);
    let mut functions = Vec::new(alloc);
    for (number, function) in program.functions.iter().enumerate() {
        let number = u32::try_from(number).map_err(|_| AllocError)?;
        functions.push(placer.place_function(number, function)?)?;
    }
    let Placer {
        blocks,
        conditions,
        clauses,
        ..
    } = placer;
    Ok(Placed {
        functions,
        blocks,
        conditions,
        clauses,
    })
}

/// The program with registers and stores chosen. Refused only for want of memory.
pub fn place(alloc: Global, program: SlotProgram) -> Result<LowProgram, AllocError> {
    let placed = place_functions(alloc, &program)?;
    let Placed {
        functions,
        blocks,
        conditions,
        clauses,
    } = placed;
    let SlotProgram {
        handlers,
        order,
        first_item,
        strings,
        exceptions,
        globals,
        scratch,
        ..
    } = program;
    Ok(LowProgram {
        functions,
        blocks,
        conditions,
        clauses,
        handlers,
        order,
        first_item,
        strings,
        exceptions,
        globals,
        scratch,
    })
}
