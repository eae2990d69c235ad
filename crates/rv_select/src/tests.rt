use crate::select;
use effect_meaning::{Operation, Sequence};
use fx_base::Place;
use low_terms::{
    Block, Body, Flat, FunctionKind, Low, LowFunction, LowProgram, Next, Out, Room, Source, Target,
    Transfer,
};
use rt_layout::assembly;
use rt_layout::labels::{GROW, ITEMS, ITEMS_END, PRINT_INT, ROOT_VALUE};
use rt_layout::registers::{A0, LIMIT, LINK3, ONE, RA, SP};
use rv_model::Line;
use std::alloc::{AllocError, Global};
use std::test::Fail;

const HERE: Place = Place { line: 1, column: 1 };

fn one(alloc: Global, item: u8) -> Result<Sequence<u8>, AllocError> {
    Ok(Sequence::from_vec(Vec::from_array(alloc, [item])?))
}

// The one item, whose body is block 1.
fn item() -> LowFunction {
    LowFunction {
        kind: FunctionKind::Item {
            test: None,
            next: Next::End,
            body: 1,
        },
        slots: 1,
        closure: false,
        head: None,
        keeps_frame: false,
        place: HERE,
        checks: None,
        total: true,
    }
}

// The item's body: block 0 stands in the frame, block 1 in front of it.
fn blocks(alloc: Global) -> Result<Vec<Block>, AllocError> {
    let print = Low::Transfer(Transfer {
        node: 3,
        target: Target::Routine(Operation::PrintInteger),
        out: Out::Falls,
    });
    let give = Low::Flat(Flat::Load {
        rd: A0,
        source: Source::Word(1),
    });
    let seven = Body::Flat(Flat::Load {
        rd: A0,
        source: Source::Word(15),
    });
    let framed = Body::Framed {
        room: Room::Entry,
        rest: 0,
    };
    let inside = Sequence::from_vec(Vec::from_array(alloc, [print, give, Low::Return])?);
    let outside = Sequence::from_vec(Vec::from_array(alloc, [seven, framed])?);
    Ok(Vec::from_array(alloc, [Block::Low(inside), Block::Body(outside)])?)
}

// let () = (print_int 7; print_newline 0), in a frame without slots.
fn program(alloc: Global) -> Result<LowProgram, AllocError> {
    Ok(LowProgram {
        functions: Vec::from_array(alloc, [item()])?,
        blocks: blocks(alloc)?,
        conditions: Vec::new(alloc),
        clauses: Vec::new(alloc),
        handlers: Vec::new(alloc),
        order: Vec::from_array(alloc, [0])?,
        first_item: Some(0),
        strings: Vec::from_array(alloc, [one(alloc, b'a')?])?,
        exceptions: Vec::new(alloc),
        globals: 0,
        scratch: 0,
    })
}

// The labels of function 0, and of the place behind the call at node 3.
const ENTRY: u32 = 1024;

const TERM: u32 = 1024 + 8;

const TERM_BACK: u32 = 1024 + 10;

const ROOM: u32 = 1024 + 11;

const BACK: u32 = 1024 + 3 * 32 + 12;

const WANTED: [Line; 21] = assembly![
    label ITEMS;
    jump ENTRY;
    label ITEMS_END;
    li A0, 1;
    jump ROOT_VALUE;
    label ENTRY;
    call RA, TERM;
    label TERM_BACK;
    jump ITEMS_END;
    label TERM;
    li A0, 15;
    addi SP, SP, -24;
    bgeu SP, LIMIT, ROOM;
    call LINK3, GROW;
    label ROOM;
    sd RA, -40, SP;
    call RA, PRINT_INT;
    label BACK;
    mv A0, ONE;
    ld RA, -40, SP;
    addi SP, SP, 24;
];

#[test]
fn selects_an_item(rt: HostRuntime) -> Result<(), Fail> {
    let lines = select(rt.alloc(), &program(rt.alloc())?)?;
    assert_eq!(rt; lines.len(), 22);
    assert_eq!(rt; &lines.as_slice()[..21], WANTED.as_slice());
    Ok(())
}
