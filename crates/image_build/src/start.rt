//! The code at the start.

use crate::regions::Regions;
use fx_base::Settings;
use rt_layout::blocks::UNIT;
use rt_layout::fixed::HEAP_CURSOR;
use rt_layout::labels::{IDLE, ITEMS};
use rt_layout::parts::SYSTEM_OFFSET;
use rt_layout::registers::{
    A0, CSP, DOM, FIRST, HCUR, HEAP, HSIZE, ONE, PART, STACK, STATIC, T0, ZERO,
};
use rt_layout::{assembly, put, put_root_fiber};
use rv_model::Line;
use std::alloc::AllocError;

/// Writes the code that all harts begin with; x10 is the hart's number. It sets the registers that stay.
/// Hart 0 goes to the first item, the others wait for a domain.
pub fn put_start(
    lines: &mut Vec<Line>,
    settings: &Settings,
    regions: &Regions,
) -> Result<(), AllocError> {
    put(
        lines,
        &assembly![
            li FIRST, regions.first_domain();
            li PART, regions.part;
            li STACK, settings.stack;
            li STATIC, regions.statics;
            li HEAP, regions.heap.saturating_add(8);
            li HSIZE, settings.heap;
            mul DOM, A0, PART;
            add DOM, DOM, FIRST;
            li T0, SYSTEM_OFFSET;
            add CSP, DOM, T0;
            li ONE, UNIT;
            li HCUR, HEAP_CURSOR;
            bne A0, ZERO, IDLE;
        ],
    )?;
    put_root_fiber(lines)?;
    put(lines, &assembly![jump ITEMS;])
}
