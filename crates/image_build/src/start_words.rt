//! The words that aren't 0 at the start.

use crate::regions::Regions;
use fx_base::Settings;
use rt_layout::parts::{M_NOT_BIT, M_QUEUE, M_SELF};
use rt_layout::tagged;
use rv_model::{HARTS_WORD, HEAP_SIZE_WORD, LOG_SIZE_WORD, SLOTS_WORD, StartWord};
use std::alloc::{AllocError, Global};

// A word, if it isn't 0.
fn push_word(start: &mut Vec<StartWord>, at: u64, value: u64) -> Result<(), AllocError> {
    if value != 0 {
        start.push(StartWord { at, value })?;
    }
    Ok(())
}

// The words whose places are the same in each image.
fn push_fixed(start: &mut Vec<StartWord>, settings: &Settings) -> Result<(), AllocError> {
    push_word(start, LOG_SIZE_WORD, settings.out)?;
    push_word(start, HEAP_SIZE_WORD, settings.heap)?;
    push_word(start, SLOTS_WORD, 1)?;
    push_word(start, HARTS_WORD, u64::from(settings.domains))
}

// The word so far behind the domain register.
fn field(domain: u64, offset: i64) -> u64 {
    domain.saturating_add_signed(offset) / 8
}

// The words of a domain's part.
fn push_part(start: &mut Vec<StartWord>, regions: &Regions, number: u32) -> Result<(), AllocError> {
    let below = u64::from(number).saturating_mul(regions.part);
    let domain = regions.first_domain().saturating_add(below);
    push_word(start, field(domain, M_NOT_BIT), !1u64.rotate_left(number))?;
    push_word(
        start,
        field(domain, M_QUEUE),
        regions.parts.saturating_add(below),
    )?;
    push_word(start, field(domain, M_SELF), tagged(u64::from(number)))
}

/// The words that aren't 0 at the start of a run, in order.
pub fn start_words(
    alloc: Global,
    settings: &Settings,
    regions: &Regions,
    statics: &[u64],
) -> Result<Vec<StartWord>, AllocError> {
    let mut start = Vec::new(alloc);
    push_fixed(&mut start, settings)?;
    let mut at = regions.statics / 8;
    for value in statics {
        push_word(&mut start, at, *value)?;
        at = at.saturating_add(1);
    }
    for number in 0..settings.domains {
        push_part(&mut start, regions, number)?;
    }
    Ok(start)
}
