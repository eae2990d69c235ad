//! Which comparisons are of strings.

use effect_meaning::CoreArena;
use fx_base::Place;
use std::alloc::{AllocError, Global};
use type_terms::BaseTy;

/// A comparison by content: the item and the place where it stands, and its term.
#[derive(Clone, Copy)]
pub struct Compared {
    pub item: usize,
    pub place: Place,
    pub term: u32,
}

// The place of a comparison in the order of the text.
fn text_key(compared: &Compared) -> (usize, u32, u32) {
    (compared.item, compared.place.line, compared.place.column)
}

/// Whether each term is a comparison of strings, where the comparisons have these types in the order of
/// the text: item by item, and in an item by their places.
pub fn texts_compared(
    alloc: Global,
    arena: &CoreArena,
    comparisons: Vec<Compared>,
    types: &[BaseTy],
) -> Result<Vec<bool>, AllocError> {
    let mut order = comparisons;
    order.sort_by_key(text_key)?;
    let mut of_texts = Vec::new(alloc);
    of_texts.resize(arena.terms().len(), false)?;
    for (compared, base) in order.iter().zip(types) {
        let Some(is_text) = of_texts.get_mut(compared.term as usize) else {
            return Err(AllocError);
        };
        *is_text = *base == BaseTy::Str;
    }
    Ok(of_texts)
}
