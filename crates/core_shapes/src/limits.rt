//! The limits on slots and free names.

ghost use Rattle.std.specs.Prelude.{◌≡◌, ◌<◌, ◌⊎◌, IfSome};
ghost use Rattle.fx_base.specs.declared.refusal.LimitKind.TheVariants.{Slots, Free};

use fx_base::{LimitKind, Place};
use low_terms::Core1;

/// The most slots and the most free names of a function.
pub const MOST: u64 = 255;

/// A quantity that is above its bound, and where.
#[derive(Clone, Copy)]
struct Above {
    place: Place,
    found: u64,
    ghost is_above: { 255 < found },
}

// Whether a place stands before another one.
fn is_before(place: Place, other: Place) -> bool {
    (place.line, place.column) < (other.line, other.column)
}

// The first of two in the text, where the second one was found behind the first.
fn first_of(above: Option<Above>, place: Place, found: u64) -> Option<Above>
    requires { 255 < found }
{
    match above {
        Some(first) if !is_before(place, first.place) => above,
        _ => Some(Above { place, found }),
    }
}

fn most_slots(core1: &Core1<'_>) -> Option<Above> {
    let mut above = None;
    for owner in &core1.owners {
        if owner.slots > MOST {
            above = first_of(above, owner.place, owner.slots);
        }
    }
    above
}

fn most_free(core1: &Core1<'_>) -> Option<Above> {
    let mut above = None;
    for owner in &core1.owners {
        let free = owner.free.len() as u64;
        if free > MOST {
            above = first_of(above, owner.place, free);
        }
    }
    above
}

/// The limit that a program passes, if it passes one, and the number that is above it: for the first
/// function, effect clause or item in the text that has more than 255 slots, or else for the first one
/// that has more than 255 free names.
pub fn passed_limit(core1: &Core1<'_>) -> Option<(LimitKind, u64)>
    ensures kind { IfSome result (λ passed. (passed.0 ≡ Slots) ⊎ (passed.0 ≡ Free)) }
    ensures found { IfSome result (λ passed. 255 < passed.1) }
{
    if let Some(above) = most_slots(core1) {
        return Some((LimitKind::Slots, above.found));
    }
    if let Some(above) = most_free(core1) {
        return Some((LimitKind::Free, above.found));
    }
    None
}
