//! From a program in Core to the types of its comparisons.

ghost use Rattle.std.specs.Prelude.{◌≡◌, Ok, IfErr, IfOk, IsPermutation, IsSorted, reverse};
ghost use Rattle.std.specs.List.Sorted.{IsStable};
ghost use Rattle.ml_infer.specs.Refused.{IsTypeOrMemory};
ghost use Rattle.ml_infer.specs.Verdict.{IsFault, IsVerdict, base_of, bases, first_fault, halved, halvings, has_large, is_finite, text_cmp, verdict, walked};

use crate::inference::{Compared, End, Inference};
use effect_meaning::{Core, CoreArena, Sequence};
use fx_base::{LimitKind, Place, Refusal};
use std::alloc::{AllocError, Global};
use type_graph::{BOOL, CHAR, Form, INT, MOST, STRING, Sizes, TOO_LARGE, Types, UNIT};
use type_terms::{BaseTy, Typed};

/// Why the types of a program are refused: the equations, or a size.
#[derive(Clone, Copy)]
pub enum Fault {
    IllTyped(Place),
    TooLarge,
}

/// Two numbers of equations: by so many no type is a part of itself, and by so many one is.
#[derive(Clone, Copy)]
pub struct Span {
    pub finite: u64,
    pub cyclic: u64,
}

// The walk over a program that takes at most so many equations.
fn walk(alloc: Global, arena: &CoreArena, most: u64) -> Result<Inference, AllocError>
    ensures { IfOk result (λ walk. walk ≡ walked arena.now most) }
{
    let mut walk = Inference::new(alloc, arena, most)?;
    walk.items(arena)?;
    Ok(walk)
}

// Whether no type is a part of itself by the first so many equations.
fn is_finite(alloc: Global, arena: &CoreArena, equations: u64) -> Result<bool, AllocError>
    ensures { IfOk result (λ is. is ≡ is_finite arena.now equations) }
{
    let walk = walk(alloc, arena, equations)?;
    match Sizes::count(alloc, &walk.types)? {
        Some(_) => Ok(true),
        None => Ok(false),
    }
}

// The half of a span at whose end the first type is a part of itself.
fn halve(alloc: Global, arena: &CoreArena, span: Span) -> Result<Span, AllocError>
    ensures { IfOk result (λ half. half ≡ halved arena.now span) }
{
    let between = span.cyclic.saturating_sub(span.finite);
    if between <= 1 {
        return Ok(span);
    }
    let middle = span.finite.saturating_add(between / 2);
    if is_finite(alloc, arena, middle)? {
        Ok(Span {
            finite: middle,
            ..span
        })
    } else {
        Ok(Span {
            cyclic: middle,
            ..span
        })
    }
}

// The number of equations by which a type is a part of itself and not by one less.
fn first_cyclic(alloc: Global, arena: &CoreArena, equations: u64) -> Result<u64, AllocError>
    ensures { IfOk result (λ first. first ≡ (halvings 64 arena.now (record { finite = 0; cyclic = equations })).cyclic) }
{
    let mut span = Span {
        finite: 0,
        cyclic: equations,
    };
    for _halving in 0..u64::BITS {
        span = halve(alloc, arena, span)?;
    }
    Ok(span.cyclic)
}

// The place of the first equation by which a type is a part of itself, found by halving; the other
// place where none of the first so many is one.
fn first_fault(
    alloc: Global,
    arena: &CoreArena,
    equations: u64,
    otherwise: Place,
) -> Result<Place, AllocError>
    ensures { IfOk result (λ place. place ≡ first_fault arena.now equations otherwise) }
{
    if is_finite(alloc, arena, equations)? {
        return Ok(otherwise);
    }
    let cyclic = first_cyclic(alloc, arena, equations)?;
    let walk = walk(alloc, arena, cyclic)?;
    Ok(walk.last)
}

// The type of a comparison, if it is one at which values are compared.
fn base_of(types: &Types, n: u32) -> Option<BaseTy>
    ensures { result ≡ base_of types.now n }
{
    let Form::Applied {
        constructor,
        count: 0,
        ..
    } = types.form(n)
    else {
        return None;
    };
    match constructor {
        INT => Some(BaseTy::Int),
        BOOL => Some(BaseTy::Bool),
        CHAR => Some(BaseTy::Char),
        STRING => Some(BaseTy::Str),
        UNIT => Some(BaseTy::Unit),
        _ => None,
    }
}

// The types of comparisons, or the place of the first one at another type.
fn bases(
    alloc: Global,
    types: &Types,
    comparisons: &[Compared],
) -> Result<Result<Sequence<BaseTy>, Place>, AllocError>
    ensures { IfOk result (λ found. found ≡ bases types.now comparisons.now) }
{
    let mut found = Vec::with_capacity(alloc, comparisons.len())?;
    for comparison in comparisons {
        match base_of(types, comparison.found) {
            Some(base) => found.push(base)?,
            None => return Ok(Err(comparison.place)),
        }
    }
    Ok(Ok(Sequence::from_vec(found)))
}

// Where a comparison stands: its item, and its place there.
fn text_key(compared: &Compared) -> (usize, u32, u32)
    ensures { result ≡ (compared.now.item, compared.now.place.line, compared.now.place.column) }
{
    (compared.item, compared.place.line, compared.place.column)
}

// The comparisons in the order of the text: item by item, and in an item by their places.
fn in_text(alloc: Global, walk: &Inference) -> Result<Vec<Compared>, AllocError>
    ensures elements { IfOk result (λ order. IsPermutation (reverse walk.now.comparisons) order.items) }
    ensures sorted { IfOk result (λ order. IsSorted text_cmp order.items) }
    ensures stable { IfOk result (λ order. IsStable text_cmp (reverse walk.now.comparisons) order.items) }
{
    let mut comparisons = Vec::from_slice(alloc, walk.comparisons.as_slice())?;
    comparisons.sort_by_key(text_key)?;
    Ok(comparisons)
}

// Whether the type of a definition is too large.
fn has_large(walk: &Inference, sizes: &Sizes) -> bool
    ensures { result ≡ has_large walk.now sizes.now }
{
    let mut definitions = walk.definitions.as_slice().iter();
    definitions.any(|definition| sizes.is_too_large(walk.types.root(*definition)))
}

// The types of the comparisons of a program, or why it has no types, where its comparisons stand in
// this order.
fn verdict(
    alloc: Global,
    arena: &CoreArena,
    walk: &Inference,
    order: &[Compared],
) -> Result<Result<Sequence<BaseTy>, Fault>, AllocError>
    ensures { IfOk result (λ found. found ≡ verdict arena.now walk.now order.now) }
{
    if let Some(End::Fault(place)) = walk.end {
        let place = first_fault(alloc, arena, walk.equations, place)?;
        return Ok(Err(Fault::IllTyped(place)));
    }
    let Some(sizes) = Sizes::count(alloc, &walk.types)? else {
        let place = first_fault(alloc, arena, walk.equations, walk.last)?;
        return Ok(Err(Fault::IllTyped(place)));
    };
    match bases(alloc, &walk.types, order)? {
        Err(place) => Ok(Err(Fault::IllTyped(place))),
        Ok(found) => {
            if has_large(walk, &sizes) {
                Ok(Err(Fault::TooLarge))
            } else {
                Ok(Ok(found))
            }
        }
    }
}

// The same of the whole walk.
fn compared(alloc: Global, arena: &CoreArena) -> Result<Result<Sequence<BaseTy>, Fault>, AllocError>
    ensures { IfOk result (λ found. IsVerdict arena.now found) }
{
    let walk = walk(alloc, arena, u64::MAX)?;
    if !walk.is_complete() {
        return Err(AllocError);
    }
    let order = in_text(alloc, &walk)?;
    verdict(alloc, arena, &walk, order.as_slice())
}

// The same, as an answer.
fn answer(alloc: Global, arena: &CoreArena) -> Result<Sequence<BaseTy>, Refusal>
    ensures found { IfOk result (λ found. IsVerdict arena.now (Ok found)) }
    ensures fault { IfErr result (λ refusal. IsFault arena.now refusal) }
    ensures refused { IfErr result IsTypeOrMemory }
{
    match compared(alloc, arena)? {
        Ok(found) => Ok(found),
        Err(Fault::IllTyped(place)) => Err(Refusal::IllTyped(place)),
        Err(Fault::TooLarge) => Err(Refusal::Limit {
            kind: LimitKind::TypeSize,
            found: TOO_LARGE as u64,
            bound: MOST as u64,
        }),
    }
}

/// The program with the types at which it compares. The program is handed back with each refusal.
///
/// # Errors
///
/// [`Refusal::IllTyped`] where the typing equations have no solution, or a comparison is at none of
/// the five types; [`Refusal::Limit`] where the type of a top-level definition is too large, counting
/// stops there; and [`Refusal::Memory`].
pub fn infer(alloc: Global, core: Core) -> Result<Typed, (Core, Refusal)>
    ensures ok { IfOk result (λ typed. typed.core ≡ core) }
    ensures found { IfOk result (λ typed. IsVerdict core (Ok typed.compared)) }
    ensures handed_back { IfErr result (λ refused. refused.0 ≡ core) }
    ensures fault { IfErr result (λ refused. IsFault core refused.1) }
    ensures refused { IfErr result (λ refused. IsTypeOrMemory refused.1) }
{
    match answer(alloc, core.arena()) {
        Ok(compared) => Ok(Typed::finish(core, compared)),
        Err(refusal) => Err((core, refusal)),
    }
}
