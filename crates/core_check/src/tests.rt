//! Small arenas that keep the rules of Core, and others that break one.

ghost use Rattle.std.specs.Prelude.{◌≡◌};

use crate::is_core;
use effect_meaning::{
    Constant, CoreArena, Item, ItemForm, PatternForm, PatternNode, Sequence, TermForm, TermNode,
};
use fx_base::Place;
use std::alloc::{AllocError, Global};
use std::test::Fail;

const HERE: Place = Place { line: 1, column: 1 };

fn term(form: TermForm) -> TermNode
    ensures { result.form ≡ form }
{
    TermNode { place: HERE, form }
}

fn pattern(form: PatternForm) -> PatternNode
    ensures { result.form ≡ form }
{
    PatternNode { place: HERE, form }
}

fn item(form: ItemForm) -> Item
    ensures { result.form ≡ form }
{
    Item { place: HERE, form }
}

// let f = fun x -> y, by the numbers of the names
fn function(alloc: Global, f: u32, x: u32, y: u32) -> Result<CoreArena, AllocError> {
    let mut arena = CoreArena::new(alloc, Sequence::empty(alloc));
    arena.push_term(term(TermForm::Name(y)))?;
    arena.push_term(term(TermForm::Function {
        parameter: x,
        body: 0,
    }))?;
    arena.push_item(item(ItemForm::Define { name: f, value: 1 }))?;
    Ok(arena)
}

#[test]
fn names_are_used_within_their_scopes(rt: HostRuntime) -> Result<(), Fail> {
    let alloc = rt.alloc();
    assert!(rt; is_core(alloc, &function(alloc, 0, 1, 1)?)?);
    assert!(rt; !is_core(alloc, &function(alloc, 0, 1, 2)?)?);
    assert!(rt; !is_core(alloc, &function(alloc, 0, 1, 0)?)?);
    Ok(())
}

// let (x, 1) | (1, y) = 2, by the numbers of the names
fn sides(alloc: Global, x: u32, y: u32) -> Result<CoreArena, AllocError> {
    let mut arena = CoreArena::new(alloc, Sequence::empty(alloc));
    let one = PatternForm::Constant(Constant::Integer(1));
    arena.push_pattern(pattern(one))?;
    arena.push_pattern(pattern(PatternForm::Name(x)))?;
    let left = Sequence::from_vec(Vec::from_slice(alloc, &[1, 0])?);
    arena.push_pattern(pattern(PatternForm::Tuple(left)))?;
    arena.push_pattern(pattern(PatternForm::Name(y)))?;
    let right = Sequence::from_vec(Vec::from_slice(alloc, &[0, 3])?);
    arena.push_pattern(pattern(PatternForm::Tuple(right)))?;
    arena.push_pattern(pattern(PatternForm::Or { left: 2, right: 4 }))?;
    arena.push_term(term(TermForm::Constant(Constant::Integer(2))))?;
    arena.push_item(item(ItemForm::Destructure {
        pattern: 5,
        value: 0,
    }))?;
    Ok(arena)
}

#[test]
fn both_sides_bind_the_same_names(rt: HostRuntime) -> Result<(), Fail> {
    let alloc = rt.alloc();
    assert!(rt; is_core(alloc, &sides(alloc, 0, 0)?)?);
    assert!(rt; !is_core(alloc, &sides(alloc, 0, 1)?)?);
    Ok(())
}
