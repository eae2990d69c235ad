//! Small graphs, with ample memory.

use crate::{BOOL, INT, OPTION, Sizes, TUPLE, Types};
use effect_meaning::Operation;
use std::test::Fail;

#[test]
fn functions_are_made_equal(rt: HostRuntime) -> Result<(), Fail> {
    let mut types = Types::new(rt.alloc())?;
    let (a, b) = (types.variable()?, types.variable()?);
    let (left, right) = (types.function(a, BOOL)?, types.function(INT, b)?);
    assert!(rt; types.unify(left, right)?);
    assert!(rt; types.form(a).is_of(INT, 0));
    assert!(rt; types.form(b).is_of(BOOL, 0));
    assert!(rt; !types.unify(a, b)?);
    Ok(())
}

#[test]
fn a_part_of_itself_has_no_size(rt: HostRuntime) -> Result<(), Fail> {
    let mut types = Types::new(rt.alloc())?;
    let a = types.variable()?;
    let function = types.function(INT, a)?;
    assert!(rt; Sizes::count(rt.alloc(), &types)?.is_some());
    assert!(rt; types.unify(a, function)?);
    assert!(rt; Sizes::count(rt.alloc(), &types)?.is_none());
    Ok(())
}

// A tree of 4,095 types, and then one and two more.
#[test]
fn one_type_too_many_is_too_large(rt: HostRuntime) -> Result<(), Fail> {
    let mut types = Types::new(rt.alloc())?;
    let mut tree = INT;
    for _ in 0..11 {
        tree = types.apply(TUPLE, &[tree, tree])?;
    }
    let most = types.apply(OPTION, &[tree])?;
    let more = types.apply(OPTION, &[most])?;
    let Some(sizes) = Sizes::count(rt.alloc(), &types)? else {
        panic!(rt; "no type is a part of itself");
    };
    assert!(rt; !sizes.is_too_large(most));
    assert!(rt; sizes.is_too_large(more));
    Ok(())
}

#[test]
fn a_copy_shares_outer_types_alone(rt: HostRuntime) -> Result<(), Fail> {
    let mut types = Types::new(rt.alloc())?;
    let (a, b) = (types.variable()?, types.variable()?);
    types.make_outer(b)?;
    let function = types.function(a, b)?;
    let copy = types.copy(function)?;
    let form = types.form(copy);
    assert!(rt; types.argument(form, 0) != Some(a));
    assert!(rt; types.argument(form, 1) == Some(b));
    Ok(())
}

#[test]
fn an_array_gives_what_it_has(rt: HostRuntime) -> Result<(), Fail> {
    let mut types = Types::new(rt.alloc())?;
    let signature = types.signature(Operation::ArrayGet)?;
    assert!(rt; signature.count == 2);
    assert!(rt; signature.part(1) == INT);
    let array = types.form(signature.part(0));
    assert!(rt; types.argument(array, 0) == Some(signature.gives));
    Ok(())
}
