//! Programs whose nodes are put together by hand, and what inference answers.

use crate::infer;
use effect_meaning::{
    Comparison, Constant, Core, CoreArena, Item, ItemForm, Operation, PatternForm, PatternNode,
    Sequence, TermForm, TermNode,
};
use fx_base::{Place, Refusal};
use std::alloc::Global;
use std::test::Fail;
use type_terms::BaseTy;

const HERE: Place = Place { line: 1, column: 1 };

const THERE: Place = Place {
    line: 1,
    column: 20,
};

// Where the types of a program are at fault, if they are.
fn fault_of(alloc: Global, core: Core) -> Result<Option<Place>, Refusal> {
    match infer(alloc, core) {
        Ok(_) => Ok(None),
        Err((_, Refusal::IllTyped(place))) => Ok(Some(place)),
        Err((_, refusal)) => Err(refusal),
    }
}

#[test]
fn takes_a_program_without_items(rt: HostRuntime) -> Result<(), Fail> {
    let alloc = rt.alloc();
    let core = Core::finish(CoreArena::new(alloc, Sequence::empty(alloc)));
    assert_eq!(rt; fault_of(alloc, core)?, None);
    Ok(())
}

// let () = print_int 7
#[test]
fn takes_an_operation(rt: HostRuntime) -> Result<(), Fail> {
    let alloc = rt.alloc();
    let mut arena = CoreArena::new(alloc, Sequence::empty(alloc));
    arena.push_pattern(PatternNode {
        place: HERE,
        form: PatternForm::Constant(Constant::Unit),
    })?;
    arena.push_term(TermNode {
        place: THERE,
        form: TermForm::Constant(Constant::Integer(7)),
    })?;
    let printed = Sequence::from_vec(Vec::from_slice(alloc, &[0])?);
    arena.push_term(TermNode {
        place: HERE,
        form: TermForm::Primitive {
            operation: Operation::PrintInteger,
            parts: printed,
        },
    })?;
    arena.push_item(Item {
        place: HERE,
        form: ItemForm::Destructure {
            pattern: 0,
            value: 1,
        },
    })?;
    assert_eq!(rt; fault_of(alloc, Core::finish(arena))?, None);
    Ok(())
}

// print_int true
#[test]
fn refuses_an_argument(rt: HostRuntime) -> Result<(), Fail> {
    let alloc = rt.alloc();
    let mut arena = CoreArena::new(alloc, Sequence::empty(alloc));
    arena.push_term(TermNode {
        place: THERE,
        form: TermForm::Constant(Constant::Boolean(true)),
    })?;
    let printed = Sequence::from_vec(Vec::from_slice(alloc, &[0])?);
    arena.push_term(TermNode {
        place: HERE,
        form: TermForm::Primitive {
            operation: Operation::PrintInteger,
            parts: printed,
        },
    })?;
    arena.push_item(Item {
        place: HERE,
        form: ItemForm::Evaluate(1),
    })?;
    assert_eq!(rt; fault_of(alloc, Core::finish(arena))?, Some(THERE));
    Ok(())
}

// let f = fun x -> x x
#[test]
fn refuses_a_type_inside_itself(rt: HostRuntime) -> Result<(), Fail> {
    let alloc = rt.alloc();
    let mut arena = CoreArena::new(alloc, Sequence::empty(alloc));
    arena.push_term(TermNode {
        place: THERE,
        form: TermForm::Name(0),
    })?;
    arena.push_term(TermNode {
        place: HERE,
        form: TermForm::Apply {
            function: 0,
            argument: 0,
        },
    })?;
    arena.push_term(TermNode {
        place: HERE,
        form: TermForm::Function {
            parameter: 0,
            body: 1,
        },
    })?;
    arena.push_item(Item {
        place: HERE,
        form: ItemForm::Define { name: 1, value: 2 },
    })?;
    assert_eq!(rt; fault_of(alloc, Core::finish(arena))?, Some(THERE));
    Ok(())
}

// 'a' = 'a'
#[test]
fn finds_the_type_of_a_comparison(rt: HostRuntime) -> Result<(), Fail> {
    let alloc = rt.alloc();
    let mut arena = CoreArena::new(alloc, Sequence::empty(alloc));
    arena.push_term(TermNode {
        place: HERE,
        form: TermForm::Constant(Constant::Character(97)),
    })?;
    let compared = Sequence::from_vec(Vec::from_slice(alloc, &[0, 0])?);
    arena.push_term(TermNode {
        place: THERE,
        form: TermForm::Primitive {
            operation: Operation::Compare(Comparison::Equal),
            parts: compared,
        },
    })?;
    arena.push_item(Item {
        place: HERE,
        form: ItemForm::Evaluate(1),
    })?;
    let Ok(typed) = infer(alloc, Core::finish(arena)) else {
        return Err("characters are compared".into());
    };
    assert_eq!(rt; typed.compared(), [BaseTy::Char].as_slice());
    Ok(())
}

// (fun x -> x) = (fun x -> x)
#[test]
fn refuses_a_comparison_of_functions(rt: HostRuntime) -> Result<(), Fail> {
    let alloc = rt.alloc();
    let mut arena = CoreArena::new(alloc, Sequence::empty(alloc));
    arena.push_term(TermNode {
        place: HERE,
        form: TermForm::Name(0),
    })?;
    arena.push_term(TermNode {
        place: HERE,
        form: TermForm::Function {
            parameter: 0,
            body: 0,
        },
    })?;
    let compared = Sequence::from_vec(Vec::from_slice(alloc, &[1, 1])?);
    arena.push_term(TermNode {
        place: THERE,
        form: TermForm::Primitive {
            operation: Operation::Compare(Comparison::Equal),
            parts: compared,
        },
    })?;
    arena.push_item(Item {
        place: HERE,
        form: ItemForm::Evaluate(2),
    })?;
    assert_eq!(rt; fault_of(alloc, Core::finish(arena))?, Some(THERE));
    Ok(())
}
