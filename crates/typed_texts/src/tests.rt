//! What is found of the types of the worked texts.
//!
//! Each topic has a table and a test of its own, since the proof of a test takes its whole table at once.

use crate::worked_handlers::{ANNOTATED, DEEP, EFFECTS, HANDLERS, SHALLOW};
use crate::worked_texts::{
    ANNOTATIONS, COMPARED, COMPARISONS, DATA, EARLIER, ENDLESS, FORMS, GENERALISED, Group,
    PATTERNS, RECURSIVE, SIZES,
};
use crate::{Answer, answer_of, typed_of};
use fx_base::Refusal;
use std::alloc::{AllocError, Global};
use std::test::Fail;
use type_terms::BaseTy;

// A text, and what is found of its types.
type Found = (&'static str, Answer);

// The first text of a group that has another answer than it should.
fn first_miss(alloc: Global, group: &Group) -> Result<Option<Found>, AllocError> {
    for (text, answer) in group.texts {
        let mut whole = Vec::from_slice(alloc, group.head.as_bytes())?;
        whole.extend_from_slice(text.as_bytes())?;
        let found = answer_of(alloc, &whole);
        if found != *answer {
            return Ok(Some((*text, found)));
        }
    }
    Ok(None)
}

#[test]
fn answers_earlier_faults(rt: HostRuntime) -> Result<(), Fail> {
    assert_eq!(rt; first_miss(rt.alloc(), &EARLIER)?, None);
    Ok(())
}

#[test]
fn generalises_function_literals(rt: HostRuntime) -> Result<(), Fail> {
    assert_eq!(rt; first_miss(rt.alloc(), &GENERALISED)?, None);
    Ok(())
}

#[test]
fn gives_one_type_within_a_group(rt: HostRuntime) -> Result<(), Fail> {
    assert_eq!(rt; first_miss(rt.alloc(), &RECURSIVE)?, None);
    Ok(())
}

#[test]
fn refuses_types_within_themselves(rt: HostRuntime) -> Result<(), Fail> {
    assert_eq!(rt; first_miss(rt.alloc(), &ENDLESS)?, None);
    Ok(())
}

#[test]
fn compares_at_five_types(rt: HostRuntime) -> Result<(), Fail> {
    assert_eq!(rt; first_miss(rt.alloc(), &COMPARISONS)?, None);
    Ok(())
}

#[test]
fn types_records_and_constructors(rt: HostRuntime) -> Result<(), Fail> {
    assert_eq!(rt; first_miss(rt.alloc(), &DATA)?, None);
    Ok(())
}

#[test]
fn types_patterns(rt: HostRuntime) -> Result<(), Fail> {
    assert_eq!(rt; first_miss(rt.alloc(), &PATTERNS)?, None);
    Ok(())
}

#[test]
fn types_forms(rt: HostRuntime) -> Result<(), Fail> {
    assert_eq!(rt; first_miss(rt.alloc(), &FORMS)?, None);
    Ok(())
}

#[test]
fn keeps_annotations(rt: HostRuntime) -> Result<(), Fail> {
    assert_eq!(rt; first_miss(rt.alloc(), &ANNOTATIONS)?, None);
    Ok(())
}

#[test]
fn limits_sizes(rt: HostRuntime) -> Result<(), Fail> {
    assert_eq!(rt; first_miss(rt.alloc(), &SIZES)?, None);
    Ok(())
}

#[test]
fn types_effects(rt: HostRuntime) -> Result<(), Fail> {
    assert_eq!(rt; first_miss(rt.alloc(), &EFFECTS)?, None);
    Ok(())
}

#[test]
fn types_effect_clauses(rt: HostRuntime) -> Result<(), Fail> {
    assert_eq!(rt; first_miss(rt.alloc(), &HANDLERS)?, None);
    Ok(())
}

#[test]
fn types_deep_handlers(rt: HostRuntime) -> Result<(), Fail> {
    assert_eq!(rt; first_miss(rt.alloc(), &DEEP)?, None);
    Ok(())
}

#[test]
fn types_annotated_handlers(rt: HostRuntime) -> Result<(), Fail> {
    assert_eq!(rt; first_miss(rt.alloc(), &ANNOTATED)?, None);
    Ok(())
}

#[test]
fn types_shallow_handlers(rt: HostRuntime) -> Result<(), Fail> {
    assert_eq!(rt; first_miss(rt.alloc(), &SHALLOW)?, None);
    Ok(())
}

// Whether the comparisons of a text, which stand behind those of the prelude, are at these types.
fn compares_at(alloc: Global, text: &str, types: &[BaseTy]) -> Result<bool, Refusal> {
    let prelude = typed_of(alloc, b"")?;
    let typed = typed_of(alloc, text.as_bytes())?;
    match typed.compared().split_at_checked(prelude.compared().len()) {
        Some((_, own)) => Ok(own == types),
        None => Ok(false),
    }
}

#[test]
fn finds_the_types_of_comparisons(rt: HostRuntime) -> Result<(), Fail> {
    for (text, types) in COMPARED {
        assert!(rt; compares_at(rt.alloc(), text, types)?, "{text}");
    }
    Ok(())
}
