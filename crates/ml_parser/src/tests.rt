//! What the parser answers to worked texts, at the limit of the depth, and to long texts; and that
//! what is printed of a program is read as that program.

use crate::parse;
use crate::worked_texts::{BLOCKS, DEEP, Deep, ENDLESS, FAULTS, PRINTED, PROGRAMS, REFUSED_BLOCKS};
use fx_base::{LimitKind, Place, Refusal};
use ml_lexer::lex;
use ml_syntax::{Prog, depth, print};
use std::alloc::Global;
use std::test::Fail;

fn prog_of(alloc: Global, text: &[u8]) -> Result<Prog, Refusal> {
    if text.len() > 16_777_216 {
        return Err(Refusal::Usage);
    }
    let tokens = lex(alloc, text)?;
    parse(alloc, &tokens)
}

// The refusal of a text, or none where it is a program.
fn refusal_of(alloc: Global, text: &[u8]) -> Option<Refusal> {
    match prog_of(alloc, text) {
        Ok(_) => None,
        Err(refusal) => Some(refusal),
    }
}

fn fault_at(line: u32, column: u32) -> Option<Refusal> {
    Some(Refusal::Syntax(Place { line, column }))
}

#[test]
fn answers_worked_texts(rt: HostRuntime) {
    for text in PROGRAMS {
        assert_eq!(rt; refusal_of(rt.alloc(), text), None, "{text:?}");
    }
    for text in BLOCKS {
        assert_eq!(rt; refusal_of(rt.alloc(), text), None, "{text:?}");
    }
    for (text, column) in FAULTS {
        assert_eq!(rt;
            refusal_of(rt.alloc(), text),
            fault_at(1, *column),
            "{text:?}"
        );
    }
    for (text, line, column) in REFUSED_BLOCKS {
        assert_eq!(rt;
            refusal_of(rt.alloc(), text),
            fault_at(*line, *column),
            "{text:?}"
        );
    }
}

// Whether the text that is printed of a program is read as a program of as many nodes and items and
// of the same depth, and printed as the same text.
fn is_kept(alloc: Global, text: &[u8]) -> Result<bool, Refusal> {
    let prog = prog_of(alloc, text)?;
    let printed = print(alloc, &prog)?;
    let again = prog_of(alloc, printed.as_slice())?;
    let reprinted = print(alloc, &again)?;
    Ok(
        printed.as_slice() == reprinted.as_slice()
            && prog.nodes.len() == again.nodes.len()
            && prog.items.len() == again.items.len()
            && depth(&prog) == depth(&again),
    )
}

#[test]
fn reads_what_is_printed(rt: HostRuntime) -> Result<(), Fail> {
    for text in PROGRAMS {
        assert!(rt; is_kept(rt.alloc(), text)?, "{text:?}");
    }
    for text in BLOCKS {
        assert!(rt; is_kept(rt.alloc(), text)?, "{text:?}");
    }
    for (text, printed) in PRINTED {
        let found = print(rt.alloc(), &prog_of(rt.alloc(), text)?)?;
        assert_eq!(rt; found.as_slice(), *printed, "{text:?}");
    }
    Ok(())
}

// A text, the same bytes so many times, and another text.
fn repeated(
    alloc: Global,
    before: &[u8],
    part: &[u8],
    count: u32,
    after: &[u8],
) -> Result<Vec<u8>, Fail> {
    let mut text = Vec::from_slice(alloc, before)?;
    for _ in 0..count {
        text.extend_from_slice(part)?;
    }
    text.extend_from_slice(after)?;
    Ok(text)
}

fn nested(alloc: Global, deep: &Deep, count: u32) -> Result<Vec<u8>, Fail> {
    let opened = repeated(alloc, deep.before, deep.opening, count, deep.inner)?;
    repeated(alloc, opened.as_slice(), deep.closing, count, deep.after)
}

#[test]
fn goes_deep_and_far(rt: HostRuntime) -> Result<(), Fail> {
    let alloc = rt.alloc();
    for (before, part, after) in ENDLESS {
        let text = repeated(alloc, before, part, 200_000, after)?;
        assert_eq!(rt; refusal_of(alloc, text.as_slice()), None, "{before:?}");
    }
    let negations = repeated(alloc, b"let x = ", b"- ", 20_000, b"")?;
    assert_eq!(rt;
        refusal_of(alloc, negations.as_slice()),
        fault_at(1, 40_009)
    );
    for deep in DEEP {
        let refusal = Refusal::Limit {
            kind: LimitKind::Depth,
            found: deep.found,
            bound: 400,
        };
        for (count, answer) in [
            (deep.most, None),
            (deep.most.saturating_add(1), Some(refusal)),
        ] {
            let text = nested(alloc, deep, count)?;
            assert_eq!(rt;
                refusal_of(alloc, text.as_slice()),
                answer,
                "{:?}",
                deep.before
            );
        }
    }
    Ok(())
}
