//! What can be told of a test from its parts.

use low_terms::{PartTest, Test, TestFacts};
use std::alloc::AllocError;

// Every value passes, and none gets a name.
const PASSES: TestFacts = TestFacts {
    trivial: true,
    total: true,
    named_or: false,
    named: false,
    depth: 0,
};

// Some values don't pass, and none gets a name.
const FAILS: TestFacts = TestFacts {
    trivial: false,
    total: false,
    named_or: false,
    named: false,
    depth: 0,
};

// What was told of an earlier test.
fn told(facts: &[TestFacts], test: u32) -> Result<TestFacts, AllocError> {
    match facts.get(test as usize) {
        Some(told) => Ok(*told),
        None => Err(AllocError),
    }
}

// A test that not every value comes to.
fn fails_before(inner: TestFacts) -> TestFacts {
    TestFacts {
        trivial: false,
        total: false,
        ..inner
    }
}

// A value whose parts are tested waits while all but the last of those that are looked at are.
fn parts_facts(facts: &[TestFacts], parts: &[PartTest]) -> Result<TestFacts, AllocError> {
    let mut all = PASSES;
    let mut waits = 0u32;
    for part in parts.iter().rev() {
        let inner = told(facts, part.test)?;
        all.trivial = all.trivial && inner.trivial;
        all.total = all.total && inner.total;
        all.named_or = all.named_or || inner.named_or;
        all.named = all.named || inner.named;
        if !inner.trivial {
            all.depth = all.depth.max(inner.depth.saturating_add(waits));
            waits = 1;
        }
    }
    Ok(all)
}

// The value waits while the left side is tested.
fn either_facts(left: TestFacts, right: TestFacts) -> TestFacts {
    TestFacts {
        trivial: false,
        total: left.total || right.total,
        named_or: left.named || left.named_or || right.named_or,
        named: left.named,
        depth: left.depth.saturating_add(1).max(right.depth),
    }
}

/// What can be told of a test, from what was told of the earlier ones.
pub fn facts_of(test: &Test, facts: &[TestFacts]) -> Result<TestFacts, AllocError> {
    match test {
        Test::Any => Ok(PASSES),
        Test::Name(_) => Ok(TestFacts {
            trivial: false,
            named: true,
            ..PASSES
        }),
        Test::Alias { test, .. } => Ok(TestFacts {
            trivial: false,
            named: true,
            ..told(facts, *test)?
        }),
        Test::Word(_) | Test::Text(_) => Ok(FAILS),
        Test::Block {
            header,
            mixed,
            argument,
        } => {
            let inner = told(facts, *argument)?;
            if header.is_none() && !*mixed {
                Ok(inner)
            } else {
                Ok(fails_before(inner))
            }
        }
        Test::Exception { argument, .. } | Test::Effect { argument, .. } => match argument {
            Some(argument) => Ok(fails_before(told(facts, *argument)?)),
            None => Ok(FAILS),
        },
        Test::Parts(parts) => parts_facts(facts, parts.as_slice()),
        Test::Or { left, right } => Ok(either_facts(told(facts, *left)?, told(facts, *right)?)),
    }
}
