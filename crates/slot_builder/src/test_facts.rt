//! What code depends on, of tests.

use crate::builder::SlotBuilder;
use low_terms::{Destination, SlotPart, SlotSet, SlotTest, SlotTestFacts};
use std::alloc::AllocError;

// Every value passes, and none gets a name.
const PASSES: SlotTestFacts = SlotTestFacts {
    trivial: true,
    total: true,
    named_or: false,
    names: SlotSet::EMPTY,
    width: 0,
};

// Some values don't pass, and none gets a name.
const FAILS: SlotTestFacts = SlotTestFacts {
    trivial: false,
    total: false,
    named_or: false,
    names: SlotSet::EMPTY,
    width: 0,
};

// The slot that a value goes to, if it goes to one.
fn slot_of(destination: Destination) -> SlotSet {
    match destination {
        Destination::Slot(slot) => SlotSet::one(slot),
        Destination::Global(_) | Destination::Cell(_) => SlotSet::EMPTY,
    }
}

// A test on the word of a block. The word is read where its test looks at it.
fn behind_word(inner: SlotTestFacts) -> SlotTestFacts {
    let width = if inner.trivial {
        0
    } else {
        inner.width.saturating_add(1)
    };
    SlotTestFacts { width, ..inner }
}

// A test that not every value comes to.
fn fails_before(inner: SlotTestFacts) -> SlotTestFacts {
    SlotTestFacts {
        trivial: false,
        total: false,
        ..inner
    }
}

// The left side's names are those of both.
fn either_facts(left: SlotTestFacts, right: SlotTestFacts) -> SlotTestFacts {
    SlotTestFacts {
        trivial: false,
        total: left.total || right.total,
        named_or: !left.names.is_empty() || left.named_or || right.named_or,
        names: left.names,
        width: left.width.max(right.width),
    }
}

impl<'a> SlotBuilder<'a> {
    /// What was told of an earlier test.
    pub fn test_facts(&self, test: u32) -> Result<SlotTestFacts, AllocError> {
        match self.program.test_facts.get(test as usize) {
            Some(facts) => Ok(*facts),
            None => Err(AllocError),
        }
    }

    // While a part is tested, the names of those before it have their registers.
    fn parts_test_facts(&self, parts: &[SlotPart]) -> Result<SlotTestFacts, AllocError> {
        let mut all = PASSES;
        for part in parts {
            let inner = self.test_facts(part.test)?;
            let held = all.names.len();
            all.trivial = all.trivial && inner.trivial;
            all.total = all.total && inner.total;
            all.named_or = all.named_or || inner.named_or;
            all.names = all.names.with(&inner.names);
            if !inner.trivial {
                let width = held.saturating_add(inner.width).saturating_add(1);
                all.width = all.width.max(width);
            }
        }
        Ok(all)
    }

    fn argument_facts(&self, argument: Option<u32>) -> Result<SlotTestFacts, AllocError> {
        match argument {
            Some(argument) => Ok(fails_before(behind_word(self.test_facts(argument)?))),
            None => Ok(FAILS),
        }
    }

    /// What code depends on, of a test of earlier ones.
    pub fn facts_of_test(&self, test: &SlotTest) -> Result<SlotTestFacts, AllocError> {
        match test {
            SlotTest::Any => Ok(PASSES),
            SlotTest::Bind(destination) => Ok(SlotTestFacts {
                trivial: false,
                names: slot_of(*destination),
                ..PASSES
            }),
            SlotTest::Alias { destination, test } => {
                let inner = self.test_facts(*test)?;
                Ok(SlotTestFacts {
                    trivial: false,
                    names: inner.names.with(&slot_of(*destination)),
                    ..inner
                })
            }
            SlotTest::Word(_) | SlotTest::Text(_) => Ok(FAILS),
            SlotTest::Block {
                header,
                mixed,
                argument,
            } => {
                let inner = behind_word(self.test_facts(*argument)?);
                if header.is_none() && !*mixed {
                    Ok(inner)
                } else {
                    Ok(fails_before(inner))
                }
            }
            SlotTest::Exception { argument, .. } | SlotTest::Effect { argument, .. } => {
                self.argument_facts(*argument)
            }
            SlotTest::Parts(parts) => self.parts_test_facts(parts.as_slice()),
            SlotTest::Or { left, right } => {
                Ok(either_facts(self.test_facts(*left)?, self.test_facts(*right)?))
            }
        }
    }
}
