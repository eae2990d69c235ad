//! Core with tests in place of patterns.

use effect_meaning::{CoreArena, Sequence};
use fx_base::Place;
use indexmap::IndexSet;

/// A part of a tuple or a record, and the test that it has to pass.
#[derive(Clone, Copy)]
pub struct PartTest {
    /// The number of the part, from 0.
    pub index: u32,
    /// Whether the part may change.
    pub mutable: bool,
    pub test: u32,
}

/// A test on one value. Other tests are named by their numbers, which are lower.
#[derive(Drop)]
pub enum Test {
    /// Any value passes.
    Any,
    /// Any value passes, and gets this name.
    Name(u32),
    /// The value gets the name, and has to pass the test.
    Alias {
        name: u32,
        test: u32,
    },
    /// The value is this word: an integer, or a constructor without argument.
    Word(u64),
    /// The value is the string of this number in the table of literals.
    Text(u32),
    /// The value is a block whose first word passes the test. `header` is its header, where the type
    /// has several constructors with an argument; `mixed` says that it has some without one too.
    Block {
        header: Option<u64>,
        mixed: bool,
        argument: u32,
    },
    /// The value is this exception, and its argument, if the pattern has one, passes the test.
    Exception {
        constructor: u32,
        argument: Option<u32>,
    },
    /// The effect is this one, and its argument, if the pattern has one, passes the test.
    Effect {
        constructor: u32,
        argument: Option<u32>,
    },
    /// The parts pass their tests, from left to right.
    Parts(Sequence<PartTest>),
    /// The value passes the first test, or else the second.
    Or {
        left: u32,
        right: u32,
    },
}

/// What can be told of a test.
#[derive(Clone, Copy)]
pub struct TestFacts {
    /// Every value passes, and none gets a name.
    pub trivial: bool,
    /// Every value passes.
    pub total: bool,
    /// An or-pattern in it has names.
    pub named_or: bool,
    /// It has a name.
    pub named: bool,
    /// How many values wait at once while it goes on.
    pub depth: u32,
}

/// A function, an effect clause or an item, whose slots and free names are counted.
#[derive(Drop)]
pub struct Owner {
    pub place: Place,
    pub slots: u64,
    /// The names that it takes from outside, in the order of their first use.
    pub free: IndexSet<u32>,
}

/// A program whose patterns are tests. The terms stay those of Core.
#[derive(Drop)]
pub struct Core1<'a> {
    pub arena: &'a CoreArena,
    /// The tests, each behind those that it names.
    pub tests: Vec<Test>,
    /// What can be told of each test.
    pub facts: Vec<TestFacts>,
    /// The test of each pattern, by the pattern's number.
    pub test_of: Vec<u32>,
    /// Whether the term of this number is a comparison of strings.
    pub compares_texts: Vec<bool>,
    /// The slots that each term needs.
    pub needs: Vec<u64>,
    /// How often each name is used.
    pub uses: Vec<u32>,
    /// Whether a name is a top-level one.
    pub is_top: Vec<bool>,
    /// The functions, effect clauses and items: item by item, each in front of those inside it.
    pub owners: Vec<Owner>,
    /// The owner whose body is this term, by the term's number; `u32::MAX` where there is none.
    pub owner_of: Vec<u32>,
}
