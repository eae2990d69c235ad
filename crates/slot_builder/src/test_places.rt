//! Tests whose names have places.

use crate::builder::SlotBuilder;
use core_shapes::number_of;
use effect_meaning::Sequence;
use low_terms::{Destination, PartTest, SlotPart, SlotTest, Test};
use std::alloc::AllocError;

/// Something that is still to be done for a test of Core.
#[derive(Clone, Copy)]
pub enum TestTask {
    /// Places a test, and gives its new number.
    Place(u32),
    /// Takes the new numbers of a test's parts, and gives the test's.
    Build(u32),
}

/// A test whose names are still to be listed, or the name behind one.
#[derive(Clone, Copy)]
enum NameTask {
    Test(u32),
    Name(u32),
}

impl<'a> SlotBuilder<'a> {
    fn core_test(&self, test: u32) -> Result<&'a Test, AllocError> {
        match self.core1.tests.get(test as usize) {
            Some(found) => Ok(found),
            None => Err(AllocError),
        }
    }

    /// A test goes on while so many values wait, besides its own.
    pub fn note_test(&mut self, test: u32, names: u32) -> Result<(), AllocError> {
        match self.core1.facts.get(test as usize) {
            Some(facts) => {
                self.note_depth(facts.depth.saturating_add(names));
                Ok(())
            }
            None => Err(AllocError),
        }
    }

    /// The names of a test, in the order in which its pattern binds them.
    pub fn names_of_test(&self, test: u32) -> Result<Vec<u32>, AllocError> {
        let mut names = Vec::new(self.alloc);
        let mut tasks = Vec::new(self.alloc);
        tasks.push(NameTask::Test(test))?;
        for _step in 0..u64::MAX {
            match tasks.pop() {
                None => return Ok(names),
                Some(NameTask::Name(name)) => names.push(name)?,
                Some(NameTask::Test(test)) => self.list_names(test, &mut tasks)?,
            }
        }
        Err(AllocError)
    }

    // The parts of a test whose names are listed next. Both sides of an or-test have the same names.
    fn list_names(&self, test: u32, tasks: &mut Vec<NameTask>) -> Result<(), AllocError> {
        match self.core_test(test)? {
            Test::Any | Test::Word(_) | Test::Text(_) => Ok(()),
            Test::Name(name) => {
                tasks.push(NameTask::Name(*name))?;
                Ok(())
            }
            Test::Alias { name, test } => {
                tasks.extend_from_slice(&[NameTask::Name(*name), NameTask::Test(*test)])
            }
            Test::Block { argument, .. } => {
                tasks.push(NameTask::Test(*argument))?;
                Ok(())
            }
            Test::Exception { argument, .. } | Test::Effect { argument, .. } => {
                if let Some(argument) = argument {
                    tasks.push(NameTask::Test(*argument))?;
                }
                Ok(())
            }
            Test::Parts(parts) => list_parts(parts.as_slice(), tasks),
            Test::Or { left, .. } => {
                tasks.push(NameTask::Test(*left))?;
                Ok(())
            }
        }
    }

    /// The test with places for its names, by its new number.
    pub fn place_test(&mut self, test: u32) -> Result<u32, AllocError> {
        self.test_tasks.push(TestTask::Place(test))?;
        for _step in 0..u64::MAX {
            match self.test_tasks.pop() {
                None => return self.take_test(),
                Some(TestTask::Place(test)) => self.place_next(test)?,
                Some(TestTask::Build(test)) => self.build_test(test)?,
            }
        }
        Err(AllocError)
    }

    fn take_test(&mut self) -> Result<u32, AllocError> {
        match self.test_results.pop() {
            Some(test) => Ok(test),
            None => Err(AllocError),
        }
    }

    /// A further test, by its number.
    pub fn new_test(&mut self, test: SlotTest) -> Result<u32, AllocError> {
        let number = number_of(self.program.tests.len())?;
        let facts = self.facts_of_test(&test)?;
        self.program.tests.push(test)?;
        self.program.test_facts.push(facts)?;
        Ok(number)
    }

    fn give_test(&mut self, test: SlotTest) -> Result<(), AllocError> {
        let number = self.new_test(test)?;
        self.test_results.push(number)?;
        Ok(())
    }

    // Where the value of a name goes.
    fn destination(&mut self, name: u32) -> Result<Destination, AllocError> {
        if self.is_top(name) {
            return Ok(Destination::Global(self.global(name)?));
        }
        match self.destinations.get(name) {
            Some(destination) => Ok(destination),
            None => Err(AllocError),
        }
    }

    // Places a test of parts behind these; the first one first.
    fn place_parts(&mut self, test: u32, parts: &[u32]) -> Result<(), AllocError> {
        self.test_tasks.push(TestTask::Build(test))?;
        for part in parts.iter().rev() {
            self.test_tasks.push(TestTask::Place(*part))?;
        }
        Ok(())
    }

    fn place_fields(&mut self, test: u32, parts: &[PartTest]) -> Result<(), AllocError> {
        self.test_tasks.push(TestTask::Build(test))?;
        for part in parts.iter().rev() {
            self.test_tasks.push(TestTask::Place(part.test))?;
        }
        Ok(())
    }

    fn place_next(&mut self, test: u32) -> Result<(), AllocError> {
        match self.core_test(test)? {
            Test::Any => self.give_test(SlotTest::Any),
            Test::Word(word) => self.give_test(SlotTest::Word(*word)),
            Test::Text(literal) => {
                let text = self.literal_text(*literal)?;
                self.give_test(SlotTest::Text(text))
            }
            Test::Name(name) => {
                let destination = self.destination(*name)?;
                self.give_test(SlotTest::Bind(destination))
            }
            Test::Alias { name, test: inner } => {
                self.destination(*name)?;
                self.place_parts(test, &[*inner])
            }
            Test::Block { argument, .. } => self.place_parts(test, &[*argument]),
            Test::Exception {
                constructor,
                argument,
            } => {
                self.exception(*constructor)?;
                self.place_argument(test, *argument)
            }
            Test::Effect { argument, .. } => self.place_argument(test, *argument),
            Test::Parts(parts) => self.place_fields(test, parts.as_slice()),
            Test::Or { left, right } => self.place_parts(test, &[*left, *right]),
        }
    }

    fn place_argument(&mut self, test: u32, argument: Option<u32>) -> Result<(), AllocError> {
        match argument {
            Some(argument) => self.place_parts(test, &[argument]),
            None => self.place_parts(test, &[]),
        }
    }

    fn take_argument(&mut self, argument: Option<u32>) -> Result<Option<u32>, AllocError> {
        match argument {
            Some(_) => Ok(Some(self.take_test()?)),
            None => Ok(None),
        }
    }

    fn take_fields(&mut self, parts: &[PartTest]) -> Result<Sequence<SlotPart>, AllocError> {
        let mut taken = Vec::new(self.alloc);
        for part in parts.iter().rev() {
            taken.push(SlotPart {
                index: part.index,
                mutable: part.mutable,
                test: self.take_test()?,
            })?;
        }
        taken.reverse();
        Ok(Sequence::from_vec(taken))
    }

    fn build_test(&mut self, test: u32) -> Result<(), AllocError> {
        let placed = match self.core_test(test)? {
            Test::Alias { name, .. } => SlotTest::Alias {
                destination: self.destination(*name)?,
                test: self.take_test()?,
            },
            Test::Block { header, mixed, .. } => SlotTest::Block {
                header: *header,
                mixed: *mixed,
                argument: self.take_test()?,
            },
            Test::Exception {
                constructor,
                argument,
            } => SlotTest::Exception {
                constructor: *constructor,
                argument: self.take_argument(*argument)?,
            },
            Test::Effect {
                constructor,
                argument,
            } => SlotTest::Effect {
                constructor: *constructor,
                argument: self.take_argument(*argument)?,
            },
            Test::Parts(parts) => SlotTest::Parts(self.take_fields(parts.as_slice())?),
            Test::Or { .. } => {
                let right = self.take_test()?;
                SlotTest::Or {
                    left: self.take_test()?,
                    right,
                }
            }
            Test::Any | Test::Name(_) | Test::Word(_) | Test::Text(_) => return Err(AllocError),
        };
        self.give_test(placed)
    }
}

fn list_parts(parts: &[PartTest], tasks: &mut Vec<NameTask>) -> Result<(), AllocError> {
    for part in parts.iter().rev() {
        tasks.push(NameTask::Test(part.test))?;
    }
    Ok(())
}
