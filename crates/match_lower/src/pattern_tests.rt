//! The test of each pattern.

use crate::test_facts::facts_of;
use effect_meaning::{Constant, Constructor, CoreArena, FieldPart, PatternForm, Sequence};
use low_terms::{PartTest, Test, TestFacts, Variants, header, tagged};
use std::alloc::{AllocError, Global};

/// The tests that patterns became.
#[derive(Drop)]
pub struct PatternTests<'a> {
    alloc: Global,
    arena: &'a CoreArena,
    variants: Variants,
    pub tests: Vec<Test>,
    pub facts: Vec<TestFacts>,
    /// The test of each pattern.
    pub test_of: Vec<u32>,
    /// How many names each pattern has.
    pub names: Vec<u32>,
}

/// The tests of the patterns of a program.
pub fn pattern_tests<'a>(
    alloc: Global,
    arena: &'a CoreArena,
) -> Result<PatternTests<'a>, AllocError> {
    let mut made = PatternTests {
        alloc,
        arena,
        variants: Variants::new(alloc, arena)?,
        tests: Vec::new(alloc),
        facts: Vec::new(alloc),
        test_of: Vec::new(alloc),
        names: Vec::new(alloc),
    };
    for pattern in arena.patterns() {
        made.pattern(&pattern.form)?;
    }
    Ok(made)
}

impl<'a> PatternTests<'a> {
    // The next pattern.
    fn pattern(&mut self, form: &PatternForm) -> Result<(), AllocError> {
        let test = match form {
            PatternForm::Annotated { pattern, .. } => self.test(*pattern)?,
            other => {
                let test = self.test_of_form(other)?;
                self.push(test)?
            }
        };
        let names = self.names_of_form(form)?;
        self.test_of.push(test)?;
        self.names.push(names)?;
        Ok(())
    }

    // A further test, and its number.
    fn push(&mut self, test: Test) -> Result<u32, AllocError> {
        let number = self.tests.len();
        if number >= u32::MAX as usize {
            return Err(AllocError);
        }
        let facts = facts_of(&test, &self.facts)?;
        self.tests.push(test)?;
        self.facts.push(facts)?;
        Ok(number as u32)
    }

    // The test of an earlier pattern.
    fn test(&self, pattern: u32) -> Result<u32, AllocError> {
        match self.test_of.get(pattern as usize) {
            Some(test) => Ok(*test),
            None => Err(AllocError),
        }
    }

    fn test_of_form(&self, form: &PatternForm) -> Result<Test, AllocError> {
        match form {
            PatternForm::Any => Ok(Test::Any),
            PatternForm::Name(name) => Ok(Test::Name(*name)),
            PatternForm::Constant(constant) => Ok(test_of_constant(*constant)),
            PatternForm::Tuple(parts) => self.tuple(parts.as_slice()),
            PatternForm::Constructor(constructor) => self.constructor(*constructor),
            PatternForm::Construct {
                constructor,
                argument,
            } => self.construct(*constructor, *argument),
            PatternForm::Record(parts) => self.record(parts.as_slice()),
            PatternForm::Or { left, right } => Ok(Test::Or {
                left: self.test(*left)?,
                right: self.test(*right)?,
            }),
            PatternForm::Alias { pattern, name } => Ok(Test::Alias {
                name: *name,
                test: self.test(*pattern)?,
            }),
            PatternForm::Annotated { .. } => Err(AllocError),
        }
    }

    fn tuple(&self, patterns: &[u32]) -> Result<Test, AllocError> {
        let mut parts = Vec::new(self.alloc);
        let mut index = 0u32;
        for pattern in patterns {
            parts.push(PartTest {
                index,
                mutable: false,
                test: self.test(*pattern)?,
            })?;
            index = index.saturating_add(1);
        }
        Ok(Test::Parts(Sequence::from_vec(parts)))
    }

    fn record(&self, fields: &[FieldPart]) -> Result<Test, AllocError> {
        let mut parts = Vec::new(self.alloc);
        for field in fields {
            let Some(row) = self.arena.field_rows().get(field.field as usize) else {
                return Err(AllocError);
            };
            parts.push(PartTest {
                index: row.index,
                mutable: row.is_mutable,
                test: self.test(field.part)?,
            })?;
        }
        Ok(Test::Parts(Sequence::from_vec(parts)))
    }

    // A constructor without argument. The only one of its type is not looked at.
    fn constructor(&self, constructor: Constructor) -> Result<Test, AllocError> {
        match constructor {
            Constructor::Exception(constructor) => Ok(Test::Exception {
                constructor,
                argument: None,
            }),
            Constructor::Effect(constructor) => Ok(Test::Effect {
                constructor,
                argument: None,
            }),
            Constructor::Variant(row) => {
                let variant = self.variants.variant(row)?;
                let counts = self.variants.counts(variant.of_type)?;
                if counts.constants == 1 && counts.blocks == 0 {
                    return Ok(Test::Any);
                }
                Ok(Test::Word(tagged(i64::from(variant.number))))
            }
        }
    }

    // A constructor with the pattern of its argument.
    fn construct(&self, constructor: Constructor, pattern: u32) -> Result<Test, AllocError> {
        let argument = self.test(pattern)?;
        match constructor {
            Constructor::Exception(constructor) => Ok(Test::Exception {
                constructor,
                argument: Some(argument),
            }),
            Constructor::Effect(constructor) => Ok(Test::Effect {
                constructor,
                argument: Some(argument),
            }),
            Constructor::Variant(row) => {
                let variant = self.variants.variant(row)?;
                let counts = self.variants.counts(variant.of_type)?;
                let own = header(1, variant.number);
                Ok(Test::Block {
                    header: if counts.blocks > 1 { Some(own) } else { None },
                    mixed: counts.constants > 0,
                    argument,
                })
            }
        }
    }

    // How many names a pattern has. Both sides of an or-pattern have the same ones.
    fn names_of_form(&self, form: &PatternForm) -> Result<u32, AllocError> {
        match form {
            PatternForm::Name(_) => Ok(1),
            PatternForm::Tuple(parts) => self.names_of_all(parts.as_slice()),
            PatternForm::Construct { argument, .. } => self.names_of(*argument),
            PatternForm::Record(parts) => self.names_of_fields(parts.as_slice()),
            PatternForm::Or { left, .. } => self.names_of(*left),
            PatternForm::Alias { pattern, .. } => Ok(self.names_of(*pattern)?.saturating_add(1)),
            PatternForm::Annotated { pattern, .. } => self.names_of(*pattern),
            PatternForm::Any | PatternForm::Constant(_) | PatternForm::Constructor(_) => Ok(0),
        }
    }

    fn names_of(&self, pattern: u32) -> Result<u32, AllocError> {
        match self.names.get(pattern as usize) {
            Some(names) => Ok(*names),
            None => Err(AllocError),
        }
    }

    fn names_of_all(&self, patterns: &[u32]) -> Result<u32, AllocError> {
        let mut names = 0u32;
        for pattern in patterns {
            names = names.saturating_add(self.names_of(*pattern)?);
        }
        Ok(names)
    }

    fn names_of_fields(&self, fields: &[FieldPart]) -> Result<u32, AllocError> {
        let mut names = 0u32;
        for field in fields {
            names = names.saturating_add(self.names_of(field.part)?);
        }
        Ok(names)
    }
}

// The test for a constant. Every value of type unit is the same.
fn test_of_constant(constant: Constant) -> Test {
    match constant {
        Constant::Integer(number) => Test::Word(tagged(number)),
        Constant::Character(code) => Test::Word(tagged(i64::from(code))),
        Constant::Boolean(truth) => Test::Word(tagged(i64::from(truth))),
        Constant::Unit => Test::Any,
        Constant::Literal(text) => Test::Text(text),
    }
}
