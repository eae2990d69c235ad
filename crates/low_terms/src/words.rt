//! Values as words: integers, headers, and the numbers of constructors.

use effect_meaning::CoreArena;
use std::alloc::{AllocError, Global};

/// The word of an integer, of a character's code, and of the number of a constructor without argument.
pub fn tagged(number: i64) -> u64 {
    number.cast_unsigned().wrapping_mul(2).wrapping_add(1)
}

/// The header of a block of so many words, with this tag.
pub fn header(words: u32, tag: u32) -> u64 {
    u64::from(words) * 1024 + u64::from(tag)
}

/// How many constructors a type has of each sort.
#[derive(Clone, Copy)]
pub struct ConstructorCounts {
    /// Those without argument.
    pub constants: u32,
    /// Those with one.
    pub blocks: u32,
}

/// A constructor of a variant type.
#[derive(Clone, Copy)]
pub struct Variant {
    pub of_type: u32,
    /// Its number among the constructors of its type and of its sort, from 0.
    pub number: u32,
    pub has_argument: bool,
}

/// The constructors of the variant types, by their rows.
#[derive(Drop)]
pub struct Variants {
    variants: Vec<Variant>,
    types: Vec<ConstructorCounts>,
}

impl Variants {
    /// The constructors of a program.
    pub fn new(alloc: Global, arena: &CoreArena) -> Result<Variants, AllocError> {
        let none = ConstructorCounts {
            constants: 0,
            blocks: 0,
        };
        let mut types = Vec::new(alloc);
        types.resize(arena.type_rows().len(), none)?;
        let mut all = Variants {
            variants: Vec::new(alloc),
            types,
        };
        for row in arena.variant_rows() {
            all.add(row.of_type, row.argument.is_some())?;
        }
        Ok(all)
    }

    fn add(&mut self, of_type: u32, has_argument: bool) -> Result<(), AllocError> {
        let Some(counts) = self.types.get_mut(of_type as usize) else {
            return Err(AllocError);
        };
        let number = if has_argument {
            counts.blocks
        } else {
            counts.constants
        };
        if has_argument {
            counts.blocks = number.saturating_add(1);
        } else {
            counts.constants = number.saturating_add(1);
        }
        self.variants.push(Variant {
            of_type,
            number,
            has_argument,
        })?;
        Ok(())
    }

    /// The constructor of a row.
    pub fn variant(&self, row: u32) -> Result<Variant, AllocError> {
        match self.variants.get(row as usize) {
            Some(variant) => Ok(*variant),
            None => Err(AllocError),
        }
    }

    /// How many constructors a type has.
    pub fn counts(&self, of_type: u32) -> Result<ConstructorCounts, AllocError> {
        match self.types.get(of_type as usize) {
            Some(counts) => Ok(*counts),
            None => Err(AllocError),
        }
    }
}
