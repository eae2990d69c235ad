//! What is known of names.

use std::alloc::{AllocError, Global};

// What stands for the owner of a top-level name.
const NO_OWNER: u32 = u32::MAX;

/// How often each name is used, and which owner binds it, by the names' numbers.
#[derive(Drop)]
pub struct Names {
    uses: Vec<u32>,
    is_top: Vec<bool>,
    owners: Vec<u32>,
}

impl Names {
    /// No names.
    pub fn new(alloc: Global) -> Names {
        Names {
            uses: Vec::new(alloc),
            is_top: Vec::new(alloc),
            owners: Vec::new(alloc),
        }
    }

    // Makes the tables reach to a name.
    fn reach(&mut self, name: u32) -> Result<(), AllocError> {
        for _new in self.uses.len()..name as usize + 1 {
            self.uses.push(0)?;
            self.is_top.push(false)?;
            self.owners.push(NO_OWNER)?;
        }
        Ok(())
    }

    /// The owner binds a name; none does a top-level one.
    pub fn bind(&mut self, name: u32, owner: Option<u32>) -> Result<(), AllocError> {
        self.reach(name)?;
        match (
            self.is_top.get_mut(name as usize),
            self.owners.get_mut(name as usize),
        ) {
            (Some(is_top), Some(binder)) => {
                *is_top = owner.is_none();
                *binder = owner.unwrap_or(NO_OWNER);
                Ok(())
            }
            _ => Err(AllocError),
        }
    }

    /// Counts a use of a name, and gives the owner that binds it, if it isn't a top-level one.
    pub fn use_one(&mut self, name: u32) -> Result<Option<u32>, AllocError> {
        let Some(uses) = self.uses.get_mut(name as usize) else {
            return Err(AllocError);
        };
        *uses = uses.saturating_add(1);
        match self.owners.get(name as usize) {
            Some(&NO_OWNER) | None => Ok(None),
            Some(owner) => Ok(Some(*owner)),
        }
    }

    /// How often each name is used, and whether it is a top-level one.
    pub fn end(self) -> (Vec<u32>, Vec<bool>) {
        let Names {
            uses,
            is_top,
            owners: _,
        } = self;
        (uses, is_top)
    }
}
