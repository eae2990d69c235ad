//! Tables by the numbers of names.

use std::alloc::{AllocError, Global};

/// Entries by the numbers of names.
#[derive(Drop)]
pub struct Table<T> {
    entries: Vec<Option<T>>,
}

impl<T: Copy> Table<T> {
    /// A table for so many names, without entries.
    pub fn new(alloc: Global, names: usize) -> Result<Table<T>, AllocError> {
        let mut entries = Vec::new(alloc);
        entries.resize(names, None)?;
        Ok(Table { entries })
    }

    /// The entry of a name, if there is one.
    pub fn get(&self, name: u32) -> Option<T> {
        match self.entries.get(name as usize) {
            Some(entry) => *entry,
            None => None,
        }
    }

    /// Sets the entry of a name.
    pub fn put(&mut self, name: u32, new: Option<T>) -> Result<(), AllocError> {
        match self.entries.get_mut(name as usize) {
            Some(entry) => {
                *entry = new;
                Ok(())
            }
            None => Err(AllocError),
        }
    }
}
