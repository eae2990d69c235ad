//! Files in memory.

ghost use Rattle.std.specs.Prelude.{◌≡◌, ℕ, ◌+◌, ◌≤◌, ◌↔◌, ◌⊎◌, List, None, Some, IsSome, MatchOption, Contains, IsErr, OnErr, position, slice_get, length, is_err, if◌then◌else◌};
ghost use Rattle.std.specs.Str.{bytes_eq};
ghost use Rattle.std.specs.String.{string_bytes};
ghost use Rattle.fx_base.specs.Faults.{Rose};
ghost use Rattle.fx_base.specs.Told.{Missing, Holds, GivesNext, Reads, count_of};
ghost use Rattle.fx_base.specs.Memory.{told_by, counted};

use crate::outside::{Failed, Files};
use std::marker::Model;

/// A file in memory.
#[derive(Drop)]
pub struct NamedFile {
    pub name: String,
    pub bytes: Vec<u8>,
}

impl Model for NamedFile {
    ghost use Rattle.std.specs.String.{string_bytes};
    ghost use Rattle.fx_base.specs.Memory.{NamedBytes};

    ghost Value = { NamedBytes };

    ghost view = { λ file. record { name = string_bytes file.name; bytes = file.bytes.items } };
}

fn place_of(files: &[NamedFile], name: &str) -> Option<usize>
    ensures { result ≡ position (λ file. bytes_eq file.name name.now) files.now }
{
    files.iter().position(|file| file.name.as_str() == name)
}

fn bytes_of<'a>(files: &'a [NamedFile], name: &str) -> Option<&'a [u8]>
    ensures { MatchOption result (told_by files.now name.now ≡ Missing) (λ bytes. told_by files.now name.now ≡ Holds bytes.now) }
{
    let place = place_of(files, name)?;
    let file = &files[place];
    Some(file.bytes.as_slice())
}

// The bytes of `file` after the taken ones, as many as fit.
fn copy_next(file: &[u8], taken: usize, buf: &mut [u8]) -> usize
    requires { taken ≤ length file.now }
    ensures within { result ≤ length buf.old }
    ensures gives { GivesNext file.now taken result buf.old buf.new }
{
    let count = buf.len().min(file.len() - taken);
    buf[..count].copy_from_slice(&file[taken..taken + count]);
    count
}

/// Files in memory, whose reads fail where a test wants it. Of several files with one name the first
/// counts.
#[derive(Drop)]
pub struct MemFiles {
    files: Vec<NamedFile>,
    failing: Vec<u64>,
    opened: Option<String>,
    taken: usize,
    reads: u64,
    faults: u64,
}

impl Model for MemFiles {
    ghost use Rattle.std.specs.Prelude.{option_map};
    ghost use Rattle.std.specs.String.{string_bytes};
    ghost use Rattle.fx_base.specs.Memory.{FilesInMemory, IsWithinFile};

    ghost Value = { FilesInMemory };

    ghost view = { λ m. record {
      files = m.files.items;
      failing = m.failing.items;
      opened = option_map string_bytes m.opened;
      taken = m.taken;
      reads = m.reads;
      faults = m.faults;
    } };

    ghost invariant = { λ m. IsWithinFile m.files.items (option_map string_bytes m.opened) m.taken };
}

impl MemFiles {
    /// Files of which none is opened. The calls of `read` whose numbers, from 0, are in `failing`
    /// fail, as does each call for a name without a file, and no other.
    pub fn new(files: Vec<NamedFile>, failing: Vec<u64>) -> MemFiles
        ensures files { result.files ≡ files.items }
        ensures failing { result.failing ≡ failing.items }
        ensures opened { result.opened ≡ None }
        ensures reads { result.reads ≡ 0 }
        ensures faults { result.faults ≡ 0 }
    {
        MemFiles {
            files,
            failing,
            opened: None,
            taken: 0,
            reads: 0,
            faults: 0,
        }
    }
}

impl Files for MemFiles {
    ghost opened = { λ m. m.opened };

    ghost told = { λ m. told_by m.files };

    ghost taken = { λ m. m.taken };

    ghost faults = { λ m. m.faults };

    fn open(&mut self, name: String) {
        self.opened = Some(name);
        self.taken = 0;
    }

    fn read(&mut self, buf: &mut [u8]) -> Result<usize, Failed>
        requires { IsSome self.old.opened }
        ensures reads { (name : List ℕ) → self.old.opened ≡ Some name →
            Reads (told_by self.old.files name) self.old.taken buf.old buf.new result }
        ensures failed { OnErr result (Rose self.old.faults self.new.faults) }
        ensures taken { self.new.taken ≡ self.old.taken + count_of result }
        ensures opened { self.new.opened ≡ self.old.opened }
        ensures told { told_by self.new.files ≡ told_by self.old.files }
        ensures faults { self.old.faults ≤ self.new.faults }

        // Which calls fail, and what the next call finds.
        ensures fails { (name : List ℕ) → self.old.opened ≡ Some name →
            IsErr result ↔ (Contains self.old.failing self.old.reads ⊎ (told_by self.old.files name ≡ Missing)) }
        ensures files { self.new.files ≡ self.old.files }
        ensures failing { self.new.failing ≡ self.old.failing }
        ensures reads_counted { self.new.reads ≡ counted self.old.reads }
        ensures faults_counted { self.new.faults ≡ (if is_err result then counted self.old.faults else self.old.faults) }
    {
        let number = self.reads;
        self.reads = self.reads.saturating_add(1);
        if self.failing.contains(&number) {
            self.faults = self.faults.saturating_add(1);
            return Err(Failed);
        }
        let Some(name) = &self.opened else {
            unreachable!()
        };
        let Some(bytes) = bytes_of(&self.files, name.as_str()) else {
            self.faults = self.faults.saturating_add(1);
            return Err(Failed);
        };
        let count = copy_next(bytes, self.taken, buf);
        self.taken += count;
        Ok(count)
    }
}
