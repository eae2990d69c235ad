//! The host's files and streams: the trusted edge. They tell no content: no clause says what a file
//! holds or what a terminal showed.

ghost use Rattle.std.specs.Prelude.{◌≡◌, None};
ghost use Rattle.fx_base.specs.Told.{Untold};

use crate::outside::{Failed, Files, Sink};
use std::io::{Read, Write};
use std::marker::Model;
use std::{fs, rt};

/// The files of the host.
#[derive(Drop)]
pub struct HostFiles<'a, R: rt::Files> {
    host: &'a R,
    name: Option<String>,
    file: Option<R::File>,
    taken: u64,
    faults: u64,
}

impl<'a, R: rt::Files> Model for HostFiles<'a, R> {
    ghost use Rattle.std.specs.Prelude.{option_map};
    ghost use Rattle.std.specs.String.{string_bytes};
    ghost use Rattle.fx_base.specs.Host.{HostReading};

    ghost Value = { HostReading };

    ghost view = { λ h. record {
      opened = option_map string_bytes h.name;
      taken = h.taken;
      faults = h.faults;
    } };
}

impl<'a, R: rt::Files> HostFiles<'a, R> {
    /// The host's files, none of them opened, with no fault so far.
    pub fn new(host: &'a R) -> HostFiles<'a, R>
        ensures opened { result.opened ≡ None }
        ensures taken { result.taken ≡ 0 }
        ensures faults { result.faults ≡ 0 }
    {
        HostFiles {
            host,
            name: None,
            file: None,
            taken: 0,
            faults: 0,
        }
    }
}

impl<'a, R: rt::Files> Files for HostFiles<'a, R> {
    ghost opened = { λ h. h.opened };

    ghost told = { λ h name. Untold };

    ghost taken = { λ h. h.taken };

    ghost faults = { λ h. h.faults };

    fn open(&mut self, name: String) {
        self.file = fs::open(self.host, name.as_str()).ok();
        self.name = Some(name);
        self.taken = 0;
    }

    fn read(&mut self, buf: &mut [u8]) -> Result<usize, Failed> {
        if let Some(file) = &mut self.file
            && buf.len() as u64 <= u64::MAX - self.taken
            && let Ok(count) = file.read(buf)
        {
            self.taken += count as u64;
            return Ok(count);
        }
        self.faults = self.faults.saturating_add(1);
        Err(Failed)
    }
}

/// A stream of the host, as standard output and standard error are. A clause sees its count of
/// faults alone.
#[derive(Drop)]
pub struct HostSink<W: Write + Send + Drop> {
    stream: W,
    faults: u64,
}

impl<W: Write + Send + Drop> Model for HostSink<W> {
    ghost use Rattle.std.specs.Prelude.{ℕ};

    ghost Value = { ℕ };

    ghost view = { λ sink. sink.faults };
}

impl<W: Write + Send + Drop> HostSink<W> {
    /// A sink over this stream, with no fault so far.
    pub fn new(stream: W) -> HostSink<W>
        ensures { result ≡ 0 }
    {
        HostSink { stream, faults: 0 }
    }
}

impl<W: Write + Send + Drop> Sink for HostSink<W> {
    ghost held = { λ sink. None };

    ghost faults = { λ sink. sink };

    /// A write that takes nothing of bytes that are there is a fault.
    fn write(&mut self, bytes: &[u8]) -> Result<usize, Failed> {
        if let Ok(count) = self.stream.write(bytes)
            && (count > 0 || bytes.is_empty())
        {
            return Ok(count);
        }
        self.faults = self.faults.saturating_add(1);
        Err(Failed)
    }

    fn flush(&mut self) -> Result<(), Failed> {
        if self.stream.flush().is_ok() {
            return Ok(());
        }
        self.faults = self.faults.saturating_add(1);
        Err(Failed)
    }
}
