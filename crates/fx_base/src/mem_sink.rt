//! A sink in memory.

ghost use Rattle.std.specs.Prelude.{◌≡◌, ◌≢◌, ℕ, ◌+◌, ◌-◌, ◌≤◌, ◌<◌, ◌↔◌, ◌⊎◌, ◌++◌, [], List, Some, Contains, IfOk, IsOk, IsOkUnless, IsErr, OnErr, length, take, min, is_err, if◌then◌else◌};
ghost use Rattle.fx_base.specs.Faults.{Rose};
ghost use Rattle.fx_base.specs.Told.{count_of, appended};
ghost use Rattle.fx_base.specs.Memory.{counted, Refuses};

use crate::outside::{Failed, Sink};
use crate::refusal::Refusal;
use std::alloc::Global;
use std::marker::Model;

/// A sink in memory, whose writes fail where a test wants it, and take as much as a test wants.
#[derive(Drop)]
pub struct MemSink {
    held: Vec<u8>,
    failing: Vec<u64>,
    most: usize,
    room: usize,
    writes: u64,
    faults: u64,
}

impl Model for MemSink {
    ghost use Rattle.std.specs.Vec.{vec_len, vec_capacity};
    ghost use Rattle.std.specs.Prelude.{◌≤◌};
    ghost use Rattle.fx_base.specs.Memory.{SinkInMemory};

    ghost Value = { SinkInMemory };

    ghost view = { λ m. record {
      held = m.held.items;
      failing = m.failing.items;
      most = m.most;
      room = m.room;
      writes = m.writes;
      faults = m.faults;
    } };

    ghost invariant = { λ m. (vec_len m.held ≤ m.room) × (m.room ≤ vec_capacity m.held) };
}

impl MemSink {
    /// A sink that holds nothing, and has the memory for `room` bytes.
    ///
    /// A `write` fails exactly where its number, from 0, is in `failing`, or where it is given bytes
    /// and `most` is 0 or `room` bytes are held. Else it takes as many bytes as there are and fit, at
    /// most `most`. `flush` never fails.
    ///
    /// # Errors
    ///
    /// [`Refusal::Memory`] alone.
    pub fn new(
        alloc: Global,
        failing: Vec<u64>,
        most: usize,
        room: usize,
    ) -> Result<MemSink, Refusal>
        ensures held { IfOk result (λ sink. sink.held ≡ []) }
        ensures failing { IfOk result (λ sink. sink.failing ≡ failing.items) }
        ensures most { IfOk result (λ sink. sink.most ≡ most) }
        ensures room { IfOk result (λ sink. sink.room ≡ room) }
        ensures writes { IfOk result (λ sink. sink.writes ≡ 0) }
        ensures faults { IfOk result (λ sink. sink.faults ≡ 0) }
        ensures refused { IsOkUnless result Refusal.Memory }
    {
        let held = Vec::with_capacity(alloc, room)?;
        Ok(MemSink {
            held,
            failing,
            most,
            room,
            writes: 0,
            faults: 0,
        })
    }

    /// The bytes that were written, in order.
    pub fn held(&self) -> &[u8]
        ensures { result.now ≡ self.now.held }
    {
        self.held.as_slice()
    }
}

impl Sink for MemSink {
    ghost held = { λ m. Some m.held };

    ghost faults = { λ m. m.faults };

    fn write(&mut self, bytes: &[u8]) -> Result<usize, Failed>
        ensures within { IfOk result (λ n. n ≤ length bytes.now) }
        ensures some { 0 < length bytes.now → IfOk result (λ n. 0 < n) }
        ensures held { Some self.new.held ≡ appended (Some self.old.held) (count_of result) bytes.now }
        ensures failed { OnErr result (Rose self.old.faults self.new.faults) }
        ensures faults { self.old.faults ≤ self.new.faults }

        // Which calls fail, and what the others take.
        ensures fails { IsErr result ↔ Refuses self.old bytes.now }
        ensures takes { IfOk result (λ n. n ≡ min (min (length bytes.now) self.old.most) (self.old.room - length self.old.held)) }
        ensures failing { self.new.failing ≡ self.old.failing }
        ensures most { self.new.most ≡ self.old.most }
        ensures room { self.new.room ≡ self.old.room }
        ensures writes_counted { self.new.writes ≡ counted self.old.writes }
        ensures faults_counted { self.new.faults ≡ (if is_err result then counted self.old.faults else self.old.faults) }
    {
        let number = self.writes;
        self.writes = self.writes.saturating_add(1);
        if self.failing.contains(&number) {
            self.faults = self.faults.saturating_add(1);
            return Err(Failed);
        }
        let count = bytes.len().min(self.most).min(self.room - self.held.len());
        if !bytes.is_empty() && count == 0 {
            self.faults = self.faults.saturating_add(1);
            return Err(Failed);
        }
        self.held.extend_from_slice(&bytes[..count]).unwrap();
        Ok(count)
    }

    fn flush(&mut self) -> Result<(), Failed>
        ensures held { Some self.new.held ≡ Some self.old.held }
        ensures failed { OnErr result (Rose self.old.faults self.new.faults) }
        ensures faults { self.old.faults ≤ self.new.faults }
        ensures succeeds { IsOk result }
        ensures unchanged { self.new ≡ self.old }
    {
        Ok(())
    }
}
