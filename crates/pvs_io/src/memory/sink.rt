//! A sink in memory.

ghost use Rattle.std.specs.Prelude.{◌≡◌, ◌<◌, [], Some, length, IfOk};
ghost use Rattle.std.specs.List.Sorted.{IsStrictlyIncreasing};
ghost use Rattle.pvs_io.specs.Memory.{SinkState, after_give, give_answer};
ghost use Rattle.pvs_io.specs.Outside.{Gives, HasCause, IsGiveOf};

use crate::sink::{Gave, Sink};
use std::alloc::{AllocError, Global};
use std::marker::Model;

/// A sink in memory, which keeps the bytes that it is given.
#[derive(Drop)]
pub struct MemSink {
    places: Vec<u8>,
    filled: usize,
    fails: Vec<u64>,
    calls: u64,
    faults: u64,
}

impl Model for MemSink {
    ghost use Rattle.std.specs.Prelude.{◌≤◌, ◌-◌, take, length};
    ghost use Rattle.pvs_io.specs.Memory.{SinkState};

    ghost Value = { SinkState };

    ghost view = { λ s. record {
      written = take s.filled s.places.items;
      room = length s.places.items - s.filled;
      fails = s.fails.items;
      calls = s.calls;
      faults = s.faults;
    } };

    ghost invariant = { λ s. s.filled ≤ length s.places.items };
}

impl MemSink {
    /// A sink with room for that many bytes, which it allocates at once. A call fails where its
    /// number, counted from 0, is in `fails`, and where no room is left.
    pub fn new(alloc: Global, room: usize, fails: Vec<u64>) -> Result<MemSink, AllocError>
        requires { IsStrictlyIncreasing fails.items }
        ensures written { IfOk result (λ s. s.written ≡ []) }
        ensures room { IfOk result (λ s. s.room ≡ room) }
        ensures fails { IfOk result (λ s. s.fails ≡ fails.items) }
        ensures calls { IfOk result (λ s. s.calls ≡ 0) }
        ensures faults { IfOk result (λ s. s.faults ≡ 0) }
    {
        Ok(MemSink {
            places: vec![in alloc; 0; room]?,
            filled: 0,
            fails,
            calls: 0,
            faults: 0,
        })
    }

    /// The bytes that it was given.
    pub fn bytes(&self) -> &[u8]
        ensures { result.now ≡ self.now.written }
    {
        &self.places[..self.filled]
    }
}

impl Sink for MemSink {
    ghost written = { λ s. Some s.written };

    ghost faults = { λ s. s.faults };

    fn give(&mut self, bytes: &[u8]) -> Gave
        requires { 0 < length bytes.now }
        ensures answer { result ≡ give_answer self.old (length bytes.now) }
        ensures after { self.new ≡ after_give self.old bytes.now result }

        // The trait's.
        ensures count { IsGiveOf (length bytes.now) result }
        ensures bytes { Gives (Some self.old.written) (Some self.new.written) result bytes.now }
        ensures cause { HasCause self.old.faults self.new.faults (result ≡ Gave.Failed) }
    {
        let fails = self.fails.contains(&self.calls);
        self.calls = self.calls.saturating_add(1);
        let room = self.places.len() - self.filled;
        if fails || room == 0 {
            self.faults = self.faults.saturating_add(1);
            return Gave::Failed;
        }
        let count = room.min(bytes.len());
        self.places[self.filled..self.filled + count].copy_from_slice(&bytes[..count]);
        self.filled += count;
        Gave::Bytes(count)
    }
}
