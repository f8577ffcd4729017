//! A source in memory.

ghost use Rattle.std.specs.Prelude.{◌≡◌, ◌≤◌, ◌<◌, Some, length};
ghost use Rattle.std.specs.List.Sorted.{IsStrictlyIncreasing};
ghost use Rattle.pvs_io.specs.Memory.{SourceState, after_take, take_answer};
ghost use Rattle.pvs_io.specs.Outside.{HasCause, IsTakeOf, Takes};

use crate::source::{Source, Took};
use std::marker::Model;

/// A source in memory, made of its bytes.
#[derive(Drop)]
pub struct MemSource {
    bytes: Vec<u8>,
    at: usize,
    piece: usize,
    fails: Vec<u64>,
    calls: u64,
    faults: u64,
}

impl Model for MemSource {
    ghost use Rattle.std.specs.Prelude.{◌≤◌, drop, length};
    ghost use Rattle.pvs_io.specs.Memory.{SourceState};

    ghost Value = { SourceState };

    ghost view = { λ s. record {
      left = drop s.at s.bytes.items;
      piece = s.piece;
      fails = s.fails.items;
      calls = s.calls;
      faults = s.faults;
    } };

    ghost invariant = { λ s. (s.at ≤ length s.bytes.items) × (1 ≤ s.piece) };
}

impl MemSource {
    /// A source of these bytes that gives at most `piece` of them a call. A call fails where its
    /// number, counted from 0, is in `fails`. This takes no memory.
    pub fn new(bytes: Vec<u8>, piece: usize, fails: Vec<u64>) -> MemSource
        requires piece { 1 ≤ piece }
        requires fails { IsStrictlyIncreasing fails.items }
        ensures left { result.left ≡ bytes.items }
        ensures piece { result.piece ≡ piece }
        ensures fails { result.fails ≡ fails.items }
        ensures calls { result.calls ≡ 0 }
        ensures faults { result.faults ≡ 0 }
    {
        MemSource {
            bytes,
            at: 0,
            piece,
            fails,
            calls: 0,
            faults: 0,
        }
    }
}

impl Source for MemSource {
    ghost left = { λ s. Some s.left };

    ghost faults = { λ s. s.faults };

    fn take(&mut self, into: &mut [u8]) -> Took
        requires { 0 < length into.old }
        ensures answer { result ≡ take_answer self.old (length into.old) }
        ensures after { self.new ≡ after_take self.old result }

        // The trait's.
        ensures count { IsTakeOf (length into.old) result }
        ensures bytes { Takes (Some self.old.left) (Some self.new.left) result into.new }
        ensures cause { HasCause self.old.faults self.new.faults (result ≡ Took.Failed) }
    {
        let fails = self.fails.contains(&self.calls);
        self.calls = self.calls.saturating_add(1);
        if fails {
            self.faults = self.faults.saturating_add(1);
            return Took::Failed;
        }
        let left = &self.bytes[self.at..];
        if left.is_empty() {
            return Took::End;
        }
        let count = self.piece.min(left.len()).min(into.len());
        into[..count].copy_from_slice(&left[..count]);
        self.at += count;
        Took::Bytes(count)
    }
}
