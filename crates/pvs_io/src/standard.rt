//! A source and a sink over the standard streams. They do not expose the bytes to contracts.

ghost use Rattle.std.specs.Prelude.{◌≡◌, ◌<◌, None, length};
ghost use Rattle.pvs_io.specs.Outside.{Gives, HasCause, IsGiveOf, IsTakeOf, Takes};
ghost use Rattle.pvs_io.specs.Standard.{AddsTo, TakesFrom, faults_after_give, faults_after_take};

use crate::sink::{Gave, Sink};
use crate::source::{Source, Took};
use std::io::{Read, Write};
use std::marker::Model;

/// A source over a reader, such as standard input. Contracts see the reader and the number of its
/// errors.
#[derive(Drop)]
pub struct StdSource<R> {
    reader: R,
    faults: u64,
}

impl<R> Model for StdSource<R> {
    ghost use Rattle.pvs_io.specs.Standard.{Counted};

    ghost Value = { Counted R };

    ghost view = { λ s. record { stream = s.reader; faults = s.faults } };
}

impl<R> StdSource<R> {
    /// A source that has not failed yet. This takes no memory.
    pub fn new(reader: R) -> StdSource<R>
        ensures stream { result.stream ≡ reader }
        ensures faults { result.faults ≡ 0 }
    {
        StdSource { reader, faults: 0 }
    }
}

impl<R: Read> Source for StdSource<R> {
    ghost left = { λ _. None };

    ghost faults = { λ s. s.faults };

    fn take(&mut self, into: &mut [u8]) -> Took
        requires { 0 < length into.old }
        ensures taken { TakesFrom (R.remaining self.old.stream) (R.remaining self.new.stream) result into.new }
        ensures faults { self.new.faults ≡ faults_after_take self.old.faults result }

        // The trait's.
        ensures count { IsTakeOf (length into.old) result }
        ensures bytes { Takes None None result into.new }
        ensures cause { HasCause self.old.faults self.new.faults (result ≡ Took.Failed) }
    {
        match self.reader.read(into) {
            Ok(0) => Took::End,
            Ok(count) => Took::Bytes(count),
            Err(_) => {
                self.faults = self.faults.saturating_add(1);
                Took::Failed
            }
        }
    }
}

/// A sink over a writer, such as standard output. Contracts see the writer and the number of calls
/// that failed: by an error, or because the writer took nothing. Each call flushes the writer. If
/// that fails, the call fails, although the writer may have taken some of the bytes.
#[derive(Drop)]
pub struct StdSink<W> {
    writer: W,
    faults: u64,
}

impl<W> Model for StdSink<W> {
    ghost use Rattle.pvs_io.specs.Standard.{Counted};

    ghost Value = { Counted W };

    ghost view = { λ s. record { stream = s.writer; faults = s.faults } };
}

impl<W> StdSink<W> {
    /// A sink that has not failed yet. This takes no memory.
    pub fn new(writer: W) -> StdSink<W>
        ensures stream { result.stream ≡ writer }
        ensures faults { result.faults ≡ 0 }
    {
        StdSink { writer, faults: 0 }
    }
}

impl<W: Write> Sink for StdSink<W> {
    ghost written = { λ _. None };

    ghost faults = { λ s. s.faults };

    fn give(&mut self, bytes: &[u8]) -> Gave
        requires { 0 < length bytes.now }
        ensures added { AddsTo (W.contents self.old.stream) (W.contents self.new.stream) result bytes.now }
        ensures faults { self.new.faults ≡ faults_after_give self.old.faults result }

        // The trait's.
        ensures count { IsGiveOf (length bytes.now) result }
        ensures bytes { Gives None None result bytes.now }
        ensures cause { HasCause self.old.faults self.new.faults (result ≡ Gave.Failed) }
    {
        let count = self.writer.write(bytes).unwrap_or(0);
        if count == 0 || self.writer.flush().is_err() {
            self.faults = self.faults.saturating_add(1);
            return Gave::Failed;
        }
        Gave::Bytes(count)
    }
}
