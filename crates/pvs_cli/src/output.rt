//! Writes the output.

ghost use Rattle.std.specs.Prelude.{◌≡◌, false};
ghost use Rattle.pvs_io.specs.Outside.{HasCause};
ghost use Rattle.pvs_cli.specs.Output.{Adds};

use pvs_io::{Gave, Sink};

/// Writes the bytes to a sink, and returns whether all of them were written. If the sink fails, a
/// proper prefix of them was written.
pub fn give_all<K: Sink>(sink: &mut K, bytes: &[u8]) -> bool
    ensures bytes { Adds (K.written sink.old) (K.written sink.new) result bytes.now }
    ensures cause { HasCause (K.faults sink.old) (K.faults sink.new) (result ≡ false) }
{
    let mut rest = bytes;
    while !rest.is_empty() {
        match sink.give(rest) {
            Gave::Bytes(n) => rest = &rest[n..],
            Gave::Failed => return false,
        }
    }
    true
}
