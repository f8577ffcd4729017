//! Where bytes go.

ghost use Rattle.std.specs.Prelude.{◌≡◌, ◌<◌, ℕ, List, Option, length};
ghost use Rattle.pvs_io.specs.Outside.{Gives, HasCause, IsGiveOf};

/// The answer of a sink.
#[derive(Clone, Copy, Debug, PartialEq, Eq)]
pub enum Gave {
    /// This many of the bytes were added: at least one.
    Bytes(usize),
    /// The sink failed, and nothing was added. This counts as a fault.
    Failed,
}

/// A sink for bytes.
pub trait Sink {
    /// The bytes that it was given, if the sink exposes them to contracts.
    ghost written: { Self → Option (List ℕ) };

    /// How often it failed. This never falls, and stays at `u64::MAX` once it is there.
    ghost faults: { Self → ℕ };

    /// Adds the first of these bytes. This takes no memory.
    fn give(&mut self, bytes: &[u8]) -> Gave
        requires { 0 < length bytes.now }

        // Whether or not the bytes are exposed.
        ensures count { IsGiveOf (length bytes.now) result }

        ensures bytes { Gives (written self.old) (written self.new) result bytes.now }
        ensures cause { HasCause (faults self.old) (faults self.new) (result ≡ Gave.Failed) };
}
