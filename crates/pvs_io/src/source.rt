//! Where bytes come from.

ghost use Rattle.std.specs.Prelude.{◌≡◌, ◌<◌, ℕ, List, Option, length};
ghost use Rattle.pvs_io.specs.Outside.{HasCause, IsTakeOf, Takes};

/// The answer of a source.
#[derive(Clone, Copy, Debug, PartialEq, Eq)]
pub enum Took {
    /// This many bytes were taken: at least one.
    Bytes(usize),
    /// Nothing is left.
    End,
    /// The source failed, and nothing was taken. This counts as a fault.
    Failed,
}

/// A source of bytes.
pub trait Source {
    /// The bytes that are left, if the source exposes them to contracts.
    ghost left: { Self → Option (List ℕ) };

    /// How often it failed. This never falls, and stays at `u64::MAX` once it is there.
    ghost faults: { Self → ℕ };

    /// Takes the next bytes into the first places of `into`. This takes no memory.
    fn take(&mut self, into: &mut [u8]) -> Took
        requires { 0 < length into.old }

        // Whether or not the bytes are exposed.
        ensures count { IsTakeOf (length into.old) result }

        ensures bytes { Takes (left self.old) (left self.new) result into.new }
        ensures cause { HasCause (faults self.old) (faults self.new) (result ≡ Took.Failed) };
}
