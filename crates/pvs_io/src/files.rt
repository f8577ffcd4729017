//! Files by name.

ghost use Rattle.std.specs.Prelude.{◌≡◌, ◌≤◌, ℕ, List, Option, vec_len};
ghost use Rattle.pvs_io.specs.Outside.{Asks, HasCause, Loads};

/// What a load answers.
#[derive(Clone, Copy, Debug, PartialEq, Eq)]
pub enum Load {
    /// The file was loaded.
    Done,
    /// The file does not exist, or could not be opened or read. This counts as a fault.
    Failed,
    /// Memory ran out.
    Memory,
}

/// Files that are loaded by their names.
pub trait Files {
    ghost use Rattle.pvs_io.specs.Contents.{Contents};

    /// The names of the files with their contents, if these are exposed to contracts.
    ghost contents: { Self → Option Contents };

    /// The names that `load` was called with so far, in order. They are always exposed.
    ghost requests: { Self → List (List ℕ) };

    /// How many loads failed. This never falls, and stays at `u64::MAX` once it is there.
    ghost faults: { Self → ℕ };

    /// Replaces what `into` holds by the first `max` bytes of the file of that name. After an
    /// answer other than `Done`, the bytes in `into` mean nothing.
    fn load(&mut self, name: &str, max: u32, into: &mut Vec<u8>) -> Load
        // Whether or not the contents are exposed.
        ensures count { result ≡ Load.Done → vec_len into.new ≤ max }

        ensures bytes { Loads (contents self.old) name.now max result into.new.items }
        ensures contents { contents self.new ≡ contents self.old }
        ensures requests { Asks (requests self.old) (requests self.new) name.now result }
        ensures cause { HasCause (faults self.old) (faults self.new) (result ≡ Load.Failed) };
}
