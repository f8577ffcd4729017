//! Why a name stands for nothing.

use std::alloc::AllocError;

/// Why a name stands for nothing (PVS Language Reference, names; without its overloading).
#[derive(Clone, Copy, Debug, PartialEq, Eq)]
pub enum NameFault {
    /// Nothing that the name may stand for has this name.
    Unknown,
    /// Several things that the name may stand for have it.
    Ambiguous,
    /// No instance of the theory that qualifies the name is visible, or not the one that is written.
    NotImported,
    /// Out of memory.
    Memory,
}

impl From<AllocError> for NameFault {
    ghost use Rattle.std.specs.Prelude.{◌≡◌};
    ghost use Rattle.pvs_names.specs.declared.fault.NameFault.TheVariants.{Memory};

    ghost from_gives = { λ _ e. e ≡ Memory };

    fn from(_: AllocError) -> NameFault {
        NameFault::Memory
    }
}
