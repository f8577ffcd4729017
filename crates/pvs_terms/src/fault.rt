//! Why a node or a reference is not made.

use std::alloc::{AllocError, AllocFailed};

/// Why a node or a reference is not made.
#[derive(Debug, Drop, PartialEq, Eq)]
pub enum MakeFault {
    /// The tree passes the limit of depth, of size or of indices.
    TooLarge,
    /// Out of memory.
    Memory,
}

impl From<AllocError> for MakeFault {
    ghost use Rattle.std.specs.Prelude.{◌≡◌};
    ghost use Rattle.pvs_terms.specs.declared.fault.MakeFault.TheVariants.{Memory};

    ghost from_gives = { λ _ e. e ≡ Memory };

    fn from(_: AllocError) -> MakeFault {
        MakeFault::Memory
    }
}

impl<T: Drop> From<AllocFailed<T>> for MakeFault {
    ghost use Rattle.std.specs.Prelude.{◌≡◌};
    ghost use Rattle.pvs_terms.specs.declared.fault.MakeFault.TheVariants.{Memory};

    ghost from_gives = { λ _ e. e ≡ Memory };

    fn from(_: AllocFailed<T>) -> MakeFault {
        MakeFault::Memory
    }
}
