//! Why a replacement is not made.

use pvs_terms::MakeFault;
use std::alloc::{AllocError, AllocFailed};

/// Why a replacement is not made.
#[derive(Debug, Drop, PartialEq, Eq)]
pub enum SubstFault {
    /// The result passes a limit of trees: of depth, of size or of indices.
    TooLarge,
    /// Out of memory.
    Memory,
}

impl From<MakeFault> for SubstFault {
    ghost use Rattle.std.specs.Prelude.{◌≡◌};
    ghost use Rattle.pvs_subst.specs.code.Faults.{fault_of};

    ghost from_gives = { λ f e. e ≡ fault_of f };

    fn from(fault: MakeFault) -> SubstFault {
        match fault {
            MakeFault::TooLarge => SubstFault::TooLarge,
            MakeFault::Memory => SubstFault::Memory,
        }
    }
}

impl From<AllocError> for SubstFault {
    ghost use Rattle.std.specs.Prelude.{◌≡◌};
    ghost use Rattle.pvs_subst.specs.declared.fault.SubstFault.TheVariants.{Memory};

    ghost from_gives = { λ _ e. e ≡ Memory };

    fn from(_: AllocError) -> SubstFault {
        SubstFault::Memory
    }
}

impl<T: Drop> From<AllocFailed<T>> for SubstFault {
    ghost use Rattle.std.specs.Prelude.{◌≡◌};
    ghost use Rattle.pvs_subst.specs.declared.fault.SubstFault.TheVariants.{Memory};

    ghost from_gives = { λ _ e. e ≡ Memory };

    fn from(_: AllocFailed<T>) -> SubstFault {
        SubstFault::Memory
    }
}
