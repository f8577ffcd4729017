//! Why a call answers no result.

use pvs_base::Fault;
use std::alloc::{AllocError, AllocFailed};

/// Why a text is not elaborated.
#[derive(Clone, Copy, Debug, PartialEq, Eq)]
pub enum ElabFault {
    /// Its first fault.
    At(Fault),
    /// Out of memory, or of the stack for nested expressions.
    Memory,
}

impl From<AllocError> for ElabFault {
    ghost use Rattle.std.specs.Prelude.{◌≡◌};
    ghost use Rattle.pvs_elaboration.specs.declared.fault.ElabFault.TheVariants.{Memory};

    ghost from_gives = { λ _ e. e ≡ Memory };

    fn from(_: AllocError) -> ElabFault {
        ElabFault::Memory
    }
}

impl<T: Drop> From<AllocFailed<T>> for ElabFault {
    ghost use Rattle.std.specs.Prelude.{◌≡◌};
    ghost use Rattle.pvs_elaboration.specs.declared.fault.ElabFault.TheVariants.{Memory};

    ghost from_gives = { λ _ e. e ≡ Memory };

    fn from(_: AllocFailed<T>) -> ElabFault {
        ElabFault::Memory
    }
}
