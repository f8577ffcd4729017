//! What refuses the declarations of a theory: a fault in them, or memory that runs out.

ghost use Rattle.std.specs.Prelude.{◌≡◌};
ghost use Rattle.pvs_theory.specs.declared.fault.ElabFault.TheVariants as elab_fault;

use pvs_base::Fault;
use std::alloc::{AllocError, AllocFailed};

/// Why declarations give no entries.
#[derive(Clone, Copy, Debug, PartialEq, Eq)]
pub enum ElabFault {
    /// The first fault in them.
    At(Fault),

    /// Memory ran out.
    Memory,
}

impl From<AllocError> for ElabFault {
    ghost from_gives = { λ _ e. e ≡ elab_fault.Memory };

    fn from(_: AllocError) -> ElabFault {
        ElabFault::Memory
    }
}

impl<T: Drop> From<AllocFailed<T>> for ElabFault {
    ghost from_gives = { λ _ e. e ≡ elab_fault.Memory };

    fn from(_: AllocFailed<T>) -> ElabFault {
        ElabFault::Memory
    }
}
