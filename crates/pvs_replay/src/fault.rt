//! Why a step has no effect.

ghost use Rattle.std.specs.Prelude.{◌≡◌};
ghost use Rattle.pvs_replay.specs.declared.fault.StepFault.TheVariants as step_fault;

use pvs_base::Fault;
use std::alloc::{AllocError, AllocFailed};

/// Why a step has no effect.
#[derive(Clone, Copy, Debug, PartialEq, Eq)]
pub enum StepFault {
    /// The step is refused with this fault, at its own place.
    At(Fault),

    /// There is no memory.
    Memory,
}

impl From<AllocError> for StepFault {
    ghost from_gives = { λ _ e. e ≡ step_fault.Memory };

    fn from(_: AllocError) -> StepFault {
        StepFault::Memory
    }
}

impl<T: Drop> From<AllocFailed<T>> for StepFault {
    ghost from_gives = { λ _ e. e ≡ step_fault.Memory };

    fn from(_: AllocFailed<T>) -> StepFault {
        StepFault::Memory
    }
}
