//! Why a rule gives no premises.

ghost use Rattle.std.specs.Prelude.{◌≡◌};
ghost use Rattle.pvs_sequent.specs.declared.fault.RuleFault.TheVariants as rule_fault;

use pvs_base::Code;
use std::alloc::{AllocError, AllocFailed};

/// Why a rule gives no premises.
#[derive(Clone, Copy, Debug, PartialEq, Eq)]
pub enum RuleFault {
    /// The rule does not apply to the sequent; the code says why.
    Refused(Code),

    /// There is no memory.
    Memory,
}

impl From<AllocError> for RuleFault {
    ghost from_gives = { λ _ e. e ≡ rule_fault.Memory };

    fn from(_: AllocError) -> RuleFault {
        RuleFault::Memory
    }
}

impl<T: Drop> From<AllocFailed<T>> for RuleFault {
    ghost from_gives = { λ _ e. e ≡ rule_fault.Memory };

    fn from(_: AllocFailed<T>) -> RuleFault {
        RuleFault::Memory
    }
}
