//! Why a tree of an instance, or a scope, is not given.

use pvs_subst::SubstFault;
use std::alloc::AllocError;

/// Why a tree of an instance, or a scope, is not given.
#[derive(Debug, Drop, PartialEq, Eq)]
pub enum InstFault {
    /// The tree, with the actuals in place of the formals, passes a limit of depth, of size or of
    /// indices.
    TooLarge,
    /// More than 4,096 instances are visible.
    TooManyInstances,
    /// Out of memory.
    Memory,
}

impl From<SubstFault> for InstFault {
    ghost use Rattle.std.specs.Prelude.{◌≡◌};
    ghost use Rattle.pvs_instantiate.specs.Faults.{fault_of};

    ghost from_gives = { λ f e. e ≡ fault_of f };

    fn from(fault: SubstFault) -> InstFault {
        match fault {
            SubstFault::TooLarge => InstFault::TooLarge,
            SubstFault::Memory => InstFault::Memory,
        }
    }
}

impl From<AllocError> for InstFault {
    ghost use Rattle.std.specs.Prelude.{◌≡◌};
    ghost use Rattle.pvs_instantiate.specs.declared.fault.InstFault.TheVariants.{Memory};

    ghost from_gives = { λ _ e. e ≡ Memory };

    fn from(_: AllocError) -> InstFault {
        InstFault::Memory
    }
}
