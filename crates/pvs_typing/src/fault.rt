//! Why typing gives no answer.

use pvs_base::Code;
use pvs_subst::SubstFault;
use pvs_terms::MakeFault;
use std::alloc::{AllocError, AllocFailed};

/// Why typing gives no answer.
#[derive(Clone, Copy, Debug, PartialEq, Eq)]
pub enum TypeFault {
    /// The tree is refused; the code says why.
    Refused(Code),
    /// Out of memory, or of the stack for nested types.
    Memory,
}

impl From<MakeFault> for TypeFault {
    ghost use Rattle.std.specs.Prelude.{◌≡◌};
    ghost use Rattle.pvs_typing.specs.Answers.{of_make};

    ghost from_gives = { λ f e. e ≡ of_make f };

    fn from(fault: MakeFault) -> TypeFault {
        match fault {
            MakeFault::TooLarge => TypeFault::Refused(Code::TooLarge),
            MakeFault::Memory => TypeFault::Memory,
        }
    }
}

impl From<SubstFault> for TypeFault {
    ghost use Rattle.std.specs.Prelude.{◌≡◌};
    ghost use Rattle.pvs_typing.specs.Answers.{of_subst};

    ghost from_gives = { λ f e. e ≡ of_subst f };

    fn from(fault: SubstFault) -> TypeFault {
        match fault {
            SubstFault::TooLarge => TypeFault::Refused(Code::TooLarge),
            SubstFault::Memory => TypeFault::Memory,
        }
    }
}

impl From<AllocError> for TypeFault {
    ghost use Rattle.std.specs.Prelude.{◌≡◌};
    ghost use Rattle.pvs_typing.specs.declared.fault.TypeFault.TheVariants.{Memory};

    ghost from_gives = { λ _ e. e ≡ Memory };

    fn from(_: AllocError) -> TypeFault {
        TypeFault::Memory
    }
}

impl<T: Drop> From<AllocFailed<T>> for TypeFault {
    ghost use Rattle.std.specs.Prelude.{◌≡◌};
    ghost use Rattle.pvs_typing.specs.declared.fault.TypeFault.TheVariants.{Memory};

    ghost from_gives = { λ _ e. e ≡ Memory };

    fn from(_: AllocFailed<T>) -> TypeFault {
        TypeFault::Memory
    }
}
