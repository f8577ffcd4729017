//! Why a span has no script.

ghost use Rattle.std.specs.Prelude.{◌≡◌};
ghost use Rattle.pvs_script.specs.declared.fault.ScriptFault.TheVariants.{Memory};

use pvs_base::Fault;
use std::alloc::{AllocError, AllocFailed};

/// Why a span gave no script.
#[derive(Debug, Drop)]
pub enum ScriptFault {
    /// The first fault of the span: BadByte or UnclosedQuote of a token, OutOfProfile or
    /// TooNested.
    At(Fault),
    Memory,
}

impl From<AllocError> for ScriptFault {
    ghost from_gives = { λ _ e. e ≡ Memory };

    fn from(_: AllocError) -> ScriptFault {
        ScriptFault::Memory
    }
}

impl<T: Drop> From<AllocFailed<T>> for ScriptFault {
    ghost from_gives = { λ _ e. e ≡ Memory };

    fn from(_: AllocFailed<T>) -> ScriptFault {
        ScriptFault::Memory
    }
}
