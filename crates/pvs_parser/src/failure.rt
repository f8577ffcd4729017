//! Why no tree was made.

ghost use Rattle.std.specs.Prelude.{◌≡◌};
ghost use Rattle.pvs_parser.specs.declared.failure.Failure.TheVariants.{Memory};
ghost use Rattle.pvs_parser.specs.declared.failure.ParseFault.TheVariants as parse_fault;

use pvs_base::Fault;
use std::alloc::{AllocError, AllocFailed};

/// Why reading stopped at a token.
#[derive(Clone, Copy, Debug, PartialEq, Eq)]
pub enum Reason {
    /// Nothing of the grammar goes on with the token, or with the end of the tokens.
    Unexpected,

    /// The token passes the level or the number of entries that a text may have.
    TooNested,

    /// The token is an identifier in the place of the name of the theory, and another one.
    WrongEnd,
}

/// Where reading stopped, and why: so many tokens are left, with the one where it stopped.
#[derive(Clone, Copy, Debug, PartialEq, Eq)]
pub struct Stop {
    pub left: usize,
    pub reason: Reason,
}

/// Why a part of a text gave no tree.
#[derive(Debug, Drop)]
pub enum Failure {
    Memory,

    /// The tokens are not in the grammar.
    At(Stop),
}

impl From<AllocError> for Failure {
    ghost from_gives = { λ _ e. e ≡ Memory };

    fn from(_: AllocError) -> Failure {
        Failure::Memory
    }
}

impl<T: Drop> From<AllocFailed<T>> for Failure {
    ghost from_gives = { λ _ e. e ≡ Memory };

    fn from(_: AllocFailed<T>) -> Failure {
        Failure::Memory
    }
}

/// Why a text or a span of one gave no tree.
#[derive(Debug, Drop)]
pub enum ParseFault {
    /// The first fault.
    At(Fault),

    /// Memory ran out.
    Memory,
}

impl From<AllocError> for ParseFault {
    ghost from_gives = { λ _ e. e ≡ parse_fault.Memory };

    fn from(_: AllocError) -> ParseFault {
        ParseFault::Memory
    }
}
