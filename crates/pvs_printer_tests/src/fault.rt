//! Why a test has no tree.

use pvs_terms::MakeFault;
use std::alloc::{AllocError, AllocFailed};

/// Why a test has no tree or no text.
#[derive(Debug, Drop, PartialEq, Eq)]
pub enum TreeFault {
    /// A part was not made before, or an actual is not closed.
    NotMade,
    /// The tree passes a limit.
    TooLarge,
    /// Out of memory.
    Memory,
}

impl From<MakeFault> for TreeFault {
    fn from(fault: MakeFault) -> TreeFault {
        match fault {
            MakeFault::TooLarge => TreeFault::TooLarge,
            MakeFault::Memory => TreeFault::Memory,
        }
    }
}

impl From<AllocError> for TreeFault {
    fn from(_: AllocError) -> TreeFault {
        TreeFault::Memory
    }
}

impl<T: Drop> From<AllocFailed<T>> for TreeFault {
    fn from(_: AllocFailed<T>) -> TreeFault {
        TreeFault::Memory
    }
}
