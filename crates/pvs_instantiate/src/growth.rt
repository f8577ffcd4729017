//! What a theory grows by.

use pvs_sig::{Entry, FormalSig, Import};

/// What a theory grows by, at its end.
#[derive(Drop)]
pub(crate) enum Growth {
    Formal(FormalSig),
    Entry(Entry),
    Import(Import),
}
