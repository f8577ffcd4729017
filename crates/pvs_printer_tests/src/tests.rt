//! Texts by subject: names, connectives, tuples and types, variables under binders, and lines.

mod binders;
mod connectives;
mod lines;
mod names;
mod tuples;

use crate::fault::TreeFault;
use crate::trees::Trees;
use pvs_terms::Id;

/// Whether a term has this text.
fn is_term_text(trees: &Trees, id: Id, wanted: &[u8]) -> Result<bool, TreeFault> {
    let text = trees.term_text(id, 2)?;
    Ok(text.as_slice() == wanted)
}

/// Whether a type has this text.
fn is_type_text(trees: &Trees, id: Id, wanted: &[u8]) -> Result<bool, TreeFault> {
    let text = trees.type_text(id, 2)?;
    Ok(text.as_slice() == wanted)
}
