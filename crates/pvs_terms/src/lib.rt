//! Core trees by number: a store of nodes, names and references.
#![tactic(auto)]

mod compare;
mod fault;
mod lookup;
mod measure;
mod names;
mod node;
mod nodes;
mod reference;
mod refs;
mod shape;
mod store;

pub use fault::MakeFault;
pub use node::{Id, Name, Node, RefId, RefKind};
pub use shape::{Binder, Joint, Plain, Projection, Shape, Sort};
pub use store::Store;

#[cfg(test)]
mod tests;
