//! Elaboration over numbered trees: the calls that compute what `pvs_elab` defines.
#![tactic(auto)]

mod apply;
mod ask;
mod binder;
mod choice;
mod equal;
mod fault;
mod frame;
mod here;
mod join;
mod lets;
mod listing;
mod machine;
mod making;
mod names;
mod outermost;
mod parts;
mod scope;
mod several;
mod steps;
mod subtypes;
mod tuples;
mod value;

pub use fault::ElabFault;
pub use here::{Here, Local, Typed};
pub use outermost::{Wanted, elaborate, elaborate_under_names, elaborate_under_parameters};
pub use scope::Scope;
pub use value::{Mode, Value};
