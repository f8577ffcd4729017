//! Replacement in core trees: lifting, substitution and instances.
#![tactic(auto)]

mod context;
mod fault;
mod instances;
mod laws;
mod lifting;
mod memo;
mod putting;

pub use context::{Assumed, Condition, Context};
pub use fault::SubstFault;
pub use instances::instantiate_node;
pub use laws::replacement_laws;
pub use lifting::lift;
pub use putting::put_in;

#[cfg(test)]
mod tests;
