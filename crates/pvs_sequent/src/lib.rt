//! Sequents of core trees by number: the formulas of each side, and what a rule does to one.
#![tactic(auto)]

mod closing;
mod counted;
mod fault;
mod list;
mod place;
mod premises;
mod sequent;
mod sides;

pub use fault::RuleFault;
pub use list::IdList;
pub use place::{Place, Side, place_of, side_of};
pub use premises::push_open;
pub use sequent::Sequent;
