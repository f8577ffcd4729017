//! The rules of logic: the premises that a step on a sequent leaves.
#![tactic(auto)]

mod branches;
mod rule;
mod sound;
mod steps;

pub use rule::LogicRule;
pub use sound::step_keeps_truth;
pub use steps::step;
