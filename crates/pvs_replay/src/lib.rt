//! Replays scripts on sequents, over what one step does.
#![tactic(auto)]

mod effect;
mod fault;
mod logic;
mod outcome;
mod replaying;
mod sound;

pub use effect::{Effect, Rules};
pub use fault::StepFault;
pub use logic::LogicRules;
pub use outcome::Outcome;
pub use replaying::replay;
pub use sound::{logic_keeps_truth, replay_keeps_truth};
