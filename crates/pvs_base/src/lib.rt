//! What every layer of the checker shares: places in a text, the codes of faults, the limits of
//! the language, and a counter of steps.
#![tactic(auto)]

mod code;
mod limits;
mod place;
mod steps;

pub use code::{Code, Fault, code_name};
pub use limits::{
    MAX_CACHE, MAX_DEPTH, MAX_ENTRIES, MAX_INDEX, MAX_INPUT, MAX_INSTANCES, MAX_LEVEL, MAX_LIST,
    MAX_SIZE, MAX_TEXT, MAX_UNITS, MAX_VARIABLES,
};
pub use place::Pos;
pub use steps::{Steps, open_steps};

#[cfg(test)]
mod tests;
