//! The lines of a report, their bytes, and the totals that end it.
#![tactic(auto)]

mod line;
mod put;
mod totals;

pub use line::{Line, LineName, LineWord, What};
pub use put::put_report;
pub use totals::{Totals, count_lines};

#[cfg(test)]
mod tests;
