//! Lines that show trees: the line of a condition in a report, and the lines of a sequent.
#![tactic(auto)]

mod lines;
mod sequent;
mod text;

pub use lines::put_term_line;
pub use sequent::put_sequent;
