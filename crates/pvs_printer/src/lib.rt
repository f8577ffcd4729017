//! The printed text of terms and types.
#![tactic(auto)]

mod expand;
mod printing;
mod row;
mod row_tasks;
mod shapes;
mod tasks;
mod words;
mod writing;

pub use printing::{print_term, print_type};
pub use words::{BinderWord, InfixWord, Sign};
