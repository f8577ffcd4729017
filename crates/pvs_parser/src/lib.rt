//! Reads texts of the language: units, and expressions that stand in quotes.
#![tactic(auto)]

mod branches;
mod declarations;
mod descent;
mod failure;
mod fault;
mod formals;
mod grammar;
mod importings;
mod items;
mod lists;
mod names;
mod nesting;
mod operands;
mod parse;
mod prefixes;
mod proofs;
mod start;
mod tables;
mod terminal;
mod terms;
mod text;
mod theories;
mod tokens;
mod trees;
mod types;
mod units;

pub use failure::{ParseFault, Reason};
pub use grammar::{first_tokens, one_expression, one_unit, prefix_begins};
pub use nesting::Nesting;
pub use parse::{one_answer, one_span_answer, parse_expr, parse_unit};
pub use terminal::{Connective, Prefix, Terminal, TerminalKind};
