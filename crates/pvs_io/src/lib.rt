//! The checker's input and output: a source of bytes, a sink for bytes, and files by name. Each is
//! a trait, with an implementation in memory, and those of the source and the sink over the
//! standard streams.
#![tactic(auto)]

mod files;
mod memory;
mod sink;
mod source;
mod standard;

pub use files::{Files, Load};
pub use memory::{MemFiles, MemSink, MemSource};
pub use sink::{Gave, Sink};
pub use source::{Source, Took};
pub use standard::{StdSink, StdSource};

#[cfg(test)]
mod tests;
