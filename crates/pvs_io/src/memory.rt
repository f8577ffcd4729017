//! A source, a sink and files in memory. They expose their contents to contracts, and fail only
//! where they are made to.

mod files;
mod sink;
mod source;

pub use files::MemFiles;
pub use sink::MemSink;
pub use source::MemSource;
