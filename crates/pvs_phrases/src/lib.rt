//! Surface trees as phrases, one layer at a time.
//!
//! `pvs_elab` defines elaboration by phrases: what a text says once its abbreviations are written
//! out. Here a phrase is not built in memory. A `Part` stands for one, and `layer_of` gives its
//! outermost form, with parts for the phrases in it.
#![tactic(auto)]

mod bindings;
mod expressions;
mod layer;
mod layers;
mod list;
mod part;
mod places;
mod types;
mod words;

pub use layer::{Binary, Layer, Nullary, Ternary, Unary};
pub use layers::layer_of;
pub use part::{Part, Place};
pub use places::{place_of, resolve, start_of};
pub use words::projection_number;
