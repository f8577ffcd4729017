//! Typing of core trees by number: the forms of types, and coercion between types.
#![tactic(auto)]

mod coercion;
mod contexts;
mod development;
mod fault;
mod forms;
mod general;
mod judged;
mod judging;
mod mentions;
mod nodes;
mod parts;
mod rows;
mod steps;
mod symbols;
mod tasks;
mod theories;
mod typing;

pub use coercion::coerce;
pub use development::development_laws;
pub use fault::TypeFault;
pub use forms::{head, up};
pub use general::most;
pub use judged::Judged;
pub use judging::{check, infer, is_forall, well_formed};
pub use theories::Theories;
