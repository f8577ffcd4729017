//! What a name is qualified by.

use pvs_terms::Id;

/// What a name is qualified by: a theory, as in `th.x`, or an instance of it, as in `th[a].x`.
#[derive(Clone, Copy)]
pub struct Qualifier<'a> {
    pub theory: &'a str,
    pub actuals: Option<&'a [Id]>,
}
