//! Keys of kept values.

use pvs_terms::RefId;

/// Which tree of a reference is kept.
#[derive(Clone, Copy, Debug, PartialEq, Eq, Hash)]
pub enum Part {
    TypeOf,
    BodyOf,
    FormulaOf,
}

/// The key of a kept value: the stamp of the theory in whose terms the reference is written, the
/// part, and the reference with its actuals.
#[derive(Clone, Copy, Debug, PartialEq, Eq, Hash)]
pub struct JudgeKey {
    pub stamp: u64,
    pub part: Part,
    pub item: RefId,
}
