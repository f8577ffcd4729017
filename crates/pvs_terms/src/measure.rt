//! How large a tree is.

ghost use Rattle.std.specs.Prelude.{◌≡◌, ◌+◌, ◌≤◌, ◌↔◌, ℕ, Bool, IsTrue, max};

use pvs_base::{MAX_DEPTH, MAX_INDEX, MAX_SIZE};

/// How large a tree is, which is kept beside each node.
#[derive(Clone, Copy, Debug, PartialEq, Eq)]
pub(crate) struct Measure {
    /// The depth. A leaf has depth 1.
    pub(crate) depth: u32,
    /// The size. A node counts once for each place where it stands.
    pub(crate) size: u64,
    /// The greatest index of a variable, or 0.
    pub(crate) top: u32,
    /// The least number that every free index is below.
    pub(crate) free: u64,
    /// Whether an own entry or a formal of the theory occurs.
    pub(crate) local: bool,
}

impl Measure {
    ghost use Rattle.pvs_terms.specs.code.Measures.{no_trees, leaf, variable, above, beside, under, of_ref, IsSmall, IsRoomy};

    /// The measure of no trees at all.
    pub(crate) fn none() -> Measure
        ensures { result ≡ no_trees }
    {
        Measure {
            depth: 0,
            size: 0,
            top: 0,
            free: 0,
            local: false,
        }
    }

    /// The measure of a node without parts.
    pub(crate) fn leaf() -> Measure
        ensures { result ≡ leaf }
    {
        Measure {
            depth: 1,
            size: 1,
            top: 0,
            free: 0,
            local: false,
        }
    }

    /// The measure of a variable.
    pub(crate) fn variable(index: u32) -> Measure
        ensures { result ≡ variable index }
    {
        Measure {
            depth: 1,
            size: 1,
            top: index,
            free: u64::from(index) + 1,
            local: false,
        }
    }

    /// The measure of a node on a part of this measure.
    pub(crate) fn above(self) -> Measure
        requires deep { self.depth ≤ 1000 }
        requires large { self.size ≤ 10000000 }
        ensures { result ≡ above self }
    {
        Measure {
            depth: 1 + self.depth,
            size: 1 + self.size,
            top: self.top,
            free: self.free,
            local: self.local,
        }
    }

    /// The measure of two parts.
    pub(crate) fn beside(self, other: Measure) -> Measure
        requires left { self.size ≤ 1000000 }
        requires right { other.size ≤ 5000000 }
        ensures { result ≡ beside self other }
    {
        Measure {
            depth: self.depth.max(other.depth),
            size: self.size + other.size,
            top: self.top.max(other.top),
            free: self.free.max(other.free),
            local: self.local || other.local,
        }
    }

    /// The measure of a part that a binder stands above.
    pub(crate) fn under(self) -> Measure
        ensures { result ≡ under self }
    {
        Measure {
            depth: self.depth,
            size: self.size,
            top: self.top,
            free: self.free.saturating_sub(1),
            local: self.local,
        }
    }

    /// The measure of a reference whose actuals have this measure, or that has none and is local.
    pub(crate) fn of_ref(self, local: bool) -> Measure
        ensures { result ≡ of_ref self local }
    {
        Measure {
            depth: self.depth,
            size: self.size,
            top: self.top,
            free: 0,
            local: local || self.local,
        }
    }

    /// Whether a tree of this measure is within the limits.
    pub(crate) fn is_small(self) -> bool
        ensures { IsTrue result ↔ IsSmall self }
    {
        self.depth <= MAX_DEPTH && self.size <= MAX_SIZE && self.top <= MAX_INDEX
    }

    /// Whether a node on parts of this measure is within the limits.
    pub(crate) fn is_roomy(self) -> bool
        ensures { IsTrue result ↔ IsRoomy self }
    {
        self.depth < MAX_DEPTH && self.size < MAX_SIZE && self.top <= MAX_INDEX
    }
}
