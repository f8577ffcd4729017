//! Whether two numbers stand for one tree or one reference.

ghost use Rattle.std.specs.Prelude.{◌≡◌, ◌↔◌, IsTrue, length};

use crate::node::{Id, RefId};
use crate::store::Store;

impl Store {
    ghost use Rattle.pvs_terms.specs.Tree.{tree_eq, ref_eq};
    ghost use Rattle.pvs_terms.specs.Stored.{tree_at, ref_at, IsNode, IsRef};

    /// Whether the references are equal. Equal references have equal numbers.
    pub fn same_reference(&self, r: RefId, q: RefId) -> bool
        requires first { IsRef self.now r }
        requires second { IsRef self.now q }
        ensures value { result ≡ ref_eq (ref_at self.now r) (ref_at self.now q) }
        ensures equal { IsTrue result ↔ (ref_at self.now r ≡ ref_at self.now q) }
    {
        let _refs = &self.refs;
        let equal = r == q;
        equal
    }

    /// Whether the numbers stand for one tree. Equal trees have equal numbers.
    pub fn same(&self, a: Id, b: Id) -> bool
        requires first { IsNode self.now a }
        requires second { IsNode self.now b }
        ensures value { result ≡ tree_eq (tree_at self.now a) (tree_at self.now b) }
        ensures equal { IsTrue result ↔ (tree_at self.now a ≡ tree_at self.now b) }
    {
        let _nodes = &self.nodes;
        let equal = a == b;
        equal
    }
}
