//! The number of a node that stands in a store.

ghost use Rattle.std.specs.Prelude.{◌≡◌, ℕ};

use crate::node::{Id, Node};
use crate::store::Store;

impl Store {
    ghost use Rattle.std.specs.Prelude.{IfSome, IfNone};
    ghost use Rattle.pvs_terms.specs.Stored.{tree_at, node_tree, IsNode, PartsIn, Stands};

    /// The number of a node, or None where no node stands for its tree. Its parts are nodes of the
    /// store. This takes no memory.
    pub fn id_of(&self, node: Node) -> Option<Id>
        requires { PartsIn self.now node }
        ensures some { IfSome result (Stands self.now (node_tree self.now node)) }

        // Equal trees have equal numbers.
        ensures only { IfSome result (λ i. (j : ℕ) → IsNode self.now j → tree_at self.now j ≡ node_tree self.now node → j ≡ i) }
        ensures none { IfNone result ((j : ℕ) → IsNode self.now j → tree_at self.now j ≡ node_tree self.now node → ⊥) }
    {
        match self.nodes.find(&node) {
            Some(at) => Some(Id::new(at)),
            None => None,
        }
    }
}
