//! Whether a variable occurs in a tree.

ghost use Rattle.std.specs.Prelude.{◌≡◌, ◌+◌, ◌<◌, ◌^◌};
ghost use Rattle.pvs_terms.specs.Tree.{depth};
ghost use Rattle.pvs_terms.specs.Stored.{IsNode, tree_at};
ghost use Rattle.pvs_types.specs.Forms.{mentions};

use pvs_terms::{Id, Shape, Store};

/// Whether the variable of this index occurs in the tree. A part whose free indices are all below it
/// is not walked.
#[tactic(auto, using(crate::proofs::MentionLaws::not_mentioned))]
pub(crate) fn mentions(store: &Store, index: u64, id: Id) -> bool
    requires node { IsNode store.now id }
    requires room { index + depth (tree_at store.now id) < 2 ^ 34 }
    ensures { result ≡ mentions index (tree_at store.now id) }
{
    let node = store.view(id);
    if store.free_below(id) <= index {
        return false;
    }
    match node.shape() {
        Shape::Leaf(_) | Shape::Name(_, _) => false,
        Shape::Index(n) => u64::from(n) == index,
        Shape::Bind(_, a, b) => mentions(store, index, a) || mentions(store, index + 1, b),
        Shape::Join(_, a, b) => mentions(store, index, a) || mentions(store, index, b),
        Shape::Project(_, a) => mentions(store, index, a),
        Shape::Choose(a, b, c) => {
            mentions(store, index, a) || mentions(store, index, b) || mentions(store, index, c)
        }
    }
}
