//! The nodes of known trees.

ghost use Rattle.std.specs.Prelude.{◌≡◌};
ghost use Rattle.pvs_terms.specs.Tree.{IsWithinLimits, tree_eq};
ghost use Rattle.pvs_terms.specs.Stored.{IsNode, tree_at, node_tree};
ghost use Rattle.pvs_terms.specs.Sorts.{IsSorted};
ghost use Rattle.pvs_typing.specs.Growth.{EachName};
ghost use Rattle.pvs_typing.specs.Nodes.{HasKnownParts};

use crate::theories::Theories;
use pvs_terms::{Id, Name, Node};

/// The node of a known tree. Its parts are known as well, each of the sort that its place needs.
pub(crate) fn known_node<T: Theories>(theories: &T, _theory: Name, id: Id) -> Node
    requires node { IsNode (T.state theories.now).stored id }
    requires names { EachName ((T.state theories.now).declares _theory) (tree_at (T.state theories.now).stored id) }
    ensures tree { tree_at (T.state theories.now).stored id ≡ node_tree (T.state theories.now).stored result }
    ensures parts { HasKnownParts (T.state theories.now).stored ((T.state theories.now).declares _theory) result }
    ensures fits { IsWithinLimits (tree_at (T.state theories.now).stored id) }
    ensures sorted { IsSorted (tree_at (T.state theories.now).stored id) }
{
    theories.store().view(id)
}

/// Whether two numbers stand for the same tree.
pub(crate) fn is_same<T: Theories>(theories: &T, a: Id, b: Id) -> bool
    requires first { IsNode (T.state theories.now).stored a }
    requires second { IsNode (T.state theories.now).stored b }
    ensures { result ≡ tree_eq (tree_at (T.state theories.now).stored a) (tree_at (T.state theories.now).stored b) }
{
    theories.store().one_node_per_tree();
    a == b
}
