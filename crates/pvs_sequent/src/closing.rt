//! Which formulas close a sequent, and which say nothing in it.

ghost use Rattle.std.specs.Prelude.{◌≡◌};
ghost use Rattle.std.specs.List.{list_any};
ghost use Rattle.pvs_terms.specs.Tree.{tree_eq};
ghost use Rattle.pvs_terms.specs.Stored.{AreNodes, IsNode, PartsIn, node_tree, tree_at};
ghost use Rattle.pvs_sequent.specs.Sequents.{is_redundant, shares};
ghost use Rattle.pvs_sequent.specs.Numbers.{all_at};

use crate::place::Side;
use crate::sides::Sides;
use pvs_terms::{Id, Node, Store};

/// Whether a formula says nothing on a side: TRUE as an antecedent, FALSE as a consequent.
pub fn is_redundant(store: &Store, side: Side, formula: Id) -> bool
    requires { IsNode store.now formula }
    ensures { result ≡ is_redundant side (tree_at store.now formula) }
{
    match side {
        Side::Antecedents => matches!(store.view(formula), Node::True),
        Side::Consequents => matches!(store.view(formula), Node::False),
    }
}

/// Whether some antecedent is the tree of a node.
pub fn is_antecedent(store: &Store, sides: &Sides, node: Node) -> bool
    requires antecedents { AreNodes store.now sides.now.antecedents }
    requires parts { PartsIn store.now node }
    ensures { result ≡ list_any (tree_eq (node_tree store.now node)) (all_at store.now sides.now.antecedents) }
{
    match store.id_of(node) {
        Some(id) => sides.is_antecedent(id),
        None => false,
    }
}

/// Whether some consequent is the tree of a node.
pub fn is_consequent(store: &Store, sides: &Sides, node: Node) -> bool
    requires consequents { AreNodes store.now sides.now.consequents }
    requires parts { PartsIn store.now node }
    ensures { result ≡ list_any (tree_eq (node_tree store.now node)) (all_at store.now sides.now.consequents) }
{
    match store.id_of(node) {
        Some(id) => sides.is_consequent(id),
        None => false,
    }
}

/// Whether some antecedent equals a consequent.
pub fn share(store: &Store, sides: &Sides) -> bool
    requires antecedents { AreNodes store.now sides.now.antecedents }
    requires consequents { AreNodes store.now sides.now.consequents }
    ensures { result ≡ shares (all_at store.now sides.now.antecedents) (all_at store.now sides.now.consequents) }
{
    store.one_node_per_tree();
    sides.share()
}
