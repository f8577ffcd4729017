//! Nodes by number, each once.

ghost use Rattle.std.specs.Prelude.{◌≡◌, ◌<◌, ℕ, [], ◌∷◌, ◌++◌, length, slice_get, slice_index_or, Some, None, IfOk, OnOk, OnErr, IfSome, IfNone};
ghost use Rattle.std.specs.Map.{keys_of};

use crate::measure::Measure;
use crate::node::Node;
use indexmap::IndexMap;
use std::alloc::{AllocFailed, Global};
use std::marker::Model;

/// Nodes in the order in which they came, each once, with the measures of their trees. Contracts
/// see the list of both.
#[derive(Drop)]
pub(crate) struct Nodes {
    entries: IndexMap<Node, Measure>,
}

impl Model for Nodes {
    ghost use Rattle.std.specs.Prelude.{List};
    ghost use Rattle.pvs_terms.specs.declared.node.Node.{Node};
    ghost use Rattle.pvs_terms.specs.declared.measure.Measure.{Measure};

    ghost Value = { List (Node × Measure) };

    ghost view = { λ n. n.entries.entries };
}

impl Nodes {
    pub(crate) fn new(alloc: Global) -> Nodes
        ensures { result ≡ [] }
    {
        Nodes {
            entries: IndexMap::new(alloc),
        }
    }

    /// The number of a node.
    pub(crate) fn find(&self, node: &Node) -> Option<u64>
        ensures some { IfSome result (λ i. slice_get (keys_of self.now) i ≡ Some node.now) }
        ensures none { IfNone result ((i : ℕ) → slice_get (keys_of self.now) i ≡ Some node.now → ⊥) }
    {
        match self.entries.get_index_of(node) {
            Some(at) => Some(at as u64),
            None => None,
        }
    }

    /// The node of a number, and the measure of its tree.
    pub(crate) fn entry(&self, number: u64) -> (Node, Measure)
        requires { number < length self.now }
        ensures { result ≡ slice_index_or self.now number result }
    {
        let at = number as usize;
        (
            self.entries.keys().as_slice()[at],
            self.entries.values().as_slice()[at],
        )
    }

    /// Adds a node that is not there. The answer is its number.
    pub(crate) fn push(
        &mut self,
        node: Node,
        measure: Measure,
    ) -> Result<u64, AllocFailed<(Node, Measure)>>
        requires { (i : ℕ) → slice_get (keys_of self.old) i ≡ Some node → ⊥ }
        ensures ok { OnOk result (self.new ≡ self.old ++ (node, measure) ∷ []) }
        ensures number { IfOk result (λ i. i ≡ length self.old) }
        ensures err { OnErr result (self.new ≡ self.old) }
    {
        let number = self.entries.len() as u64;
        self.entries.insert(node, measure)?;
        Ok(number)
    }
}
