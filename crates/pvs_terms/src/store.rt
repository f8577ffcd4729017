//! A store of nodes, names and references.

ghost use Rattle.std.specs.Prelude.{◌≡◌, ℕ, ◌<◌, ◌≤◌, [], length, IfOk, IfErr, OnErr, OnOk};

use crate::fault::MakeFault;
use crate::measure::Measure;
use crate::names::Names;
use crate::node::{Id, Name, Node, RefId};
use crate::nodes::Nodes;
use crate::refs::Refs;
use crate::shape::Shape;
use std::alloc::{AllocError, Global};
use std::marker::Model;

/// Nodes, names and references by number. A number stands for one tree, text or reference for
/// good.
#[derive(Drop)]
pub struct Store {
    pub(crate) names: Names,
    pub(crate) nodes: Nodes,
    pub(crate) refs: Refs,
    pub(crate) alloc: Global,
}

impl Model for Store {
    ghost use Rattle.pvs_terms.specs.Stored.{Stored};

    ghost Value = { Stored };

    ghost use Rattle.pvs_terms.specs.code.StoreView.{stored, IsSound};

    ghost view = { λ s. stored s.names s.nodes s.refs };

    ghost invariant = { λ s. IsSound s.names s.nodes s.refs };
}

impl Store {
    ghost use Rattle.std.specs.Prelude.{◌↔◌, ◌≢◌, IsTrue, IfSome, IfNone, Err, bytes_eq};
    ghost use Rattle.pvs_terms.specs.Tree.{depth, size, free_below, is_local, tree_eq, ref_eq, trees_eq, ref_actuals, AreClosed, IsWithinLimits, Const, Text};
    ghost use Rattle.pvs_terms.specs.Stored.{tree_at, ref_at, text_at, trees_at, IsNode, IsRef, IsName, AreNodes, AllBelow, KindIn, MayHave, HasParts, PartsIn};
    ghost use Rattle.pvs_terms.specs.Stored.{node_tree, ref_of, given_ref, Stands, StandsRef, StandsName, Extends};
    ghost use Rattle.pvs_terms.specs.code.Measures.{measure_of, ref_measure, trees_measure, above, beside, under, IsSmall};
    ghost use Rattle.pvs_terms.specs.code.Shapes.{shape_of};
    ghost use Rattle.pvs_terms.specs.Sorts.{HasSorts, IsSorted};

    /// A store without nodes, names and references.
    pub fn new(alloc: Global) -> Result<Store, AllocError>
        ensures { IfOk result (λ s. s ≡ record { names = []; nodes = []; refs = [] }) }
    {
        Ok(Store {
            names: Names::new(alloc),
            nodes: Nodes::new(alloc),
            refs: Refs::new(alloc),
            alloc,
        })
    }

    /// The allocator that the store takes its memory from.
    pub fn allocator(&self) -> Global {
        self.alloc
    }

    /// The name of this text.
    #[tactic(auto, unfolding(crate::specs::Stored::text_at))]
    pub fn name(&mut self, text: &str) -> Result<Name, AllocError>
        ensures ok { IfOk result (StandsName self.new text.now) }

        // Equal texts have equal names.
        ensures only { IfOk result (λ n. (m : ℕ) → IsName self.new m → text_at self.new m ≡ text.now → m ≡ n) }
        ensures kept { Extends self.old self.new }
        ensures err { OnErr result (self.new ≡ self.old) }
    {
        let number = self.names.number(self.alloc, text)?;
        Ok(Name::new(number))
    }

    /// The text of a name.
    #[tactic(auto, unfolding(crate::specs::Stored::text_at))]
    pub fn text(&self, name: Name) -> &str
        requires { IsName self.now name }
        ensures { result.now ≡ text_at self.now name }
    {
        self.names.text(name.number())
    }

    /// Whether the names have one text.
    #[tactic(auto, unfolding(crate::specs::Stored::text_at))]
    pub fn same_name(&self, a: Name, b: Name) -> bool
        requires first { IsName self.now a }
        requires second { IsName self.now b }
        ensures value { result ≡ bytes_eq (text_at self.now a) (text_at self.now b) }
        ensures equal { IsTrue result ↔ (text_at self.now a ≡ text_at self.now b) }
    {
        self.names.same(a.number(), b.number())
    }

    /// The node of this number.
    pub fn view(&self, id: Id) -> Node
        requires { IsNode self.now id }
        ensures tree { tree_at self.now id ≡ node_tree self.now result }

        // Its parts are older, and its tree is within the limits and has parts of the right sorts.
        ensures parts { HasParts id (length self.now.refs) (shape_of result) }
        ensures fits { IsWithinLimits (tree_at self.now id) }
        ensures sorted { IsSorted (tree_at self.now id) }
    {
        self.nodes.entry(id.number()).0
    }

    pub(crate) fn measure_at(&self, id: Id) -> Measure
        requires { IsNode self.now id }
        ensures value { result ≡ measure_of (tree_at self.now id) }
        ensures small { IsSmall result }
    {
        self.nodes.entry(id.number()).1
    }

    /// The depth of the tree. A leaf has depth 1.
    pub fn depth(&self, id: Id) -> u32
        requires { IsNode self.now id }
        ensures value { result ≡ depth (tree_at self.now id) }
        ensures small { result ≤ 1000 }
    {
        self.measure_at(id).depth
    }

    /// The size of the tree. A node counts once for each place where it stands, with types and
    /// actuals.
    pub fn size(&self, id: Id) -> u64
        requires { IsNode self.now id }
        ensures value { result ≡ size (tree_at self.now id) }
        ensures small { result ≤ 1000000 }
    {
        self.measure_at(id).size
    }

    /// The least number that every free index of the tree is below, 0 where the tree is closed.
    pub fn free_below(&self, id: Id) -> u64
        requires { IsNode self.now id }
        ensures { result ≡ free_below (tree_at self.now id) }
    {
        self.measure_at(id).free
    }

    /// Whether an own entry or a formal of the theory occurs in the tree, within actuals too.
    pub fn is_local(&self, id: Id) -> bool
        requires { IsNode self.now id }
        ensures { result ≡ is_local (tree_at self.now id) }
    {
        self.measure_at(id).local
    }

    fn ref_measure_at(&self, r: RefId) -> Measure
        requires { IsRef self.now r }
        ensures value { result ≡ ref_measure (ref_at self.now r) }
        ensures small { IsSmall result }
    {
        self.refs.entry(r.number()).1
    }

    fn around(&self, a: Id, b: Id) -> Measure
        requires first { IsNode self.now a }
        requires second { IsNode self.now b }
        ensures { result ≡ above (beside (measure_of (tree_at self.now a)) (measure_of (tree_at self.now b))) }
    {
        self.measure_at(a).beside(self.measure_at(b)).above()
    }

    fn around_bound(&self, a: Id, b: Id) -> Measure
        requires first { IsNode self.now a }
        requires second { IsNode self.now b }
        ensures { result ≡ above (beside (measure_of (tree_at self.now a)) (under (measure_of (tree_at self.now b)))) }
    {
        self.measure_at(a)
            .beside(self.measure_at(b).under())
            .above()
    }

    fn around_three(&self, a: Id, b: Id, c: Id) -> Measure
        requires first { IsNode self.now a }
        requires second { IsNode self.now b }
        requires third { IsNode self.now c }
        ensures { result ≡ above (beside (measure_of (tree_at self.now a)) (beside (measure_of (tree_at self.now b)) (measure_of (tree_at self.now c)))) }
    {
        let rest = self.measure_at(b).beside(self.measure_at(c));
        self.measure_at(a).beside(rest).above()
    }

    fn measure(&self, node: &Node) -> Measure
        requires { PartsIn self.now node.now }
        ensures { result ≡ measure_of (node_tree self.now node.now) }
    {
        match node.shape() {
            Shape::Leaf(_) => Measure::leaf(),
            Shape::Index(n) => Measure::variable(n),
            Shape::Name(_, r) => self.ref_measure_at(r).above(),
            Shape::Bind(_, a, b) => self.around_bound(a, b),
            Shape::Join(_, a, b) => self.around(a, b),
            Shape::Project(_, a) => self.measure_at(a).above(),
            Shape::Choose(a, b, c) => self.around_three(a, b, c),
        }
    }

    /// The number of a node, which stands for its tree. Its parts are nodes of the store, a type
    /// where a type stands and a term where a term stands, and its number of components is at
    /// least 2.
    pub fn make(&mut self, node: Node) -> Result<Id, MakeFault>
        requires parts { PartsIn self.old node }
        requires sorted { HasSorts (node_tree self.old node) }
        ensures ok { IfOk result (Stands self.new (node_tree self.old node)) }

        // Equal trees have equal numbers.
        ensures only { IfOk result (λ i. (j : ℕ) → IsNode self.new j → tree_at self.new j ≡ node_tree self.old node → j ≡ i) }
        ensures large { result ≡ Err MakeFault.TooLarge → ¬ IsWithinLimits (node_tree self.old node) }
        ensures kept { Extends self.old self.new }
        ensures err { OnErr result (self.new ≡ self.old) }
    {
        if let Some(at) = self.nodes.find(&node) {
            return Ok(Id::new(at));
        }
        let measure = self.measure(&node);
        if !measure.is_small() {
            return Err(MakeFault::TooLarge);
        }
        let at = self.nodes.push(node, measure)?;
        Ok(Id::new(at))
    }

    /// Equal trees have equal numbers.
    pub fn one_node_per_tree(&self)
        ensures { (i j : ℕ) → IsNode self.now i → IsNode self.now j → tree_at self.now i ≡ tree_at self.now j → i ≡ j }
    {
        let _nodes = &self.nodes;
    }

    /// Equal texts have equal names.
    #[tactic(auto, unfolding(crate::specs::Stored::text_at))]
    pub fn one_name_per_text(&self)
        ensures { (m n : ℕ) → IsName self.now m → IsName self.now n → text_at self.now m ≡ text_at self.now n → m ≡ n }
    {
        self.names.one_number_per_text();
    }

    /// Equal references have equal numbers.
    pub fn one_reference(&self)
        ensures { (r q : ℕ) → IsRef self.now r → IsRef self.now q → ref_at self.now r ≡ ref_at self.now q → r ≡ q }
    {
        let _refs = &self.refs;
    }
}
