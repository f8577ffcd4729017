//! Instances of a theory.

ghost use Rattle.std.specs.Prelude.{◌≡◌, ℕ, ◌+◌, ◌<◌, ◌≤◌, List, [], length, IfOk, OnOk, Err};
ghost use Rattle.pvs_terms.specs.Tree.{depth, IsWithinLimits, AreClosed, ref_actuals, trees_length};
ghost use Rattle.pvs_terms.specs.Tree as tree;
ghost use Rattle.pvs_terms.specs.Stored.{IsNode, IsRef, IsName, AreNodes, ShapeIn, tree_at, ref_at, trees_at, text_at, shape_tree, Stands, StandsAs, Extends};
ghost use Rattle.pvs_subst.specs.Instance.{instantiate, instantiate_all, HasActuals, AllHaveActuals, AreWithinLimits};
ghost use Rattle.pvs_terms.specs.Sorts.{HasSorts};
ghost use Rattle.pvs_subst.specs.code.Compound.{IsNoName};
ghost use Rattle.pvs_subst.specs.Instances.{IsInstance};
ghost use Rattle.pvs_subst.specs.code.Memo.{instances, Remembers};

use crate::fault::SubstFault;
use crate::memo::Memo;
use pvs_terms::{Id, Name, Node, RefId, RefKind, Shape, Sort, Store};
use smallvec::SmallVec;

/// The node of a reference, as a type's or a term's name.
fn named(store: &mut Store, sort: Sort, r: RefId) -> Result<Id, SubstFault>
    requires { IsRef store.old r }
    ensures ok { IfOk result (Stands store.new (tree.Name sort (ref_at store.old r))) }
    ensures large { result ≡ Err SubstFault.TooLarge → ¬ IsWithinLimits (tree.Name sort (ref_at store.old r)) }
    ensures kept { Extends store.old store.new }
{
    let made = store.make(Shape::Name(sort, r).node())?;
    Ok(made)
}

/// A tree of the theory in its instance with these actuals. A part without own entries and
/// formals is handed back as it is, and a part that was met before is not treated again. Binders
/// above a part change nothing, so the depth is 0 for each.
#[cycle(instantiate)]
fn instantiate_tree(
    store: &mut Store,
    memo: &mut Memo,
    id: Id,
    theory: Name,
    actuals: &[Id],
) -> Result<Id, SubstFault>
    requires node { IsNode store.old id }
    requires instance { IsInstance store.old theory actuals.now }
    requires formals { HasActuals (trees_at store.old actuals.now) (tree_at store.old id) }
    requires remembered { Remembers store.old (instances (text_at store.old theory) (trees_at store.old actuals.now)) memo.old }
    ensures ok { IfOk result (Stands store.new (instantiate (tree_at store.old id) (text_at store.old theory) (trees_at store.old actuals.now))) }
    ensures large { result ≡ Err SubstFault.TooLarge → ¬ IsWithinLimits (instantiate (tree_at store.old id) (text_at store.old theory) (trees_at store.old actuals.now)) }
    ensures kept { Extends store.old store.new }
    ensures remembered { OnOk result (Remembers store.new (instances (text_at store.new theory) (trees_at store.new actuals.now)) memo.new) }
{
    let node = store.view(id);
    if !store.is_local(id) {
        return Ok(id);
    }
    if let Some(made) = memo.get(id, 0) {
        return Ok(made);
    }
    let made = instantiate_whole(store, memo, node.shape(), theory, actuals)?;
    memo.put(id, 0, made)?;
    Ok(made)
}

/// The node of this shape in the instance.
#[cycle(instantiate)]
fn instantiate_whole(
    store: &mut Store,
    memo: &mut Memo,
    shape: Shape,
    theory: Name,
    actuals: &[Id],
) -> Result<Id, SubstFault>
    requires parts { ShapeIn store.old shape }
    requires instance { IsInstance store.old theory actuals.now }
    requires formals { HasActuals (trees_at store.old actuals.now) (shape_tree store.old shape) }
    requires sorted { HasSorts (shape_tree store.old shape) }
    requires remembered { Remembers store.old (instances (text_at store.old theory) (trees_at store.old actuals.now)) memo.old }
    ensures ok { IfOk result (Stands store.new (instantiate (shape_tree store.old shape) (text_at store.old theory) (trees_at store.old actuals.now))) }
    ensures large { result ≡ Err SubstFault.TooLarge → ¬ IsWithinLimits (instantiate (shape_tree store.old shape) (text_at store.old theory) (trees_at store.old actuals.now)) }
    ensures kept { Extends store.old store.new }
    ensures remembered { OnOk result (Remembers store.new (instances (text_at store.new theory) (trees_at store.new actuals.now)) memo.new) }
{
    match shape {
        Shape::Name(sort, r) => instantiate_name(store, memo, sort, r, theory, actuals),
        shape => {
            let parts = instantiate_parts(store, memo, shape, theory, actuals)?;
            let made = store.make(parts.node())?;
            Ok(made)
        }
    }
}

/// A name of the theory in the instance.
#[cycle(instantiate)]
fn instantiate_name(
    store: &mut Store,
    memo: &mut Memo,
    sort: Sort,
    r: RefId,
    theory: Name,
    actuals: &[Id],
) -> Result<Id, SubstFault>
    requires known { IsRef store.old r }
    requires instance { IsInstance store.old theory actuals.now }
    requires formals { HasActuals (trees_at store.old actuals.now) (tree.Name sort (ref_at store.old r)) }
    requires remembered { Remembers store.old (instances (text_at store.old theory) (trees_at store.old actuals.now)) memo.old }
    ensures ok { IfOk result (Stands store.new (instantiate (tree.Name sort (ref_at store.old r)) (text_at store.old theory) (trees_at store.old actuals.now))) }
    ensures large { result ≡ Err SubstFault.TooLarge → ¬ IsWithinLimits (instantiate (tree.Name sort (ref_at store.old r)) (text_at store.old theory) (trees_at store.old actuals.now)) }
    ensures kept { Extends store.old store.new }
    ensures remembered { OnOk result (Remembers store.new (instances (text_at store.new theory) (trees_at store.new actuals.now)) memo.new) }
{
    match store.kind(r) {
        RefKind::Own(n) => {
            let entry = store.reference(RefKind::Inst(theory, n), actuals)?;
            let made = named(store, sort, entry)?;
            Ok(made)
        }
        RefKind::Formal(n) => {
            let actual = actuals[n as usize];
            let _node = store.view(actual);
            Ok(actual)
        }
        RefKind::Inst(other, n) => {
            let inner = SmallVec::<Id, 4>::from_slice(store.allocator(), store.actuals(r))?;
            let replaced = instantiate_list(store, memo, inner.as_slice(), theory, actuals)?;
            let entry = store.reference(RefKind::Inst(other, n), replaced.as_slice())?;
            let made = named(store, sort, entry)?;
            Ok(made)
        }
    }
}

/// A list of trees of the theory in the instance.
#[cycle(instantiate)]
fn instantiate_list(
    store: &mut Store,
    memo: &mut Memo,
    ids: &[Id],
    theory: Name,
    actuals: &[Id],
) -> Result<Vec<Id>, SubstFault>
    requires nodes { AreNodes store.old ids.now }
    requires instance { IsInstance store.old theory actuals.now }
    requires formals { AllHaveActuals (trees_at store.old actuals.now) (trees_at store.old ids.now) }
    requires remembered { Remembers store.old (instances (text_at store.old theory) (trees_at store.old actuals.now)) memo.old }
    ensures nodes { IfOk result (λ v. AreNodes store.new v.items) }
    ensures ok { IfOk result (λ v. trees_at store.new v.items ≡ instantiate_all (trees_at store.old ids.now) (text_at store.old theory) (trees_at store.old actuals.now)) }
    ensures large { result ≡ Err SubstFault.TooLarge → ¬ AreWithinLimits (instantiate_all (trees_at store.old ids.now) (text_at store.old theory) (trees_at store.old actuals.now)) }
    ensures kept { Extends store.old store.new }
    ensures remembered { OnOk result (Remembers store.new (instances (text_at store.new theory) (trees_at store.new actuals.now)) memo.new) }
{
    match ids.split_first() {
        None => Ok(Vec::new(store.allocator())),
        Some((first, rest)) => {
            let made = instantiate_tree(store, memo, *first, theory, actuals)?;
            let mut list = instantiate_list(store, memo, rest, theory, actuals)?;
            list.insert(0, made)?;
            Ok(list)
        }
    }
}

/// Two trees of the theory in the instance.
#[cycle(instantiate)]
fn instantiate_both(
    store: &mut Store,
    memo: &mut Memo,
    a: Id,
    b: Id,
    theory: Name,
    actuals: &[Id],
) -> Result<(Id, Id), SubstFault>
    requires first { IsNode store.old a }
    requires second { IsNode store.old b }
    requires instance { IsInstance store.old theory actuals.now }
    requires formals { HasActuals (trees_at store.old actuals.now) (tree_at store.old a) }
    requires more_formals { HasActuals (trees_at store.old actuals.now) (tree_at store.old b) }
    requires remembered { Remembers store.old (instances (text_at store.old theory) (trees_at store.old actuals.now)) memo.old }
    ensures first { IfOk result (λ p. Stands store.new (instantiate (tree_at store.old a) (text_at store.old theory) (trees_at store.old actuals.now)) p.0) }
    ensures second { IfOk result (λ p. Stands store.new (instantiate (tree_at store.old b) (text_at store.old theory) (trees_at store.old actuals.now)) p.1) }
    ensures large { result ≡ Err SubstFault.TooLarge → IsWithinLimits (instantiate (tree_at store.old a) (text_at store.old theory) (trees_at store.old actuals.now)) → ¬ IsWithinLimits (instantiate (tree_at store.old b) (text_at store.old theory) (trees_at store.old actuals.now)) }
    ensures kept { Extends store.old store.new }
    ensures remembered { OnOk result (Remembers store.new (instances (text_at store.new theory) (trees_at store.new actuals.now)) memo.new) }
{
    let first = instantiate_tree(store, memo, a, theory, actuals)?;
    let second = instantiate_tree(store, memo, b, theory, actuals)?;
    Ok((first, second))
}

/// The parts in the instance.
#[cycle(instantiate)]
fn instantiate_parts(
    store: &mut Store,
    memo: &mut Memo,
    shape: Shape,
    theory: Name,
    actuals: &[Id],
) -> Result<Shape, SubstFault>
    requires parts { ShapeIn store.old shape }
    requires unnamed { IsNoName shape }
    requires instance { IsInstance store.old theory actuals.now }
    requires formals { HasActuals (trees_at store.old actuals.now) (shape_tree store.old shape) }
    requires remembered { Remembers store.old (instances (text_at store.old theory) (trees_at store.old actuals.now)) memo.old }
    ensures ok { IfOk result (StandsAs store.new (instantiate (shape_tree store.old shape) (text_at store.old theory) (trees_at store.old actuals.now))) }
    ensures large { result ≡ Err SubstFault.TooLarge → ¬ IsWithinLimits (instantiate (shape_tree store.old shape) (text_at store.old theory) (trees_at store.old actuals.now)) }
    ensures kept { Extends store.old store.new }
    ensures remembered { OnOk result (Remembers store.new (instances (text_at store.new theory) (trees_at store.new actuals.now)) memo.new) }
{
    match shape {
        Shape::Leaf(plain) => Ok(Shape::Leaf(plain)),
        Shape::Name(_, _) => unreachable!(),
        Shape::Index(n) => Ok(Shape::Index(n)),
        Shape::Bind(binder, a, b) => {
            let (a, b) = instantiate_both(store, memo, a, b, theory, actuals)?;
            Ok(Shape::Bind(binder, a, b))
        }
        Shape::Join(joint, a, b) => {
            let (a, b) = instantiate_both(store, memo, a, b, theory, actuals)?;
            Ok(Shape::Join(joint, a, b))
        }
        Shape::Project(part, a) => {
            let a = instantiate_tree(store, memo, a, theory, actuals)?;
            Ok(Shape::Project(part, a))
        }
        Shape::Choose(a, b, c) => {
            let a = instantiate_tree(store, memo, a, theory, actuals)?;
            let (b, c) = instantiate_both(store, memo, b, c, theory, actuals)?;
            Ok(Shape::Choose(a, b, c))
        }
    }
}

/// The tree in the instance of the theory with these actuals: each formal becomes its actual, and
/// each own entry that of the instance.
pub fn instantiate_node(
    store: &mut Store,
    id: Id,
    theory: Name,
    actuals: &[Id],
) -> Result<Id, SubstFault>
    requires node { IsNode store.old id }
    requires theory { IsName store.old theory }
    requires actuals { AreNodes store.old actuals.now }

    // The actuals have no free index, and each formal has one of its number and sort.
    requires closed { AreClosed (trees_at store.old actuals.now) }
    requires formals { HasActuals (trees_at store.old actuals.now) (tree_at store.old id) }
    ensures ok { IfOk result (Stands store.new (instantiate (tree_at store.old id) (text_at store.old theory) (trees_at store.old actuals.now))) }
    ensures large { result ≡ Err SubstFault.TooLarge → ¬ IsWithinLimits (instantiate (tree_at store.old id) (text_at store.old theory) (trees_at store.old actuals.now)) }
    ensures kept { Extends store.old store.new }
{
    let mut memo = Memo::new(store.allocator());
    instantiate_tree(store, &mut memo, id, theory, actuals)
}
