//! Substitution of a term for an index.

ghost use Rattle.std.specs.Prelude.{◌≡◌, ℕ, ◌+◌, ◌<◌, ◌^◌, ◌≤◌, length, IfOk, OnOk, Err};
ghost use Rattle.pvs_terms.specs.Tree.{depth, IsWithinLimits};
ghost use Rattle.pvs_terms.specs.Stored.{IsNode, tree_at, shape_tree, ShapeIn, Stands, StandsAs, Extends};
ghost use Rattle.pvs_terms.specs.Sorts.{HasSorts, IsTerm};
ghost use Rattle.pvs_subst.specs.Replace.{lift, put_var, put_at, put_in};
ghost use Rattle.pvs_subst.specs.code.Compound.{IsCompound};
ghost use Rattle.pvs_subst.specs.code.Memo.{puts, Remembers};

use crate::fault::SubstFault;
use crate::lifting::lift;
use crate::memo::Memo;
use pvs_terms::{Id, Node, Shape, Store};

/// What stands for an index where `arg` is substituted for one.
#[tactic(auto, using(crate::proofs::ReplaceLaws::put_var_below, crate::proofs::ReplaceLaws::put_var_at, crate::proofs::ReplaceLaws::put_var_above))]
fn put_index(store: &mut Store, n: u32, arg: Id, at: u32) -> Result<Id, SubstFault>
    requires arg { IsNode store.old arg }
    requires term { IsTerm (tree_at store.old arg) }
    ensures ok { IfOk result (Stands store.new (put_var (tree_at store.old arg) at n)) }
    ensures large { result ≡ Err SubstFault.TooLarge → ¬ IsWithinLimits (put_var (tree_at store.old arg) at n) }
    ensures kept { Extends store.old store.new }
{
    if n == at {
        return lift(store, arg, at, 0);
    }
    let index = if n < at { n } else { n - 1 };
    let made = store.make(Node::Var(index))?;
    Ok(made)
}

/// The body with `arg` for the index `at`, and the greater ones lowered. A part without such an
/// index is handed back as it is, and a part that was met before at this depth is not treated
/// again.
#[cycle(put)]
fn put_below(
    store: &mut Store,
    memo: &mut Memo,
    body: Id,
    arg: Id,
    at: u32,
) -> Result<Id, SubstFault>
    requires body { IsNode store.old body }
    requires arg { IsNode store.old arg }
    requires term { IsTerm (tree_at store.old arg) }
    requires room { at + depth (tree_at store.old body) < 2 ^ 32 }
    requires remembered { Remembers store.old (puts (tree_at store.old arg)) memo.old }
    ensures ok { IfOk result (Stands store.new (put_at (tree_at store.old body) (tree_at store.old arg) at)) }
    ensures large { result ≡ Err SubstFault.TooLarge → ¬ IsWithinLimits (put_at (tree_at store.old body) (tree_at store.old arg) at) }
    ensures kept { Extends store.old store.new }
    ensures remembered { OnOk result (Remembers store.new (puts (tree_at store.new arg)) memo.new) }
{
    let node = store.view(body);
    let depth = u64::from(at);
    if store.free_below(body) <= depth {
        return Ok(body);
    }
    if let Some(made) = memo.get(body, depth) {
        return Ok(made);
    }
    let made = put_whole(store, memo, node.shape(), arg, at)?;
    memo.put(body, depth, made)?;
    Ok(made)
}

/// The node of this shape after substitution of `arg`.
#[cycle(put)]
fn put_whole(
    store: &mut Store,
    memo: &mut Memo,
    shape: Shape,
    arg: Id,
    at: u32,
) -> Result<Id, SubstFault>
    requires parts { ShapeIn store.old shape }
    requires arg { IsNode store.old arg }
    requires term { IsTerm (tree_at store.old arg) }
    requires room { at + depth (shape_tree store.old shape) < 2 ^ 32 }
    requires sorted { HasSorts (shape_tree store.old shape) }
    requires remembered { Remembers store.old (puts (tree_at store.old arg)) memo.old }
    ensures ok { IfOk result (Stands store.new (put_at (shape_tree store.old shape) (tree_at store.old arg) at)) }
    ensures large { result ≡ Err SubstFault.TooLarge → ¬ IsWithinLimits (put_at (shape_tree store.old shape) (tree_at store.old arg) at) }
    ensures kept { Extends store.old store.new }
    ensures remembered { OnOk result (Remembers store.new (puts (tree_at store.new arg)) memo.new) }
{
    match shape {
        Shape::Index(n) => {
            let made = put_index(store, n, arg, at)?;
            Ok(made)
        }
        shape => {
            let parts = put_parts(store, memo, shape, arg, at)?;
            let made = store.make(parts.node())?;
            Ok(made)
        }
    }
}

/// The parts after substitution of `arg`.
#[cycle(put)]
#[tactic(auto, using(pvs_terms::proofs::StoredLaws::extends_trans))]
fn put_parts(
    store: &mut Store,
    memo: &mut Memo,
    shape: Shape,
    arg: Id,
    at: u32,
) -> Result<Shape, SubstFault>
    requires parts { ShapeIn store.old shape }
    requires arg { IsNode store.old arg }
    requires term { IsTerm (tree_at store.old arg) }
    requires room { at + depth (shape_tree store.old shape) < 2 ^ 32 }
    requires compound { IsCompound shape }
    requires remembered { Remembers store.old (puts (tree_at store.old arg)) memo.old }
    ensures ok { IfOk result (StandsAs store.new (put_at (shape_tree store.old shape) (tree_at store.old arg) at)) }
    ensures large { result ≡ Err SubstFault.TooLarge → ¬ IsWithinLimits (put_at (shape_tree store.old shape) (tree_at store.old arg) at) }
    ensures kept { Extends store.old store.new }
    ensures remembered { OnOk result (Remembers store.new (puts (tree_at store.new arg)) memo.new) }
{
    match shape {
        Shape::Leaf(plain) => Ok(Shape::Leaf(plain)),
        Shape::Name(sort, r) => Ok(Shape::Name(sort, r)),
        Shape::Index(_) => unreachable!(),
        Shape::Bind(binder, a, b) => {
            let a = put_below(store, memo, a, arg, at)?;
            let b = put_below(store, memo, b, arg, at + 1)?;
            Ok(Shape::Bind(binder, a, b))
        }
        Shape::Join(joint, a, b) => {
            let a = put_below(store, memo, a, arg, at)?;
            let b = put_below(store, memo, b, arg, at)?;
            Ok(Shape::Join(joint, a, b))
        }
        Shape::Project(part, a) => {
            let a = put_below(store, memo, a, arg, at)?;
            Ok(Shape::Project(part, a))
        }
        Shape::Choose(a, b, c) => {
            let a = put_below(store, memo, a, arg, at)?;
            let b = put_below(store, memo, b, arg, at)?;
            let c = put_below(store, memo, c, arg, at)?;
            Ok(Shape::Choose(a, b, c))
        }
    }
}

/// The body with the term `arg` in the place of its index 0, and its other free indices lowered.
pub fn put_in(store: &mut Store, body: Id, arg: Id) -> Result<Id, SubstFault>
    requires body { IsNode store.old body }
    requires arg { IsNode store.old arg }
    requires term { IsTerm (tree_at store.old arg) }
    ensures ok { IfOk result (Stands store.new (put_in (tree_at store.old body) (tree_at store.old arg))) }
    ensures large { result ≡ Err SubstFault.TooLarge → ¬ IsWithinLimits (put_in (tree_at store.old body) (tree_at store.old arg)) }
    ensures kept { Extends store.old store.new }
{
    let _depth = store.depth(body);
    let mut memo = Memo::new(store.allocator());
    put_below(store, &mut memo, body, arg, 0)
}
