//! Lifting.

ghost use Rattle.std.specs.Prelude.{◌≡◌, ℕ, ◌+◌, ◌<◌, ◌^◌, ◌≤◌, length, IfOk, OnOk, IfSome, IfNone, Err};
ghost use Rattle.pvs_terms.specs.Tree.{depth, IsWithinLimits};
ghost use Rattle.pvs_terms.specs.Stored.{IsNode, tree_at, shape_tree, ShapeIn, Stands, StandsAs, Extends};
ghost use Rattle.pvs_subst.specs.Replace.{lift, raised_index};
ghost use Rattle.pvs_subst.specs.code.Memo.{lifts, Remembers};

use crate::fault::SubstFault;
use crate::memo::Memo;
use pvs_base::MAX_INDEX;
use pvs_terms::{Id, Shape, Store};

/// The index after lifting, while it is within the limit.
#[tactic(auto, using(crate::proofs::ReplaceLaws::raised_below, crate::proofs::ReplaceLaws::raised_above))]
fn raise(n: u32, by: u32, from: u64) -> Option<u32>
    ensures some { IfSome result (λ m. (m ≡ raised_index by from n) × (m ≤ 1000000)) }
    ensures none { IfNone result (1000000 < raised_index by from n) }
{
    if u64::from(n) < from {
        if n > MAX_INDEX { None } else { Some(n) }
    } else if by > MAX_INDEX || n > MAX_INDEX - by {
        None
    } else {
        Some(n + by)
    }
}

/// Raises each free index that is at least `from`. A part without such an index is handed back
/// as it is, and a part that was met before at this depth is not lifted again.
#[cycle(lift)]
fn lift_from(
    store: &mut Store,
    memo: &mut Memo,
    id: Id,
    by: u32,
    from: u64,
) -> Result<Id, SubstFault>
    requires node { IsNode store.old id }
    requires room { from + depth (tree_at store.old id) < 2 ^ 34 }
    requires remembered { Remembers store.old (lifts by) memo.old }
    ensures ok { IfOk result (Stands store.new (lift (tree_at store.old id) by from)) }
    ensures large { result ≡ Err SubstFault.TooLarge → ¬ IsWithinLimits (lift (tree_at store.old id) by from) }
    ensures kept { Extends store.old store.new }
    ensures remembered { OnOk result (Remembers store.new (lifts by) memo.new) }
{
    let node = store.view(id);
    if store.free_below(id) <= from {
        return Ok(id);
    }
    if let Some(made) = memo.get(id, from) {
        return Ok(made);
    }
    let lifted = lift_parts(store, memo, node.shape(), by, from)?;
    let lifted_id = store.make(lifted.node())?;
    memo.put(id, from, lifted_id)?;
    Ok(lifted_id)
}

/// The parts lifted.
#[cycle(lift)]
#[tactic(auto, using(pvs_terms::proofs::StoredLaws::extends_trans))]
fn lift_parts(
    store: &mut Store,
    memo: &mut Memo,
    shape: Shape,
    by: u32,
    from: u64,
) -> Result<Shape, SubstFault>
    requires parts { ShapeIn store.old shape }
    requires room { from + depth (shape_tree store.old shape) < 2 ^ 34 }
    requires remembered { Remembers store.old (lifts by) memo.old }
    ensures ok { IfOk result (StandsAs store.new (lift (shape_tree store.old shape) by from)) }
    ensures large { result ≡ Err SubstFault.TooLarge → ¬ IsWithinLimits (lift (shape_tree store.old shape) by from) }
    ensures kept { Extends store.old store.new }
    ensures remembered { OnOk result (Remembers store.new (lifts by) memo.new) }
{
    match shape {
        Shape::Leaf(plain) => Ok(Shape::Leaf(plain)),
        Shape::Name(sort, r) => Ok(Shape::Name(sort, r)),
        Shape::Index(n) => match raise(n, by, from) {
            None => Err(SubstFault::TooLarge),
            Some(n) => Ok(Shape::Index(n)),
        },
        Shape::Bind(binder, a, b) => {
            let a = lift_from(store, memo, a, by, from)?;
            let b = lift_from(store, memo, b, by, from + 1)?;
            Ok(Shape::Bind(binder, a, b))
        }
        Shape::Join(joint, a, b) => {
            let a = lift_from(store, memo, a, by, from)?;
            let b = lift_from(store, memo, b, by, from)?;
            Ok(Shape::Join(joint, a, b))
        }
        Shape::Project(part, a) => {
            let a = lift_from(store, memo, a, by, from)?;
            Ok(Shape::Project(part, a))
        }
        Shape::Choose(a, b, c) => {
            let a = lift_from(store, memo, a, by, from)?;
            let b = lift_from(store, memo, b, by, from)?;
            let c = lift_from(store, memo, c, by, from)?;
            Ok(Shape::Choose(a, b, c))
        }
    }
}

/// Raises each free index that is at least `from` by `by`.
pub fn lift(store: &mut Store, id: Id, by: u32, from: u32) -> Result<Id, SubstFault>
    requires { IsNode store.old id }
    ensures ok { IfOk result (Stands store.new (lift (tree_at store.old id) by from)) }
    ensures large { result ≡ Err SubstFault.TooLarge → ¬ IsWithinLimits (lift (tree_at store.old id) by from) }
    ensures kept { Extends store.old store.new }
{
    let _node = store.view(id);
    let _depth = store.depth(id);
    if by == 0 {
        return Ok(id);
    }
    let mut memo = Memo::new(store.allocator());
    lift_from(store, &mut memo, id, by, u64::from(from))
}
