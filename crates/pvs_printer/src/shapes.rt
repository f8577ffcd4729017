//! The shapes that the rows look for.

ghost use Rattle.std.specs.Prelude.{◌≡◌, ◌≤◌, ◌<◌, ◌+◌, ◌^◌, suc, IfSome};
ghost use Rattle.pvs_terms.specs.Tree.{size};
ghost use Rattle.pvs_terms.specs.Stored.{IsNode, tree_at};
ghost use Rattle.pvs_printer.specs.Mentions.{mentions};
ghost use Rattle.pvs_printer.specs.Row.{parts, components, climb};
ghost use Rattle.pvs_printer.specs.code.Steps as spec;
ghost use Rattle.pvs_printer.specs.code.RowsAt.{pair_at, id_at, climbed_at};

use pvs_terms::{Binder, Id, Joint, Node, Projection, Shape, Store};

/// The type and the body of a LAMBDA.
pub(crate) fn lambda_of(store: &Store, id: Id) -> Option<(Id, Id)>
    requires { IsNode store.now id }
    ensures is { pair_at store.now result ≡ spec.lambda_of (tree_at store.now id) }
    ensures nodes { IfSome result (λ q. IsNode store.now q.0 × IsNode store.now q.1) }
{
    match store.view(id).shape() {
        Shape::Bind(binder, a, b) => match binder {
            Binder::Lambda => Some((a, b)),
            _ => None,
        },
        _ => None,
    }
}

/// The sides of an equality.
pub(crate) fn equal_of(store: &Store, id: Id) -> Option<(Id, Id)>
    requires { IsNode store.now id }
    ensures is { pair_at store.now result ≡ spec.equal_of (tree_at store.now id) }
    ensures nodes { IfSome result (λ q. IsNode store.now q.0 × IsNode store.now q.1) }
{
    match store.view(id).shape() {
        Shape::Join(joint, a, b) => match joint {
            Joint::Equal => Some((a, b)),
            _ => None,
        },
        _ => None,
    }
}

/// Whether the tree is TRUE.
pub(crate) fn is_true(store: &Store, id: Id) -> bool
    requires { IsNode store.now id }
    ensures { result ≡ spec.is_true (tree_at store.now id) }
{
    match store.view(id) {
        Node::True => true,
        _ => false,
    }
}

/// The type and the predicate of a FORALL.
pub(crate) fn forall_of(store: &Store, id: Id) -> Option<(Id, Id)>
    requires { IsNode store.now id }
    ensures is { pair_at store.now result ≡ spec.forall_steps (tree_at store.now id) }
    ensures nodes { IfSome result (λ q. IsNode store.now q.0 × IsNode store.now q.1) }
{
    let (left, right) = equal_of(store, id)?;
    let (a, p) = lambda_of(store, left)?;
    let (b, always) = lambda_of(store, right)?;
    if is_true(store, always) && store.same(a, b) {
        Some((a, p))
    } else {
        None
    }
}

/// Whether the tree is FALSE.
pub(crate) fn is_false(store: &Store, id: Id) -> bool
    requires { IsNode store.now id }
    ensures { result ≡ spec.is_false (tree_at store.now id) }
{
    match store.view(id) {
        Node::False => true,
        _ => false,
    }
}

/// What a NOT is of.
pub(crate) fn not_of(store: &Store, id: Id) -> Option<Id>
    requires { IsNode store.now id }
    ensures is { id_at store.now result ≡ spec.not_of (tree_at store.now id) }
    ensures node { IfSome result (λ p. IsNode store.now p) }
{
    match store.view(id).shape() {
        Shape::Choose(c, a, b) => {
            if is_false(store, a) && is_true(store, b) {
                Some(c)
            } else {
                None
            }
        }
        _ => None,
    }
}

/// The type and the predicate of an EXISTS, of which this is what the outer NOT is of.
pub(crate) fn exists_of(store: &Store, id: Id) -> Option<(Id, Id)>
    requires { IsNode store.now id }
    ensures is { pair_at store.now result ≡ spec.exists_steps (tree_at store.now id) }
    ensures nodes { IfSome result (λ q. IsNode store.now q.0 × IsNode store.now q.1) }
{
    let (a, p) = forall_of(store, id)?;
    let q = not_of(store, p)?;
    Some((a, q))
}

/// The tag of a tuple.
pub(crate) fn tag_of(store: &Store, id: Id) -> Option<u32>
    requires { IsNode store.now id }
    ensures { result ≡ spec.tag_of (tree_at store.now id) }
{
    match store.view(id).shape() {
        Shape::Join(joint, _, _) => match joint {
            Joint::Tuple(k) => Some(k),
            _ => None,
        },
        _ => None,
    }
}

/// Whether the tree is a tuple of so many parts, with all the tags of such a tuple.
#[tactic(auto, using(crate::proofs::PartsLaws::other_tag, crate::proofs::PartsLaws::pair_tag, crate::proofs::PartsLaws::more_tag))]
pub(crate) fn is_tuple(store: &Store, k: u32, id: Id) -> bool
    requires { IsNode store.now id }
    ensures { result ≡ spec.is_some (parts k (tree_at store.now id)) }
{
    match store.view(id).shape() {
        Shape::Join(joint, _, b) => match joint {
            Joint::Tuple(j) => {
                if j != k {
                    false
                } else if k == 2 {
                    true
                } else {
                    is_tuple(store, k.saturating_sub(1), b)
                }
            }
            _ => false,
        },
        _ => false,
    }
}

/// Whether the tree is a tuple type of so many components, with all the tags of such a type.
#[tactic(auto, using(crate::proofs::PartsLaws::other_type_tag, crate::proofs::PartsLaws::pair_type_tag, crate::proofs::PartsLaws::more_type_tag))]
pub(crate) fn is_tuple_type(store: &Store, k: u32, id: Id) -> bool
    requires { IsNode store.now id }
    ensures { result ≡ spec.is_some (components k (tree_at store.now id)) }
{
    match store.view(id).shape() {
        Shape::Bind(binder, _, b) => match binder {
            Binder::Product(j) => {
                if j != k {
                    false
                } else if k == 2 {
                    true
                } else {
                    is_tuple_type(store, k.saturating_sub(1), b)
                }
            }
            _ => false,
        },
        _ => false,
    }
}

/// What a chain of projections to the others with the tags k, k + 1, .. is of, and how long it is.
pub(crate) fn climb(store: &Store, k: u64, id: Id) -> (Id, u32)
    requires node { IsNode store.now id }
    requires tags { k + size (tree_at store.now id) < 2 ^ 64 }
    ensures is { climbed_at store.now result ≡ climb k (tree_at store.now id) }
    ensures node { IsNode store.now result.0 }
    ensures short { result.1 < size (tree_at store.now id) }
{
    match store.view(id).shape() {
        Shape::Project(projection, a) => match projection {
            Projection::Second(j) => {
                if u64::from(j) == k {
                    let (end, length) = climb(store, k + 1, a);
                    (end, length + 1)
                } else {
                    (id, 0)
                }
            }
            _ => (id, 0),
        },
        _ => (id, 0),
    }
}

/// Whether the variable of this index occurs. A tree whose free indices are all below it is not
/// looked into.
#[tactic(auto, using(crate::proofs::MentionLaws::not_free))]
pub(crate) fn mentions(store: &Store, index: u32, id: Id) -> bool
    requires node { IsNode store.now id }
    requires room { index + size (tree_at store.now id) < 2 ^ 32 }
    ensures { result ≡ mentions index (tree_at store.now id) }
{
    if store.free_below(id) <= u64::from(index) {
        return false;
    }
    match store.view(id).shape() {
        Shape::Leaf(_) => false,
        Shape::Index(n) => n == index,
        Shape::Name(_, _) => false,
        Shape::Bind(_, a, b) => mentions(store, index, a) || mentions(store, index + 1, b),
        Shape::Join(_, a, b) => mentions(store, index, a) || mentions(store, index, b),
        Shape::Project(_, a) => mentions(store, index, a),
        Shape::Choose(a, b, c) => {
            mentions(store, index, a) || mentions(store, index, b) || mentions(store, index, c)
        }
    }
}
