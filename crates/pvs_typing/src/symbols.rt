//! The references of the names of a tree.

ghost use Rattle.std.specs.Prelude.{◌≡◌, ◌∷◌, ◌++◌, IfOk};
ghost use Rattle.pvs_terms.specs.Stored.{AreNodes, IsNode, IsRef, ref_at, tree_at, trees_at};
ghost use Rattle.pvs_types.specs.Symbols.{symbols, all_symbols, symbols_within};
ghost use Rattle.pvs_typing.specs.Owed.{AreRefs, refs_at};

use pvs_terms::{Id, RefId, Shape, Store};
use std::alloc::{AllocError, Global};

/// Adds the references of the names of a tree, within types and actuals too, as they stand from left
/// to right.
#[cycle(symbols)]
fn add_symbols(store: &Store, id: Id, uses: &mut Vec<RefId>) -> Result<(), AllocError>
    requires node { IsNode store.now id }
    requires refs { AreRefs store.now uses.old.items }
    ensures ok { IfOk result (λ _. refs_at store.now uses.new.items ≡ refs_at store.now uses.old.items ++ symbols (tree_at store.now id)) }
    ensures refs { IfOk result (λ _. AreRefs store.now uses.new.items) }
{
    match store.view(id).shape() {
        Shape::Leaf(_) => Ok(()),
        Shape::Index(_) => Ok(()),
        Shape::Name(_, r) => add_reference(store, r, uses),
        Shape::Bind(_, a, b) => add_both(store, a, b, uses),
        Shape::Join(_, a, b) => add_both(store, a, b, uses),
        Shape::Project(_, a) => add_symbols(store, a, uses),
        Shape::Choose(a, b, c) => {
            add_symbols(store, a, uses)?;
            add_both(store, b, c, uses)
        }
    }
}

/// Adds those of two trees.
#[cycle(symbols)]
fn add_both(store: &Store, a: Id, b: Id, uses: &mut Vec<RefId>) -> Result<(), AllocError>
    requires first { IsNode store.now a }
    requires second { IsNode store.now b }
    requires refs { AreRefs store.now uses.old.items }
    ensures ok { IfOk result (λ _. refs_at store.now uses.new.items ≡ refs_at store.now uses.old.items ++ (symbols (tree_at store.now a) ++ symbols (tree_at store.now b))) }
    ensures refs { IfOk result (λ _. AreRefs store.now uses.new.items) }
{
    add_symbols(store, a, uses)?;
    add_symbols(store, b, uses)
}

/// Adds a reference, and those of its actuals.
#[cycle(symbols)]
fn add_reference(store: &Store, r: RefId, uses: &mut Vec<RefId>) -> Result<(), AllocError>
    requires reference { IsRef store.now r }
    requires refs { AreRefs store.now uses.old.items }
    ensures ok { IfOk result (λ _. refs_at store.now uses.new.items ≡ refs_at store.now uses.old.items ++ (ref_at store.now r ∷ symbols_within (ref_at store.now r))) }
    ensures refs { IfOk result (λ _. AreRefs store.now uses.new.items) }
{
    uses.push(r)?;
    add_all(store, store.actuals(r), uses)
}

/// Adds those of several trees.
#[cycle(symbols)]
fn add_all(store: &Store, ids: &[Id], uses: &mut Vec<RefId>) -> Result<(), AllocError>
    requires nodes { AreNodes store.now ids.now }
    requires refs { AreRefs store.now uses.old.items }
    ensures ok { IfOk result (λ _. refs_at store.now uses.new.items ≡ refs_at store.now uses.old.items ++ all_symbols (trees_at store.now ids.now)) }
    ensures refs { IfOk result (λ _. AreRefs store.now uses.new.items) }
{
    match ids.split_first() {
        None => Ok(()),
        Some((first, rest)) => {
            add_symbols(store, *first, uses)?;
            add_all(store, rest, uses)
        }
    }
}

/// The references of the names of a tree, within types and actuals too, as they stand from left to
/// right.
pub(crate) fn symbols_of(alloc: Global, store: &Store, id: Id) -> Result<Vec<RefId>, AllocError>
    requires { IsNode store.now id }
    ensures ok { IfOk result (λ v. refs_at store.now v.items ≡ symbols (tree_at store.now id)) }
    ensures refs { IfOk result (λ v. AreRefs store.now v.items) }
{
    let mut uses = Vec::new(alloc);
    add_symbols(store, id, &mut uses)?;
    Ok(uses)
}
