//! The premises of two branches.

ghost use Rattle.std.specs.Prelude.{◌≡◌, [], ◌∷◌, IfOk, OnOk};
ghost use Rattle.pvs_terms.specs.Stored.{Stored, tree_at};
ghost use Rattle.pvs_sequent.specs.Premises.{still_open};
ghost use Rattle.pvs_sequent.specs.Sequents.{is_closed};
ghost use Rattle.pvs_sequent.specs.Numbers.{IsSequent, StandForAll, StandsFor, sequent_at};
ghost use Rattle.pvs_rules_logic.specs.Branches.{HasBranch, IsBefore, IsBranch, with_branch};

use pvs_sequent::{Sequent, Side, push_open};
use pvs_terms::{Id, Store};
use std::alloc::{AllocError, Global};

/// What one branch adds to a sequent: a formula on a side, and then a condition on a side.
#[derive(Clone, Copy, Debug)]
pub struct Branch {
    pub side: Side,
    pub formula: Id,
    pub condition_side: Side,
    pub condition: Id,
}

/// Adds what a branch adds.
fn add_branch(store: &Store, sequent: &mut Sequent, branch: &Branch) -> Result<(), AllocError>
    requires sequent { IsSequent store.now sequent.old }
    requires branch { IsBranch store.now branch.now }
    ensures { OnOk result (StandsFor store.now (with_branch store.now branch.now (sequent_at store.now sequent.old)) sequent.new) }
{
    sequent.add(store, branch.side, branch.formula)?;
    sequent.add(store, branch.condition_side, branch.condition)
}

/// Takes out what a branch has added last.
fn undo_branch(store: &Store, sequent: &mut Sequent, branch: &Branch)
    requires sequent { IsSequent store.now sequent.old }
    requires branch { IsBranch store.now branch.now }
    requires added { HasBranch store.now branch.now sequent.old }
    ensures { IsBefore store.now branch.now sequent.old sequent.new }
{
    sequent.undo_add(store, branch.condition_side, branch.condition);
    sequent.undo_add(store, branch.side, branch.formula);
}

/// Whether the rule axiom closes the sequent with what a branch adds. The sequent is as before.
fn closes_with(store: &Store, sequent: &mut Sequent, branch: &Branch) -> Result<bool, AllocError>
    requires sequent { IsSequent store.now sequent.old }
    requires branch { IsBranch store.now branch.now }
    ensures closed { IfOk result (λ b. b ≡ is_closed (with_branch store.now branch.now (sequent_at store.now sequent.old))) }
    ensures same { OnOk result (StandsFor store.now (sequent_at store.now sequent.old) sequent.new) }
{
    add_branch(store, sequent, branch)?;
    let closed = sequent.is_closed(store);
    undo_branch(store, sequent, branch);
    Ok(closed)
}

/// The premise of one branch on a sequent, unless the rule axiom closes it.
fn one_premise(
    alloc: Global,
    store: &Store,
    mut sequent: Sequent,
    branch: &Branch,
) -> Result<Vec<Sequent>, AllocError>
    requires sequent { IsSequent store.now sequent }
    requires branch { IsBranch store.now branch.now }
    ensures { IfOk result (λ v. StandForAll store.now (still_open (with_branch store.now branch.now (sequent_at store.now sequent) ∷ [])) v.items) }
{
    let mut premises = Vec::new(alloc);
    add_branch(store, &mut sequent, branch)?;
    push_open(store, &mut premises, sequent)?;
    Ok(premises)
}

/// The premises of two branches on a sequent, but for those that the rule axiom closes. This copies
/// the sequent.
fn two_premises(
    alloc: Global,
    store: &Store,
    sequent: Sequent,
    first: &Branch,
    second: &Branch,
) -> Result<Vec<Sequent>, AllocError>
    requires sequent { IsSequent store.now sequent }
    requires first { IsBranch store.now first.now }
    requires second { IsBranch store.now second.now }
    ensures { IfOk result (λ v. StandForAll store.now (still_open (with_branch store.now first.now (sequent_at store.now sequent) ∷ with_branch store.now second.now (sequent_at store.now sequent) ∷ [])) v.items) }
{
    let mut other = sequent.copy(alloc)?;
    let mut premises = one_premise(alloc, store, sequent, first)?;
    add_branch(store, &mut other, second)?;
    push_open(store, &mut premises, other)?;
    Ok(premises)
}

/// The premises of two branches on a sequent, but for those that the rule axiom closes. The sequent
/// is copied only where both stay open.
pub fn fork(
    alloc: Global,
    store: &Store,
    mut sequent: Sequent,
    first: &Branch,
    second: &Branch,
) -> Result<Vec<Sequent>, AllocError>
    requires sequent { IsSequent store.now sequent }
    requires first { IsBranch store.now first.now }
    requires second { IsBranch store.now second.now }
    ensures { IfOk result (λ v. StandForAll store.now (still_open (with_branch store.now first.now (sequent_at store.now sequent) ∷ with_branch store.now second.now (sequent_at store.now sequent) ∷ [])) v.items) }
{
    if closes_with(store, &mut sequent, first)? {
        return one_premise(alloc, store, sequent, second);
    }
    if closes_with(store, &mut sequent, second)? {
        return one_premise(alloc, store, sequent, first);
    }
    two_premises(alloc, store, sequent, first, second)
}
