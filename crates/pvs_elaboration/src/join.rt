//! The type of both branches of a choice.

ghost use Rattle.std.specs.Prelude.{◌≡◌, ℕ};
ghost use Rattle.pvs_terms.specs.declared.shape.Sort.TheVariants.{OfType};
ghost use Rattle.pvs_terms.specs.Tree.{tree_eq};
ghost use Rattle.pvs_terms.specs.Stored.{tree_at};
ghost use Rattle.pvs_types.specs.Forms.{is_among, first_among};
ghost use Rattle.pvs_typing.specs.Growth.{AreKnown, all_at};
ghost use Rattle.pvs_typing.specs.Answers.{IsOptionKnown, tree_option};
ghost use Rattle.pvs_elaboration.specs.declared.choice.ChoiceRow.TheVariants as choice_row;
ghost use Rattle.pvs_elaboration.specs.declared.value.Value.TheVariants as value;
ghost use Rattle.pvs_elaboration.specs.Known.{AreKnownNumbers, IsHere, IsTermOf, IsTypeOf, Sources, place_in, site_in};
ghost use Rattle.pvs_elaboration.specs.Meanings.{meaning};
ghost use Rattle.pvs_elaboration.specs.Choice.{TellsShared, choice_answer, choice_numbers, first_shared};
ghost use Rattle.pvs_elaboration.specs.Listing.{Lists};
ghost use Rattle.pvs_elaboration.specs.Machine.{Steps};

use crate::choice::{Branches, ChoiceRow};
use crate::fault::ElabFault;
use crate::frame::{Frame, Next, give_to};
use crate::here::{Here, Typed};
use crate::listing::Listing;
use crate::scope::Scope;
use crate::steps::fault_of;
use crate::value::Value;
use pvs_terms::Id;

/// Whether two types are the same.
fn is_same<S: Scope>(scope: &S, first: Id, second: Id) -> bool
    requires first { IsTypeOf (S.known scope.now) first }
    requires second { IsTypeOf (S.known scope.now) second }
    ensures { result ≡ tree_eq (tree_at (S.known scope.now).stored first) (tree_at (S.known scope.now).stored second) }
{
    scope.store().one_node_per_tree();
    first == second
}

/// Whether a type is among these.
fn is_among<S: Scope>(scope: &S, ty: Id, types: &[Id]) -> bool
    requires ty { IsTypeOf (S.known scope.now) ty }
    requires types { AreKnown (S.known scope.now).stored (S.known scope.now).declares OfType types.now }
    ensures { result ≡ is_among (tree_at (S.known scope.now).stored ty) (all_at (S.known scope.now).stored types.now) }
{
    for above in types {
        if is_same(scope, ty, *above) {
            return true;
        }
    }
    false
}

/// The first of these types that is among those.
fn first_among<S: Scope>(scope: &S, types: &[Id], others: &[Id]) -> Option<Id>
    requires types { AreKnown (S.known scope.now).stored (S.known scope.now).declares OfType types.now }
    requires others { AreKnown (S.known scope.now).stored (S.known scope.now).declares OfType others.now }
    ensures known { IsOptionKnown (S.known scope.now).stored (S.known scope.now).declares result }
    ensures first { tree_option (S.known scope.now).stored result ≡ first_among (all_at (S.known scope.now).stored types.now) (all_at (S.known scope.now).stored others.now) }
{
    for ty in types {
        if is_among(scope, *ty, others) {
            return Some(*ty);
        }
    }
    None
}

/// The first of these types that is above the type of the second branch, which has this place.
fn first_shared<S: Scope>(
    scope: &mut S,
    listing: &Listing,
    here: &Here,
    types: &[Id],
    second: Id,
    at: usize,
) -> Result<Option<Id>, ElabFault>
    requires here { IsHere (S.known scope.old) here.now }
    requires types { AreKnown (S.known scope.old).stored (S.known scope.old).declares OfType types.now }
    requires second { IsTypeOf (S.known scope.old) second }
    ensures { (t : Sources) → Lists listing.now t → TellsShared (S.known scope.old) (S.known scope.new) (first_shared (S.known scope.old).lookups (place_in t at) (all_at (S.known scope.old).stored types.now) (tree_at (S.known scope.old).stored second)) result }
{
    match scope.up(here, second) {
        Ok(above) => Ok(first_among(scope, types, above.as_slice())),
        Err(fault) => Err(fault_of(listing, at, at, fault)),
    }
}

/// A type above both branches, where there is one.
pub(crate) fn join_types<S: Scope>(
    scope: &mut S,
    listing: &Listing,
    here: &Here,
    condition: Id,
    first: Typed,
    negation: Id,
    second: Typed,
    branches: Branches,
) -> Result<Next, ElabFault>
    requires here { IsHere (S.known scope.old) here.now }
    requires row { AreKnownNumbers (S.known scope.old) (choice_numbers (choice_row.Types condition first negation second)) }
    ensures { (t : Sources) (i : ℕ) → Lists listing.now t → IsTermOf (S.known scope.old) i → Steps (S.known scope.old) (S.known scope.new) t here.now (choice_answer (site_in (S.known scope.old) t here.now) (S.known scope.old).stored t (choice_row.Types condition first negation second) branches (meaning (S.known scope.old).stored (value.Term i))) result }
{
    let above = match scope.up(here, first.ty) {
        Ok(types) => types,
        Err(fault) => {
            return Err(fault_of(listing, branches.first_at, branches.first_at, fault));
        }
    };
    match first_shared(
        scope,
        listing,
        here,
        above.as_slice(),
        second.ty,
        branches.second_at,
    )? {
        Some(ty) => Ok(give_to(
            Value::Term(condition),
            Frame::Choice(ChoiceRow::Made(condition, first, second, ty), branches),
        )),
        None => Ok(give_to(
            Value::Done,
            Frame::Choice(
                ChoiceRow::General(condition, first, negation, second),
                branches,
            ),
        )),
    }
}

/// The most general type of the first branch.
pub(crate) fn join_general<S: Scope>(
    scope: &mut S,
    listing: &Listing,
    here: &Here,
    condition: Id,
    first: Typed,
    negation: Id,
    second: Typed,
    branches: Branches,
) -> Result<Next, ElabFault>
    requires here { IsHere (S.known scope.old) here.now }
    requires row { AreKnownNumbers (S.known scope.old) (choice_numbers (choice_row.General condition first negation second)) }
    ensures { (t : Sources) → Lists listing.now t → Steps (S.known scope.old) (S.known scope.new) t here.now (choice_answer (site_in (S.known scope.old) t here.now) (S.known scope.old).stored t (choice_row.General condition first negation second) branches (meaning (S.known scope.old).stored value.Done)) result }
{
    match scope.most(here, first.ty) {
        Ok(ty) => Ok(give_to(
            Value::Formed(ty),
            Frame::Choice(
                ChoiceRow::JoinFirst(condition, first, negation, second),
                branches,
            ),
        )),
        Err(fault) => Err(fault_of(listing, branches.first_at, branches.first_at, fault)),
    }
}
