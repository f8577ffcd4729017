//! Names.

ghost use Rattle.std.specs.Prelude.{◌≡◌, ◌≤◌, bytes_eq, Some, None, IfOk, IfErr};
ghost use Rattle.pvs_terms.specs.Tree.{Text};
ghost use Rattle.pvs_elab.specs.Elab.{is_bool};
ghost use Rattle.pvs_elab.specs.Phrase as phrase;
ghost use Rattle.pvs_elaboration.specs.declared.value.Mode.TheVariants as mode;
ghost use Rattle.pvs_elaboration.specs.declared.names.NameRow.TheVariants as row;
ghost use Rattle.pvs_elaboration.specs.declared.value.Value.TheVariants as value;
ghost use Rattle.pvs_elaboration.specs.Known.{AreKnownNumbers, IsHere, IsTermOf, IsTypeOf, Sources, local_item, place_in, site_in, word_at};
ghost use Rattle.pvs_elaboration.specs.Meanings.{meaning, value_numbers};
ghost use Rattle.pvs_elaboration.specs.Names.{name_answer, name_numbers, numbers_of};
ghost use Rattle.pvs_elaboration.specs.Listing.{Lists};
ghost use Rattle.pvs_elaboration.specs.Machine.{Steps, asked_at, frame_numbers, named_answer};

use crate::fault::ElabFault;
use crate::frame::{Frame, Next, give, give_to};
use crate::here::{Here, Local, Typed};
use crate::listing::{Listing, fault_at};
use crate::making::{make_term, make_type};
use crate::scope::Scope;
use crate::steps::fault_of;
use crate::value::Value;
use pvs_base::Code;
use pvs_subst::SubstFault;
use pvs_terms::{Id, Node};

/// What is left of a name: what typing says of the tree that it stands for.
#[derive(Clone, Copy)]
pub(crate) enum NameRow {
    /// The type of the term.
    Infer,
    /// Whether the term is of this type.
    Check(Id),
    /// Whether the type is well formed.
    Formed,
}

/// Whether the name of this number has these bytes.
fn is_name(listing: &Listing, number: usize, name: &[u8]) -> Result<bool, ElabFault>
    ensures ok { IfOk result (λ b. (t : Sources) → Lists listing.now t → bytes_eq name.now (word_at t number) ≡ b) }
    ensures memory { IfErr result (λ e. e ≡ ElabFault.Memory) }
{
    if number >= listing.names.len() {
        return Err(ElabFault::Memory);
    }
    let listed = listing.names[number];
    Ok(name == listed)
}

/// The local name of these bytes that was bound last.
#[tactic(auto, using(crate::proofs::NameLaws::local_first, crate::proofs::NameLaws::local_next, crate::proofs::NameLaws::local_none))]
fn local_named(listing: &Listing, here: &Here, name: &[u8]) -> Result<Option<Local>, ElabFault>
    ensures ok { IfOk result (λ o. (t : Sources) → Lists listing.now t → local_item t name.now here.now.locals ≡ numbers_of o) }
    ensures memory { IfErr result (λ e. e ≡ ElabFault.Memory) }
{
    for local in here.locals.as_slice() {
        if is_name(listing, local.name, name)? {
            return Ok(Some(*local));
        }
    }
    Ok(None)
}

#[tactic(auto, using(crate::proofs::ListingLaws::failed_or_memory, crate::proofs::KnownLaws::large_failed, crate::proofs::KnownLaws::memory_failed))]
/// The term of a local name, under the variables that were bound after it.
fn local_term<S: Scope>(
    scope: &mut S,
    listing: &Listing,
    here: &Here,
    local: Local,
    at: usize,
    frame: Frame,
) -> Result<Next, ElabFault>
    requires here { IsHere (S.known scope.old) here.now }
    requires term { IsTermOf (S.known scope.old) local.term }
    requires depth { local.at ≤ here.now.depth }
    requires frame { AreKnownNumbers (S.known scope.old) (frame_numbers frame) }
    ensures { (t : Sources) (x : Text) → Lists listing.now t → Steps (S.known scope.old) (S.known scope.new) t here.now (named_answer (site_in (S.known scope.old) t here.now) (S.known scope.old).stored t here.now.depth x at (Some (local.term, local.at)) frame) result }
{
    match scope.lift(local.term, here.depth - local.at) {
        Ok(id) => Ok(give_to(Value::Term(id), frame)),
        Err(SubstFault::TooLarge) => Err(fault_at(listing, at, Code::TooLarge)),
        Err(SubstFault::Memory) => Err(ElabFault::Memory),
    }
}

/// The constant or formal of a name.
fn constant_term<S: Scope>(
    scope: &mut S,
    listing: &Listing,
    here: &Here,
    name: &[u8],
    at: usize,
    frame: Frame,
) -> Result<Next, ElabFault>
    requires here { IsHere (S.known scope.old) here.now }
    requires frame { AreKnownNumbers (S.known scope.old) (frame_numbers frame) }
    ensures { (t : Sources) → Lists listing.now t → Steps (S.known scope.old) (S.known scope.new) t here.now (named_answer (site_in (S.known scope.old) t here.now) (S.known scope.old).stored t here.now.depth name.now at None frame) result }
{
    match scope.constant_named(name) {
        Ok(reference) => make_term(scope, listing, here, at, Node::Const(reference), frame),
        Err(code) => Err(fault_at(listing, at, code)),
    }
}

/// The term that a name stands for, and what is done with it.
pub(crate) fn named_term<S: Scope>(
    scope: &mut S,
    listing: &Listing,
    here: &Here,
    name: &[u8],
    at: usize,
    frame: Frame,
) -> Result<Next, ElabFault>
    requires here { IsHere (S.known scope.old) here.now }
    requires frame { AreKnownNumbers (S.known scope.old) (frame_numbers frame) }
    ensures { (t : Sources) → Lists listing.now t → Steps (S.known scope.old) (S.known scope.new) t here.now (named_answer (site_in (S.known scope.old) t here.now) (S.known scope.old).stored t here.now.depth name.now at (local_item t name.now here.now.locals) frame) result }
{
    match local_named(listing, here, name) {
        Ok(Some(local)) => local_term(scope, listing, here, local, at, frame),
        Ok(None) => constant_term(scope, listing, here, name, at, frame),
        Err(fault) => Err(fault),
    }
}

/// Whether a name is that of the type of truth values.
fn is_bool(name: &[u8]) -> bool
    ensures { result ≡ is_bool name.now }
{
    name == b"bool".as_slice() || name == b"boolean".as_slice()
}

/// The type that a name stands for.
#[tactic(auto, using(crate::proofs::NameLaws::bool_follows))]
pub(crate) fn named_type<S: Scope>(
    scope: &mut S,
    listing: &Listing,
    here: &Here,
    name: &[u8],
    at: usize,
) -> Result<Next, ElabFault>
    requires here { IsHere (S.known scope.old) here.now }
    ensures { (t : Sources) → Lists listing.now t → Steps (S.known scope.old) (S.known scope.new) t here.now (asked_at (site_in (S.known scope.old) t here.now) (S.known scope.old).stored t mode.Formed (phrase.Name name.now (place_in t at))) result }
{
    if is_bool(name) {
        return Ok(give(Value::Formed(here.truth)));
    }
    match scope.type_named(name) {
        Ok(reference) => make_type(
            scope,
            listing,
            here,
            at,
            Node::TName(reference),
            Frame::Name(NameRow::Formed, at),
        ),
        Err(code) => Err(fault_at(listing, at, code)),
    }
}

/// The type that the VAR of a name has.
pub(crate) fn variable_type<S: Scope>(
    scope: &S,
    listing: &Listing,
    here: &Here,
    name: &[u8],
    at: usize,
) -> Result<Next, ElabFault>
    requires here { IsHere (S.known scope.now) here.now }
    ensures { (t : Sources) → Lists listing.now t → Steps (S.known scope.now) (S.known scope.now) t here.now (asked_at (site_in (S.known scope.now) t here.now) (S.known scope.now).stored t mode.Formed (phrase.TypeOf name.now (place_in t at))) result }
{
    match scope.variable_named(name) {
        Ok(ty) => Ok(give_to(Value::Formed(ty), Frame::Name(NameRow::Formed, at))),
        Err(code) => Err(fault_at(listing, at, code)),
    }
}

/// The term of a name with its type.
#[tactic(auto, using(crate::proofs::NameLaws::inferred_follows))]
fn inferred<S: Scope>(
    scope: &mut S,
    listing: &Listing,
    here: &Here,
    at: usize,
    tree: Id,
) -> Result<Next, ElabFault>
    requires here { IsHere (S.known scope.old) here.now }
    requires tree { IsTermOf (S.known scope.old) tree }
    ensures { (t : Sources) → Lists listing.now t → Steps (S.known scope.old) (S.known scope.new) t here.now (name_answer (site_in (S.known scope.old) t here.now) (S.known scope.old).stored t row.Infer at (meaning (S.known scope.old).stored (value.Term tree))) result }
{
    match scope.infer(here, tree) {
        Ok(ty) => Ok(give(Value::Typed(Typed { tree, ty }))),
        Err(fault) => Err(fault_of(listing, at, at, fault)),
    }
}

/// The term of a name, as one of a type.
#[tactic(auto, using(crate::proofs::NameLaws::checked_follows))]
fn checked<S: Scope>(
    scope: &mut S,
    listing: &Listing,
    here: &Here,
    want: Id,
    at: usize,
    tree: Id,
) -> Result<Next, ElabFault>
    requires here { IsHere (S.known scope.old) here.now }
    requires want { IsTypeOf (S.known scope.old) want }
    requires tree { IsTermOf (S.known scope.old) tree }
    ensures { (t : Sources) → Lists listing.now t → Steps (S.known scope.old) (S.known scope.new) t here.now (name_answer (site_in (S.known scope.old) t here.now) (S.known scope.old).stored t (row.Check want) at (meaning (S.known scope.old).stored (value.Term tree))) result }
{
    match scope.check(here, tree, want) {
        Ok(()) => Ok(give(Value::Term(tree))),
        Err(fault) => Err(fault_of(listing, at, at, fault)),
    }
}

/// The type of a name, where it is well formed.
#[tactic(auto, using(crate::proofs::NameLaws::accepted_follows))]
fn formed<S: Scope>(
    scope: &mut S,
    listing: &Listing,
    here: &Here,
    at: usize,
    ty: Id,
) -> Result<Next, ElabFault>
    requires here { IsHere (S.known scope.old) here.now }
    requires ty { IsTypeOf (S.known scope.old) ty }
    ensures { (t : Sources) → Lists listing.now t → Steps (S.known scope.old) (S.known scope.new) t here.now (name_answer (site_in (S.known scope.old) t here.now) (S.known scope.old).stored t row.Formed at (meaning (S.known scope.old).stored (value.Formed ty))) result }
{
    match scope.well_formed(here, ty) {
        Ok(()) => Ok(give(Value::Formed(ty))),
        Err(fault) => Err(fault_of(listing, at, at, fault)),
    }
}

/// What typing says of the tree that a name stands for.
#[tactic(auto, using(crate::proofs::KnownLaws::memory_failed, crate::proofs::KnownLaws::grows_none))]
pub(crate) fn resume_name<S: Scope>(
    scope: &mut S,
    listing: &Listing,
    here: &Here,
    row: NameRow,
    at: usize,
    value: Value,
) -> Result<Next, ElabFault>
    requires here { IsHere (S.known scope.old) here.now }
    requires row { AreKnownNumbers (S.known scope.old) (name_numbers row) }
    requires value { AreKnownNumbers (S.known scope.old) (value_numbers value) }
    ensures { (t : Sources) → Lists listing.now t → Steps (S.known scope.old) (S.known scope.new) t here.now (name_answer (site_in (S.known scope.old) t here.now) (S.known scope.old).stored t row at (meaning (S.known scope.old).stored value)) result }
{
    match row {
        NameRow::Infer => match value {
            Value::Term(tree) => inferred(scope, listing, here, at, tree),
            _ => Err(ElabFault::Memory),
        },
        NameRow::Check(want) => match value {
            Value::Term(tree) => checked(scope, listing, here, want, at, tree),
            _ => Err(ElabFault::Memory),
        },
        NameRow::Formed => match value {
            Value::Formed(ty) => formed(scope, listing, here, at, ty),
            _ => Err(ElabFault::Memory),
        },
    }
}
