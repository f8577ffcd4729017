//! Predicate subtypes, and predicates as types.

ghost use Rattle.pvs_elaboration.specs.declared.subtypes.PredicateRow.TheVariants as predicate_row;
ghost use Rattle.pvs_elaboration.specs.declared.value.Value.TheVariants as value;
ghost use Rattle.pvs_elaboration.specs.Known.{AreKnownNumbers, IsHere, IsTermOf, IsTypeOf, Sources, site_in};
ghost use Rattle.pvs_elaboration.specs.Meanings.{meaning, value_numbers};
ghost use Rattle.pvs_elaboration.specs.Subtypes.{predicate_answer, predicate_numbers, subtype_answer, subtype_numbers};
ghost use Rattle.pvs_elaboration.specs.Listing.{Lists};
ghost use Rattle.pvs_elaboration.specs.Machine.{Steps};

use crate::binder::Binding;
use crate::fault::ElabFault;
use crate::frame::{Frame, Next, ask_with, give_to};
use crate::here::{Here, Typed};
use crate::listing::{Listing, fault_at};
use crate::making::{make_term, make_type};
use crate::names::NameRow;
use crate::scope::Scope;
use crate::steps::fault_of;
use crate::value::{Mode, Value};
use pvs_base::Code;
use pvs_subst::SubstFault;
use pvs_terms::{Id, Node};

/// What is left of a predicate subtype. Each has the numbers of what was found before.
#[derive(Clone, Copy)]
pub(crate) enum SubtypeRow {
    /// The predicate, after the type of the variable.
    Type,
    /// The tree, after the predicate: the type of the variable.
    Predicate(Id),
}

/// What is left of a predicate as a type. Each has the numbers of what was found before.
#[derive(Clone, Copy)]
pub(crate) enum PredicateRow {
    /// The head of the type of the predicate, after the predicate.
    Type,
    /// The head of its range, after that: the predicate.
    Head(Id),
    /// The predicate under a variable, after that: the predicate, and its domain.
    Range(Id, Id),
    /// Its application to the variable, after it: the domain.
    Lifted(Id),
    /// The tree, after the application: the domain.
    Application(Id),
}

/// What is done with a value in a predicate subtype.
#[tactic(auto, using(crate::proofs::SubtypeLaws::subtype_follows, crate::proofs::SubtypeLaws::predicate_row, crate::proofs::KnownLaws::memory_failed, crate::proofs::KnownLaws::grows_none))]
pub(crate) fn resume_subtype<S: Scope>(
    scope: &mut S,
    listing: &Listing,
    here: &Here,
    row: SubtypeRow,
    binding: Binding,
    value: Value,
) -> Result<Next, ElabFault>
    requires here { IsHere (S.known scope.old) here.now }
    requires row { AreKnownNumbers (S.known scope.old) (subtype_numbers row) }
    requires value { AreKnownNumbers (S.known scope.old) (value_numbers value) }
    ensures { (t : Sources) → Lists listing.now t → Steps (S.known scope.old) (S.known scope.new) t here.now (subtype_answer (site_in (S.known scope.old) t here.now) (S.known scope.old).stored t row binding (meaning (S.known scope.old).stored value)) result }
{
    match row {
        SubtypeRow::Type => match value {
            Value::Formed(ty) => Ok(ask_with(
                binding.name,
                ty,
                binding.body,
                Mode::Check(here.truth),
                Frame::Subtype(SubtypeRow::Predicate(ty), binding),
            )),
            _ => Err(ElabFault::Memory),
        },
        SubtypeRow::Predicate(ty) => match value {
            Value::Term(predicate) => make_type(
                scope,
                listing,
                here,
                binding.at,
                Node::TSub(ty, predicate),
                Frame::Same,
            ),
            _ => Err(ElabFault::Memory),
        },
    }
}

/// The head of the type of a predicate, which begins at a place.
#[tactic(auto, using(crate::proofs::SubtypeLaws::type_follows, crate::proofs::SubtypeLaws::type_refused, crate::proofs::ListingLaws::failed_or_memory))]
fn resume_type<S: Scope>(
    scope: &mut S,
    listing: &Listing,
    here: &Here,
    predicate: Typed,
    start: usize,
    at: usize,
) -> Result<Next, ElabFault>
    requires here { IsHere (S.known scope.old) here.now }
    requires predicate { AreKnownNumbers (S.known scope.old) (value_numbers (value.Typed predicate)) }
    ensures { (t : Sources) → Lists listing.now t → Steps (S.known scope.old) (S.known scope.new) t here.now (predicate_answer (site_in (S.known scope.old) t here.now) (S.known scope.old).stored t predicate_row.Type start at (meaning (S.known scope.old).stored (value.Typed predicate))) result }
{
    match scope.head(here, predicate.ty) {
        Ok(head) => Ok(give_to(
            Value::Formed(head),
            Frame::Predicate(PredicateRow::Head(predicate.tree), start, at),
        )),
        Err(fault) => Err(fault_of(listing, start, start, fault)),
    }
}

/// The head of the range of a predicate.
#[tactic(auto, using(crate::proofs::SubtypeLaws::head_follows, crate::proofs::SubtypeLaws::head_refused, crate::proofs::SubtypeLaws::not_a_function, crate::proofs::ListingLaws::failed_or_memory))]
fn resume_head<S: Scope>(
    scope: &mut S,
    listing: &Listing,
    here: &Here,
    predicate: Id,
    head: Id,
    start: usize,
    at: usize,
) -> Result<Next, ElabFault>
    requires here { IsHere (S.known scope.old) here.now }
    requires predicate { IsTermOf (S.known scope.old) predicate }
    requires head { IsTypeOf (S.known scope.old) head }
    ensures { (t : Sources) → Lists listing.now t → Steps (S.known scope.old) (S.known scope.new) t here.now (predicate_answer (site_in (S.known scope.old) t here.now) (S.known scope.old).stored t (predicate_row.Head predicate) start at (meaning (S.known scope.old).stored (value.Formed head))) result }
{
    match scope.type_view(head) {
        Node::TFun(domain, range) => match scope.head(here, range) {
            Ok(range) => Ok(give_to(
                Value::Formed(range),
                Frame::Predicate(PredicateRow::Range(predicate, domain), start, at),
            )),
            Err(fault) => Err(fault_of(listing, start, start, fault)),
        },
        _ => Err(fault_at(listing, start, Code::NotPredicate)),
    }
}

/// A predicate under a variable of its domain, where its range is the type of truth values.
#[tactic(auto, using(crate::proofs::SubtypeLaws::range_follows, crate::proofs::SubtypeLaws::range_large, crate::proofs::SubtypeLaws::not_a_predicate, crate::proofs::ListingLaws::failed_or_memory, crate::proofs::KnownLaws::memory_failed))]
fn resume_range<S: Scope>(
    scope: &mut S,
    listing: &Listing,
    here: &Here,
    predicate: Id,
    domain: Id,
    range: Id,
    start: usize,
    at: usize,
) -> Result<Next, ElabFault>
    requires here { IsHere (S.known scope.old) here.now }
    requires predicate { IsTermOf (S.known scope.old) predicate }
    requires domain { IsTypeOf (S.known scope.old) domain }
    requires range { IsTypeOf (S.known scope.old) range }
    ensures { (t : Sources) → Lists listing.now t → Steps (S.known scope.old) (S.known scope.new) t here.now (predicate_answer (site_in (S.known scope.old) t here.now) (S.known scope.old).stored t (predicate_row.Range predicate domain) start at (meaning (S.known scope.old).stored (value.Formed range))) result }
{
    match scope.type_view(range) {
        Node::TBool => match scope.lift(predicate, 1) {
            Ok(lifted) => Ok(give_to(
                Value::Term(lifted),
                Frame::Predicate(PredicateRow::Lifted(domain), start, at),
            )),
            Err(SubstFault::TooLarge) => Err(fault_at(listing, at, Code::TooLarge)),
            Err(SubstFault::Memory) => Err(ElabFault::Memory),
        },
        _ => Err(fault_at(listing, start, Code::NotPredicate)),
    }
}

/// What is done with a value in a predicate as a type, which begins at a place.
#[tactic(auto, using(crate::proofs::SubtypeLaws::lifted_row, crate::proofs::SubtypeLaws::application_row, crate::proofs::KnownLaws::memory_failed, crate::proofs::KnownLaws::grows_none))]
pub(crate) fn resume_predicate<S: Scope>(
    scope: &mut S,
    listing: &Listing,
    here: &Here,
    row: PredicateRow,
    start: usize,
    at: usize,
    value: Value,
) -> Result<Next, ElabFault>
    requires here { IsHere (S.known scope.old) here.now }
    requires row { AreKnownNumbers (S.known scope.old) (predicate_numbers row) }
    requires value { AreKnownNumbers (S.known scope.old) (value_numbers value) }
    ensures { (t : Sources) → Lists listing.now t → Steps (S.known scope.old) (S.known scope.new) t here.now (predicate_answer (site_in (S.known scope.old) t here.now) (S.known scope.old).stored t row start at (meaning (S.known scope.old).stored value)) result }
{
    match value {
        Value::Typed(predicate) => match row {
            PredicateRow::Type => resume_type(scope, listing, here, predicate, start, at),
            _ => Err(ElabFault::Memory),
        },
        Value::Formed(ty) => match row {
            PredicateRow::Head(predicate) => {
                resume_head(scope, listing, here, predicate, ty, start, at)
            }
            PredicateRow::Range(predicate, domain) => {
                resume_range(scope, listing, here, predicate, domain, ty, start, at)
            }
            _ => Err(ElabFault::Memory),
        },
        Value::Term(term) => match row {
            PredicateRow::Lifted(domain) => make_term(
                scope,
                listing,
                here,
                at,
                Node::App(term, here.variable),
                Frame::Predicate(PredicateRow::Application(domain), start, at),
            ),
            PredicateRow::Application(domain) => make_type(
                scope,
                listing,
                here,
                at,
                Node::TSub(domain, term),
                Frame::Name(NameRow::Formed, at),
            ),
            _ => Err(ElabFault::Memory),
        },
        Value::Done => Err(ElabFault::Memory),
    }
}
