//! Projections.

ghost use Rattle.std.specs.Prelude.{◌≡◌, ◌≤◌, suc, IfOk};
ghost use Rattle.pvs_phrases.specs.Numbers.{in_range};
ghost use Rattle.pvs_elab.specs.Desugar.{decimal};
ghost use Rattle.pvs_terms.specs.Stored.{tree_at};
ghost use Rattle.pvs_elaboration.specs.declared.parts.PartRow.TheVariants as part_row;
ghost use Rattle.pvs_elaboration.specs.declared.value.Value.TheVariants as value;
ghost use Rattle.pvs_elaboration.specs.Known.{AreKnownNumbers, IsHere, IsTermOf, IsTypeOf, Sources, place_in, site_in, word_at};
ghost use Rattle.pvs_elaboration.specs.Meanings.{meaning, typed_answer, typed_at, value_numbers};
ghost use Rattle.pvs_elaboration.specs.Parts.{components, part_answer, part_components, part_number, part_numbers, part_start};
ghost use Rattle.pvs_elaboration.specs.Listing.{Lists};
ghost use Rattle.pvs_elaboration.specs.Machine.{Follows, Steps};

use crate::fault::ElabFault;
use crate::frame::{Frame, Next, give, give_to};
use crate::here::{Here, Typed};
use crate::listing::{Listing, fault_at};
use crate::making::make_term;
use crate::scope::Scope;
use crate::steps::fault_of;
use crate::tuples::tuple_size;
use crate::value::Value;
use pvs_base::Code;
use pvs_phrases::projection_number;
use pvs_subst::SubstFault;
use pvs_terms::{Id, Node};

/// What is left of a projection. Each has the numbers of what was found before. From `From` on it
/// begins with how many components the tuple has beyond two, and how many others stand before the
/// component, but for one from `Others` on.
#[derive(Clone, Copy)]
pub(crate) enum PartRow {
    /// The head of the type of the operand, after the operand.
    Operand,
    /// How many components it has, after that: the operand.
    Size(Typed),
    /// The head of the type of a tuple, after the tuple.
    From(u32, u32),
    /// Its first component, after that: the tuple.
    Head(u32, u32, Id),
    /// The tuple of the others, after the first: the tuple, and the type of the others.
    Others(u32, u32, Id, Id),
    /// The type of the others, after their tuple: the first, and the type of the others.
    Rest(u32, u32, Id, Id),
    /// The component of the others, after their type: their tuple.
    Next(u32, u32, Id),
}

/// The number of a component.
#[derive(Clone, Copy)]
pub(crate) struct Projection {
    /// The number of its digits among the names.
    pub digits: usize,
    /// The place of the number.
    pub number_at: usize,
    /// The place of the operand.
    pub at: usize,
}

/// The number of a component, where it is not above `u32::MAX`.
fn index_of(listing: &Listing, digits: usize) -> Result<Option<u32>, ElabFault>
    ensures { IfOk result (λ i. (t : Sources) → Lists listing.now t → in_range (decimal 0 (word_at t digits)) ≡ i) }
{
    if digits >= listing.names.len() {
        return Err(ElabFault::Memory);
    }
    Ok(projection_number(listing.names[digits]))
}

/// The head of the type of an operand.
#[tactic(auto, using(crate::proofs::PartLaws::operand_follows, crate::proofs::PartLaws::operand_refused, crate::proofs::ListingLaws::failed_or_memory))]
fn resume_operand<S: Scope>(
    scope: &mut S,
    listing: &Listing,
    here: &Here,
    operand: Typed,
    projection: Projection,
) -> Result<Next, ElabFault>
    requires here { IsHere (S.known scope.old) here.now }
    requires operand { AreKnownNumbers (S.known scope.old) (value_numbers (value.Typed operand)) }
    ensures { (t : Sources) → Lists listing.now t → Steps (S.known scope.old) (S.known scope.new) t here.now (part_answer (site_in (S.known scope.old) t here.now) (S.known scope.old).stored t part_row.Operand projection (meaning (S.known scope.old).stored (value.Typed operand))) result }
{
    match scope.head(here, operand.ty) {
        Ok(head) => Ok(give_to(
            Value::Formed(head),
            Frame::Part(PartRow::Size(operand), projection),
        )),
        Err(fault) => Err(fault_of(listing, projection.at, projection.at, fault)),
    }
}

/// Whether a tuple of so many components has the one of a number.
#[tactic(auto, using(crate::proofs::PartLaws::start_follows, crate::proofs::PartLaws::no_part_zero, crate::proofs::PartLaws::no_such_part, crate::proofs::PartLaws::no_part_beyond, crate::proofs::ListingLaws::failed_or_memory, crate::proofs::KnownLaws::memory_failed, crate::proofs::KnownLaws::grows_none))]
fn start<S: Scope>(
    scope: &S,
    listing: &Listing,
    here: &Here,
    operand: Typed,
    size: u32,
    projection: Projection,
) -> Result<Next, ElabFault>
    requires here { IsHere (S.known scope.now) here.now }
    requires operand { AreKnownNumbers (S.known scope.now) (value_numbers (value.Typed operand)) }
    requires size { 2 ≤ size }
    ensures { (t : Sources) → Lists listing.now t → Steps (S.known scope.now) (S.known scope.now) t here.now (typed_answer (part_start (site_in (S.known scope.now) t here.now) (place_in t projection.at) (place_in t projection.number_at) (part_number t projection) (typed_at (S.known scope.now).stored operand) size)) result }
{
    let _store = scope.store();
    let _depth = here.depth;
    match index_of(listing, projection.digits) {
        Ok(Some(index)) => {
            if index == 0 {
                Err(fault_at(listing, projection.number_at, Code::NoSuchPart))
            } else if index > size {
                Err(fault_at(listing, projection.number_at, Code::NoSuchPart))
            } else {
                Ok(give_to(
                    Value::Typed(operand),
                    Frame::Part(PartRow::From(size - 2, index - 1), projection),
                ))
            }
        }
        Ok(None) => Err(fault_at(listing, projection.number_at, Code::NoSuchPart)),
        Err(_) => Err(ElabFault::Memory),
    }
}

/// How many components the tuple of an operand has.
#[tactic(auto, using(crate::proofs::PartLaws::size_row, crate::proofs::PartLaws::not_a_tuple, crate::proofs::ListingLaws::failed_or_memory))]
fn resume_size<S: Scope>(
    scope: &S,
    listing: &Listing,
    here: &Here,
    operand: Typed,
    head: Id,
    projection: Projection,
) -> Result<Next, ElabFault>
    requires here { IsHere (S.known scope.now) here.now }
    requires operand { AreKnownNumbers (S.known scope.now) (value_numbers (value.Typed operand)) }
    requires head { IsTypeOf (S.known scope.now) head }
    ensures { (t : Sources) → Lists listing.now t → Steps (S.known scope.now) (S.known scope.now) t here.now (part_answer (site_in (S.known scope.now) t here.now) (S.known scope.now).stored t (part_row.Size operand) projection (meaning (S.known scope.now).stored (value.Formed head))) result }
{
    match scope.type_view(head) {
        Node::TPair(size, _, _) => start(scope, listing, here, operand, size, projection),
        _ => Err(fault_at(listing, projection.at, Code::NotTuple)),
    }
}

/// The head of the type of a tuple.
#[tactic(auto, using(crate::proofs::PartLaws::from_follows, crate::proofs::PartLaws::from_refused, crate::proofs::ListingLaws::failed_or_memory))]
fn resume_from<S: Scope>(
    scope: &mut S,
    listing: &Listing,
    here: &Here,
    beyond: u32,
    before: u32,
    tuple: Typed,
    projection: Projection,
) -> Result<Next, ElabFault>
    requires here { IsHere (S.known scope.old) here.now }
    requires tuple { AreKnownNumbers (S.known scope.old) (value_numbers (value.Typed tuple)) }
    ensures { (t : Sources) → Lists listing.now t → Steps (S.known scope.old) (S.known scope.new) t here.now (part_answer (site_in (S.known scope.old) t here.now) (S.known scope.old).stored t (part_row.From beyond before) projection (meaning (S.known scope.old).stored (value.Typed tuple))) result }
{
    match scope.head(here, tuple.ty) {
        Ok(head) => Ok(give_to(
            Value::Formed(head),
            Frame::Part(PartRow::Head(beyond, before, tuple.tree), projection),
        )),
        Err(fault) => Err(fault_of(listing, projection.at, projection.at, fault)),
    }
}

/// The first component of a tuple, or what leads to one of the others.
#[tactic(auto, using(crate::proofs::PartLaws::first_row, crate::proofs::PartLaws::others_row))]
fn make_first<S: Scope>(
    scope: &mut S,
    listing: &Listing,
    here: &Here,
    beyond: u32,
    before: u32,
    tuple: Id,
    first: Id,
    second: Id,
    size: u32,
    projection: Projection,
) -> Result<Next, ElabFault>
    requires here { IsHere (S.known scope.old) here.now }
    requires tuple { IsTermOf (S.known scope.old) tuple }
    requires first { IsTypeOf (S.known scope.old) first }
    requires second { IsTypeOf (S.known scope.old) second }
    requires size { size ≡ suc (suc beyond) }
    ensures { (t : Sources) → Lists listing.now t → Steps (S.known scope.old) (S.known scope.new) t here.now (typed_answer (part_components (site_in (S.known scope.old) t here.now) (place_in t projection.at) (place_in t projection.number_at) size before (tree_at (S.known scope.old).stored tuple) (components (tree_at (S.known scope.old).stored first) (tree_at (S.known scope.old).stored second)))) result }
{
    if before == 0 {
        make_term(
            scope,
            listing,
            here,
            projection.at,
            Node::Fst(size, tuple),
            Frame::WithType(first),
        )
    } else {
        make_term(
            scope,
            listing,
            here,
            projection.at,
            Node::Fst(size, tuple),
            Frame::Part(
                PartRow::Others(beyond, before - 1, tuple, second),
                projection,
            ),
        )
    }
}

/// The components of the type of a tuple.
#[tactic(auto, using(crate::proofs::PartLaws::head_row, crate::proofs::PartLaws::other_size, crate::proofs::PartLaws::not_a_tuple_type, crate::proofs::ListingLaws::failed_or_memory))]
fn resume_head<S: Scope>(
    scope: &mut S,
    listing: &Listing,
    here: &Here,
    beyond: u32,
    before: u32,
    tuple: Id,
    head: Id,
    projection: Projection,
) -> Result<Next, ElabFault>
    requires here { IsHere (S.known scope.old) here.now }
    requires tuple { IsTermOf (S.known scope.old) tuple }
    requires head { IsTypeOf (S.known scope.old) head }
    ensures { (t : Sources) → Lists listing.now t → Steps (S.known scope.old) (S.known scope.new) t here.now (part_answer (site_in (S.known scope.old) t here.now) (S.known scope.old).stored t (part_row.Head beyond before tuple) projection (meaning (S.known scope.old).stored (value.Formed head))) result }
{
    match scope.type_view(head) {
        Node::TPair(size, first, second) => {
            if size - 2 == beyond {
                make_first(
                    scope, listing, here, beyond, before, tuple, first, second, size, projection,
                )
            } else {
                Err(fault_at(listing, projection.number_at, Code::NoSuchPart))
            }
        }
        _ => Err(fault_at(listing, projection.at, Code::NotTuple)),
    }
}

/// The tuple of the components after the first.
#[tactic(auto, using(crate::proofs::PartLaws::tuple_row, crate::proofs::KnownLaws::memory_failed, crate::proofs::KnownLaws::grows_none))]
fn make_others<S: Scope>(
    scope: &mut S,
    listing: &Listing,
    here: &Here,
    beyond: u32,
    before: u32,
    tuple: Id,
    second: Id,
    first: Id,
    projection: Projection,
) -> Result<Next, ElabFault>
    requires here { IsHere (S.known scope.old) here.now }
    requires tuple { IsTermOf (S.known scope.old) tuple }
    requires second { IsTypeOf (S.known scope.old) second }
    requires first { IsTermOf (S.known scope.old) first }
    ensures { (t : Sources) → Lists listing.now t → Steps (S.known scope.old) (S.known scope.new) t here.now (part_answer (site_in (S.known scope.old) t here.now) (S.known scope.old).stored t (part_row.Others beyond before tuple second) projection (meaning (S.known scope.old).stored (value.Term first))) result }
{
    match tuple_size(beyond as usize) {
        Ok(size) => make_term(
            scope,
            listing,
            here,
            projection.at,
            Node::Snd(size, tuple),
            Frame::Part(PartRow::Rest(beyond, before, first, second), projection),
        ),
        Err(_) => Err(ElabFault::Memory),
    }
}

/// The type of the components after the first, with the first in the place of its variable.
#[tactic(auto, using(crate::proofs::PartLaws::rest_follows, crate::proofs::PartLaws::rest_large, crate::proofs::ListingLaws::failed_or_memory, crate::proofs::KnownLaws::memory_failed))]
fn resume_rest<S: Scope>(
    scope: &mut S,
    listing: &Listing,
    here: &Here,
    beyond: u32,
    before: u32,
    first: Id,
    second: Id,
    others: Id,
    projection: Projection,
) -> Result<Next, ElabFault>
    requires here { IsHere (S.known scope.old) here.now }
    requires first { IsTermOf (S.known scope.old) first }
    requires second { IsTypeOf (S.known scope.old) second }
    requires others { IsTermOf (S.known scope.old) others }
    ensures { (t : Sources) → Lists listing.now t → Steps (S.known scope.old) (S.known scope.new) t here.now (part_answer (site_in (S.known scope.old) t here.now) (S.known scope.old).stored t (part_row.Rest beyond before first second) projection (meaning (S.known scope.old).stored (value.Term others))) result }
{
    match scope.put_in(second, first) {
        Ok(ty) => Ok(give_to(
            Value::Formed(ty),
            Frame::Part(PartRow::Next(beyond, before, others), projection),
        )),
        Err(SubstFault::TooLarge) => Err(fault_at(listing, projection.at, Code::TooLarge)),
        Err(SubstFault::Memory) => Err(ElabFault::Memory),
    }
}

/// The tuple of the components after the first, or the only one.
#[tactic(auto, using(crate::proofs::PartLaws::last_follows, crate::proofs::PartLaws::next_follows))]
fn resume_next<S: Scope>(
    scope: &S,
    here: &Here,
    beyond: u32,
    before: u32,
    others: Id,
    ty: Id,
    projection: Projection,
) -> Next
    requires here { IsHere (S.known scope.now) here.now }
    requires others { IsTermOf (S.known scope.now) others }
    requires ty { IsTypeOf (S.known scope.now) ty }
    ensures { (t : Sources) → Follows (S.known scope.now) (S.known scope.now) t here.now (part_answer (site_in (S.known scope.now) t here.now) (S.known scope.now).stored t (part_row.Next beyond before others) projection (meaning (S.known scope.now).stored (value.Formed ty))) result }
{
    let _store = scope.store();
    let _depth = here.depth;
    let tuple = Typed { tree: others, ty };
    if beyond == 0 {
        give(Value::Typed(tuple))
    } else {
        give_to(
            Value::Typed(tuple),
            Frame::Part(PartRow::From(beyond - 1, before), projection),
        )
    }
}

/// What is done with a value in a projection.
#[tactic(auto, using(crate::proofs::KnownLaws::memory_failed, crate::proofs::KnownLaws::grows_none))]
pub(crate) fn resume_part<S: Scope>(
    scope: &mut S,
    listing: &Listing,
    here: &Here,
    row: PartRow,
    projection: Projection,
    value: Value,
) -> Result<Next, ElabFault>
    requires here { IsHere (S.known scope.old) here.now }
    requires row { AreKnownNumbers (S.known scope.old) (part_numbers row) }
    requires value { AreKnownNumbers (S.known scope.old) (value_numbers value) }
    ensures { (t : Sources) → Lists listing.now t → Steps (S.known scope.old) (S.known scope.new) t here.now (part_answer (site_in (S.known scope.old) t here.now) (S.known scope.old).stored t row projection (meaning (S.known scope.old).stored value)) result }
{
    match value {
        Value::Typed(tuple) => match row {
            PartRow::Operand => resume_operand(scope, listing, here, tuple, projection),
            PartRow::From(beyond, before) => {
                resume_from(scope, listing, here, beyond, before, tuple, projection)
            }
            _ => Err(ElabFault::Memory),
        },
        Value::Formed(ty) => match row {
            PartRow::Size(operand) => resume_size(scope, listing, here, operand, ty, projection),
            PartRow::Head(beyond, before, tuple) => {
                resume_head(scope, listing, here, beyond, before, tuple, ty, projection)
            }
            PartRow::Next(beyond, before, others) => {
                Ok(resume_next(scope, here, beyond, before, others, ty, projection))
            }
            _ => Err(ElabFault::Memory),
        },
        Value::Term(term) => match row {
            PartRow::Others(beyond, before, tuple, second) => make_others(
                scope, listing, here, beyond, before, tuple, second, term, projection,
            ),
            PartRow::Rest(beyond, before, first, second) => resume_rest(
                scope, listing, here, beyond, before, first, second, term, projection,
            ),
            _ => Err(ElabFault::Memory),
        },
        Value::Done => Err(ElabFault::Memory),
    }
}
