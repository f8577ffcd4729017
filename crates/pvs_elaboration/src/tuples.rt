//! Tuples, and types of tuples.

ghost use Rattle.std.specs.Prelude.{◌≡◌, suc, IfOk};
ghost use Rattle.pvs_elaboration.specs.declared.tuples.ProductRow.TheVariants as product_row;
ghost use Rattle.pvs_elaboration.specs.declared.tuples.TupleRow.TheVariants as tuple_row;
ghost use Rattle.pvs_elaboration.specs.declared.value.Value.TheVariants as value;
ghost use Rattle.pvs_elaboration.specs.Known.{AreKnownNumbers, IsHere, IsTermOf, IsTypeOf, Sources, site_in};
ghost use Rattle.pvs_elaboration.specs.Meanings.{meaning, value_numbers};
ghost use Rattle.pvs_elaboration.specs.Tuples.{product_answer, product_numbers, tuple_answer, tuple_numbers};
ghost use Rattle.pvs_elaboration.specs.Listing.{Lists};
ghost use Rattle.pvs_elaboration.specs.Machine.{Steps};

use crate::binder::Binding;
use crate::fault::ElabFault;
use crate::frame::{Frame, Next, ask_then, ask_with, give_to};
use crate::here::{Here, Typed};
use crate::listing::{Listing, fault_at};
use crate::making::{make_term, make_type};
use crate::scope::Scope;
use crate::value::{Mode, Value};
use pvs_base::Code;
use pvs_subst::SubstFault;
use pvs_terms::{Id, Node};

/// What is left of a tuple. Each has the numbers of what was found before.
#[derive(Clone, Copy)]
pub(crate) enum TupleRow {
    /// The others, after the first.
    First,
    /// The tree, after the others: the first.
    Second(Typed),
    /// The type of the others under a variable, after the tree: the type of the first, and that of
    /// the others.
    Tree(Id, Id),
    /// The type, after that: the tree, and the type of the first.
    Lifted(Id, Id),
}

/// The other components of a tuple.
#[derive(Clone, Copy)]
pub(crate) struct Pair {
    pub second: usize,
    /// How many components the tuple has beyond two.
    pub beyond: usize,
    /// The place of the whole.
    pub at: usize,
}

/// What is left of a type of tuples. Each has the numbers of what was found before.
#[derive(Clone, Copy)]
pub(crate) enum ProductRow {
    /// The type of the others, after that of the first.
    First,
    /// The tree, after that: the type of the first.
    Second(Id),
}

/// How many components a tuple has that has so many beyond two.
///
/// Memory where this passes `u32::MAX`.
pub(crate) fn tuple_size(beyond: usize) -> Result<u32, ElabFault>
    ensures { IfOk result (λ k. k ≡ suc (suc beyond)) }
{
    if beyond > 0xffff_fffd {
        return Err(ElabFault::Memory);
    }
    Ok(beyond as u32 + 2)
}

/// The tree of a tuple.
#[tactic(auto, using(crate::proofs::TupleLaws::second_row, crate::proofs::KnownLaws::memory_failed, crate::proofs::KnownLaws::grows_none))]
fn make_tuple<S: Scope>(
    scope: &mut S,
    listing: &Listing,
    here: &Here,
    first: Typed,
    second: Typed,
    pair: Pair,
) -> Result<Next, ElabFault>
    requires here { IsHere (S.known scope.old) here.now }
    requires first { AreKnownNumbers (S.known scope.old) (value_numbers (value.Typed first)) }
    requires second { AreKnownNumbers (S.known scope.old) (value_numbers (value.Typed second)) }
    ensures { (t : Sources) → Lists listing.now t → Steps (S.known scope.old) (S.known scope.new) t here.now (tuple_answer (site_in (S.known scope.old) t here.now) (S.known scope.old).stored t (tuple_row.Second first) pair (meaning (S.known scope.old).stored (value.Typed second))) result }
{
    match tuple_size(pair.beyond) {
        Ok(size) => make_term(
            scope,
            listing,
            here,
            pair.at,
            Node::Tup(size, first.tree, second.tree),
            Frame::Tuple(TupleRow::Tree(first.ty, second.ty), pair),
        ),
        Err(_) => Err(ElabFault::Memory),
    }
}

/// The type of the others, under a variable for the first.
#[tactic(auto, using(crate::proofs::TupleLaws::tree_follows, crate::proofs::TupleLaws::tree_large, crate::proofs::ListingLaws::failed_or_memory, crate::proofs::KnownLaws::memory_failed))]
fn lift_second<S: Scope>(
    scope: &mut S,
    listing: &Listing,
    here: &Here,
    tree: Id,
    first: Id,
    second: Id,
    pair: Pair,
) -> Result<Next, ElabFault>
    requires here { IsHere (S.known scope.old) here.now }
    requires tree { IsTermOf (S.known scope.old) tree }
    requires first { IsTypeOf (S.known scope.old) first }
    requires second { IsTypeOf (S.known scope.old) second }
    ensures { (t : Sources) → Lists listing.now t → Steps (S.known scope.old) (S.known scope.new) t here.now (tuple_answer (site_in (S.known scope.old) t here.now) (S.known scope.old).stored t (tuple_row.Tree first second) pair (meaning (S.known scope.old).stored (value.Term tree))) result }
{
    match scope.lift_type(second, 1) {
        Ok(lifted) => Ok(give_to(
            Value::Formed(lifted),
            Frame::Tuple(TupleRow::Lifted(tree, first), pair),
        )),
        Err(SubstFault::TooLarge) => Err(fault_at(listing, pair.at, Code::TooLarge)),
        Err(SubstFault::Memory) => Err(ElabFault::Memory),
    }
}

/// The type of a tuple.
#[tactic(auto, using(crate::proofs::TupleLaws::lifted_row, crate::proofs::KnownLaws::memory_failed, crate::proofs::KnownLaws::grows_none))]
fn make_tuple_type<S: Scope>(
    scope: &mut S,
    listing: &Listing,
    here: &Here,
    tree: Id,
    first: Id,
    lifted: Id,
    pair: Pair,
) -> Result<Next, ElabFault>
    requires here { IsHere (S.known scope.old) here.now }
    requires tree { IsTermOf (S.known scope.old) tree }
    requires first { IsTypeOf (S.known scope.old) first }
    requires lifted { IsTypeOf (S.known scope.old) lifted }
    ensures { (t : Sources) → Lists listing.now t → Steps (S.known scope.old) (S.known scope.new) t here.now (tuple_answer (site_in (S.known scope.old) t here.now) (S.known scope.old).stored t (tuple_row.Lifted tree first) pair (meaning (S.known scope.old).stored (value.Formed lifted))) result }
{
    match tuple_size(pair.beyond) {
        Ok(size) => make_type(
            scope,
            listing,
            here,
            pair.at,
            Node::TPair(size, first, lifted),
            Frame::WithTerm(tree),
        ),
        Err(_) => Err(ElabFault::Memory),
    }
}

/// What is done with a value in a tuple.
#[tactic(auto, using(crate::proofs::TupleLaws::first_follows, crate::proofs::KnownLaws::memory_failed, crate::proofs::KnownLaws::grows_none))]
pub(crate) fn resume_tuple<S: Scope>(
    scope: &mut S,
    listing: &Listing,
    here: &Here,
    row: TupleRow,
    pair: Pair,
    value: Value,
) -> Result<Next, ElabFault>
    requires here { IsHere (S.known scope.old) here.now }
    requires row { AreKnownNumbers (S.known scope.old) (tuple_numbers row) }
    requires value { AreKnownNumbers (S.known scope.old) (value_numbers value) }
    ensures { (t : Sources) → Lists listing.now t → Steps (S.known scope.old) (S.known scope.new) t here.now (tuple_answer (site_in (S.known scope.old) t here.now) (S.known scope.old).stored t row pair (meaning (S.known scope.old).stored value)) result }
{
    match row {
        TupleRow::First => match value {
            Value::Typed(first) => Ok(ask_then(
                pair.second,
                Mode::Infer,
                Frame::Tuple(TupleRow::Second(first), pair),
            )),
            _ => Err(ElabFault::Memory),
        },
        TupleRow::Second(first) => match value {
            Value::Typed(second) => make_tuple(scope, listing, here, first, second, pair),
            _ => Err(ElabFault::Memory),
        },
        TupleRow::Tree(first, second) => match value {
            Value::Term(tree) => lift_second(scope, listing, here, tree, first, second, pair),
            _ => Err(ElabFault::Memory),
        },
        TupleRow::Lifted(tree, first) => match value {
            Value::Formed(lifted) => {
                make_tuple_type(scope, listing, here, tree, first, lifted, pair)
            }
            _ => Err(ElabFault::Memory),
        },
    }
}

/// The type of the tuples of so many components beyond two.
#[tactic(auto, using(crate::proofs::TupleLaws::product_row, crate::proofs::KnownLaws::memory_failed, crate::proofs::KnownLaws::grows_none))]
fn make_product<S: Scope>(
    scope: &mut S,
    listing: &Listing,
    here: &Here,
    first: Id,
    second: Id,
    beyond: usize,
    binding: Binding,
) -> Result<Next, ElabFault>
    requires here { IsHere (S.known scope.old) here.now }
    requires first { IsTypeOf (S.known scope.old) first }
    requires second { IsTypeOf (S.known scope.old) second }
    ensures { (t : Sources) → Lists listing.now t → Steps (S.known scope.old) (S.known scope.new) t here.now (product_answer (site_in (S.known scope.old) t here.now) (S.known scope.old).stored t (product_row.Second first) beyond binding (meaning (S.known scope.old).stored (value.Formed second))) result }
{
    match tuple_size(beyond) {
        Ok(size) => make_type(
            scope,
            listing,
            here,
            binding.at,
            Node::TPair(size, first, second),
            Frame::Same,
        ),
        Err(_) => Err(ElabFault::Memory),
    }
}

/// What is done with a value in a type of tuples of so many components beyond two.
#[tactic(auto, using(crate::proofs::TupleLaws::product_follows, crate::proofs::KnownLaws::memory_failed, crate::proofs::KnownLaws::grows_none))]
pub(crate) fn resume_product<S: Scope>(
    scope: &mut S,
    listing: &Listing,
    here: &Here,
    row: ProductRow,
    beyond: usize,
    binding: Binding,
    value: Value,
) -> Result<Next, ElabFault>
    requires here { IsHere (S.known scope.old) here.now }
    requires row { AreKnownNumbers (S.known scope.old) (product_numbers row) }
    requires value { AreKnownNumbers (S.known scope.old) (value_numbers value) }
    ensures { (t : Sources) → Lists listing.now t → Steps (S.known scope.old) (S.known scope.new) t here.now (product_answer (site_in (S.known scope.old) t here.now) (S.known scope.old).stored t row beyond binding (meaning (S.known scope.old).stored value)) result }
{
    match value {
        Value::Formed(ty) => match row {
            ProductRow::First => Ok(ask_with(
                binding.name,
                ty,
                binding.body,
                Mode::Formed,
                Frame::Product(ProductRow::Second(ty), beyond, binding),
            )),
            ProductRow::Second(first) => {
                make_product(scope, listing, here, first, ty, beyond, binding)
            }
        },
        _ => Err(ElabFault::Memory),
    }
}
