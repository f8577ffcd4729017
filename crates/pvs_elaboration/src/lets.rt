//! LET.

ghost use Rattle.pvs_elaboration.specs.declared.lets.LetRow.TheVariants as let_row;
ghost use Rattle.pvs_elaboration.specs.declared.value.Value.TheVariants as value;
ghost use Rattle.pvs_elaboration.specs.Known.{AreKnownNumbers, IsHere, IsTermOf, IsTypeOf, Sources, site_in};
ghost use Rattle.pvs_elaboration.specs.Meanings.{meaning, value_numbers};
ghost use Rattle.pvs_elaboration.specs.Lets.{let_answer, let_numbers};
ghost use Rattle.pvs_elaboration.specs.Listing.{Lists};
ghost use Rattle.pvs_elaboration.specs.Machine.{Steps};

use crate::fault::ElabFault;
use crate::frame::{Frame, Next, ask_then, ask_with, give_to};
use crate::here::{Here, Typed};
use crate::listing::{Listing, fault_at};
use crate::making::{make_term, make_type};
use crate::scope::Scope;
use crate::steps::fault_of;
use crate::value::{Mode, Value};
use pvs_base::Code;
use pvs_subst::SubstFault;
use pvs_terms::{Id, Node};

/// What is left of a LET. Each has the numbers of what was found before.
#[derive(Clone, Copy)]
pub(crate) enum LetRow {
    /// Whether the type of the value is well formed, after the value.
    Value,
    /// Whether the value is of its type, after that.
    Formed(Typed),
    /// The value, as one of the type that is written, after this type.
    Annotation,
    /// The body, after the value as one of this type.
    Checked(Id),
    /// LAMBDA of the body, after the body: the type of the variable, and the value.
    Body(Id, Id),
    /// Its application, after it: the type of the variable, that of the body, and the value.
    Lambda(Id, Id, Id),
    /// The type of LAMBDA, after the tree: the same.
    Tree(Id, Id, Id),
    /// The type, after that of LAMBDA: the tree, the type of the body, and the value.
    Type(Id, Id, Id),
}

/// The name of a LET, its value, and the body.
#[derive(Clone, Copy)]
pub(crate) struct Definition {
    pub name: usize,
    pub value: usize,
    pub body: usize,
    /// The place of the value.
    pub value_at: usize,
    /// The place of the whole.
    pub at: usize,
}

/// Whether the type that was found for a value is well formed.
#[tactic(auto, using(crate::proofs::LetLaws::value_follows, crate::proofs::LetLaws::value_refused, crate::proofs::ListingLaws::failed_or_memory))]
fn resume_value<S: Scope>(
    scope: &mut S,
    listing: &Listing,
    here: &Here,
    found: Typed,
    definition: Definition,
) -> Result<Next, ElabFault>
    requires here { IsHere (S.known scope.old) here.now }
    requires value { AreKnownNumbers (S.known scope.old) (value_numbers (value.Typed found)) }
    ensures { (t : Sources) → Lists listing.now t → Steps (S.known scope.old) (S.known scope.new) t here.now (let_answer (site_in (S.known scope.old) t here.now) (S.known scope.old).stored t let_row.Value definition (meaning (S.known scope.old).stored (value.Typed found))) result }
{
    match scope.well_formed(here, found.ty) {
        Ok(()) => Ok(give_to(Value::Done, Frame::Let(LetRow::Formed(found), definition))),
        Err(fault) => Err(fault_of(listing, definition.value_at, definition.value_at, fault)),
    }
}

/// Whether a value is of the type that was found for it.
#[tactic(auto, using(crate::proofs::LetLaws::formed_follows, crate::proofs::LetLaws::formed_refused, crate::proofs::ListingLaws::failed_or_memory))]
fn resume_formed<S: Scope>(
    scope: &mut S,
    listing: &Listing,
    here: &Here,
    found: Typed,
    definition: Definition,
) -> Result<Next, ElabFault>
    requires here { IsHere (S.known scope.old) here.now }
    requires value { AreKnownNumbers (S.known scope.old) (value_numbers (value.Typed found)) }
    ensures { (t : Sources) → Lists listing.now t → Steps (S.known scope.old) (S.known scope.new) t here.now (let_answer (site_in (S.known scope.old) t here.now) (S.known scope.old).stored t (let_row.Formed found) definition (meaning (S.known scope.old).stored value.Done)) result }
{
    match scope.check(here, found.tree, found.ty) {
        Ok(()) => Ok(give_to(
            Value::Term(found.tree),
            Frame::Let(LetRow::Checked(found.ty), definition),
        )),
        Err(fault) => Err(fault_of(listing, definition.value_at, definition.value_at, fault)),
    }
}

/// The type of the body, with the value in the place of its variable.
#[tactic(auto, using(crate::proofs::LetLaws::type_follows, crate::proofs::LetLaws::type_large, crate::proofs::ListingLaws::failed_or_memory, crate::proofs::KnownLaws::memory_failed))]
fn type_of<S: Scope>(
    scope: &mut S,
    listing: &Listing,
    here: &Here,
    tree: Id,
    body: Id,
    term: Id,
    function: Id,
    definition: Definition,
) -> Result<Next, ElabFault>
    requires here { IsHere (S.known scope.old) here.now }
    requires tree { IsTermOf (S.known scope.old) tree }
    requires body { IsTypeOf (S.known scope.old) body }
    requires term { IsTermOf (S.known scope.old) term }
    ensures { (t : Sources) → Lists listing.now t → Steps (S.known scope.old) (S.known scope.new) t here.now (let_answer (site_in (S.known scope.old) t here.now) (S.known scope.old).stored t (let_row.Type tree body term) definition (meaning (S.known scope.old).stored (value.Formed function))) result }
{
    match scope.put_in(body, term) {
        Ok(ty) => Ok(give_to(Value::Formed(ty), Frame::WithTerm(tree))),
        Err(SubstFault::TooLarge) => Err(fault_at(listing, definition.at, Code::TooLarge)),
        Err(SubstFault::Memory) => Err(ElabFault::Memory),
    }
}

/// What is done with a term in a LET.
#[tactic(auto, using(crate::proofs::LetLaws::checked_follows, crate::proofs::LetLaws::lambda_row, crate::proofs::LetLaws::tree_row, crate::proofs::KnownLaws::memory_failed, crate::proofs::KnownLaws::grows_none))]
fn resume_term<S: Scope>(
    scope: &mut S,
    listing: &Listing,
    here: &Here,
    row: LetRow,
    definition: Definition,
    term: Id,
) -> Result<Next, ElabFault>
    requires here { IsHere (S.known scope.old) here.now }
    requires row { AreKnownNumbers (S.known scope.old) (let_numbers row) }
    requires term { IsTermOf (S.known scope.old) term }
    ensures { (t : Sources) → Lists listing.now t → Steps (S.known scope.old) (S.known scope.new) t here.now (let_answer (site_in (S.known scope.old) t here.now) (S.known scope.old).stored t row definition (meaning (S.known scope.old).stored (value.Term term))) result }
{
    match row {
        LetRow::Checked(ty) => Ok(ask_with(
            definition.name,
            ty,
            definition.body,
            Mode::Infer,
            Frame::Let(LetRow::Body(ty, term), definition),
        )),
        LetRow::Lambda(ty, body, value) => make_term(
            scope,
            listing,
            here,
            definition.at,
            Node::App(term, value),
            Frame::Let(LetRow::Tree(ty, body, value), definition),
        ),
        LetRow::Tree(ty, body, value) => make_type(
            scope,
            listing,
            here,
            definition.at,
            Node::TFun(ty, body),
            Frame::Let(LetRow::Type(term, body, value), definition),
        ),
        _ => Err(ElabFault::Memory),
    }
}

/// What is done with a value in a LET.
#[tactic(auto, using(crate::proofs::LetLaws::annotation_follows, crate::proofs::LetLaws::body_row, crate::proofs::KnownLaws::memory_failed, crate::proofs::KnownLaws::grows_none))]
pub(crate) fn resume_let<S: Scope>(
    scope: &mut S,
    listing: &Listing,
    here: &Here,
    row: LetRow,
    definition: Definition,
    value: Value,
) -> Result<Next, ElabFault>
    requires here { IsHere (S.known scope.old) here.now }
    requires row { AreKnownNumbers (S.known scope.old) (let_numbers row) }
    requires value { AreKnownNumbers (S.known scope.old) (value_numbers value) }
    ensures { (t : Sources) → Lists listing.now t → Steps (S.known scope.old) (S.known scope.new) t here.now (let_answer (site_in (S.known scope.old) t here.now) (S.known scope.old).stored t row definition (meaning (S.known scope.old).stored value)) result }
{
    match value {
        Value::Typed(found) => match row {
            LetRow::Value => resume_value(scope, listing, here, found, definition),
            LetRow::Body(ty, term) => make_term(
                scope,
                listing,
                here,
                definition.at,
                Node::Lam(ty, found.tree),
                Frame::Let(LetRow::Lambda(ty, found.ty, term), definition),
            ),
            _ => Err(ElabFault::Memory),
        },
        Value::Formed(ty) => match row {
            LetRow::Annotation => Ok(ask_then(
                definition.value,
                Mode::Check(ty),
                Frame::Let(LetRow::Checked(ty), definition),
            )),
            LetRow::Type(tree, body, value) => {
                type_of(scope, listing, here, tree, body, value, ty, definition)
            }
            _ => Err(ElabFault::Memory),
        },
        Value::Term(term) => resume_term(scope, listing, here, row, definition, term),
        Value::Done => match row {
            LetRow::Formed(found) => resume_formed(scope, listing, here, found, definition),
            _ => Err(ElabFault::Memory),
        },
    }
}
