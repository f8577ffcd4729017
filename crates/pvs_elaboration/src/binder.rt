//! FORALL, LAMBDA and function types, of one variable each.

ghost use Rattle.std.specs.Prelude.{◌≡◌};
ghost use Rattle.pvs_elaboration.specs.declared.frame.Control.TheVariants as spec_control;
ghost use Rattle.pvs_elaboration.specs.declared.frame.Entrance.TheVariants as spec_entrance;
ghost use Rattle.pvs_elaboration.specs.declared.value.Value.TheVariants as value;
ghost use Rattle.pvs_elaboration.specs.Known.{AreKnownNumbers, IsHere, IsTermOf, IsTypeOf, Sources, site_in};
ghost use Rattle.pvs_elaboration.specs.Meanings.{meaning, value_numbers};
ghost use Rattle.pvs_elaboration.specs.Binder.{binder_answer, binder_numbers};
ghost use Rattle.pvs_elaboration.specs.Listing.{Lists};
ghost use Rattle.pvs_elaboration.specs.Machine.{Steps};

use crate::fault::ElabFault;
use crate::frame::{Control, Entrance, Frame, Next, give};
use crate::here::Here;
use crate::listing::Listing;
use crate::making::{make_term, make_type};
use crate::scope::Scope;
use crate::value::{Mode, Value};
use pvs_terms::{Id, Node};

/// The name and the scope of a variable.
#[derive(Clone, Copy)]
pub(crate) struct Binding {
    pub name: usize,
    pub body: usize,
    /// The place of the whole.
    pub at: usize,
}

/// What is left of a binder. Each has the numbers of what was found before.
#[derive(Clone, Copy)]
pub(crate) enum BinderRow {
    /// The body of FORALL, after the type of the variable.
    All,
    /// The predicate, after the body.
    AllBody(Id),
    /// The predicate that is TRUE everywhere, after the predicate.
    AllPredicate(Id),
    /// The equation of both, after the second.
    AllEquation(Id),
    /// The body of LAMBDA, after the type of the variable.
    Lambda,
    /// The tree, after the body.
    LambdaBody(Id),
    /// The type, after the tree: its domain, and its range.
    LambdaTree(Id, Id),
    /// The body of LAMBDA as a truth value, after the type of the variable.
    Predicate,
    /// Nothing, after the body.
    PredicateBody,
    /// The range of a function type, after its domain.
    Function,
    /// The tree, after the range.
    Range(Id),
}

/// What asks the body, under the variable.
fn ask_below(binding: Binding, ty: Id, mode: Mode, frame: Frame) -> Next
    ensures { result ≡ record { entrance = spec_entrance.Variable binding.name ty; control = spec_control.Ask binding.body mode; frame = frame } }
{
    Next {
        entrance: Entrance::Variable(binding.name, ty),
        control: Control::Ask(binding.body, mode),
        frame,
    }
}

/// What is done with the type of a variable.
fn resume_type<S: Scope>(
    scope: &S,
    here: &Here,
    row: BinderRow,
    binding: Binding,
    ty: Id,
) -> Result<Next, ElabFault>
    requires here { IsHere (S.known scope.now) here.now }
    requires ty { IsTypeOf (S.known scope.now) ty }
    ensures { (t : Sources) → Steps (S.known scope.now) (S.known scope.now) t here.now (binder_answer (site_in (S.known scope.now) t here.now) (S.known scope.now).stored t row binding (meaning (S.known scope.now).stored (value.Formed ty))) result }
{
    let _store = scope.store();
    match row {
        BinderRow::All => Ok(ask_below(
            binding,
            ty,
            Mode::Check(here.truth),
            Frame::Binder(BinderRow::AllBody(ty), binding),
        )),
        BinderRow::Lambda => Ok(ask_below(
            binding,
            ty,
            Mode::Infer,
            Frame::Binder(BinderRow::LambdaBody(ty), binding),
        )),
        BinderRow::Predicate => Ok(ask_below(
            binding,
            ty,
            Mode::Check(here.truth),
            Frame::Binder(BinderRow::PredicateBody, binding),
        )),
        BinderRow::Function => Ok(ask_below(
            binding,
            ty,
            Mode::Formed,
            Frame::Binder(BinderRow::Range(ty), binding),
        )),
        _ => Err(ElabFault::Memory),
    }
}

/// What is done with a term in a binder.
fn resume_term<S: Scope>(
    scope: &mut S,
    listing: &Listing,
    here: &Here,
    row: BinderRow,
    binding: Binding,
    term: Id,
) -> Result<Next, ElabFault>
    requires here { IsHere (S.known scope.old) here.now }
    requires row { AreKnownNumbers (S.known scope.old) (binder_numbers row) }
    requires term { IsTermOf (S.known scope.old) term }
    ensures { (t : Sources) → Lists listing.now t → Steps (S.known scope.old) (S.known scope.new) t here.now (binder_answer (site_in (S.known scope.old) t here.now) (S.known scope.old).stored t row binding (meaning (S.known scope.old).stored (value.Term term))) result }
{
    match row {
        BinderRow::AllBody(ty) => make_term(
            scope,
            listing,
            here,
            binding.at,
            Node::Lam(ty, term),
            Frame::Binder(BinderRow::AllPredicate(ty), binding),
        ),
        BinderRow::AllPredicate(ty) => make_term(
            scope,
            listing,
            here,
            binding.at,
            Node::Lam(ty, here.yes),
            Frame::Binder(BinderRow::AllEquation(term), binding),
        ),
        BinderRow::AllEquation(predicate) => make_term(
            scope,
            listing,
            here,
            binding.at,
            Node::Eq(predicate, term),
            Frame::WithType(here.truth),
        ),
        BinderRow::LambdaTree(domain, range) => make_type(
            scope,
            listing,
            here,
            binding.at,
            Node::TFun(domain, range),
            Frame::WithTerm(term),
        ),
        BinderRow::PredicateBody => Ok(give(Value::Done)),
        _ => Err(ElabFault::Memory),
    }
}

/// What is done with a value in a binder.
pub(crate) fn resume_binder<S: Scope>(
    scope: &mut S,
    listing: &Listing,
    here: &Here,
    row: BinderRow,
    binding: Binding,
    value: Value,
) -> Result<Next, ElabFault>
    requires here { IsHere (S.known scope.old) here.now }
    requires row { AreKnownNumbers (S.known scope.old) (binder_numbers row) }
    requires value { AreKnownNumbers (S.known scope.old) (value_numbers value) }
    ensures { (t : Sources) → Lists listing.now t → Steps (S.known scope.old) (S.known scope.new) t here.now (binder_answer (site_in (S.known scope.old) t here.now) (S.known scope.old).stored t row binding (meaning (S.known scope.old).stored value)) result }
{
    match value {
        Value::Formed(ty) => match row {
            BinderRow::Range(domain) => make_type(
                scope,
                listing,
                here,
                binding.at,
                Node::TFun(domain, ty),
                Frame::Same,
            ),
            _ => resume_type(scope, here, row, binding, ty),
        },
        Value::Typed(body) => match row {
            BinderRow::LambdaBody(ty) => make_term(
                scope,
                listing,
                here,
                binding.at,
                Node::Lam(ty, body.tree),
                Frame::Binder(BinderRow::LambdaTree(ty, body.ty), binding),
            ),
            _ => Err(ElabFault::Memory),
        },
        Value::Term(term) => resume_term(scope, listing, here, row, binding, term),
        Value::Done => Err(ElabFault::Memory),
    }
}
