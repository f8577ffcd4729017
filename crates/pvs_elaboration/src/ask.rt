//! What is asked of a part, by its form.

ghost use Rattle.std.specs.Prelude.{◌≡◌, if◌then◌else◌};
ghost use Rattle.pvs_elab.specs.Phrase.{place};
ghost use Rattle.pvs_elaboration.specs.declared.value.Mode.TheVariants as spec_mode;
ghost use Rattle.pvs_elaboration.specs.Known.{AreKnownNumbers, IsHere, IsTypeOf, Sources, phrase_at, place_in, site_in};
ghost use Rattle.pvs_elaboration.specs.Listing.{AddsTo, IsForm, Lists};
ghost use Rattle.pvs_elaboration.specs.Machine.{Steps, asked_at, mode_numbers};

use crate::apply::ApplyRow;
use crate::binder::BinderRow;
use crate::choice::{ChoiceRow, NotRow};
use crate::equal::EqualRow;
use crate::fault::ElabFault;
use crate::frame::{Frame, Next, ask_then, give};
use crate::here::{Here, Typed};
use crate::lets::LetRow;
use crate::listing::{Form, Listing, fault_at, form_of, name_of};
use crate::names::{NameRow, named_term, named_type, variable_type};
use crate::parts::PartRow;
use crate::scope::Scope;
use crate::several::SeveralRow;
use crate::subtypes::{PredicateRow, SubtypeRow};
use crate::tuples::{ProductRow, TupleRow};
use crate::value::{Mode, Value};
use pvs_base::Code;
use pvs_terms::Id;

/// The node of a truth value.
fn truth_value(here: &Here, truth: bool) -> Id
    ensures { result ≡ (if truth then here.now.yes else here.now.no) }
{
    if truth { here.yes } else { here.no }
}

/// The term of a part, with its type.
fn ask_inferred<S: Scope>(
    scope: &mut S,
    listing: &Listing,
    here: &Here,
    part: usize,
    form: Form,
    start: usize,
) -> Result<Next, ElabFault>
    requires here { IsHere (S.known scope.old) here.now }
    ensures { (t : Sources) → Lists listing.now t → IsForm t form (phrase_at t part) → place_in t start ≡ place (phrase_at t part) → Steps (S.known scope.old) (S.known scope.new) t here.now (asked_at (site_in (S.known scope.old) t here.now) (S.known scope.old).stored t spec_mode.Infer (phrase_at t part)) result }
{
    match form {
        Form::Name(name, at) => match name_of(listing, name) {
            Some(name) => {
                let frame = Frame::Name(NameRow::Infer, at);
                named_term(scope, listing, here, name, at, frame)
            }
            None => Err(ElabFault::Memory),
        },
        Form::Truth(truth, _) => Ok(give(Value::Typed(Typed {
            tree: truth_value(here, truth),
            ty: here.truth,
        }))),
        Form::Group(inner, _, _) => Ok(ask_then(inner, Mode::Infer, Frame::Same)),
        Form::Not(operand, at) => Ok(ask_then(
            operand,
            Mode::Check(here.truth),
            Frame::Not(NotRow::Tree, at, at),
        )),
        Form::Choice(condition, branches) => Ok(ask_then(
            condition,
            Mode::Check(here.truth),
            Frame::Choice(ChoiceRow::First, branches),
        )),
        Form::Apply(function, operands) => Ok(ask_then(
            function,
            Mode::Infer,
            Frame::Apply(ApplyRow::Function, operands),
        )),
        Form::Equal(sides) => Ok(ask_then(
            sides.left,
            Mode::Infer,
            Frame::Equal(EqualRow::Right, sides),
        )),
        Form::Iff(sides) => Ok(ask_then(
            sides.left,
            Mode::Infer,
            Frame::Equal(EqualRow::Iff, sides),
        )),
        Form::Forall(ty, binding) => Ok(ask_then(
            ty,
            Mode::Formed,
            Frame::Binder(BinderRow::All, binding),
        )),
        Form::Lambda(ty, binding) => Ok(ask_then(
            ty,
            Mode::Formed,
            Frame::Binder(BinderRow::Lambda, binding),
        )),
        Form::LambdaOf(ty, variables) => Ok(ask_then(
            ty,
            Mode::Formed,
            Frame::Several(SeveralRow::Lambda, variables),
        )),
        Form::Let(definition) => Ok(ask_then(
            definition.value,
            Mode::Infer,
            Frame::Let(LetRow::Value, definition),
        )),
        Form::LetAs(ty, definition) => Ok(ask_then(
            ty,
            Mode::Formed,
            Frame::Let(LetRow::Annotation, definition),
        )),
        Form::Tuple(first, pair) => Ok(ask_then(
            first,
            Mode::Infer,
            Frame::Tuple(TupleRow::First, pair),
        )),
        Form::Part(operand, projection) => Ok(ask_then(
            operand,
            Mode::Infer,
            Frame::Part(PartRow::Operand, projection),
        )),
        _ => Err(fault_at(listing, start, Code::Unknown)),
    }
}

/// The term of a part, as one of a type. A mismatch has this place.
fn ask_checked<S: Scope>(
    scope: &mut S,
    listing: &Listing,
    here: &Here,
    part: usize,
    form: Form,
    start: usize,
    at: usize,
    want: Id,
) -> Result<Next, ElabFault>
    requires here { IsHere (S.known scope.old) here.now }
    requires want { IsTypeOf (S.known scope.old) want }
    ensures { (t : Sources) → Lists listing.now t → IsForm t form (phrase_at t part) → place_in t start ≡ place (phrase_at t part) → Steps (S.known scope.old) (S.known scope.new) t here.now (asked_at (site_in (S.known scope.old) t here.now) (S.known scope.old).stored t (spec_mode.CheckAt at want) (phrase_at t part)) result }
{
    match form {
        Form::Name(name, pos) => match name_of(listing, name) {
            Some(name) => {
                let frame = Frame::Name(NameRow::Check(want), at);
                named_term(scope, listing, here, name, pos, frame)
            }
            None => Err(ElabFault::Memory),
        },
        Form::Group(inner, _, _) => Ok(ask_then(inner, Mode::CheckAt(at, want), Frame::Same)),
        Form::Not(operand, pos) => Ok(ask_then(
            operand,
            Mode::Check(here.truth),
            Frame::Not(NotRow::False(want), pos, at),
        )),
        Form::Choice(condition, branches) => Ok(ask_then(
            condition,
            Mode::Check(here.truth),
            Frame::Choice(ChoiceRow::CheckFirst(want), branches),
        )),
        Form::TypeOf(_, _)
        | Form::Function(_, _)
        | Form::FunctionOf(_, _)
        | Form::Subtype(_, _)
        | Form::Predicate(_, _, _)
        | Form::Product(_, _, _)
        | Form::Other(_) => Err(fault_at(listing, start, Code::Unknown)),
        _ => Ok(ask_then(part, Mode::Infer, Frame::Coerce(at, at, want))),
    }
}

/// The type of a part.
fn ask_formed<S: Scope>(
    scope: &mut S,
    listing: &Listing,
    here: &Here,
    part: usize,
    form: Form,
    start: usize,
) -> Result<Next, ElabFault>
    requires here { IsHere (S.known scope.old) here.now }
    ensures { (t : Sources) → Lists listing.now t → IsForm t form (phrase_at t part) → place_in t start ≡ place (phrase_at t part) → Steps (S.known scope.old) (S.known scope.new) t here.now (asked_at (site_in (S.known scope.old) t here.now) (S.known scope.old).stored t spec_mode.Formed (phrase_at t part)) result }
{
    match form {
        Form::Name(name, at) => match name_of(listing, name) {
            Some(name) => named_type(scope, listing, here, name, at),
            None => Err(ElabFault::Memory),
        },
        Form::TypeOf(name, at) => match name_of(listing, name) {
            Some(name) => variable_type(scope, listing, here, name, at),
            None => Err(ElabFault::Memory),
        },
        Form::Group(predicate, start, at) | Form::Predicate(predicate, start, at) => Ok(ask_then(
            predicate,
            Mode::Infer,
            Frame::Predicate(PredicateRow::Type, start, at),
        )),
        Form::Function(domain, binding) => Ok(ask_then(
            domain,
            Mode::Formed,
            Frame::Binder(BinderRow::Function, binding),
        )),
        Form::FunctionOf(domain, variables) => Ok(ask_then(
            domain,
            Mode::Formed,
            Frame::Several(SeveralRow::Function, variables),
        )),
        Form::Subtype(ty, binding) => Ok(ask_then(
            ty,
            Mode::Formed,
            Frame::Subtype(SubtypeRow::Type, binding),
        )),
        Form::Product(first, beyond, binding) => Ok(ask_then(
            first,
            Mode::Formed,
            Frame::Product(ProductRow::First, beyond, binding),
        )),
        Form::Other(_) => Err(fault_at(listing, start, Code::OutOfProfile)),
        _ => Err(fault_at(listing, start, Code::Unknown)),
    }
}

/// Whether a part is the predicate of a universal formula.
fn ask_predicate<S: Scope>(
    scope: &S,
    listing: &Listing,
    here: &Here,
    part: usize,
    form: Form,
) -> Result<Next, ElabFault>
    requires here { IsHere (S.known scope.now) here.now }
    ensures { (t : Sources) → Lists listing.now t → IsForm t form (phrase_at t part) → Steps (S.known scope.now) (S.known scope.now) t here.now (asked_at (site_in (S.known scope.now) t here.now) (S.known scope.now).stored t spec_mode.Predicate (phrase_at t part)) result }
{
    match form {
        Form::Group(inner, _, _) => Ok(ask_then(inner, Mode::Predicate, Frame::Same)),
        Form::Lambda(ty, binding) => Ok(ask_then(
            ty,
            Mode::Formed,
            Frame::Binder(BinderRow::Predicate, binding),
        )),
        Form::LambdaOf(ty, variables) => Ok(ask_then(
            ty,
            Mode::Formed,
            Frame::Several(SeveralRow::Predicate, variables),
        )),
        _ => Ok(give(Value::Done)),
    }
}

/// What is asked of a form.
#[tactic(auto, using(crate::proofs::AskLaws::own_place))]
fn ask_form<S: Scope>(
    scope: &mut S,
    listing: &Listing,
    here: &Here,
    part: usize,
    form: Form,
    start: usize,
    mode: Mode,
) -> Result<Next, ElabFault>
    requires here { IsHere (S.known scope.old) here.now }
    requires mode { AreKnownNumbers (S.known scope.old) (mode_numbers mode) }
    ensures { (t : Sources) → Lists listing.now t → IsForm t form (phrase_at t part) → place_in t start ≡ place (phrase_at t part) → Steps (S.known scope.old) (S.known scope.new) t here.now (asked_at (site_in (S.known scope.old) t here.now) (S.known scope.old).stored t mode (phrase_at t part)) result }
{
    match mode {
        Mode::Infer => ask_inferred(scope, listing, here, part, form, start),
        Mode::Check(want) => ask_checked(scope, listing, here, part, form, start, start, want),
        Mode::CheckAt(at, want) => ask_checked(scope, listing, here, part, form, start, at, want),
        Mode::Formed => ask_formed(scope, listing, here, part, form, start),
        Mode::Predicate => ask_predicate(scope, listing, here, part, form),
    }
}

/// What is asked of a part.
pub(crate) fn ask<S: Scope>(
    scope: &mut S,
    listing: &mut Listing,
    here: &Here,
    part: usize,
    mode: Mode,
) -> Result<Next, ElabFault>
    requires here { IsHere (S.known scope.old) here.now }
    requires mode { AreKnownNumbers (S.known scope.old) (mode_numbers mode) }
    ensures steps { (t : Sources) → Lists listing.new t → Steps (S.known scope.old) (S.known scope.new) t here.now (asked_at (site_in (S.known scope.old) t here.now) (S.known scope.old).stored t mode (phrase_at t part)) result }
    ensures more { AddsTo listing.old listing.new result }
{
    match form_of(listing, part) {
        Ok((form, start)) => ask_form(scope, listing, here, part, form, start, mode),
        Err(fault) => Err(fault),
    }
}
