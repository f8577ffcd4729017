//! What is done with a value, and a term as one of a type.

ghost use Rattle.std.specs.Prelude.{◌≡◌};
ghost use Rattle.pvs_terms.specs.Stored.{tree_at};
ghost use Rattle.pvs_elaboration.specs.Known.{AreKnownNumbers, IsHere, IsTypeOf, IsTermOf, place_in, site_in};
ghost use Rattle.pvs_elaboration.specs.Meanings.{meaning, value_numbers, typed_at, term_answer};
ghost use Rattle.pvs_elaboration.specs.Meanings as spec;
ghost use Rattle.pvs_elaboration.specs.Listing.{IsFaultOrMemory, Lists};
ghost use Rattle.pvs_elaboration.specs.Known.{Sources};
ghost use Rattle.pvs_elaboration.specs.Machine.{Steps, frame_answer, coerced_at, frame_numbers};

use crate::apply::resume_apply;
use crate::binder::resume_binder;
use crate::choice::{resume_choice, resume_not};
use crate::equal::resume_equal;
use crate::fault::ElabFault;
use crate::frame::{Control, Entrance, Frame, Next, give};
use crate::here::{Here, Typed};
use crate::lets::resume_let;
use crate::listing::{Listing, fault_at};
use crate::names::resume_name;
use crate::parts::resume_part;
use crate::scope::Scope;
use crate::several::{resume_names, resume_several};
use crate::subtypes::{resume_predicate, resume_subtype};
use crate::tuples::{resume_product, resume_tuple};
use crate::value::Value;
use pvs_base::Code;
use pvs_terms::Id;
use pvs_typing::TypeFault;

/// The fault of typing: the place of TooLarge, and that of all else.
#[tactic(auto, using(crate::proofs::ListingLaws::other_place))]
pub(crate) fn fault_of(listing: &Listing, large: usize, at: usize, fault: TypeFault) -> ElabFault
    ensures { (t : Sources) → Lists listing.now t → IsFaultOrMemory (spec.fault_of (place_in t large) (place_in t at) fault) result }
{
    match fault {
        TypeFault::Refused(Code::TooLarge) => fault_at(listing, large, Code::TooLarge),
        TypeFault::Refused(code) => fault_at(listing, at, code),
        TypeFault::Memory => ElabFault::Memory,
    }
}

/// A term as one of a type: the place of TooLarge, that of other faults, and the type.
#[tactic(auto, using(crate::proofs::StepLaws::coerced_follows, crate::proofs::StepLaws::coercion_failed))]
pub(crate) fn coerce<S: Scope>(
    scope: &mut S,
    listing: &Listing,
    here: &Here,
    term: Typed,
    large: usize,
    at: usize,
    want: Id,
) -> Result<Next, ElabFault>
    requires here { IsHere (S.known scope.old) here.now }
    requires term { IsTermOf (S.known scope.old) term.tree }
    requires ty { IsTypeOf (S.known scope.old) term.ty }
    requires want { IsTypeOf (S.known scope.old) want }
    ensures { (t : Sources) → Lists listing.now t → Steps (S.known scope.old) (S.known scope.new) t here.now (term_answer (coerced_at (site_in (S.known scope.old) t here.now) (place_in t large) (place_in t at) (tree_at (S.known scope.old).stored want) (typed_at (S.known scope.old).stored term))) result }
{
    match scope.coerce(here, term.tree, term.ty, want) {
        Ok(()) => Ok(give(Value::Term(term.tree))),
        Err(fault) => Err(fault_of(listing, large, at, fault)),
    }
}

/// What is done with a value.
#[tactic(auto, using(crate::proofs::StepLaws::same_follows, crate::proofs::StepLaws::coerce_follows, crate::proofs::StepLaws::with_type_follows, crate::proofs::StepLaws::with_term_follows))]
pub(crate) fn resume<S: Scope>(
    scope: &mut S,
    listing: &Listing,
    here: &Here,
    frame: Frame,
    value: Value,
) -> Result<Next, ElabFault>
    requires here { IsHere (S.known scope.old) here.now }
    requires frame { AreKnownNumbers (S.known scope.old) (frame_numbers frame) }
    requires value { AreKnownNumbers (S.known scope.old) (value_numbers value) }
    ensures { (t : Sources) → Lists listing.now t → Steps (S.known scope.old) (S.known scope.new) t here.now (frame_answer (site_in (S.known scope.old) t here.now) (S.known scope.old).stored t frame (meaning (S.known scope.old).stored value)) result }
{
    match frame {
        Frame::Same => Ok(give(value)),
        Frame::Coerce(large, at, want) => match value {
            Value::Typed(term) => Ok(Next {
                entrance: Entrance::Here,
                control: Control::Coerce(term, large, at, want),
                frame: Frame::Same,
            }),
            _ => Err(ElabFault::Memory),
        },
        Frame::WithType(ty) => match value {
            Value::Term(tree) => Ok(give(Value::Typed(Typed { tree, ty }))),
            _ => Err(ElabFault::Memory),
        },
        Frame::WithTerm(tree) => match value {
            Value::Formed(ty) => Ok(give(Value::Typed(Typed { tree, ty }))),
            _ => Err(ElabFault::Memory),
        },
        Frame::Choice(row, branches) => resume_choice(scope, listing, here, row, branches, value),
        Frame::Not(row, pos, at) => resume_not(scope, listing, here, row, pos, at, value),
        Frame::Name(row, at) => resume_name(scope, listing, here, row, at, value),
        Frame::Apply(row, operands) => resume_apply(scope, listing, here, row, operands, value),
        Frame::Binder(row, binding) => resume_binder(scope, listing, here, row, binding, value),
        Frame::Equal(row, sides) => resume_equal(scope, listing, here, row, sides, value),
        Frame::Let(row, definition) => resume_let(scope, listing, here, row, definition, value),
        Frame::Subtype(row, binding) => resume_subtype(scope, listing, here, row, binding, value),
        Frame::Predicate(row, start, at) => {
            resume_predicate(scope, listing, here, row, start, at, value)
        }
        Frame::Tuple(row, pair) => resume_tuple(scope, listing, here, row, pair, value),
        Frame::Part(row, projection) => resume_part(scope, listing, here, row, projection, value),
        Frame::Several(row, variables) => resume_several(scope, here, row, variables, value),
        Frame::Names(row, body) => resume_names(scope, here, row, body, value),
        Frame::Product(row, beyond, binding) => {
            resume_product(scope, listing, here, row, beyond, binding, value)
        }
    }
}
