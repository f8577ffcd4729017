//! Steps with one call.

ghost use Rattle.pvs_terms.specs.Stored.{node_tree};
ghost use Rattle.pvs_typing.specs.Nodes.{HasKnownParts};
ghost use Rattle.pvs_elaboration.specs.Known.{AreKnownNumbers, IsHere, Sources, site_in};
ghost use Rattle.pvs_elaboration.specs.Listing.{Lists};
ghost use Rattle.pvs_elaboration.specs.Machine.{IsTermNode, IsTypeNode, Steps, frame_numbers, made_answer, made_type_answer};

use crate::fault::ElabFault;
use crate::frame::{Frame, Next, give_to};
use crate::here::Here;
use crate::listing::{Listing, fault_at};
use crate::scope::Scope;
use crate::value::Value;
use pvs_base::Code;
use pvs_terms::{MakeFault, Node};

#[tactic(auto, using(crate::proofs::StepLaws::term_made, crate::proofs::ListingLaws::failed_or_memory, crate::proofs::KnownLaws::large_failed, crate::proofs::KnownLaws::memory_failed))]
/// A term that is made at a place, or TooLarge there; and what is done with it.
pub(crate) fn make_term<S: Scope>(
    scope: &mut S,
    listing: &Listing,
    here: &Here,
    at: usize,
    node: Node,
    frame: Frame,
) -> Result<Next, ElabFault>
    requires parts { HasKnownParts (S.known scope.old).stored (S.known scope.old).declares node }
    requires term { IsTermNode node }
    requires here { IsHere (S.known scope.old) here.now }
    requires frame { AreKnownNumbers (S.known scope.old) (frame_numbers frame) }
    ensures { (t : Sources) → Lists listing.now t → Steps (S.known scope.old) (S.known scope.new) t here.now (made_answer (site_in (S.known scope.old) t here.now) (S.known scope.old).stored t at (node_tree (S.known scope.old).stored node) frame) result }
{
    let _depth = here.depth;
    match scope.make(node) {
        Ok(id) => Ok(give_to(Value::Term(id), frame)),
        Err(MakeFault::TooLarge) => Err(fault_at(listing, at, Code::TooLarge)),
        Err(MakeFault::Memory) => Err(ElabFault::Memory),
    }
}

#[tactic(auto, using(crate::proofs::StepLaws::type_made, crate::proofs::ListingLaws::failed_or_memory, crate::proofs::KnownLaws::large_failed, crate::proofs::KnownLaws::memory_failed))]
/// A type that is made at a place, or TooLarge there; and what is done with it.
pub(crate) fn make_type<S: Scope>(
    scope: &mut S,
    listing: &Listing,
    here: &Here,
    at: usize,
    node: Node,
    frame: Frame,
) -> Result<Next, ElabFault>
    requires parts { HasKnownParts (S.known scope.old).stored (S.known scope.old).declares node }
    requires ty { IsTypeNode node }
    requires here { IsHere (S.known scope.old) here.now }
    requires frame { AreKnownNumbers (S.known scope.old) (frame_numbers frame) }
    ensures { (t : Sources) → Lists listing.now t → Steps (S.known scope.old) (S.known scope.new) t here.now (made_type_answer (site_in (S.known scope.old) t here.now) (S.known scope.old).stored t at (node_tree (S.known scope.old).stored node) frame) result }
{
    let _depth = here.depth;
    match scope.make(node) {
        Ok(id) => Ok(give_to(Value::Formed(id), frame)),
        Err(MakeFault::TooLarge) => Err(fault_at(listing, at, Code::TooLarge)),
        Err(MakeFault::Memory) => Err(ElabFault::Memory),
    }
}
