//! The calls at the first places of a theory, a constant and a nonempty type that are declared there.

ghost use Rattle.std.specs.Prelude.{IfOk};
ghost use Rattle.pvs_terms.specs.Stored.{IsName, IsNode};
ghost use Rattle.pvs_instantiate.specs.InstancesView.{development};
ghost use Rattle.pvs_elaboration.specs.Known.{IsHere, IsTypeOf};
ghost use Rattle.pvs_place.specs.NextEntry.{IsNextKind};
ghost use Rattle.pvs_place.specs.Place.{known_in};

use crate::Place;
use pvs_base::Code;
use pvs_cache::NoCache;
use pvs_elaboration::{Here, Scope};
use pvs_instantiate::Instances;
use pvs_sig::{Class, Entry, EntryKind};
use pvs_terms::{Id, Node, Store};
use pvs_typing::TypeFault;
use std::alloc::Global;
use std::process::Abort;
use std::test::Fail;

/// The place at the beginning of a theory, where no other stands.
fn begin(alloc: Global) -> Result<Place<NoCache>, Fail> {
    let mut instances = Instances::new(alloc, NoCache)?;
    let name = instances.name("T")?;
    let place = Place::new(instances, name)?;
    Ok(place)
}

/// A constant `k` of the truth values.
fn constant(place: &mut Place<NoCache>) -> Result<Entry, Fail>
    ensures name { IfOk result (λ e. IsName place.new.store e.name) }
    ensures kind { IfOk result (λ e. IsNextKind (known_in place.new.store (development place.new)) e.kind) }
{
    let name = place.name("k")?;
    let ty = place.make(Node::TBool)?;
    Ok(Entry {
        name,
        kind: EntryKind::ConstSig { ty, body: None },
    })
}

/// The place after it.
fn after_constant(place: Place<NoCache>) -> Result<Place<NoCache>, Fail> {
    // The proof needs the types within an entry by name.
    let (_body, _class): (Option<Id>, Option<Class>) = (None, None);
    let mut first = place;
    let Entry { name, kind } = constant(&mut first)?;
    let next = first.with_entry(Entry { name, kind })?;
    Ok(next)
}

/// The place after a type `T` that is declared nonempty.
fn after_type(place: Place<NoCache>) -> Result<Place<NoCache>, Fail> {
    let mut first = place;
    let name = first.name("T")?;
    let kind = EntryKind::TypeSig {
        nonempty: true,
        body: None,
    };
    let next = first.with_entry(Entry { name, kind })?;
    Ok(next)
}

/// The subtype of the truth values that has them all.
fn subtype(place: &mut Place<NoCache>, here: &Here) -> Result<Id, Fail>
    requires { IsHere (known_in place.old.store (development place.old)) here.now }
    ensures ty { IfOk result (IsTypeOf (known_in place.new.store (development place.new))) }
    ensures here { IfOk result (λ _. IsHere (known_in place.new.store (development place.new)) here.now) }
{
    let made = place.make(Node::TSub(here.truth, here.yes))?;
    Ok(made)
}

fn names_are_found(rt: &impl Abort, place: &Place<NoCache>) {
    assert!(rt; place.constant_named(b"k").is_ok());
    assert!(rt; place.type_named(b"k") == Err(Code::Unknown));
    assert!(rt; place.variable_named(b"k").is_err());
}

fn truth_has_a_type(rt: &impl Abort, place: &mut Place<NoCache>) -> Result<(), Fail> {
    let here = place.outermost()?;
    assert!(rt; place.infer(&here, here.yes) == Ok(here.truth));
    Ok(())
}

fn truth_is_checked(rt: &impl Abort, place: &mut Place<NoCache>) -> Result<(), Fail> {
    let here = place.outermost()?;
    assert!(rt; place.check(&here, here.yes, here.truth).is_ok());
    Ok(())
}

fn truth_is_coerced(rt: &impl Abort, place: &mut Place<NoCache>) -> Result<(), Fail> {
    let here = place.outermost()?;
    assert!(rt;
        place
            .coerce(&here, here.yes, here.truth, here.truth)
            .is_ok()
    );
    Ok(())
}

fn a_type_is_well_formed(rt: &impl Abort, place: &mut Place<NoCache>) -> Result<(), Fail> {
    let here = place.outermost()?;
    assert!(rt; place.well_formed(&here, here.truth).is_ok());
    Ok(())
}

fn a_type_has_a_head(rt: &impl Abort, place: &mut Place<NoCache>) -> Result<(), Fail> {
    let here = place.outermost()?;
    assert!(rt; place.head(&here, here.truth) == Ok(here.truth));
    Ok(())
}

fn a_type_is_general(rt: &impl Abort, place: &mut Place<NoCache>) -> Result<(), Fail> {
    let here = place.outermost()?;
    assert!(rt; place.most(&here, here.truth) == Ok(here.truth));
    Ok(())
}

fn one_type_is_above(rt: &impl Abort, place: &mut Place<NoCache>) -> Result<(), Fail> {
    let here = place.outermost()?;
    let above = place.up(&here, here.truth);
    assert!(rt; matches!(&above, Ok(types) if types.len() == 1));
    Ok(())
}

fn truth_is_no_predicate(rt: &impl Abort, place: &mut Place<NoCache>) -> Result<(), Fail> {
    let here = place.outermost()?;
    assert!(rt; !place.is_forall(here.yes, here.no));
    assert!(rt; place.type_view(here.truth) == Node::TBool);
    assert!(rt; place.predicate(&here, here.yes) == Err(TypeFault::Refused(Code::Unknown)));
    Ok(())
}

fn trees_are_made(rt: &impl Abort, place: &mut Place<NoCache>) -> Result<(), Fail> {
    let here = place.outermost()?;
    assert!(rt; place.lift(here.yes, 1) == Ok(here.yes));
    Ok(())
}

fn a_type_is_replaced(rt: &impl Abort, place: &mut Place<NoCache>) -> Result<(), Fail> {
    let here = place.outermost()?;
    assert!(rt; place.put_in(here.truth, here.yes) == Ok(here.truth));
    Ok(())
}

fn truth_is_nonempty(rt: &impl Abort, place: &mut Place<NoCache>) -> Result<(), Fail> {
    let here = place.outermost()?;
    assert!(rt; place.is_known_nonempty(here.truth) == Ok(true));
    Ok(())
}

fn a_subtype_may_be_empty(rt: &impl Abort, place: &mut Place<NoCache>) -> Result<(), Fail> {
    let here = place.outermost()?;
    let ty = subtype(place, &here)?;
    assert!(rt; place.is_known_nonempty(ty) == Ok(false));
    Ok(())
}

fn a_declared_type_is_nonempty(rt: &impl Abort, place: &mut Place<NoCache>) -> Result<(), Fail> {
    match place.type_named(b"T") {
        Ok(r) => {
            let ty = place.make(Node::TName(r))?;
            assert!(rt; place.is_known_nonempty(ty) == Ok(true));
        }
        Err(_) => assert!(rt; false),
    }
    Ok(())
}

fn no_member_is_owed(rt: &impl Abort, place: &mut Place<NoCache>) -> Result<(), Fail> {
    let here = place.outermost()?;
    assert!(rt; place.existence(&here, here.truth) == Ok(None));
    Ok(())
}

/// Whether a formula is `NOT FORALL (x: ty): NOT TRUE`.
fn is_existential(store: &Store, here: &Here, ty: Id, formula: Id) -> bool
    requires { IsNode store.now formula }
{
    if let Node::If(empty, no, yes) = store.view(formula) {
        if let Node::Eq(predicate, always) = store.view(empty) {
            if let Node::Lam(domain, never) = store.view(predicate) {
                return no == here.no
                    && yes == here.yes
                    && domain == ty
                    && store.view(never) == Node::If(here.yes, here.no, here.yes)
                    && store.view(always) == Node::Lam(ty, here.yes);
            }
        }
    }
    false
}

fn a_member_is_owed(rt: &impl Abort, place: &mut Place<NoCache>) -> Result<(), Fail> {
    let here = place.outermost()?;
    let ty = subtype(place, &here)?;
    match place.existence(&here, ty) {
        Ok(Some(goal)) => assert!(rt; is_existential(place.store(), &here, ty, goal)),
        _ => assert!(rt; false),
    }
    Ok(())
}

fn members_are_owed(rt: &impl Abort, place: &mut Place<NoCache>) -> Result<(), Fail> {
    truth_is_nonempty(rt, place)?;
    a_subtype_may_be_empty(rt, place)?;
    a_declared_type_is_nonempty(rt, place)?;
    no_member_is_owed(rt, place)?;
    a_member_is_owed(rt, place)
}

fn typing_answers(rt: &impl Abort, place: &mut Place<NoCache>) -> Result<(), Fail> {
    truth_has_a_type(rt, place)?;
    truth_is_checked(rt, place)?;
    truth_is_coerced(rt, place)?;
    a_type_is_well_formed(rt, place)?;
    a_type_has_a_head(rt, place)?;
    a_type_is_general(rt, place)?;
    one_type_is_above(rt, place)?;
    truth_is_no_predicate(rt, place)?;
    trees_are_made(rt, place)?;
    a_type_is_replaced(rt, place)
}

fn truth_owes_nothing(rt: &impl Abort, place: &mut Place<NoCache>) -> Result<(), Fail> {
    let here = place.outermost()?;
    let of_type = place.type_conditions(&here.context, here.truth);
    assert!(rt; matches!(&of_type, Ok(conditions) if conditions.is_empty()));
    let of_term = place.term_conditions(&here.context, here.yes, here.truth);
    assert!(rt; matches!(&of_term, Ok(conditions) if conditions.is_empty()));
    Ok(())
}

/// A place serves for elaboration.
fn as_scope<S: Scope>(scope: &S) -> &S {
    scope
}

#[test]
fn a_place_answers(rt: HostRuntime) -> Result<(), Fail> {
    let first = begin(rt.alloc())?;
    let mut place = after_constant(first)?;
    names_are_found(&rt, as_scope(&place));
    typing_answers(&rt, &mut place)?;
    let mut place = after_type(place)?;
    members_are_owed(&rt, &mut place)?;
    truth_owes_nothing(&rt, &mut place)?;
    let instances = place.into_instances();
    let _store = instances.store();
    Ok(())
}
