//! Elaboration of texts, where a theory declares a constant `k` of the truth values.

ghost use Rattle.std.specs.Prelude.{IfOk};
ghost use Rattle.pvs_terms.specs.Stored.{IsName};
ghost use Rattle.pvs_instantiate.specs.InstancesView.{development};
ghost use Rattle.pvs_place.specs.NextEntry.{IsNextKind};
ghost use Rattle.pvs_place.specs.Place.{known_in};

use pvs_base::{Code, Fault, Pos};
use pvs_cache::NoCache;
use pvs_elaboration::{ElabFault, Scope, Value, Wanted, elaborate};
use pvs_instantiate::Instances;
use pvs_parser::parse_expr;
use pvs_phrases::Part;
use pvs_place::Place;
use pvs_sig::{Class, Entry, EntryKind};
use pvs_syntax::Expr;
use pvs_terms::{Id, Node};
use std::alloc::Global;
use std::process::Abort;
use std::test::Fail;

/// A constant `k` of the truth values.
fn constant(place: &mut Place<NoCache>) -> Result<Entry, Fail>
    ensures name { IfOk result (λ e. IsName place.new.store e.name) }
    ensures kind { IfOk result (λ e. IsNextKind (known_in place.new.store (development place.new)) e.kind) }
{
    let name = place.name("k")?;
    let ty = place.make(Node::TBool)?;
    Ok(Entry {
        name,
        kind: EntryKind::ConstSig { ty, body: None },
    })
}

/// The place after it, in a theory before which no other stands.
fn after_constant(alloc: Global) -> Result<Place<NoCache>, Fail> {
    // The proof needs the types within an entry by name.
    let (_body, _class): (Option<Id>, Option<Class>) = (None, None);
    let mut instances = Instances::new(alloc, NoCache)?;
    let theory = instances.name("T")?;
    let mut first = Place::new(instances, theory)?;
    let Entry { name, kind } = constant(&mut first)?;
    let next = first.with_entry(Entry { name, kind })?;
    Ok(next)
}

/// The expression that a text is.
fn expression(rt: &impl Abort, alloc: Global, text: &[u8]) -> Result<Expr, Fail> {
    assert!(rt; text.len() <= 100);
    let end = text.len() as u32;
    let e = parse_expr(alloc, text, 0, end, Pos { line: 1, col: 1 })?;
    Ok(e)
}

/// What elaboration answers of a text, where no name is local.
fn answer(
    rt: &impl Abort,
    alloc: Global,
    place: &mut Place<NoCache>,
    text: &[u8],
    asked: Asked,
) -> Result<Result<Value, ElabFault>, Fail> {
    let e = expression(rt, alloc, text)?;
    let here = place.outermost()?;
    let wanted = match asked {
        Asked::Term => Wanted::Infer,
        Asked::Formula => Wanted::Check(here.truth),
        Asked::Type => Wanted::Formed,
    };
    Ok(elaborate(alloc, place, &here, text, &Part::Expr(&e), wanted))
}

/// What is asked of a text.
#[derive(Clone, Copy)]
enum Asked {
    Term,
    Formula,
    Type,
}

/// A text is a term of the truth values.
fn is_formula(
    rt: &impl Abort,
    alloc: Global,
    place: &mut Place<NoCache>,
    text: &[u8],
) -> Result<(), Fail> {
    let truth = place.outermost()?.truth;
    let term = answer(rt, alloc, place, text, Asked::Term)?;
    assert!(rt; matches!(term, Ok(Value::Typed(typed)) if typed.ty == truth));
    let formula = answer(rt, alloc, place, text, Asked::Formula)?;
    assert!(rt; matches!(formula, Ok(value) if value.term().is_some()));
    Ok(())
}

/// A text is refused as a term, with this code at this column.
fn is_refused(
    rt: &impl Abort,
    alloc: Global,
    place: &mut Place<NoCache>,
    text: &[u8],
    code: Code,
    col: u32,
) -> Result<(), Fail> {
    let fault = Fault {
        pos: Pos { line: 1, col },
        code,
    };
    let found = answer(rt, alloc, place, text, Asked::Term)?;
    assert!(rt; matches!(found, Err(ElabFault::At(at)) if at == fault));
    Ok(())
}

fn connectives_are_elaborated(
    rt: &impl Abort,
    alloc: Global,
    place: &mut Place<NoCache>,
) -> Result<(), Fail> {
    is_formula(rt, alloc, place, b"k")?;
    is_formula(rt, alloc, place, b"k = NOT k")?;
    is_formula(rt, alloc, place, b"k <=> (k AND k) OR TRUE")
}

fn binders_are_elaborated(
    rt: &impl Abort,
    alloc: Global,
    place: &mut Place<NoCache>,
) -> Result<(), Fail> {
    is_formula(
        rt,
        alloc,
        place,
        b"FORALL (x, y: bool): x => EXISTS (k: [bool -> bool]): k(x) = y",
    )?;
    is_formula(rt, alloc, place, b"(LAMBDA (x, y: bool): x /= y)(k, k)")?;
    is_formula(
        rt,
        alloc,
        place,
        b"LET x = k, y = (x, k) IN IF y`2 THEN x ELSE y`1 ENDIF",
    )
}

fn faults_have_places(
    rt: &impl Abort,
    alloc: Global,
    place: &mut Place<NoCache>,
) -> Result<(), Fail> {
    is_refused(rt, alloc, place, b"k AND k AND j", Code::Unknown, 13)?;
    is_refused(rt, alloc, place, b"k(k)", Code::NotFunction, 1)?;
    is_refused(
        rt,
        alloc,
        place,
        b"IF k THEN k ELSE (k, k) ENDIF",
        Code::Mismatch,
        18,
    )?;
    is_refused(rt, alloc, place, b"(k, k)`3", Code::NoSuchPart, 8)
}

fn types_are_elaborated(
    rt: &impl Abort,
    alloc: Global,
    place: &mut Place<NoCache>,
) -> Result<(), Fail> {
    let formed = answer(rt, alloc, place, b"bool", Asked::Type)?;
    assert!(rt; matches!(formed, Ok(value) if value.formed().is_some()));
    let refused = answer(rt, alloc, place, b"k", Asked::Type)?;
    assert!(rt; matches!(refused, Err(ElabFault::At(at)) if at.code == Code::Unknown));
    Ok(())
}

#[test]
fn texts_are_elaborated(rt: HostRuntime) -> Result<(), Fail> {
    let alloc = rt.alloc();
    let mut place = after_constant(alloc)?;
    connectives_are_elaborated(&rt, alloc, &mut place)?;
    binders_are_elaborated(&rt, alloc, &mut place)?;
    faults_have_places(&rt, alloc, &mut place)?;
    types_are_elaborated(&rt, alloc, &mut place)
}
