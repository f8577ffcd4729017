//! Free VARs, where a theory declares the VARs `x` and `y` of the truth values.

ghost use Rattle.std.specs.Prelude.{IfOk};
ghost use Rattle.pvs_terms.specs.Stored.{IsName};
ghost use Rattle.pvs_instantiate.specs.InstancesView.{development};
ghost use Rattle.pvs_place.specs.NextEntry.{IsNextKind};
ghost use Rattle.pvs_place.specs.Place.{known_in};

use pvs_base::Pos;
use pvs_cache::NoCache;
use pvs_elaboration::Scope;
use pvs_free_variables::first_occurrences;
use pvs_instantiate::Instances;
use pvs_parser::parse_expr;
use pvs_phrases::Part;
use pvs_place::Place;
use pvs_sig::{Class, Entry, EntryKind};
use pvs_terms::{Id, Node};
use std::alloc::Global;
use std::process::Abort;
use std::test::Fail;

/// A VAR of this name, of the truth values.
fn variable(place: &mut Place<NoCache>, name: &str) -> Result<Entry, Fail>
    ensures name { IfOk result (λ e. IsName place.new.store e.name) }
    ensures kind { IfOk result (λ e. IsNextKind (known_in place.new.store (development place.new)) e.kind) }
{
    let name = place.name(name)?;
    let ty = place.make(Node::TBool)?;
    Ok(Entry {
        name,
        kind: EntryKind::VarSig { ty },
    })
}

/// The place after a VAR of this name.
fn after_variable(place: Place<NoCache>, word: &str) -> Result<Place<NoCache>, Fail> {
    // The proof needs the types within an entry by name.
    let (_body, _class): (Option<Id>, Option<Class>) = (None, None);
    let mut first = place;
    let Entry { name, kind } = variable(&mut first, word)?;
    let next = first.with_entry(Entry { name, kind })?;
    Ok(next)
}

/// The place after both, in a theory before which no other stands.
fn after_variables(alloc: Global) -> Result<Place<NoCache>, Fail> {
    let mut instances = Instances::new(alloc, NoCache)?;
    let theory = instances.name("T")?;
    let first = Place::new(instances, theory)?;
    let second = after_variable(first, "x")?;
    after_variable(second, "y")
}

/// The names and columns of the free VARs of a text, each after a space.
fn found<S: Scope>(rt: &impl Abort, alloc: Global, scope: &S, text: &[u8]) -> Result<String, Fail> {
    assert!(rt; text.len() <= 100);
    let end = text.len() as u32;
    let e = parse_expr(alloc, text, 0, end, Pos { line: 1, col: 1 })?;
    let mut line = String::new(alloc);
    for occurrence in first_occurrences(alloc, scope, text, Part::Expr(&e))? {
        let name = std::str::from_utf8(occurrence.name).unwrap_or("?");
        let shown = format!(in alloc; " {} {}", name, occurrence.pos.col)?;
        line.push_str(&shown)?;
    }
    Ok(line)
}

#[test]
fn free_variables_are_found(rt: HostRuntime) -> Result<(), Fail> {
    let alloc = rt.alloc();
    let place = after_variables(alloc)?;
    let plain = found(&rt, alloc, &place, b"y AND x AND z AND y")?;
    assert!(&rt; plain.as_str() == " y 1 x 7");
    let bound = found(&rt, alloc, &place, b"(FORALL (x: {y: bool | x}): x) AND y")?;
    assert!(&rt; bound.as_str() == " x 24 y 36");
    let lets = found(&rt, alloc, &place, b"LET y = y IN y(x)")?;
    assert!(&rt; lets.as_str() == " y 9 x 16");
    Ok(())
}
