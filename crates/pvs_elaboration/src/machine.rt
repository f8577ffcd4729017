//! The machine: what is left to do stands in a list, so that no call nests with the text.

ghost use Rattle.std.specs.Prelude.{◌≡◌, ◌∷◌, [], ◌++◌, IfOk, IfErr, OnOk};
ghost use Rattle.pvs_elaboration.specs.declared.fault.ElabFault.TheVariants as elab_fault;
ghost use Rattle.pvs_elaboration.specs.declared.frame.Control.TheVariants as spec_control;
ghost use Rattle.pvs_elaboration.specs.declared.frame.Entry.TheVariants as spec_entry;
ghost use Rattle.pvs_elaboration.specs.Known.{AreKnownNumbers, IsTermOf, IsTypeOf, Sources};
ghost use Rattle.pvs_elaboration.specs.Meanings.{value_numbers};
ghost use Rattle.pvs_elaboration.specs.Listing.{AddsTo, Lists};
ghost use Rattle.pvs_elaboration.specs.Machine.{IsAdded, IsEntered, IsMachine, Tells, Turns, control_numbers, frame_numbers, machine_answer, mode_numbers};

use crate::ask::ask;
use crate::fault::ElabFault;
use crate::frame::{Control, Entrance, Entry, Frame, Machine, Next, Turn};
use crate::here::{Here, Typed};
use crate::listing::Listing;
use crate::scope::Scope;
use crate::steps::{coerce, resume};
use crate::value::{Mode, Value};
use pvs_terms::Id;
use std::alloc::{AllocError, Global};

/// Goes to an inner place.
fn move_to(machine: &mut Machine, inner: Here) -> Result<(), AllocError>
    ensures here { OnOk result (machine.new.here ≡ inner) }
    ensures entries { OnOk result (machine.new.entries.items ≡ machine.old.entries.items ++ spec_entry.Leave machine.old.here ∷ []) }
{
    let outer = std::mem::replace(&mut machine.here, inner);
    machine.entries.push(Entry::Leave(outer))?;
    Ok(())
}

/// Enters a hypothesis, a variable or a local name.
fn enter(alloc: Global, machine: &mut Machine, entrance: Entrance) -> Result<(), ElabFault>
    ensures memory { IfErr result (λ e. e ≡ elab_fault.Memory) }
    ensures entered { OnOk result (IsEntered machine.old.here machine.old.entries.items entrance machine.new.here machine.new.entries.items) }
{
    match entrance {
        Entrance::Here => Ok(()),
        Entrance::Hypothesis(p) => {
            let inner = machine.here.with_hypothesis(alloc, p)?;
            move_to(machine, inner)?;
            Ok(())
        }
        Entrance::Variable(name, ty) => {
            let inner = machine.here.with_variable(alloc, name, ty)?;
            move_to(machine, inner)?;
            Ok(())
        }
        Entrance::Unnamed(ty) => {
            let inner = machine.here.with_unnamed(alloc, ty)?;
            move_to(machine, inner)?;
            Ok(())
        }
        Entrance::Local(name, term) => {
            let inner = machine.here.with_local(alloc, name, term)?;
            move_to(machine, inner)?;
            Ok(())
        }
    }
}

/// Adds what follows a step.
fn add(alloc: Global, machine: &mut Machine, next: Next) -> Result<Control, ElabFault>
    ensures memory { IfErr result (λ e. e ≡ elab_fault.Memory) }
    ensures control { IfOk result (λ c. c ≡ next.control) }
    ensures machine { OnOk result (IsAdded machine.old next machine.new) }
{
    machine.entries.push(Entry::Use(next.frame))?;
    enter(alloc, machine, next.entrance)?;
    Ok(next.control)
}

/// A part is asked.
fn turn_asked<S: Scope>(
    alloc: Global,
    scope: &mut S,
    listing: &mut Listing,
    machine: &mut Machine,
    part: usize,
    mode: Mode,
) -> Result<Turn, ElabFault>
    requires machine { IsMachine (S.known scope.old) machine.old }
    requires mode { AreKnownNumbers (S.known scope.old) (mode_numbers mode) }
    ensures turns { (t : Sources) → Lists listing.new t → Turns (S.known scope.old) (S.known scope.new) t (machine_answer (S.known scope.old) t machine.old (spec_control.Ask part mode)) machine.new result }
    ensures more { AddsTo listing.old listing.new result }
{
    match ask(scope, listing, &machine.here, part, mode) {
        Ok(next) => match add(alloc, machine, next) {
            Ok(control) => Ok(Turn::Go(control)),
            Err(fault) => Err(fault),
        },
        Err(fault) => Err(fault),
    }
}

/// A term as one of a type: the place of TooLarge, that of other faults, and the type.
fn turn_coerced<S: Scope>(
    alloc: Global,
    scope: &mut S,
    listing: &Listing,
    machine: &mut Machine,
    term: Typed,
    large: usize,
    at: usize,
    want: Id,
) -> Result<Turn, ElabFault>
    requires machine { IsMachine (S.known scope.old) machine.old }
    requires tree { IsTermOf (S.known scope.old) term.tree }
    requires ty { IsTypeOf (S.known scope.old) term.ty }
    requires want { IsTypeOf (S.known scope.old) want }
    ensures { (t : Sources) → Lists listing.now t → Turns (S.known scope.old) (S.known scope.new) t (machine_answer (S.known scope.old) t machine.old (spec_control.Coerce term large at want)) machine.new result }
{
    match coerce(scope, listing, &machine.here, term, large, at, want) {
        Ok(next) => match add(alloc, machine, next) {
            Ok(control) => Ok(Turn::Go(control)),
            Err(fault) => Err(fault),
        },
        Err(fault) => Err(fault),
    }
}

/// A value is used.
fn turn_used<S: Scope>(
    alloc: Global,
    scope: &mut S,
    listing: &Listing,
    machine: &mut Machine,
    frame: Frame,
    value: Value,
) -> Result<Turn, ElabFault>
    requires machine { IsMachine (S.known scope.old) machine.old }
    requires frame { AreKnownNumbers (S.known scope.old) (frame_numbers frame) }
    requires value { AreKnownNumbers (S.known scope.old) (value_numbers value) }
    ensures { (t : Sources) → Lists listing.now t → Turns (S.known scope.old) (S.known scope.new) t (machine_answer (S.known scope.old) t machine.old (spec_control.Use frame value)) machine.new result }
{
    match resume(scope, listing, &machine.here, frame, value) {
        Ok(next) => match add(alloc, machine, next) {
            Ok(control) => Ok(Turn::Go(control)),
            Err(fault) => Err(fault),
        },
        Err(fault) => Err(fault),
    }
}

/// A value is given to the last entry. A frame that returns it as it is takes no turn of its own,
/// since what follows that turn would be the same again.
fn turn_given<S: Scope>(scope: &S, machine: &mut Machine, value: Value) -> Turn
    requires machine { IsMachine (S.known scope.now) machine.old }
    requires value { AreKnownNumbers (S.known scope.now) (value_numbers value) }
    ensures { (t : Sources) → Turns (S.known scope.now) (S.known scope.now) t (machine_answer (S.known scope.now) t machine.old (spec_control.Give value)) machine.new (Ok result) }
{
    match machine.entries.pop() {
        None => Turn::Stop(value),
        Some(Entry::Leave(outer)) => {
            machine.here = outer;
            Turn::Go(Control::Give(value))
        }
        Some(Entry::Use(Frame::Same)) => Turn::Go(Control::Give(value)),
        Some(Entry::Use(frame)) => Turn::Go(Control::Use(frame, value)),
    }
}

/// One turn.
fn turn<S: Scope>(
    alloc: Global,
    scope: &mut S,
    listing: &mut Listing,
    machine: &mut Machine,
    control: Control,
) -> Result<Turn, ElabFault>
    requires machine { IsMachine (S.known scope.old) machine.old }
    requires control { AreKnownNumbers (S.known scope.old) (control_numbers control) }
    ensures turns { (t : Sources) → Lists listing.new t → Turns (S.known scope.old) (S.known scope.new) t (machine_answer (S.known scope.old) t machine.old control) machine.new result }
    ensures more { AddsTo listing.old listing.new result }
{
    match control {
        Control::Ask(part, mode) => turn_asked(alloc, scope, listing, machine, part, mode),
        Control::Coerce(term, large, at, want) => {
            turn_coerced(alloc, scope, listing, machine, term, large, at, want)
        }
        Control::Give(value) => Ok(turn_given(scope, machine, value)),
        Control::Use(frame, value) => turn_used(alloc, scope, listing, machine, frame, value),
    }
}

/// Turn after turn, until a value is found. Memory also where the number of turns passes its type.
pub(crate) fn run<S: Scope>(
    alloc: Global,
    scope: &mut S,
    listing: &mut Listing,
    machine: &mut Machine,
    control: Control,
) -> Result<Value, ElabFault>
    requires machine { IsMachine (S.known scope.old) machine.old }
    requires control { AreKnownNumbers (S.known scope.old) (control_numbers control) }
    ensures tells { (t : Sources) → Lists listing.new t → Tells (S.known scope.old) (S.known scope.new) (machine_answer (S.known scope.old) t machine.old control) result }
    ensures more { AddsTo listing.old listing.new result }
{
    let mut next = control;
    for _ in 0..u64::MAX {
        match turn(alloc, scope, listing, machine, next) {
            Ok(Turn::Go(control)) => next = control,
            Ok(Turn::Stop(value)) => return Ok(value),
            Err(fault) => return Err(fault),
        }
    }
    Err(ElabFault::Memory)
}
