//! Elaboration of a part of a text, where no name is local and nothing is assumed.

ghost use Rattle.std.specs.Prelude.{◌≡◌, ◌∷◌, [], IfOk, IfErr, length};
ghost use Rattle.pvs_elaboration.specs.declared.fault.ElabFault.TheVariants as elab_fault;
ghost use Rattle.pvs_elab.specs.Declaration.{top_level};
ghost use Rattle.pvs_terms.specs.Stored.{tree_at};
ghost use Rattle.pvs_elab.specs.Desugar.{names};
ghost use Rattle.pvs_elab.specs.Elab.{under_variable};
ghost use Rattle.pvs_phrases.specs.Parts.{bounds, phrase_at};
ghost use Rattle.pvs_elaboration.specs.Known.{AreKnownNumbers, IsHere, IsTypeOf, Sources, site_in};
ghost use Rattle.pvs_typing.specs.Growth.{AreKnown};
ghost use Rattle.pvs_terms.specs.declared.shape.Sort.TheVariants.{OfType};
ghost use Rattle.pvs_elaboration.specs.Listing.{AddsTo, Lists, bytes_of};
ghost use Rattle.pvs_elaboration.specs.Machine.{Tells, control_answer, control_numbers};
ghost use Rattle.pvs_elaboration.specs.Outermost.{IsOutermost, IsUnderNames, under_names, wanted_answer, wanted_mode, wanted_numbers};
ghost use Rattle.pvs_elaboration.specs.Outermost as spec;

use crate::fault::ElabFault;
use crate::frame::{Control, Frame, Machine};
use crate::here::Here;
use crate::listing::{Listing, add_name, list_names};
use crate::machine::run;
use crate::scope::Scope;
use crate::several::NamesRow;
use crate::value::{Mode, Value};
use pvs_phrases::Part;
use pvs_syntax::Binding;
use pvs_terms::Id;
use sqlite_items::Items;
use std::alloc::{AllocError, Global};

/// What is wanted of a part of a text.
#[derive(Clone, Copy)]
pub enum Wanted {
    /// The term, with its type.
    Infer,
    /// The term, as one of this type.
    Check(Id),
    /// The type.
    Formed,
}

/// A text with this part listed, as number 0.
fn list_text<'a>(alloc: Global, text: &'a [u8], part: &Part<'a>) -> Result<Listing<'a>, AllocError>
    ensures text { IfOk result (λ l. l.text.now ≡ text.now) }
    ensures parts { IfOk result (λ l. l.parts.items ≡ part.now ∷ []) }
{
    let mut parts = Vec::new(alloc);
    parts.push(*part)?;
    Ok(Listing {
        text,
        parts,
        places: Vec::new(alloc),
        names: Vec::new(alloc),
    })
}

/// How a part is asked.
fn mode_for(wanted: Wanted) -> Mode
    ensures { result ≡ wanted_mode wanted }
{
    match wanted {
        Wanted::Infer => Mode::Infer,
        Wanted::Check(ty) => Mode::Check(ty),
        Wanted::Formed => Mode::Formed,
    }
}

/// What is done at this place, to the end.
fn run_at<S: Scope>(
    alloc: Global,
    scope: &mut S,
    listing: &mut Listing,
    here: Here,
    control: Control,
) -> Result<Value, ElabFault>
    requires here { IsHere (S.known scope.old) here }
    requires control { AreKnownNumbers (S.known scope.old) (control_numbers control) }
    ensures tells { (t : Sources) → Lists listing.new t → Tells (S.known scope.old) (S.known scope.new) (control_answer (site_in (S.known scope.old) t here) (S.known scope.old).stored t control) result }
    ensures more { AddsTo listing.old listing.new result }
{
    let mut machine = Machine {
        here,
        entries: Vec::new(alloc),
    };
    run(alloc, scope, listing, &mut machine, control)
}

/// What elaboration answers of a part of a text, where no name is local and nothing is assumed: the
/// value that is wanted of it, or its first fault and the fault's place.
///
/// `ElabFault::At` has the code and the place of the fault (CSL-97-2, type rules; places and the
/// order of faults are this checker's own). `ElabFault::Memory` is answered where memory runs out,
/// and where the text takes more turns than a `u64` counts.
pub fn elaborate<S: Scope>(
    alloc: Global,
    scope: &mut S,
    here: &Here,
    text: &[u8],
    part: &Part,
    wanted: Wanted,
) -> Result<Value, ElabFault>
    requires here { IsOutermost (S.known scope.old) here.now }
    requires wanted { AreKnownNumbers (S.known scope.old) (wanted_numbers wanted) }
    ensures { Tells (S.known scope.old) (S.known scope.new) (wanted_answer (S.known scope.old) top_level (phrase_at text.now part.now) wanted) result }
{
    let mut listing = list_text(alloc, text, part)?;
    let start = here.copy(alloc)?;
    let control = Control::Ask(0, mode_for(wanted));
    run_at(alloc, scope, &mut listing, start, control)
}

/// What asks the part once the parts of a variable have their names, of which there are so many.
fn named_control(variable: Id, first: usize, count: usize, mode: Mode) -> Control
    ensures { result ≡ spec.named_control variable first count mode }
{
    if count == 0 {
        return Control::Ask(0, mode);
    }
    let row = NamesRow::Tuple(variable, first, count - 1, mode);
    Control::Use(Frame::Names(row, 0), Value::Done)
}

/// The same under a variable of this type, with the names of these parameters for its parts.
pub fn elaborate_under_parameters<'a, S: Scope>(
    alloc: Global,
    scope: &mut S,
    here: &Here,
    text: &'a [u8],
    parameters: &'a Items<Binding>,
    domain: Id,
    part: &Part<'a>,
    wanted: Wanted,
) -> Result<Value, ElabFault>
    requires here { IsOutermost (S.known scope.old) here.now }
    requires domain { IsTypeOf (S.known scope.old) domain }
    requires wanted { AreKnownNumbers (S.known scope.old) (wanted_numbers wanted) }
    ensures { Tells (S.known scope.old) (S.known scope.new) (wanted_answer (S.known scope.old) (under_variable (names (bounds text.now parameters.now)) (tree_at (S.known scope.old).stored domain) top_level) (phrase_at text.now part.now) wanted) result }
{
    let mut listing = list_text(alloc, text, part)?;
    let first = list_names(&mut listing, parameters)?;
    let inner = here.with_unnamed(alloc, domain)?;
    let control = named_control(here.variable, first, parameters.len(), mode_for(wanted));
    run_at(alloc, scope, &mut listing, inner, control)
}

/// The place under variables of these names and types, the first of which is the outermost.
fn under_all<'a, S: Scope>(
    alloc: Global,
    scope: &S,
    listing: &mut Listing<'a>,
    here: &Here,
    names: &'a [&'a [u8]],
    types: &[Id],
) -> Result<Here, ElabFault>
    requires here { IsOutermost (S.known scope.now) here.now }
    requires same { length names.now ≡ length types.now }
    requires types { AreKnown (S.known scope.now).stored (S.known scope.now).declares OfType types.now }
    ensures memory { IfErr result (λ e. e ≡ elab_fault.Memory) }
    ensures under { IfOk result (IsUnderNames (S.known scope.now) listing.old listing.new (bytes_of names.now) types.now) }
{
    let mut inner = here.copy(alloc)?;
    for index in 0..names.len() {
        let number = add_name(listing, names[index])?;
        inner = inner.with_variable(alloc, number, types[index])?;
    }
    Ok(inner)
}

/// The same under variables of these names and types, the first of which is the outermost.
pub fn elaborate_under_names<'a, S: Scope>(
    alloc: Global,
    scope: &mut S,
    here: &Here,
    text: &'a [u8],
    names: &'a [&'a [u8]],
    types: &[Id],
    part: &Part<'a>,
    wanted: Wanted,
) -> Result<Value, ElabFault>
    requires here { IsOutermost (S.known scope.old) here.now }
    requires same { length names.now ≡ length types.now }
    requires types { AreKnown (S.known scope.old).stored (S.known scope.old).declares OfType types.now }
    requires wanted { AreKnownNumbers (S.known scope.old) (wanted_numbers wanted) }
    ensures { Tells (S.known scope.old) (S.known scope.new) (wanted_answer (S.known scope.old) (under_names (S.known scope.old).stored top_level (bytes_of names.now) types.now) (phrase_at text.now part.now) wanted) result }
{
    let mut listing = list_text(alloc, text, part)?;
    let inner = under_all(alloc, scope, &mut listing, here, names, types)?;
    let control = Control::Ask(0, mode_for(wanted));
    run_at(alloc, scope, &mut listing, inner, control)
}
