//! What names stand for at a place of a theory that stands.

ghost use Rattle.std.specs.Prelude.{◌≡◌, ℕ, Option, Some, None};
ghost use Rattle.pvs_terms.specs.Stored.{Stored, IsName, IsRef, AreNodes, Extends, text_at, trees_at, ref_at};
ghost use Rattle.pvs_terms.specs.Tree.{Trees, AreClosed};
ghost use Rattle.pvs_sig.specs.Signature.{Signature};
ghost use Rattle.pvs_sig.specs.Development.{Development};
ghost use Rattle.pvs_instantiate.specs.InstancesView.{development, Leaves};
ghost use Rattle.pvs_names.specs.Answer.{Resolves};
ghost use Rattle.pvs_names.specs.Qualifiers.{AreActualsIn, actuals_at, QualifierIn, qualifier_at};
ghost use Rattle.pvs_names.specs.Resolve as spec;
ghost use Rattle.pvs_names.specs.code.Index.{IsDistinct};
ghost use Rattle.pvs_names.specs.code.Places.{IndexesPlace};

use crate::fault::NameFault;
use crate::index::NameIndex;
use crate::kind::NameKind;
use crate::qualifier::Qualifier;
use crate::search::{resolve_by_instance, resolve_by_theory, resolve_own, resolve_plain};
use crate::visible::VisibleInstances;
use pvs_cache::Judgements;
use pvs_instantiate::Instances;
use pvs_terms::{Id, MakeFault, Name, RefId, RefKind};

/// What names stand for at a place of a theory: an index of what the place sees, one of all own
/// entries, which a name of a formula may stand for, and the visible instances.
#[derive(Drop)]
pub struct Names {
    pub theory: Name,
    pub visible: NameIndex,
    pub own: NameIndex,
    pub instances: VisibleInstances,
}

/// Names and references of the store that `instances` keeps are distinct. It does nothing.
fn distinct<J: Judgements>(instances: &Instances<J>)
    ensures { IsDistinct instances.now.store }
{
    let store = instances.store();
    store.one_name_per_text();
    store.one_reference();
}

/// What a name that a theory qualifies stands for: an own entry where it is this theory.
fn resolve_in_theory(
    names: &Names,
    kind: NameKind,
    theory: Name,
    name: Name,
) -> Result<RefId, NameFault>
    ensures { (s : Stored) (d : Development) (g : Signature) (i : ℕ) → IsDistinct s → IsName s theory → IsName s name → IndexesPlace s names.now d g i → Resolves s result (spec.resolve d g i kind (Some (record { theory = text_at s theory; actuals = None })) (text_at s name)) }
{
    if theory == names.theory {
        resolve_own(&names.visible, &names.own, kind, name)
    } else {
        resolve_by_theory(&names.visible, &names.instances, kind, theory, name)
    }
}

/// What a name that an instance qualifies stands for.
fn resolve_in_instance<J: Judgements>(
    instances: &mut Instances<J>,
    names: &Names,
    kind: NameKind,
    theory: Name,
    actuals: &[Id],
    name: Name,
) -> Result<RefId, NameFault>
    requires theory { IsName instances.old.store theory }
    requires actuals { AreNodes instances.old.store actuals.now }
    requires closed { AreClosed (trees_at instances.old.store actuals.now) }
    requires name { IsName instances.old.store name }
    ensures resolved { (d : Development) (g : Signature) (i : ℕ) → IndexesPlace instances.old.store names.now d g i → Resolves instances.new.store result (spec.resolve d g i kind (Some (record { theory = text_at instances.old.store theory; actuals = Some (trees_at instances.old.store actuals.now) })) (text_at instances.old.store name)) }
    ensures kept { Leaves instances.old instances.new }
{
    let made = instances.reference(RefKind::Inst(theory, 0), actuals);
    distinct(instances);
    match made {
        Ok(first) => resolve_by_instance(&names.visible, &names.instances, kind, first, name),
        Err(MakeFault::TooLarge) => Err(NameFault::NotImported),
        Err(MakeFault::Memory) => Err(NameFault::Memory),
    }
}

/// What a name that a theory or an instance qualifies stands for.
fn resolve_qualified<J: Judgements>(
    instances: &mut Instances<J>,
    names: &Names,
    kind: NameKind,
    theory: &str,
    actuals: Option<&[Id]>,
    name: Name,
) -> Result<RefId, NameFault>
    requires actuals { AreActualsIn instances.old.store actuals }
    requires name { IsName instances.old.store name }
    ensures resolved { (d : Development) (g : Signature) (i : ℕ) → IndexesPlace instances.old.store names.now d g i → Resolves instances.new.store result (spec.resolve d g i kind (Some (record { theory = theory.now; actuals = actuals_at instances.old.store actuals.entry })) (text_at instances.old.store name)) }
    ensures kept { Leaves instances.old instances.new }
{
    let theory = instances.name(theory)?;
    match actuals {
        None => {
            distinct(instances);
            resolve_in_theory(names, kind, theory, name)
        }
        Some(actuals) => resolve_in_instance(instances, names, kind, theory, actuals, name),
    }
}

/// What a name of this kind stands for at the place of an index, by itself or qualified (PVS
/// Language Reference, names; without its overloading). The actuals have no free index.
///
/// An own entry or formal hides what importings bring. A name of a formula that nothing else has
/// is the own formula that stands at the place or later. Unknown, Ambiguous and NotImported come
/// exactly where the definition gives them.
pub fn resolve<J: Judgements>(
    instances: &mut Instances<J>,
    kind: NameKind,
    qualifier: Option<Qualifier<'_>>,
    word: &str,
    names: &Names,
) -> Result<RefId, NameFault>
    requires { QualifierIn instances.old.store qualifier }
    ensures resolved { (g : Signature) (i : ℕ) → IndexesPlace instances.old.store names.now (development instances.old) g i → Resolves instances.new.store result (spec.resolve (development instances.old) g i kind (qualifier_at instances.old.store qualifier.entry) word.now) }
    ensures kept { Leaves instances.old instances.new }
{
    let name = instances.name(word)?;
    match qualifier {
        None => {
            distinct(instances);
            resolve_plain(&names.visible, &names.own, kind, name)
        }
        Some(qualifier) => resolve_qualified(
            instances,
            names,
            kind,
            qualifier.theory,
            qualifier.actuals,
            name,
        ),
    }
}
