//! What a name stands for, by the indexes of a place.

ghost use Rattle.std.specs.Prelude.{◌≡◌, ℕ, Result, List, Some, None, Err, false, bytes_eq, if◌then◌else◌};
ghost use Rattle.pvs_base.specs.declared.code.Code.{Code};
ghost use Rattle.pvs_base.specs.declared.code.Code.TheVariants as code;
ghost use Rattle.pvs_terms.specs.Tree.{Ref};
ghost use Rattle.pvs_terms.specs.Stored.{Stored, IsName, text_at};
ghost use Rattle.pvs_sig.specs.Signature.{Signature};
ghost use Rattle.pvs_sig.specs.Development.{Development};
ghost use Rattle.pvs_names.specs.Answer.{Resolves};
ghost use Rattle.pvs_names.specs.Members.{Member, find};
ghost use Rattle.pvs_names.specs.Resolve as spec;
ghost use Rattle.pvs_names.specs.Resolve.{resolve, any_formula, if_visible, is_own_entry, is_entry_of, visible_members};
ghost use Rattle.pvs_names.specs.code.Index.{answer, is_in, found_of, IsFoundIn, IsDistinct, IsKeyIn, Indexes, IndexesVisible, IndexesOwn, IsFirst};
ghost use Rattle.pvs_names.specs.code.Visible.{IndexesInstances};
ghost use Rattle.pvs_sig.specs.Instances as spec_instances;

use crate::fault::NameFault;
use crate::index::{Found, NameIndex};
use crate::key::{Key, Section};
use crate::kind::NameKind;
use crate::visible::VisibleInstances;
use pvs_terms::{Name, RefId};

/// What was found, as an answer.
fn answer_of(found: &Option<Found>) -> Result<RefId, NameFault>
    ensures { (s : Stored) → IsFoundIn s found.now → Resolves s result (answer s found.now) }
{
    match found {
        None => Err(NameFault::Unknown),
        Some(Found::One(reference)) => Ok(*reference),
        Some(Found::Several) => Err(NameFault::Ambiguous),
    }
}

/// The first answer, or the second where the first is Unknown.
fn or_else(
    first: Result<RefId, NameFault>,
    second: Result<RefId, NameFault>,
) -> Result<RefId, NameFault>
    ensures { (s : Stored) (x y : Result Ref Code) → Resolves s first x → Resolves s second y → Resolves s result (spec.or_else x y) }
{
    match first {
        Err(NameFault::Unknown) => second,
        other => other,
    }
}

/// What a name of a section stands for.
fn find_in(
    index: &NameIndex,
    section: Section,
    kind: NameKind,
    name: Name,
) -> Result<RefId, NameFault>
    ensures { (s : Stored) (ms : List Member) → IsDistinct s → IsKeyIn s (record { section = section; kind = kind; name = name }) → Indexes s index.now ms → Resolves s result (find (is_in s section) kind (text_at s name) ms) }
{
    let key = Key {
        section,
        kind,
        name,
    };
    let found = index.get(&key);
    answer_of(&found)
}

/// The own formula of a name, wherever it stands.
fn find_formula(own: &NameIndex, kind: NameKind, name: Name) -> Result<RefId, NameFault>
    ensures { (s : Stored) (d : Development) (g : Signature) → IsDistinct s → IsName s name → IndexesOwn s own.now d g → Resolves s result (any_formula d g kind (text_at s name)) }
{
    match kind {
        NameKind::FormulaName => find_in(own, Section::OwnEntries, NameKind::FormulaName, name),
        _ => Err(NameFault::Unknown),
    }
}

/// What a name by itself stands for, but for formulas that stand later.
fn find_plain(visible: &NameIndex, kind: NameKind, name: Name) -> Result<RefId, NameFault>
    ensures { (s : Stored) (ms : List Member) → IsDistinct s → IsName s name → Indexes s visible.now ms → Resolves s result (spec.find_plain kind (text_at s name) ms) }
{
    let own = find_in(visible, Section::Own, kind, name);
    let imported = find_in(visible, Section::Imported, kind, name);
    or_else(own, imported)
}

/// What a name by itself stands for.
pub fn resolve_plain(
    visible: &NameIndex,
    own: &NameIndex,
    kind: NameKind,
    name: Name,
) -> Result<RefId, NameFault>
    ensures { (s : Stored) (d : Development) (g : Signature) (i : ℕ) → IsDistinct s → IsName s name → IndexesVisible s visible.now d g i → IndexesOwn s own.now d g → Resolves s result (resolve d g i kind None (text_at s name)) }
{
    or_else(
        find_plain(visible, kind, name),
        find_formula(own, kind, name),
    )
}

/// What a name that the theory itself qualifies stands for.
pub fn resolve_own(
    visible: &NameIndex,
    own: &NameIndex,
    kind: NameKind,
    name: Name,
) -> Result<RefId, NameFault>
    ensures { (s : Stored) (d : Development) (g : Signature) (i : ℕ) → IsDistinct s → IsName s name → IndexesVisible s visible.now d g i → IndexesOwn s own.now d g → Resolves s result (resolve d g i kind (Some (record { theory = g.name; actuals = None })) (text_at s name)) }
{
    or_else(
        find_in(visible, Section::OwnEntries, kind, name),
        find_formula(own, kind, name),
    )
}

/// What a name that another theory qualifies stands for.
pub fn resolve_by_theory(
    visible: &NameIndex,
    instances: &VisibleInstances,
    kind: NameKind,
    theory: Name,
    name: Name,
) -> Result<RefId, NameFault>
    ensures { (s : Stored) (d : Development) (g : Signature) (i : ℕ) → IsDistinct s → IsName s theory → IsName s name → bytes_eq (text_at s theory) g.name ≡ false → IndexesVisible s visible.now d g i → IndexesInstances s instances.now (spec_instances.instances d g i) → Resolves s result (resolve d g i kind (Some (record { theory = text_at s theory; actuals = None })) (text_at s name)) }
{
    if instances.has_theory(theory) {
        find_in(visible, Section::OfTheory(theory), kind, name)
    } else {
        Err(NameFault::NotImported)
    }
}

/// What a name that an instance qualifies stands for. `first` is the reference of the entry with
/// number 0 of the instance.
pub fn resolve_by_instance(
    visible: &NameIndex,
    instances: &VisibleInstances,
    kind: NameKind,
    first: RefId,
    name: Name,
) -> Result<RefId, NameFault>
    ensures { (s : Stored) (d : Development) (g : Signature) (i : ℕ) (h : IsFirst s first) → IsDistinct s → IsName s name → IndexesVisible s visible.now d g i → IndexesInstances s instances.now (spec_instances.instances d g i) → Resolves s result (resolve d g i kind (Some (record { theory = h.theory; actuals = Some h.actuals })) (text_at s name)) }
{
    if instances.has_instance(first) {
        find_in(visible, Section::OfInstance(first), kind, name)
    } else {
        Err(NameFault::NotImported)
    }
}
