//! What an index of names has for a name, by number.

ghost use Rattle.std.specs.Prelude.{◌≡◌};
ghost use Rattle.pvs_scope.specs.code.Search as spec;

use crate::outside::is_outside;
use crate::place::PlaceNames;
use pvs_base::Code;
use pvs_names::{Found, Key, NameKind, Section};
use pvs_terms::{Id, RefId};

/// What was found, as an answer.
fn code_of(found: &Option<Found>) -> Result<RefId, Code>
    ensures { result ≡ spec.code_of found.now }
{
    match found {
        None => Err(Code::Unknown),
        Some(Found::One(reference)) => Ok(*reference),
        Some(Found::Several) => Err(Code::Ambiguous),
    }
}

/// The first answer, or the second where the first is Unknown.
fn first_of(first: Result<RefId, Code>, second: Result<RefId, Code>) -> Result<RefId, Code>
    ensures { result ≡ spec.first_of first second }
{
    match first {
        Err(Code::Unknown) => second,
        other => other,
    }
}

/// The answer for a name that nothing has.
fn absent(name: &[u8]) -> Result<RefId, Code>
    ensures { result ≡ spec.absent name.now }
{
    if is_outside(name) {
        Err(Code::OutOfProfile)
    } else {
        Err(Code::Unknown)
    }
}

/// The reference, unless it is that of a VAR.
fn constant_or_absent(name: &[u8], reference: RefId, ty: &Option<Id>) -> Result<RefId, Code>
    ensures { result ≡ spec.constant_or_absent name.now reference ty.now }
{
    match ty {
        None => Ok(reference),
        Some(_) => absent(name),
    }
}

/// A VAR with its type.
fn with_type(reference: RefId, ty: &Option<Id>) -> Result<(RefId, Id), Code>
    ensures { result ≡ spec.with_type reference ty.now }
{
    match ty {
        None => Err(Code::Unknown),
        Some(ty) => Ok((reference, *ty)),
    }
}

impl PlaceNames {
    /// What has a name in a section.
    fn found(&self, section: Section, kind: NameKind, name: &[u8]) -> Option<Found>
        ensures { result ≡ spec.found_by_text self.now section kind name.now }
    {
        match self.texts.get(name) {
            None => None,
            Some(name) => self.visible.get(&Key {
                section,
                kind,
                name,
            }),
        }
    }

    /// What a name stands for in a section.
    fn in_section(&self, section: Section, kind: NameKind, name: &[u8]) -> Result<RefId, Code>
        ensures { result ≡ spec.code_of (spec.found_by_text self.now section kind name.now) }
    {
        let found = self.found(section, kind, name);
        code_of(&found)
    }

    /// What a name by itself stands for.
    pub(crate) fn plain(&self, kind: NameKind, name: &[u8]) -> Result<RefId, Code>
        ensures { result ≡ spec.plain_answer self.now kind name.now }
    {
        let own = self.in_section(Section::Own, kind, name);
        let imported = self.in_section(Section::Imported, kind, name);
        first_of(first_of(own, imported), absent(name))
    }

    /// The constant or formal of a name.
    pub(crate) fn constant(&self, name: &[u8]) -> Result<RefId, Code>
        ensures { result ≡ spec.constant_answer self.now name.now }
    {
        match self.plain(NameKind::Constant, name) {
            Ok(reference) => constant_or_absent(name, reference, &self.variables.get(reference)),
            Err(code) => Err(code),
        }
    }

    /// The VAR of a name, with its type.
    pub(crate) fn variable(&self, name: &[u8]) -> Result<(RefId, Id), Code>
        ensures { result ≡ spec.variable_answer self.now name.now }
    {
        match self.in_section(Section::Own, NameKind::Constant, name) {
            Ok(reference) => with_type(reference, &self.variables.get(reference)),
            Err(code) => Err(code),
        }
    }
}
