//! The signature of a theory: its formals, its entries and its importings, with trees by number.

ghost use Rattle.std.specs.Prelude.{◌≡◌, option_copied, slice_get};

use pvs_terms::{Id, Name};

/// What a formula is.
#[derive(Clone, Copy, Debug, PartialEq, Eq)]
pub enum Class {
    Axiom,
    /// An assumption of the theory's ASSUMING part.
    Assumption,
    Lemma,
    /// A type-correctness condition of a declaration.
    Condition,
    /// A condition that an importing owes.
    ImportCondition,
    /// A condition of the formal with this number, counted from 0.
    FormalCondition(u32),
}

/// What an entry declares.
#[derive(Clone, Copy, Debug, PartialEq, Eq)]
pub enum EntryKind {
    /// A type. One without a body may be declared nonempty.
    TypeSig { nonempty: bool, body: Option<Id> },
    /// A constant of a type, with its definition where it has one.
    ConstSig { ty: Id, body: Option<Id> },
    /// A variable declaration.
    VarSig { ty: Id },
    /// A formula. The owner of a condition is the number of the entry after its conditions; at an
    /// importing or a formal it is the number of entries just after its conditions. In every other
    /// formula it is 0.
    FormulaSig { class: Class, body: Id, owner: u32 },
}

/// A declared name and what it declares. Entries count from 0.
#[derive(Clone, Copy, Debug, PartialEq, Eq)]
pub struct Entry {
    pub name: Name,
    pub kind: EntryKind,
}

/// A formal parameter: a type, which has no `ty` and may be declared nonempty, or a constant of
/// the type `ty`. Formals count from 0.
#[derive(Clone, Copy, Debug, PartialEq, Eq)]
pub struct FormalSig {
    pub name: Name,
    pub nonempty: bool,
    pub ty: Option<Id>,
}

/// An importing of a theory's instance. `place` is the number of entries before it.
#[derive(Debug, Drop)]
pub struct Import {
    pub theory: Name,
    pub actuals: Vec<Id>,
    pub place: u32,
}

/// The signature of a theory (Owre and Shankar, CSL-97-2, contexts and declarations): its formals,
/// its entries and its importings, each list in the order of the text.
#[derive(Debug, Drop)]
pub struct Signature {
    pub name: Name,
    pub formals: Vec<FormalSig>,
    pub entries: Vec<Entry>,
    pub imports: Vec<Import>,
}

impl Signature {
    /// The entry of this number, `None` exactly past the end. It takes no memory.
    pub fn lookup(&self, index: u32) -> Option<&Entry>
        ensures { option_copied result ≡ slice_get self.now.entries.items index }
    {
        self.entries.get(index as usize)
    }
}
