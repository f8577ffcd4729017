//! What is asked of a part of a text, and what is found.

ghost use Rattle.std.specs.Prelude.{◌≡◌};
ghost use Rattle.pvs_elaboration.specs.Meanings as spec;

use crate::here::Typed;
use pvs_terms::Id;

/// What is asked of a part.
#[derive(Clone, Copy)]
pub enum Mode {
    /// The term, with its type.
    Infer,
    /// The term, as one of this type. A mismatch has the place of the part.
    Check(Id),
    /// The term, as one of this type. A mismatch has this place.
    CheckAt(usize, Id),
    /// The type.
    Formed,
    /// Whether the part is the predicate of a universal formula. It serves for the fault alone.
    Predicate,
}

/// What is found.
#[derive(Clone, Copy)]
pub enum Value {
    Typed(Typed),
    Term(Id),
    Formed(Id),
    Done,
}

impl Value {
    /// The term, where a term without its type was found.
    pub fn term(&self) -> Option<Id>
        ensures { result ≡ spec.term_within self.now }
    {
        match self {
            Value::Term(term) => Some(*term),
            _ => None,
        }
    }

    /// The type, where a type was found.
    pub fn formed(&self) -> Option<Id>
        ensures { result ≡ spec.type_within self.now }
    {
        match self {
            Value::Formed(ty) => Some(*ty),
            _ => None,
        }
    }
}
