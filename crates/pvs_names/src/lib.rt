//! Names: what a name stands for at a place of a theory, as a definition with its laws. The program makes no call here.
#![tactic(auto)]

ghost use Rattle.pvs_names.specs.Laws.{IndexesKeepNames, PlainNamesAreIndexed, ResolvedAreVisible, ResolvedAreNamed, ResolvedHaveKinds, MembersGrow};

mod fault;
mod index;
mod key;
mod kind;
mod members;
mod names;
mod qualifier;
mod search;
mod visible;

pub use fault::NameFault;
pub use index::{Found, NameIndex};
pub use key::{Key, Section};
pub use kind::NameKind;
pub use members::{add_entry, add_formal, add_instance};
pub use names::{Names, resolve};
pub use qualifier::Qualifier;
pub use search::{resolve_by_instance, resolve_by_theory, resolve_own, resolve_plain};
pub use visible::VisibleInstances;

#[cfg(test)]
mod tests;

/// What `resolve` promises, for all developments, signatures and names. The call does nothing: its contract states it.
///
/// A map from kinds and names that keeps nothing, one reference or several for each is right after one more member, and
/// the place after a new entry sees one more member. A plain name is answered from two such maps, of own members and of
/// imported ones. A name of a type or a constant stands for a reference of the scope. What a name stands for is declared
/// with that name, and is a thing of that kind.
pub fn resolve_laws()
    ensures index { IndexesKeepNames }
    ensures growth { MembersGrow }
    ensures plain { PlainNamesAreIndexed }
    ensures visible { ResolvedAreVisible }
    ensures named { ResolvedAreNamed }
    ensures kinds { ResolvedHaveKinds }
{}
