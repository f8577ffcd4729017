//! The formulas of both sides of a sequent, by number.

ghost use Rattle.std.specs.Prelude.{◌≡◌, ◌<◌, ℕ, [], ◌∷◌, length, remove, slice_get, eqb, IfOk, OnOk, OnErr};
ghost use Rattle.std.specs.List.{list_any};

use crate::counted::CountedIds;
use crate::list::IdList;
use pvs_terms::Id;
use std::alloc::{AllocError, Global};
use std::marker::Model;

/// The numbers of the formulas of both sides, with how many antecedents are consequents too.
///
/// Each call but `copy` costs the same on sides of any length, except that a number further back
/// is taken out at the cost of those before it.
#[derive(Drop)]
pub(crate) struct Sides {
    antecedents: CountedIds,
    consequents: CountedIds,

    /// How many antecedents are also consequents.
    shared: usize,
}

impl Model for Sides {
    ghost use Rattle.std.specs.Prelude.{◌≡◌};
    ghost use Rattle.pvs_sequent.specs.Counts.{BothSides, count_among};

    ghost Value = { BothSides };

    ghost view = { λ a. record { antecedents = a.antecedents; consequents = a.consequents } };

    ghost invariant = { λ a. a.shared ≡ count_among a.antecedents a.consequents };
}

impl Sides {
    ghost use Rattle.pvs_sequent.specs.Counts.{share_number};

    /// Two empty sides.
    pub(crate) fn new(alloc: Global) -> Sides
        ensures { result ≡ record { antecedents = []; consequents = [] } }
    {
        Sides {
            antecedents: CountedIds::new(alloc),
            consequents: CountedIds::new(alloc),
            shared: 0,
        }
    }

    /// The antecedents, the first one first.
    pub(crate) fn antecedents(&self) -> &IdList
        ensures { result.now ≡ self.now.antecedents }
    {
        self.antecedents.list()
    }

    /// The consequents, the first one first.
    pub(crate) fn consequents(&self) -> &IdList
        ensures { result.now ≡ self.now.consequents }
    {
        self.consequents.list()
    }

    /// The antecedent at an index, counted from 0, or None past the end.
    pub(crate) fn antecedent(&self, at: usize) -> Option<Id>
        ensures { result ≡ slice_get self.now.antecedents at }
    {
        self.antecedents.get(at)
    }

    /// The consequent at an index, counted from 0, or None past the end.
    pub(crate) fn consequent(&self, at: usize) -> Option<Id>
        ensures { result ≡ slice_get self.now.consequents at }
    {
        self.consequents.get(at)
    }

    /// Whether a number is that of an antecedent.
    pub(crate) fn is_antecedent(&self, id: Id) -> bool
        ensures { result ≡ list_any (eqb id) self.now.antecedents }
    {
        self.antecedents.contains(id)
    }

    /// Whether a number is that of a consequent.
    pub(crate) fn is_consequent(&self, id: Id) -> bool
        ensures { result ≡ list_any (eqb id) self.now.consequents }
    {
        self.consequents.contains(id)
    }

    /// Whether some antecedent is a consequent too.
    pub(crate) fn share(&self) -> bool
        ensures { result ≡ share_number self.now.antecedents self.now.consequents }
    {
        self.shared > 0
    }

    /// Adds an antecedent as the first one.
    pub(crate) fn push_antecedent(&mut self, id: Id) -> Result<(), AllocError>
        ensures ok { OnOk result (self.new ≡ record { antecedents = id ∷ self.old.antecedents; consequents = self.old.consequents }) }
        ensures err { OnErr result (self.new ≡ self.old) }
    {
        self.antecedents.push_first(id)?;
        let _length = self.antecedents.len();
        if self.consequents.contains(id) {
            self.shared += 1;
        }
        Ok(())
    }

    /// Adds a consequent as the first one.
    pub(crate) fn push_consequent(&mut self, id: Id) -> Result<(), AllocError>
        ensures ok { OnOk result (self.new ≡ record { antecedents = self.old.antecedents; consequents = id ∷ self.old.consequents }) }
        ensures err { OnErr result (self.new ≡ self.old) }
    {
        let is_new = !self.consequents.contains(id);
        self.consequents.push_first(id)?;
        let _length = self.antecedents.len();
        if is_new {
            self.shared += self.antecedents.count(id);
        }
        Ok(())
    }

    /// Takes out the antecedent at an index, counted from 0.
    pub(crate) fn remove_antecedent(&mut self, at: usize)
        requires { at < length self.old.antecedents }
        ensures { self.new ≡ record { antecedents = remove self.old.antecedents at; consequents = self.old.consequents } }
    {
        let id = self.antecedents.remove(at);
        if self.consequents.contains(id) {
            self.shared -= 1;
        }
    }

    /// Takes out the consequent at an index, counted from 0.
    pub(crate) fn remove_consequent(&mut self, at: usize)
        requires { at < length self.old.consequents }
        ensures { self.new ≡ record { antecedents = self.old.antecedents; consequents = remove self.old.consequents at } }
    {
        let id = self.consequents.remove(at);
        if !self.consequents.contains(id) {
            self.shared -= self.antecedents.count(id);
        }
    }

    /// A copy.
    pub(crate) fn copy(&self, alloc: Global) -> Result<Sides, AllocError>
        ensures { IfOk result (λ x. x ≡ self.now) }
    {
        Ok(Sides {
            antecedents: self.antecedents.copy(alloc)?,
            consequents: self.consequents.copy(alloc)?,
            shared: self.shared,
        })
    }
}
