//! The occurrences that were found, one of each name.

ghost use Rattle.std.specs.Prelude.{◌≡◌, [], OnOk};
ghost use Rattle.pvs_free_variables.specs.Occurrences.{all_occurs, occurs};
ghost use Rattle.pvs_free_variables.specs.code.Finding.{add_first};

use crate::counts::Counts;
use pvs_base::Pos;
use std::alloc::{AllocError, Global};
use std::marker::Model;

/// An occurrence of a VAR: its name, and its place.
#[derive(Clone, Copy)]
pub struct Occurrence<'a> {
    pub name: &'a [u8],
    pub pos: Pos,
}

/// The occurrences that were found, in order. No two have the same name.
#[derive(Drop)]
pub(crate) struct Found<'a> {
    occurrences: Vec<Occurrence<'a>>,
    names: Counts<'a>,
}

impl<'a> Model for Found<'a> {
    ghost use Rattle.std.specs.Prelude.{◌≡◌, List};
    ghost use Rattle.pvs_terms.specs.Tree.{Text};
    ghost use Rattle.pvs_elab.specs.Formula.{Occurs};

    ghost Value = { List Occurs };

    ghost use Rattle.pvs_free_variables.specs.Occurrences.{all_occurs};
    ghost use Rattle.pvs_free_variables.specs.code.Counts.{count_of, times};
    ghost use Rattle.pvs_free_variables.specs.code.Finding.{names_of};

    ghost view = { λ f. all_occurs f.occurrences.items };

    ghost invariant = { λ f. (x : Text) → count_of f.names x ≡ times x (names_of (all_occurs f.occurrences.items)) };
}

impl<'a> Found<'a> {
    /// No occurrence.
    pub(crate) fn new(alloc: Global) -> Found<'a>
        ensures { result ≡ [] }
    {
        Found {
            occurrences: Vec::new(alloc),
            names: Counts::new(alloc),
        }
    }

    /// Adds an occurrence, unless one of its name was found.
    pub(crate) fn add(&mut self, occurrence: Occurrence<'a>) -> Result<(), AllocError>
        ensures { OnOk result (self.new ≡ add_first self.old (occurs occurrence.entry)) }
    {
        if self.names.count(occurrence.name) > 0 {
            return Ok(());
        }
        self.names.add(occurrence.name)?;
        match self.occurrences.push(occurrence) {
            Ok(()) => Ok(()),
            Err(_) => {
                self.names.remove(occurrence.name);
                Err(AllocError)
            }
        }
    }

    /// The occurrences.
    pub(crate) fn into_occurrences(self) -> Vec<Occurrence<'a>>
        ensures { all_occurs result.items ≡ self.entry }
    {
        self.occurrences
    }
}
