//! Lists of numbers of nodes that know how often a number stands in them.

ghost use Rattle.std.specs.Prelude.{◌≡◌, ◌<◌, ◌≤◌, ◌+◌, ◌-◌, ◌^◌, ℕ, [], ◌∷◌, List, length, remove, slice_get, eqb, if◌then◌else◌, IfOk, OnOk, OnErr, Some};
ghost use Rattle.std.specs.List.{list_any};
ghost use Rattle.pvs_sequent.specs.Counts.{IsCountOf, counted, times};

use crate::list::IdList;
use indexmap::IndexMap;
use pvs_terms::Id;
use std::alloc::{AllocError, Global};
use std::marker::Model;

/// A list of numbers of nodes, with how often each stands in it. Contracts see the list.
///
/// To count a number, to add one as the first and to take out the first one costs the same in a
/// list of any length.
#[derive(Drop)]
pub(crate) struct CountedIds {
    list: IdList,
    counts: IndexMap<Id, usize>,
}

impl Model for CountedIds {
    ghost Value = { List ℕ };

    ghost view = { λ a. a.list };

    ghost invariant = { λ a. IsCountOf a.counts.entries a.list };
}

/// The count of a number.
fn count_in(counts: &IndexMap<Id, usize>, id: Id) -> usize
    ensures { result ≡ counted counts.now.entries id }
{
    match counts.get(&id) {
        Some(count) => *count,
        None => 0,
    }
}

/// Raises the count of a number.
fn raise(counts: &mut IndexMap<Id, usize>, id: Id) -> Result<(), AllocError>
    requires { counted counts.old.entries id + 1 < 2 ^ 64 }
    ensures ok { OnOk result ((q : ℕ) → counted counts.new.entries q ≡ counted counts.old.entries q + (if eqb q id then 1 else 0)) }
    ensures err { OnErr result (counts.new.entries ≡ counts.old.entries) }
{
    let count = count_in(counts, id);
    counts.insert(id, count + 1)?;
    Ok(())
}

/// Lowers the count of a number. Numbers of which there are none left are not kept.
fn lower(counts: &mut IndexMap<Id, usize>, id: Id)
    requires { 0 < counted counts.old.entries id }
    ensures { (q : ℕ) → counted counts.new.entries q ≡ counted counts.old.entries q - (if eqb q id then 1 else 0) }
{
    let count = count_in(counts, id);
    if count == 1 {
        let _count = counts.swap_remove(&id);
        return;
    }
    let Ok(_) = counts.insert(id, count - 1) else {
        unreachable!();
    };
}

impl CountedIds {
    /// The empty list.
    pub(crate) fn new(alloc: Global) -> CountedIds
        ensures { result ≡ [] }
    {
        CountedIds {
            list: IdList::new(alloc),
            counts: IndexMap::new(alloc),
        }
    }

    /// How many numbers there are.
    pub(crate) fn len(&self) -> usize
        ensures { result ≡ length self.now }
    {
        self.list.len()
    }

    /// The numbers.
    pub(crate) fn list(&self) -> &IdList
        ensures { result.now ≡ self.now }
    {
        &self.list
    }

    /// The number at an index, counted from 0, or None past the end.
    pub(crate) fn get(&self, at: usize) -> Option<Id>
        ensures { result ≡ slice_get self.now at }
    {
        self.list.get(at)
    }

    /// How often a number stands in the list.
    pub(crate) fn count(&self, id: Id) -> usize
        ensures { result ≡ times id self.now }
    {
        let _list = &self.list;
        count_in(&self.counts, id)
    }

    /// Whether a number stands in the list.
    pub(crate) fn contains(&self, id: Id) -> bool
        ensures { result ≡ list_any (eqb id) self.now }
    {
        self.count(id) > 0
    }

    /// Adds a number as the first one.
    pub(crate) fn push_first(&mut self, id: Id) -> Result<(), AllocError>
        ensures ok { OnOk result (self.new ≡ id ∷ self.old) }
        ensures err { OnErr result (self.new ≡ self.old) }
    {
        self.list.push_first(id)?;
        let _length = self.list.len();
        if let Err(error) = raise(&mut self.counts, id) {
            let _id = self.list.remove(0);
            return Err(error);
        }
        Ok(())
    }

    /// Takes out the number at an index, counted from 0.
    pub(crate) fn remove(&mut self, at: usize) -> Id
        requires { at < length self.old }
        ensures number { slice_get self.old at ≡ Some result }
        ensures rest { self.new ≡ remove self.old at }
    {
        let id = self.list.remove(at);
        lower(&mut self.counts, id);
        id
    }

    /// A copy.
    pub(crate) fn copy(&self, alloc: Global) -> Result<CountedIds, AllocError>
        ensures { IfOk result (λ x. x ≡ self.now) }
    {
        Ok(CountedIds {
            list: self.list.copy(alloc)?,
            counts: self.counts.clone()?,
        })
    }
}
