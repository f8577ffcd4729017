//! Numbers of names.

ghost use Rattle.std.specs.Prelude.{◌≡◌, ◌+◌, ◌-◌, ◌<◌, ◌^◌, cond, bytes_eq, OnOk, OnErr};
ghost use Rattle.pvs_terms.specs.Tree.{Text};
ghost use Rattle.pvs_free_variables.specs.code.Counts.{count_of};

use indexmap::IndexMap;
use std::alloc::{AllocError, Global};

/// How often each name is there.
#[derive(Drop)]
pub(crate) struct Counts<'a> {
    pub(crate) counts: IndexMap<&'a [u8], usize>,
}

impl<'a> Counts<'a> {
    /// No name.
    pub(crate) fn new(alloc: Global) -> Counts<'a>
        ensures { (x : Text) → count_of result x ≡ 0 }
    {
        Counts {
            counts: IndexMap::new(alloc),
        }
    }

    /// How often a name is there. This takes no memory.
    pub(crate) fn count(&self, name: &[u8]) -> usize
        ensures { result ≡ count_of self.now name.now }
    {
        match self.counts.get(name) {
            Some(count) => *count,
            None => 0,
        }
    }

    /// Adds a name once more.
    pub(crate) fn add(&mut self, name: &'a [u8]) -> Result<(), AllocError>
        requires { count_of self.old name.now + 1 < 2 ^ 64 }
        ensures ok { OnOk result ((x : Text) → count_of self.new x ≡ cond (bytes_eq name.now x) (count_of self.old x + 1) (count_of self.old x)) }
        ensures err { OnErr result ((x : Text) → count_of self.new x ≡ count_of self.old x) }
    {
        let count = self.count(name);
        self.counts.insert(name, count + 1)?;
        Ok(())
    }

    /// Removes a name once. This takes no memory.
    pub(crate) fn remove(&mut self, name: &[u8])
        ensures { (x : Text) → count_of self.new x ≡ cond (bytes_eq name.now x) (count_of self.old x - 1) (count_of self.old x) }
    {
        if let Some(count) = self.counts.get_mut(name) {
            *count = count.saturating_sub(1);
        }
    }
}
