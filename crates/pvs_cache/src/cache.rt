//! The trait of caches, and the cache that keeps nothing.

ghost use Rattle.std.specs.Prelude.{◌≡◌, [], Contains, IfSome, IsOk};
ghost use Rattle.pvs_cache.specs.Kept.{KeepsOnly, AddsOnly};

use crate::key::JudgeKey;
use pvs_terms::Id;
use std::alloc::AllocError;

/// A cache of trees by key. It may forget any pair at any call, and it finds only what it keeps.
pub trait Judgements: Drop {
    ghost use Rattle.pvs_cache.specs.Kept.{Pairs};

    /// The pairs that it keeps.
    ghost kept: { Self → Pairs };

    /// A value that is kept for the key, if one is found. It takes no memory.
    fn find(&mut self, key: JudgeKey) -> Option<Id>
        ensures found { IfSome result (λ value. Contains (kept self.old) (key, value)) }
        ensures kept { KeepsOnly (kept self.old) (kept self.new) };

    /// Keeps a value for the key, or nothing.
    fn keep(&mut self, key: JudgeKey, value: Id) -> Result<(), AllocError>
        ensures { AddsOnly (kept self.old) (kept self.new) (key, value) };

    /// Forgets all pairs.
    fn forget(&mut self)
        ensures { kept self.new ≡ [] };
}

/// The cache that keeps nothing.
#[derive(Clone, Copy, Debug, Default)]
pub struct NoCache;

impl Judgements for NoCache {
    ghost use Rattle.std.specs.Prelude.{[]};

    ghost kept = { λ _. [] };

    fn find(&mut self, _key: JudgeKey) -> Option<Id> {
        None
    }

    /// Keeps nothing, and answers Ok.
    fn keep(&mut self, _key: JudgeKey, _value: Id) -> Result<(), AllocError>
        ensures kept { AddsOnly [] [] (_key, _value) }
        ensures ok { IsOk result }
    {
        Ok(())
    }

    fn forget(&mut self) {}
}
