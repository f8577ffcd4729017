//! Caches of the tests' own: one counts, one forgets at random, one refuses each pair.

ghost use Rattle.std.specs.Prelude.{[]};
ghost use Rattle.pvs_cache.specs.Kept.{KeepsOnly};

use pvs_cache::{JudgeKey, Judgements};
use pvs_terms::Id;
use std::alloc::{AllocError, Global};

/// Keeps each pair, and counts the look-ups and those that find a value.
#[derive(Drop)]
pub(crate) struct Counting {
    pairs: Vec<(JudgeKey, Id)>,
    pub(crate) asked: u64,
    pub(crate) found: u64,
}

impl Counting {
    pub(crate) fn new(alloc: Global) -> Counting {
        Counting {
            pairs: Vec::new(alloc),
            asked: 0,
            found: 0,
        }
    }
}

impl Judgements for Counting {
    ghost kept = { λ c. c.pairs.items };

    fn find(&mut self, key: JudgeKey) -> Option<Id> {
        self.asked = self.asked.saturating_add(1);
        for (kept, value) in &self.pairs {
            if *kept == key {
                self.found = self.found.saturating_add(1);
                return Some(*value);
            }
        }
        None
    }

    fn keep(&mut self, key: JudgeKey, value: Id) -> Result<(), AllocError> {
        self.pairs.push((key, value))?;
        Ok(())
    }

    fn forget(&mut self) {
        self.pairs.clear();
    }
}

/// Keeps each pair, and forgets them all at about every second look-up.
#[derive(Drop)]
pub(crate) struct Forgetful {
    pairs: Counting,
    state: u64,
}

impl Forgetful {
    pub(crate) fn new(alloc: Global, seed: u64) -> Forgetful {
        Forgetful {
            pairs: Counting::new(alloc),
            state: seed,
        }
    }

    fn forget_at_random(&mut self)
        ensures { KeepsOnly self.old.pairs.pairs.items self.new.pairs.pairs.items }
    {
        self.state = self
            .state
            .wrapping_mul(6364136223846793005)
            .wrapping_add(1442695040888963407);
        if self.state >> 63 == 0 {
            self.pairs.forget();
        }
    }
}

impl Judgements for Forgetful {
    ghost kept = { λ c. c.pairs.pairs.items };

    fn find(&mut self, key: JudgeKey) -> Option<Id> {
        self.forget_at_random();
        self.pairs.find(key)
    }

    fn keep(&mut self, key: JudgeKey, value: Id) -> Result<(), AllocError> {
        self.pairs.keep(key, value)
    }

    fn forget(&mut self) {
        self.pairs.forget();
    }
}

/// Refuses each pair.
#[derive(Drop)]
pub(crate) struct Refusing;

impl Judgements for Refusing {
    ghost kept = { λ _. [] };

    fn find(&mut self, _key: JudgeKey) -> Option<Id> {
        None
    }

    fn keep(&mut self, _key: JudgeKey, _value: Id) -> Result<(), AllocError> {
        Err(AllocError)
    }

    fn forget(&mut self) {}
}
