//! Caches of the tests' own, each called through its bound.

ghost use Rattle.std.specs.Prelude.{◌≡◌, [], ◌∷◌, Contains, IfSome};
ghost use Rattle.pvs_cache.specs.Kept.{KeepsOnly, AddsOnly};

use crate::{JudgeKey, Judgements, NoCache, Part};
use pvs_terms::{Id, Node, RefId, RefKind, Store};
use std::alloc::AllocError;
use std::test::Fail;

/// Keeps the last pair, and counts the look-ups.
#[derive(Drop)]
struct LastPair {
    pairs: Vec<(JudgeKey, Id)>,
    asked: u64,
}

impl Judgements for LastPair {
    ghost kept = { λ c. c.pairs.items };

    fn find(&mut self, key: JudgeKey) -> Option<Id> {
        self.asked = self.asked.saturating_add(1);
        match self.pairs.first() {
            Some((kept, value)) if *kept == key => Some(*value),
            _ => None,
        }
    }

    fn keep(&mut self, key: JudgeKey, value: Id) -> Result<(), AllocError> {
        self.pairs.clear();
        match self.pairs.push((key, value)) {
            Ok(()) => Ok(()),
            Err(_) => Err(AllocError),
        }
    }

    fn forget(&mut self) {
        self.pairs.clear();
    }
}

/// Refuses each pair.
#[derive(Drop)]
struct Refusing;

impl Judgements for Refusing {
    ghost kept = { λ _. [] };

    fn find(&mut self, _key: JudgeKey) -> Option<Id> {
        None
    }

    fn keep(&mut self, _key: JudgeKey, _value: Id) -> Result<(), AllocError> {
        Err(AllocError)
    }

    fn forget(&mut self) {}
}

/// The key of a type.
fn type_key(item: RefId) -> JudgeKey {
    JudgeKey {
        stamp: 1,
        part: Part::TypeOf,
        item,
    }
}

/// Whether a value that was just kept is found, before and after all is forgotten.
fn is_found<J: Judgements>(cache: &mut J, item: RefId, value: Id) -> (bool, bool) {
    let _ = cache.keep(type_key(item), value);
    let before = cache.find(type_key(item));
    cache.forget();
    let after = cache.find(type_key(item));
    (before == Some(value), after.is_some())
}

#[test]
fn what_is_kept_is_found(rt: HostRuntime) -> Result<(), Fail> {
    let mut store = Store::new(rt.alloc())?;
    let value = store.make(Node::True)?;
    let item = store.reference(RefKind::Own(0), &[])?;
    let mut last = LastPair {
        pairs: Vec::new(rt.alloc()),
        asked: 0,
    };
    assert!(rt; is_found(&mut last, item, value) == (true, false));
    assert!(rt; last.asked == 2);
    assert!(rt; is_found(&mut NoCache, item, value) == (false, false));
    assert!(rt; is_found(&mut Refusing, item, value) == (false, false));
    Ok(())
}
