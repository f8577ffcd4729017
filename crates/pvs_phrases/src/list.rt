//! Lists of a tree, as far as they are written out.

ghost use Rattle.pvs_phrases.specs.Lists.{IsNext};

use sqlite_items::Items;

/// The next item of a list, with the number of items up to it and the number of those that are
/// left, it among them.
#[derive_where(Clone, Copy)]
pub(crate) struct Item<'a, T> {
    pub(crate) value: &'a T,
    pub(crate) from: usize,
    pub(crate) left: usize,
}

/// The item after this many, where there is one. This takes no memory.
pub(crate) fn next<'a, T>(items: &'a Items<T>, from: usize) -> Option<Item<'a, T>>
    ensures { IsNext items.now from result }
{
    let len = items.len();
    match items.get(from) {
        Some(value) => Some(Item {
            value,
            from: from + 1,
            left: len - from,
        }),
        None => None,
    }
}
