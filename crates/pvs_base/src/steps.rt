//! A counter of steps.

ghost use Rattle.std.specs.Prelude.{◌≡◌, ◌+◌, ◌<◌, ◌-◌, ◌^◌, ℕ, min};

use std::marker::Model;
use std::sync::ledger::{Blank, Book, Ledger, Share};

/// How many steps were counted. Contracts see it as that number, which stands still at
/// `u64::MAX`.
///
/// The ledger `L` keeps a body from making a second counter of the same kind and counting there.
#[derive(Drop)]
pub struct Steps<L: Ledger> {
    count: u64,
    book: Book<L>,
    share: Share<L>,
}

impl<L: Ledger> Model for Steps<L> {
    ghost use Rattle.std.specs.Prelude.{ℕ, ◌≡◌, ◌<◌};

    ghost Value = { ℕ };

    ghost view = { λ s. s.book.total };

    ghost invariant = { λ s. (0 < s.share.parts) × (s.count ≡ s.book.total) };
}

impl<L: Ledger> Steps<L> {
    /// Counts one step. This takes no memory.
    pub fn tick(&mut self)
        ensures { self.new ≡ min (self.old + 1) (2 ^ 64 - 1) }
    {
        if self.count < u64::MAX {
            self.count += 1;
            self.book.add(&mut self.share, 1);
        }
    }

    /// How many steps were counted. This takes no memory.
    pub fn count(&self) -> u64
        ensures { result ≡ self.now }
    {
        self.count
    }
}

/// A counter at 0, from what the standard library needs to open a ledger. This takes no memory.
pub fn open_steps<L: Ledger>(blank: Blank) -> Steps<L>
    requires name { blank.name ≡ L.name }
    requires parts { blank.parts ≡ L.parts }
    requires some { 0 < blank.parts }
    ensures { result ≡ 0 }
{
    let (book, share) = blank.open::<L>();
    Steps {
        count: 0,
        book,
        share,
    }
}
