//! The texts of names, each once.

ghost use Rattle.std.specs.Prelude.{◌≡◌, ◌<◌, ℕ, List, [], length, slice_index_or, IfOk, OnErr, string_bytes, map, bytes_eq};

use indexmap::IndexSet;
use std::alloc::{AllocError, Global};
use std::marker::Model;

/// The texts of names in the order in which they came, each once. Contracts see the list of them.
#[derive(Drop)]
pub(crate) struct Names {
    texts: IndexSet<String>,
}

impl Model for Names {
    ghost use Rattle.std.specs.Prelude.{List, ℕ, map, string_bytes};
    ghost use Rattle.pvs_terms.specs.code.Texts.{AreDistinct};

    ghost Value = { List (List ℕ) };

    ghost view = { λ n. map string_bytes n.texts.keys };

    ghost invariant = { λ n. AreDistinct (map string_bytes n.texts.keys) };
}

impl Names {
    ghost use Rattle.pvs_terms.specs.code.Texts.{AreDistinct, KeepsTexts, IsOnly};

    pub(crate) fn new(alloc: Global) -> Names
        ensures { result ≡ [] }
    {
        Names {
            texts: IndexSet::new(alloc),
        }
    }

    /// The number of a text, which is taken in where it is new.
    pub(crate) fn number(&mut self, alloc: Global, text: &str) -> Result<u64, AllocError>
        ensures ok { IfOk result (λ n. IsOnly self.new text.now n) }
        ensures kept { KeepsTexts self.old self.new }
        ensures err { OnErr result (self.new ≡ self.old) }
    {
        if let Some(at) = self.texts.get_index_of(text) {
            return Ok(at as u64);
        }
        let owned = String::from_str(alloc, text)?;
        let (at, _) = self.texts.insert_full(owned)?;
        Ok(at as u64)
    }

    /// The text of a number.
    pub(crate) fn text(&self, number: u64) -> &str
        requires { number < length self.now }
        ensures { result.now ≡ slice_index_or self.now number [] }
    {
        self.texts.as_slice()[number as usize].as_str()
    }

    /// Whether the numbers stand for one text.
    pub(crate) fn same(&self, a: u64, b: u64) -> bool
        requires first { a < length self.now }
        requires second { b < length self.now }
        ensures { result ≡ bytes_eq (slice_index_or self.now a []) (slice_index_or self.now b []) }
    {
        let _texts = &self.texts;
        a == b
    }

    /// Each text stands there once.
    pub(crate) fn one_number_per_text(&self)
        ensures { AreDistinct self.now }
    {
        let _texts = &self.texts;
    }
}
