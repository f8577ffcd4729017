//! A token, and how it is spelled.

ghost use Rattle.std.specs.Prelude.{◌≡◌, ◌-◌, take, drop};

use pvs_base::Pos;

/// A token: a span of the text.
#[derive(Clone, Copy, Debug, PartialEq, Eq)]
pub struct Token {
    pub kind: TokenKind,
    /// The offset of its first byte.
    pub start: u32,
    /// The offset after its last byte.
    pub end: u32,
    /// The place of its first byte.
    pub pos: Pos,
}

/// What a token is. Which keyword a word is, if any, [`crate::keyword`] says.
#[derive(Clone, Copy, Debug, PartialEq, Eq)]
pub enum TokenKind {
    /// A letter, then letters, digits, `_` and `?`.
    Word,
    /// `v!` or `s!`, then a number from 1 of at most nine digits: a variable of a sequent.
    Bang,
    /// Digits.
    Number,
    /// Two quotes and the bytes between them.
    Quoted,
    /// Any other sign of the language.
    Symbol,
}

/// The bytes of a span of a text, which ends with the text where the span does not. This takes no
/// memory.
pub fn spelling<'a>(text: &'a [u8], start: u32, end: u32) -> &'a [u8]
    ensures { result.now ≡ take (end - start) (drop start text.now) }
{
    let start = (start as usize).min(text.len());
    let end = (end as usize).min(text.len());
    if start < end { &text[start..end] } else { &[] }
}
