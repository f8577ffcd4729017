//! Words of a text.

use pvs_base::Pos;

/// A token of a text: its bytes are those from `start` up to `end`, and `pos` is the place of the
/// first of them.
///
/// An empty word, with `end` equal to `start`, stands where a name was left out.
#[derive(Clone, Copy, Debug, PartialEq, Eq)]
pub struct Word {
    /// The offset of its first byte.
    pub start: u32,
    /// The offset after its last byte.
    pub end: u32,
    pub pos: Pos,
}
