//! Places in a text.

ghost use Rattle.std.specs.Prelude.{◌≡◌, ◌+◌, ◌<◌, ◌^◌, ℕ, List, [], ◌∷◌, ◌++◌};

/// A place in a text: a line and a column.
///
/// Both count from 1. A column is a byte, and a line ends with a line feed, which is the last
/// column of its line.
#[derive(Clone, Copy, Debug, PartialEq, Eq)]
pub struct Pos {
    pub line: u32,
    pub col: u32,
}

impl Pos {
    ghost use Rattle.pvs_base.specs.Place.{place_after};

    /// The place of the first byte of a text.
    pub const FIRST: Pos = Pos { line: 1, col: 1 };

    /// The place after a byte that stands here.
    #[tactic(auto, using(crate::proofs::PlaceLaws::place_after_push))]
    pub fn after(self, byte: u8) -> Pos
        requires line { self.line + 1 < 2 ^ 32 }
        requires col { self.col + 1 < 2 ^ 32 }
        ensures byte { result ≡ place_after self (byte ∷ []) }

        // Where a text begins at `first`, and the bytes before this one end here.
        ensures next { (first : Pos) (before : List ℕ) → self ≡ place_after first before
            → result ≡ place_after first (before ++ byte ∷ []) }
    {
        if byte == b'\n' {
            Pos {
                line: self.line + 1,
                col: 1,
            }
        } else {
            Pos {
                line: self.line,
                col: self.col + 1,
            }
        }
    }
}
