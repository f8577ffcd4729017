//! A place in a text, with what is left of the text.

ghost use Rattle.std.specs.Prelude.{◌≡◌, ◌≤◌, ◌+◌, length, drop, take};
ghost use Rattle.pvs_base.specs.Place.{place_after};
ghost use Rattle.pvs_lexer.specs.code.Cursor as spec;

use crate::scan::blank;
use pvs_base::Pos;

/// What is left of a text, with the offset and the place of its first byte.
#[derive(Clone, Copy, Debug)]
pub struct Cursor<'a> {
    pub rest: &'a [u8],
    pub offset: u32,
    pub pos: Pos,
}

/// The cursor after so many bytes.
pub fn past<'a>(cursor: Cursor<'a>, size: usize) -> Cursor<'a>
    requires room { spec.HasRoom cursor }
    requires within { size ≤ length cursor.rest.now }
    ensures room { spec.HasRoom result }
    ensures same { spec.tokens_left result 0 ≡ spec.tokens_left cursor.entry size }
    ensures rest { result.rest.now ≡ drop size cursor.entry.rest.now }
    ensures offset { result.offset ≡ cursor.entry.offset + size }
{
    let mut pos = cursor.pos;
    for b in &cursor.rest[..size] {
        pos = pos.after(*b);
    }
    Cursor {
        rest: &cursor.rest[size..],
        offset: cursor.offset + size as u32,
        pos,
    }
}

/// The cursor after the white space and the comments that stand here.
pub fn past_blanks<'a>(mut cursor: Cursor<'a>) -> Cursor<'a>
    requires { spec.HasRoom cursor }
    ensures room { spec.HasRoom result }
    ensures same { spec.tokens_left result 0 ≡ spec.tokens_left cursor.entry 0 }
    ensures stops { spec.BeginsNoBlank result.rest.now }
{
    while let [first, rest @ ..] = cursor.rest {
        let size = blank(*first, rest);
        if size == 0 {
            break;
        }
        cursor = past(cursor, size);
    }
    cursor
}
