//! The expression of a quoted text.

ghost use Rattle.std.specs.Prelude.{◌≡◌, ◌≤◌, ◌+◌, ◌^◌, length};
ghost use Rattle.pvs_parser.specs.code.Reading.{Returns};
ghost use Rattle.pvs_scripts.specs.code.Reading as spec;

use pvs_base::Pos;
use pvs_parser::{ParseFault, parse_expr};
use pvs_syntax::{Expr, Word};
use std::alloc::Global;

/// The expression between the quotes of a quoted text, or the first fault there.
pub fn quote(alloc: Global, text: &[u8], word: Word) -> Result<Expr, ParseFault>
    requires order { word.start + 2 ≤ word.end }
    requires within { word.end ≤ length text.now }
    requires size { length text.now ≤ 2 ^ 20 }
    requires line { word.pos.line ≤ 2 ^ 30 }
    requires col { word.pos.col + 1 ≤ 2 ^ 30 }
    ensures { Returns result (spec.quote_of text.now word) }
{
    let pos = Pos {
        line: word.pos.line,
        col: word.pos.col + 1,
    };
    parse_expr(alloc, text, word.start + 1, word.end - 1, pos)
}
