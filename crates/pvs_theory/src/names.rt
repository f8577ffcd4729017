//! Names by their bytes.

ghost use Rattle.std.specs.Prelude.{◌≡◌, bytes_eq};
ghost use Rattle.pvs_syntax.specs.Words as spec;

use pvs_lexer::spelling;
use pvs_syntax::Word;

/// The bytes of a word of a text, as far as the text has them. This takes no memory.
pub fn spelling_of<'a>(text: &'a [u8], word: &Word) -> &'a [u8]
    ensures { result.now ≡ spec.spelling text.now word.now }
{
    spelling(text, word.start, word.end)
}

/// Whether two names are the same.
pub fn is_same_name(a: &[u8], b: &[u8]) -> bool
    ensures { result ≡ bytes_eq a.now b.now }
{
    a == b
}
