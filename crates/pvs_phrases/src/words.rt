//! The words of a text, and the numbers that they write.

ghost use Rattle.std.specs.Prelude.{◌≡◌};
ghost use Rattle.pvs_elab.specs.Desugar.{decimal};
ghost use Rattle.pvs_syntax.specs.Words as words;
ghost use Rattle.pvs_phrases.specs.Numbers.{in_range};

use pvs_lexer::spelling;
use pvs_syntax::Word;

/// The bytes of a word of a text.
pub(crate) fn spelling_of(text: &[u8], word: Word) -> &[u8]
    ensures { result.now ≡ words.spelling text.now word }
{
    spelling(text, word.start, word.end)
}

/// The number of a projection, from its decimal digits; `None` where it is above `u32::MAX`. This
/// takes no memory.
pub fn projection_number(digits: &[u8]) -> Option<u32>
    ensures { result ≡ in_range (decimal 0 digits.now) }
{
    let mut number: u32 = 0;
    let mut rest = digits;
    while let Some((digit, others)) = rest.split_first() {
        let next = number as u64 * 10 + digit.saturating_sub(b'0') as u64;
        if next > u32::MAX as u64 {
            return None;
        }
        number = next as u32;
        rest = others;
    }
    Some(number)
}
