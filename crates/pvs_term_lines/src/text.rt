//! Texts that are added at the end of others.

ghost use Rattle.std.specs.Prelude.{◌≡◌, ◌++◌, OnOk, OnErr};
ghost use Rattle.pvs_printer.specs.Text.{AddsPrefix};
ghost use Rattle.pvs_term_lines.specs.Lines.{label};

use itoa::Buffer;
use std::alloc::AllocError;

/// Adds a text, or nothing where memory runs out.
pub(crate) fn put_text(out: &mut Vec<u8>, text: &[u8]) -> Result<(), AllocError>
    ensures ok { OnOk result (out.new.items ≡ out.old.items ++ text.now) }
    ensures err { OnErr result (AddsPrefix out.old.items text.now out.new.items) }
{
    out.extend_from_slice(text)
}

/// Adds what stands before a numbered tree, or, where memory runs out, a prefix of it.
pub(crate) fn put_label(out: &mut Vec<u8>, sign: &[u8], number: usize) -> Result<(), AllocError>
    ensures ok { OnOk result (out.new.items ≡ out.old.items ++ (label sign.now number)) }
    ensures err { OnErr result (AddsPrefix out.old.items (label sign.now number) out.new.items) }
{
    let mut buffer = Buffer::new();
    put_text(out, sign)?;
    put_text(out, buffer.format(number).as_bytes())?;
    put_text(out, b": ")
}
