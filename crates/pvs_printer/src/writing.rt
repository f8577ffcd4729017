//! The bytes of pieces.

ghost use Rattle.std.specs.Prelude.{◌≡◌, ◌++◌, OnOk, OnErr};
ghost use Rattle.std.specs.Fmt.{decimal};
ghost use Rattle.pvs_terms.specs.Stored.{IsName, text_at};
ghost use Rattle.pvs_sig.specs.Development.{theory_named};
ghost use Rattle.pvs_instantiate.specs.InstancesView.{development};
ghost use Rattle.pvs_printer.specs.Names.{entry_in, formal_in, names_from};
ghost use Rattle.pvs_printer.specs.Pieces.{sign_bytes, piece_bytes};
ghost use Rattle.pvs_printer.specs.Text.{AddsPrefix};
ghost use Rattle.pvs_printer.specs.code.TasksAt.{piece_at, PieceIn};

use crate::tasks::Piece;
use crate::words::Sign;
use itoa::Buffer;
use pvs_cache::Judgements;
use pvs_instantiate::Instances;
use pvs_terms::Name;
use std::alloc::AllocError;

/// The bytes of a keyword or a sign.
fn sign_bytes(sign: Sign) -> &'static [u8]
    ensures { result.now ≡ sign_bytes sign }
{
    match sign {
        Sign::Not => b"NOT",
        Sign::And => b"AND",
        Sign::Or => b"OR",
        Sign::Implies => b"IMPLIES",
        Sign::Equal => b"=",
        Sign::Forall => b"FORALL",
        Sign::Exists => b"EXISTS",
        Sign::Lambda => b"LAMBDA",
        Sign::If => b"IF",
        Sign::Then => b"THEN",
        Sign::Else => b"ELSE",
        Sign::EndIf => b"ENDIF",
        Sign::True => b"TRUE",
        Sign::False => b"FALSE",
        Sign::Bool => b"bool",
        Sign::Rest => b"rest",
        Sign::Open => b"(",
        Sign::Close => b")",
        Sign::OpenBracket => b"[",
        Sign::CloseBracket => b"]",
        Sign::OpenBrace => b"{",
        Sign::CloseBrace => b"}",
        Sign::Comma => b",",
        Sign::Semicolon => b";",
        Sign::Colon => b":",
        Sign::Dot => b".",
        Sign::Bar => b"|",
        Sign::Arrow => b"->",
        Sign::Backquote => b"`",
    }
}

/// The name of the entry of the theory with this number, empty where it is not declared.
fn entry_name<'a, J: Judgements>(instances: &'a Instances<J>, theory: Name, number: u32) -> &'a [u8]
    requires { IsName instances.now.store theory }
    ensures { result.now ≡ entry_in (theory_named (development instances.now) (text_at instances.now.store theory)) number }
{
    match instances.signature(theory) {
        None => b"",
        Some(signature) => match signature.entries.get(number as usize) {
            None => b"",
            Some(entry) => instances.store().text(entry.name).as_bytes(),
        },
    }
}

/// The name of the formal of the theory with this number, empty where it is not declared.
fn formal_name<'a, J: Judgements>(
    instances: &'a Instances<J>,
    theory: Name,
    number: u32,
) -> &'a [u8]
    requires { IsName instances.now.store theory }
    ensures { result.now ≡ formal_in (theory_named (development instances.now) (text_at instances.now.store theory)) number }
{
    match instances.signature(theory) {
        None => b"",
        Some(signature) => match signature.formals.get(number as usize) {
            None => b"",
            Some(formal) => instances.store().text(formal.name).as_bytes(),
        },
    }
}

/// Adds two texts at the end, or, where memory runs out, the first or nothing.
fn put_two(out: &mut Vec<u8>, first: &[u8], second: &[u8]) -> Result<(), AllocError>
    ensures ok { OnOk result (out.new.items ≡ out.old.items ++ (first.now ++ second.now)) }
    ensures err { OnErr result (AddsPrefix out.old.items (first.now ++ second.now) out.new.items) }
{
    out.extend_from_slice(first)?;
    out.extend_from_slice(second)?;
    Ok(())
}

/// Adds a prefix and a number.
fn put_number(out: &mut Vec<u8>, prefix: &[u8], number: u32) -> Result<(), AllocError>
    ensures ok { OnOk result (out.new.items ≡ out.old.items ++ (prefix.now ++ decimal number)) }
    ensures err { OnErr result (AddsPrefix out.old.items (prefix.now ++ decimal number) out.new.items) }
{
    let mut buffer = Buffer::new();
    put_two(out, prefix, buffer.format(number).as_bytes())
}

/// Adds the bytes of a piece, or, where memory runs out, a prefix of them.
pub(crate) fn write<J: Judgements>(
    instances: &Instances<J>,
    theory: Name,
    piece: Piece,
    out: &mut Vec<u8>,
) -> Result<(), AllocError>
    requires theory { IsName instances.now.store theory }
    requires within { PieceIn instances.now.store piece }
    ensures ok { OnOk result (out.new.items ≡ out.old.items ++ piece_bytes (piece_at instances.now.store (names_from (development instances.now) (text_at instances.now.store theory)) piece)) }
    ensures err { OnErr result (AddsPrefix out.old.items (piece_bytes (piece_at instances.now.store (names_from (development instances.now) (text_at instances.now.store theory)) piece)) out.new.items) }
{
    match piece {
        Piece::Space => put_two(out, b" ", b""),
        Piece::Fixed(sign) => put_two(out, sign_bytes(sign), b""),
        Piece::Bound(number) => put_number(out, b"v!", number),
        Piece::Free(number) => put_number(out, b"s!", number),
        Piece::Number(number) => put_number(out, b"", number),
        Piece::Own(number) => put_two(out, entry_name(instances, theory, number), b""),
        Piece::Formal(number) => put_two(out, formal_name(instances, theory, number), b""),
        Piece::Theory(other) => put_two(out, instances.store().text(other).as_bytes(), b""),
        Piece::Entry(other, number) => put_two(out, entry_name(instances, other, number), b""),
    }
}
