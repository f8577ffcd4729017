//! Reads the input.

ghost use Rattle.std.specs.Prelude.{◌≡◌, ◌≤◌, ◌<◌, ◌+◌, ◌^◌, [], ◌++◌, vec_len};
ghost use Rattle.pvs_io.specs.Outside.{HasCause};
ghost use Rattle.pvs_cli.specs.code.Reading.{IsAtEnd, ReadsChunk, ReadsText};

use pvs_base::MAX_TEXT;
use pvs_io::{Source, Took};

/// How the reading of a text ended.
#[derive(Clone, Copy, Debug, PartialEq, Eq)]
pub enum Input {
    /// The whole input was read, or its first bytes: one more than a text may have.
    Whole,

    /// The source failed.
    Failed,

    /// Memory ran out.
    Memory,
}

/// How the reading of a chunk ended.
#[derive(Clone, Copy, Debug, PartialEq, Eq)]
enum Chunk {
    /// The bytes of the chunk were added to the text.
    Added,

    /// The input is at its end.
    End,

    /// The source failed.
    Failed,

    /// Memory ran out, and the bytes of the chunk are lost.
    Memory,
}

/// Takes at least one byte and at most `most`, and adds them to the text.
fn read_chunk<S: Source>(src: &mut S, text: &mut Vec<u8>, most: usize) -> Chunk
    requires { 0 < most }
    ensures more { result ≡ Chunk.Added → vec_len text.old < vec_len text.new }
    ensures most { vec_len text.new ≤ vec_len text.old + most }
    ensures taken { ReadsChunk most (S.left src.old) (S.left src.new) text.old.items text.new.items result }
    ensures end { result ≡ Chunk.End → IsAtEnd (S.left src.new) }
    ensures cause { HasCause (S.faults src.old) (S.faults src.new) (result ≡ Chunk.Failed) }
{
    let mut chunk = [0; 4096];
    let size = most.min(4096);
    match src.take(&mut chunk[..size]) {
        Took::Bytes(n) => match text.extend_from_slice(&chunk[..n]) {
            Ok(()) => Chunk::Added,
            Err(_) => Chunk::Memory,
        },
        Took::End => Chunk::End,
        Took::Failed => Chunk::Failed,
    }
}

/// Reads a text into `text`, which is empty at the start: the whole input, or its first
/// `MAX_TEXT + 1` bytes if it is longer than a text may be.
pub fn read_text<S: Source>(src: &mut S, text: &mut Vec<u8>) -> Input
    requires { text.old.items ≡ [] }
    ensures len { vec_len text.new ≤ 2 ^ 20 + 1 }
    ensures taken { ReadsText (2 ^ 20 + 1) (S.left src.old) (S.left src.new) text.new.items result }
    ensures cause { HasCause (S.faults src.old) (S.faults src.new) (result ≡ Input.Failed) }
{
    while text.len() <= MAX_TEXT {
        match read_chunk(src, text, MAX_TEXT + 1 - text.len()) {
            Chunk::Added => (),
            Chunk::End => return Input::Whole,
            Chunk::Failed => return Input::Failed,
            Chunk::Memory => return Input::Memory,
        }
    }
    Input::Whole
}
