//! Runs over things in memory, with the bytes and the status that the rules of the language give.

mod scripts;
mod sizes;
mod streams;
mod theories;
mod units;

ghost use Rattle.std.specs.Prelude.{IfOk};
ghost use Rattle.std.specs.List.Sorted.{IsStrictlyIncreasing};

use crate::run::run;
use crate::status::Status;
use pvs_io::{MemFiles, MemSink, MemSource, Source, Took};
use std::alloc::{AllocError, Global};
use std::process::Abort;
use std::str::from_utf8;
use std::test::Fail;

/// How a run went.
#[derive(Drop)]
struct Went {
    status: Status,
    written: Vec<u8>,

    /// What the source gives after it.
    behind: Vec<u8>,
}

/// The numbers of the calls that fail: this one, or none.
fn failing(alloc: Global, call: Option<u64>) -> Result<Vec<u64>, AllocError>
    ensures { IfOk result (λ v. IsStrictlyIncreasing v.items) }
{
    let mut fails = Vec::new(alloc);
    if let Some(call) = call {
        fails.push(call)?;
    }
    Ok(fails)
}

/// The next bytes of a source, at most 16.
fn next_of<S: Source>(alloc: Global, source: &mut S) -> Result<Vec<u8>, AllocError> {
    let mut into = [0; 16];
    match source.take(&mut into) {
        Took::Bytes(count) => into[..count].to_vec(alloc),
        _ => Ok(Vec::new(alloc)),
    }
}

/// Runs the program with words on a text that comes in pieces, and with a sink of that room.
fn outcome(
    alloc: Global,
    words: &[&str],
    text: &[u8],
    piece: usize,
    source_fails: Option<u64>,
    room: usize,
    sink_fails: Option<u64>,
) -> Result<Went, AllocError> {
    let bytes = text.to_vec(alloc)?;
    let mut source = MemSource::new(bytes, piece.max(1), failing(alloc, source_fails)?);
    let mut sink = MemSink::new(alloc, room, failing(alloc, sink_fails)?)?;
    let status = status_of(alloc, words, &mut source, &mut sink);
    run_left(alloc, status, &mut source, &sink)
}

/// Runs the program without files.
fn status_of(alloc: Global, words: &[&str], source: &mut MemSource, sink: &mut MemSink) -> Status {
    let mut files = MemFiles::new(alloc, Vec::new(alloc), Vec::new(alloc));
    run(alloc, words, &mut files, source, sink)
}

/// What a run left.
fn run_left(
    alloc: Global,
    status: Status,
    source: &mut MemSource,
    sink: &MemSink,
) -> Result<Went, AllocError> {
    let written = sink.bytes().to_vec(alloc)?;
    let behind = next_of(alloc, source)?;
    Ok(Went {
        status,
        written,
        behind,
    })
}

const COMPLETE: &str = "b: THEORY
BEGIN
p, q: bool
l: LEMMA (p AND q) IMPLIES (q AND p)
END b
(proof b.l ((if 1) (if -1) (if 1)))
";

const NOTHING: &str = "total complete 0 incomplete 0 open 0 refused 0\n";

/// Asserts that the report of a text is this one, in whatever pieces the text comes.
fn assert_bytes(
    rt: &impl Abort,
    alloc: Global,
    name: &str,
    text: &[u8],
    report: &str,
    status: Status,
) -> Result<(), Fail> {
    for piece in [1, 7, 4096] {
        let went = outcome(alloc, &["check"], text, piece, None, 4096, None)?;
        let written = from_utf8(&went.written).unwrap_or("no text");
        assert_eq!(rt; written, report, "of {name:?} in pieces of {piece}");
        assert_eq!(rt; went.status, status, "of {name:?} in pieces of {piece}");
    }
    Ok(())
}

/// Asserts that the report of a text is this one.
fn assert_report(
    rt: &impl Abort,
    alloc: Global,
    text: &str,
    report: &str,
    status: Status,
) -> Result<(), Fail> {
    assert_bytes(rt, alloc, text, text.as_bytes(), report, status)
}

/// One text after another.
fn joined(alloc: Global, first: &str, second: &str) -> Result<String, AllocError> {
    let mut all = String::from_str(alloc, first)?;
    all.push_str(second)?;
    Ok(all)
}
