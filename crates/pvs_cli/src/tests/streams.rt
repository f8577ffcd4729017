//! Command lines, and sources and sinks that fail.

ghost use Rattle.std.specs.Prelude.{◌≡◌, ◌<◌, None, length};
ghost use Rattle.pvs_io.specs.Outside.{Gives, HasCause, IsGiveOf};

use super::{COMPLETE, outcome};
use crate::run::run;
use crate::status::Status;
use pvs_io::{Gave, MemFiles, MemSource, Sink};
use std::alloc::{AllocError, Global};
use std::process::Abort;
use std::str::from_utf8;
use std::test::Fail;

/// A sink that takes a byte a call, so often.
#[derive(Drop)]
struct SlowSink {
    bytes: Vec<u8>,
    room: usize,
    faults: u64,
}

impl Sink for SlowSink {
    ghost written = { λ _. None };

    ghost faults = { λ s. s.faults };

    fn give(&mut self, bytes: &[u8]) -> Gave
        requires { 0 < length bytes.now }
        ensures count { IsGiveOf (length bytes.now) result }
        ensures bytes { Gives None None result bytes.now }
        ensures cause { HasCause self.old.faults self.new.faults (result ≡ Gave.Failed) }
    {
        if self.room == 0 || self.bytes.push(bytes[0]).is_err() {
            self.faults = self.faults.saturating_add(1);
            return Gave::Failed;
        }
        self.room -= 1;
        Gave::Bytes(1)
    }
}

/// Checks a text, and gives the report to a sink that takes a byte a call, so often.
fn given_slowly(alloc: Global, text: &[u8], room: usize) -> Result<(Status, Vec<u8>), AllocError> {
    let mut source = MemSource::new(text.to_vec(alloc)?, 4096, Vec::new(alloc));
    let mut sink = SlowSink {
        bytes: Vec::new(alloc),
        room,
        faults: 0,
    };
    let mut files = MemFiles::new(alloc, Vec::new(alloc), Vec::new(alloc));
    let status = run(alloc, &["check"], &mut files, &mut source, &mut sink);
    Ok((status, sink.bytes))
}

#[test]
fn status_codes(rt: HostRuntime) {
    for (status, code) in [
        (Status::Clean, 0),
        (Status::Unfinished, 1),
        (Status::BadWords, 2),
        (Status::InputFault, 3),
        (Status::OutputFault, 4),
        (Status::BadStream, 5),
        (Status::TooMuchInput, 6),
        (Status::Memory, 7),
    ] {
        assert_eq!(rt; status.code(), code, "of {status:?}");
    }
}

/// Asserts that words give the usage line, and that nothing is taken.
fn assert_usage(rt: &impl Abort, alloc: Global, words: &[&str]) -> Result<(), Fail> {
    let went = outcome(alloc, words, b"b: THEORY", 4096, Some(1), 100, None)?;
    let written = from_utf8(&went.written).unwrap_or("no text");
    assert_eq!(rt; written, "usage: pvscore check\n", "with {words:?}");
    assert_eq!(rt; went.status, Status::BadWords, "with {words:?}");
    assert_eq!(rt;
        went.behind.as_slice(),
        b"b: THEORY".as_slice(),
        "with {words:?}"
    );
    Ok(())
}

#[test]
fn other_words(rt: HostRuntime) -> Result<(), Fail> {
    let alloc = rt.alloc();
    assert_usage(&rt, alloc, &[])?;
    assert_usage(&rt, alloc, &["report"])?;
    assert_usage(&rt, alloc, &["check", "check"])?;
    assert_usage(&rt, alloc, &["CHECK"])?;
    assert_usage(&rt, alloc, &["check "])?;
    assert_usage(&rt, alloc, &[""])
}

#[test]
fn faults(rt: HostRuntime) -> Result<(), Fail> {
    let alloc = rt.alloc();
    let report =
        b"theory b\nb.l complete\ntotal complete 1 incomplete 0 open 0 refused 0\n".as_slice();
    // So many calls take pieces, and then one finds the end.
    let calls = COMPLETE.len().div_ceil(7) as u64;
    for call in 0..=calls {
        let went = outcome(
            alloc,
            &["check"],
            COMPLETE.as_bytes(),
            7,
            Some(call),
            100,
            None,
        )?;
        assert_eq!(rt; went.status, Status::InputFault, "at take {call}");
        assert!(rt; went.written.is_empty(), "at take {call}");
    }
    let went = outcome(
        alloc,
        &["check"],
        COMPLETE.as_bytes(),
        7,
        Some(calls + 1),
        100,
        None,
    )?;
    assert_eq!(rt; went.status, Status::Clean);

    for room in 0..report.len() {
        let went = outcome(alloc, &["check"], COMPLETE.as_bytes(), 7, None, room, None)?;
        assert_eq!(rt; went.status, Status::OutputFault, "with room {room}");
        assert_eq!(rt;
            went.written.as_slice(),
            &report[..room],
            "with room {room}"
        );
    }
    let went = outcome(
        alloc,
        &["check"],
        COMPLETE.as_bytes(),
        7,
        None,
        report.len(),
        Some(1),
    )?;
    assert_eq!(rt; went.status, Status::Clean);
    assert_eq!(rt; went.written.as_slice(), report);

    let went = outcome(
        alloc,
        &["check"],
        COMPLETE.as_bytes(),
        7,
        None,
        100,
        Some(0),
    )?;
    assert_eq!(rt; went.status, Status::OutputFault);
    assert!(rt; went.written.is_empty());
    let went = outcome(alloc, &[], COMPLETE.as_bytes(), 7, None, 9, None)?;
    assert_eq!(rt; went.status, Status::OutputFault);
    assert_eq!(rt; went.written.as_slice(), b"usage: pv".as_slice());
    Ok(())
}

#[test]
fn faults_of_a_slow_sink(rt: HostRuntime) -> Result<(), Fail> {
    let alloc = rt.alloc();
    let report =
        b"theory b\nb.l complete\ntotal complete 1 incomplete 0 open 0 refused 0\n".as_slice();
    for call in 0..report.len() {
        let (status, written) = given_slowly(alloc, COMPLETE.as_bytes(), call)?;
        assert_eq!(rt; status, Status::OutputFault, "at give {call}");
        assert_eq!(rt; written.as_slice(), &report[..call], "at give {call}");
    }
    let (status, written) = given_slowly(alloc, COMPLETE.as_bytes(), report.len())?;
    assert_eq!(rt; status, Status::Clean);
    assert_eq!(rt; written.as_slice(), report);
    Ok(())
}
