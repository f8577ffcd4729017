//! Each public call once, with its answer.

ghost use Rattle.std.specs.Prelude.{◌<◌, length};

use crate::{
    Files, Gave, Load, MemFiles, MemSink, MemSource, Sink, Source, StdSink, StdSource, Took,
};
use std::alloc::AllocError;
use std::test::Fail;

// These call the traits through their bounds.

fn take_from<S: Source>(source: &mut S, taken: &mut Vec<u8>) -> Result<Took, AllocError> {
    let mut into = [0; 16];
    let took = source.take(&mut into);
    if let Took::Bytes(count) = took {
        taken.extend_from_slice(&into[..count])?;
    }
    Ok(took)
}

fn give_to<K: Sink>(sink: &mut K, bytes: &[u8]) -> Gave
    requires { 0 < length bytes.now }
{
    sink.give(bytes)
}

fn load_from<F: Files>(files: &mut F, name: &str, max: u32, into: &mut Vec<u8>) -> Load {
    files.load(name, max, into)
}

#[test]
fn source_in_pieces_fails_and_goes_on(rt: HostRuntime) -> Result<(), Fail> {
    let ones = [
        Took::Bytes(1),
        Took::Bytes(1),
        Took::Failed,
        Took::Bytes(1),
        Took::End,
    ];
    let sevens = [
        Took::Bytes(7),
        Took::Bytes(2),
        Took::Failed,
        Took::End,
        Took::End,
    ];
    for (text, piece, answers) in [("abc", 1, ones), ("abcdefghi", 7, sevens)] {
        let bytes = text.as_bytes().to_vec(rt.alloc())?;
        let mut source = MemSource::new(bytes, piece, vec![in rt.alloc(); 2]?);
        let mut taken = Vec::new(rt.alloc());
        for answer in answers {
            let took = take_from(&mut source, &mut taken)?;
            assert_eq!(rt; took, answer, "in pieces of {piece}");
        }
        assert_eq!(rt; taken.as_slice(), text.as_bytes());
    }
    Ok(())
}

#[test]
fn sink_fails_and_fills_its_room(rt: HostRuntime) -> Result<(), Fail> {
    let mut sink = MemSink::new(rt.alloc(), 5, vec![in rt.alloc(); 1]?)?;
    assert_eq!(rt; give_to(&mut sink, b"abc"), Gave::Bytes(3));
    assert_eq!(rt; give_to(&mut sink, b"def"), Gave::Failed);
    assert_eq!(rt; give_to(&mut sink, b"def"), Gave::Bytes(2));
    assert_eq!(rt; give_to(&mut sink, b"f"), Gave::Failed);
    assert_eq!(rt; sink.bytes(), b"abcde".as_slice());
    Ok(())
}

#[test]
fn files_by_name(rt: HostRuntime) -> Result<(), Fail> {
    let alloc = rt.alloc();
    let contents = vec![in alloc;
        (String::from_str(alloc, "a")?, b"first".to_vec(alloc)?),
        (String::from_str(alloc, "b")?, b"second".to_vec(alloc)?),
    ]?;
    let mut files = MemFiles::new(alloc, contents, vec![in alloc; 2]?);
    let mut into = b"old".to_vec(alloc)?;
    assert_eq!(rt; load_from(&mut files, "c", 9, &mut into), Load::Failed);
    assert_eq!(rt; load_from(&mut files, "b", 4, &mut into), Load::Done);
    assert_eq!(rt; into.as_slice(), b"seco".as_slice());
    assert_eq!(rt; load_from(&mut files, "a", 9, &mut into), Load::Failed);
    assert_eq!(rt; load_from(&mut files, "a", 9, &mut into), Load::Done);
    assert_eq!(rt; into.as_slice(), b"first".as_slice());
    Ok(())
}

#[test]
fn reader_and_writer(rt: HostRuntime) -> Result<(), Fail> {
    let mut source = StdSource::new(b"abc".as_slice());
    let mut taken = Vec::new(rt.alloc());
    assert_eq!(rt; take_from(&mut source, &mut taken)?, Took::Bytes(3));
    assert_eq!(rt; take_from(&mut source, &mut taken)?, Took::End);
    assert_eq!(rt; taken.as_slice(), b"abc".as_slice());

    let mut written = Vec::new(rt.alloc());
    let mut sink = StdSink::new(&mut written);
    assert_eq!(rt; give_to(&mut sink, b"abc"), Gave::Bytes(3));
    assert_eq!(rt; written.as_slice(), b"abc".as_slice());
    Ok(())
}
