//! `pvscore` checks theories and proofs of the core of PVS, and reports each lemma as complete or
//! open.
#![tactic(auto)]

mod fact;
mod input;
mod outcome;
mod outcomes;
mod output;
mod report;
mod run;
mod status;
#[cfg(test)]
mod tests;
mod verdict;

use pvs_io::{MemFiles, StdSink, StdSource};
use run::run;
use status::Status;
use std::alloc::AllocError;
use std::env;
use std::io::ErrorKind;
use std::process::ExitCode;

/// Runs the program with words on the standard streams.
fn run_words(rt: &HostRuntime, words: &[&str]) -> Status {
    let alloc = rt.alloc();
    let mut files = MemFiles::new(alloc, Vec::new(alloc), Vec::new(alloc));
    let mut src = StdSource::new(rt.stdin());
    let mut sink = StdSink::new(rt.stdout());
    run(alloc, words, &mut files, &mut src, &mut sink)
}

/// Runs the program with the words after its name.
fn run_arguments(rt: &HostRuntime, arguments: env::Args) -> Result<Status, AllocError> {
    let mut texts = Vec::new(rt.alloc());
    for argument in arguments.skip(1) {
        texts.push(argument)?;
    }
    let mut words = Vec::new(rt.alloc());
    for text in &texts {
        words.push(text.as_str())?;
    }
    Ok(run_words(rt, &words))
}

fn main(rt: HostRuntime) -> ExitCode {
    let status = match env::args(&rt) {
        Ok(arguments) => run_arguments(&rt, arguments).unwrap_or(Status::Memory),
        Err(error) if error.kind() == ErrorKind::OutOfMemory => Status::Memory,
        // A word that is no text is none of the program's.
        Err(_) => run_words(&rt, &[]),
    };
    ExitCode::from(status.code())
}
