//! The top call.

ghost use Rattle.std.specs.Prelude.{◌≡◌, ◌≢◌, ◌+◌, ◌^◌, ◌⊎◌, List, ℕ, true, false, codes, map, IsTrue, ◌↔◌};
ghost use Rattle.pvs_cli.specs.declared.status.Status.{Status};
ghost use Rattle.pvs_io.specs.Outside.{HasCause, Rose};
ghost use Rattle.pvs_cli.specs.Input.{TakesAtMost};
ghost use Rattle.pvs_cli.specs.Output.{Adds, HasOneOutput, IsCheck, TakesUnit, Writes, has_whole_output, usage_line};
ghost use Rattle.pvs_cli.specs.code.Writing.{WritesReport, WritesReportOf, ends_check, ends_writing};
ghost use Rattle.pvs_report.specs.Lines.{Line};
ghost use Rattle.pvs_cli.specs.Reporting.{IsReport};
ghost use Rattle.pvs_cli.specs.Soundness.{IsSound, WritesTruth};

use crate::input::{Input, read_text};
use crate::output::give_all;
use crate::report::make_report;
use crate::status::Status;
use pvs_io::{Files, Sink, Source};
use pvs_parser::one_answer;
use std::alloc::Global;

/// Whether a word is `check`.
fn is_check_word(word: &str) -> bool
    ensures { IsTrue result ↔ (word.now ≡ codes "check") }
{
    word == "check"
}

/// Whether the words are the single word `check`.
fn is_check(words: &[&str]) -> bool
    ensures { IsTrue result ↔ IsCheck (map (λ w. w.now) words.now) }
{
    match words {
        [word] => is_check_word(word),
        _ => false,
    }
}

/// Writes the usage line.
fn write_usage<K: Sink>(sink: &mut K) -> Status
    ensures end { (result ≡ Status.BadWords) ⊎ (result ≡ Status.OutputFault) }
    ensures written { Adds (K.written sink.old) (K.written sink.new) (has_whole_output result) usage_line }
    ensures cause { HasCause (K.faults sink.old) (K.faults sink.new) (result ≡ Status.OutputFault) }
{
    if give_all(sink, b"usage: pvscore check\n") {
        Status::BadWords
    } else {
        Status::OutputFault
    }
}

/// Writes the report of a text.
fn write_report<K: Sink>(alloc: Global, text: &[u8], sink: &mut K) -> Status
    ensures end { ends_writing result ≡ true }
    ensures written { WritesReportOf text.now (K.written sink.old) (K.written sink.new) result }
    ensures cause { HasCause (K.faults sink.old) (K.faults sink.new) (result ≡ Status.OutputFault) }
{
    // Each text has a report, also where there is no memory to make it.
    one_answer();
    let Ok(report) = make_report(alloc, text) else {
        return Status::Memory;
    };
    if give_all(sink, &report.bytes) {
        report.status
    } else {
        Status::OutputFault
    }
}

/// Reads a text, and writes its report.
fn check<S: Source, K: Sink>(alloc: Global, src: &mut S, sink: &mut K) -> Status
    ensures end { ends_check result ≡ true }
    ensures written { WritesReport (S.left src.old) (S.left src.new) (K.written sink.old) (K.written sink.new) result }
    ensures unit { has_whole_output result ≡ true → TakesUnit (S.left src.old) (S.left src.new) }
    ensures taken { TakesAtMost (2 ^ 20 + 1) (S.left src.old) (S.left src.new) }
    ensures taken_before_a_fault { result ≡ Status.InputFault → TakesAtMost (2 ^ 20) (S.left src.old) (S.left src.new) }
    ensures unwritten { result ≡ Status.InputFault → (K.written sink.new ≡ K.written sink.old) × (K.faults sink.new ≡ K.faults sink.old) }
    ensures input { HasCause (S.faults src.old) (S.faults src.new) (result ≡ Status.InputFault) }
    ensures output { HasCause (K.faults sink.old) (K.faults sink.new) (result ≡ Status.OutputFault) }
{
    // The text has a report, also where it could not be read.
    one_answer();
    let mut text = Vec::new(alloc);
    match read_text(src, &mut text) {
        Input::Whole => write_report(alloc, &text, sink),
        Input::Failed => Status::InputFault,
        Input::Memory => Status::Memory,
    }
}

/// Checks the unit that a source holds, and writes the report to a sink.
///
/// The one command line is the single word `check`. The source then holds the text of one unit,
/// which is named u. For every other command line the usage line is written. `files` is not used.
pub fn run<F: Files, S: Source, K: Sink>(
    alloc: Global,
    words: &[&str],
    files: &mut F,
    src: &mut S,
    sink: &mut K,
) -> Status
    // There is an output for the words and the input, with a status. With Clean, Unfinished and BadWords, all of it was written, and the
    // status is that one; with another status, a proper prefix of it was written. An input that is not exposed is some text.
    ensures written { Writes (map (λ w. w.now) words.now) (S.left src.old) (S.left src.new) (K.written sink.old) (K.written sink.new) result }
    // There is no other output for them.
    ensures only { HasOneOutput (map (λ w. w.now) words.now) }
    // What is printed complete is true: in each report, and so in the one that was written.
    ensures sound { (text : List ℕ) (lines : List Line) → IsReport text lines → IsSound text lines }
    ensures truth { IsCheck (map (λ w. w.now) words.now) → has_whole_output result ≡ true → WritesTruth (S.left src.old) (S.left src.new) (K.written sink.old) (K.written sink.new) }

    // If neither the source nor the sink fails, the whole output is written, or memory ran out.
    ensures whole { ¬ Rose (S.faults src.old) (S.faults src.new) → ¬ Rose (K.faults sink.old) (K.faults sink.new) → (has_whole_output result ≡ true) ⊎ (result ≡ Status.Memory) }
    ensures bad_words { result ≡ Status.BadWords → ¬ IsCheck (map (λ w. w.now) words.now) }
    ensures other_words { ¬ IsCheck (map (λ w. w.now) words.now) → (result ≡ Status.BadWords) ⊎ (result ≡ Status.OutputFault) }
    ensures input_fault { HasCause (S.faults src.old) (S.faults src.new) (result ≡ Status.InputFault) }
    ensures output_fault { HasCause (K.faults sink.old) (K.faults sink.new) (result ≡ Status.OutputFault) }
    ensures no_stream { (result ≢ Status.BadStream) × (result ≢ Status.TooMuchInput) }

    // After an input fault nothing was written.
    ensures unwritten { result ≡ Status.InputFault → (K.written sink.new ≡ K.written sink.old) × (K.faults sink.new ≡ K.faults sink.old) }
    // With the word check, the text is taken and nothing else.
    ensures unit { IsCheck (map (λ w. w.now) words.now) → has_whole_output result ≡ true → TakesUnit (S.left src.old) (S.left src.new) }
    ensures taken { TakesAtMost (2 ^ 20 + 1) (S.left src.old) (S.left src.new) }
    ensures taken_before_a_fault { result ≡ Status.InputFault → TakesAtMost (2 ^ 20) (S.left src.old) (S.left src.new) }
    // With other words nothing is taken.
    ensures untouched { ¬ IsCheck (map (λ w. w.now) words.now) → (S.left src.new ≡ S.left src.old) × (S.faults src.new ≡ S.faults src.old) }
    ensures files { files.new ≡ files.old }
{
    // Each text has exactly one answer, so there is exactly one output, and what a report says of
    // the unit of a text, it says of the one unit.
    one_answer();
    if is_check(words) {
        check(alloc, src, sink)
    } else {
        write_usage(sink)
    }
}
