//! Cases of scripts, each with its outcome written out by hand.

ghost use Rattle.pvs_sequent.specs.Numbers.{IsSequent};

use crate::written::{is_written, sequent_of};
use pvs_base::{Code, Fault, Pos};
use pvs_replay::{LogicRules, Outcome, logic_keeps_truth, replay, replay_keeps_truth};
use pvs_script::{Rule, Script, Step};
use pvs_sequent::Sequent;
use pvs_terms::{MakeFault, Store};
use sqlite_items::Items;
use std::alloc::{AllocError, Global};
use std::process::Abort;
use std::test::Fail;

/// Steps in a line, each by the rule if for the formula of its number, and 0 for the rule axiom.
fn steps_of(alloc: Global, line: u32, numbers: &[i64]) -> Result<Items<Step>, AllocError> {
    let mut steps = Items::new(alloc);
    let mut col = 1;
    for number in numbers {
        let rule = if *number == 0 {
            Rule::Axiom
        } else {
            Rule::If(*number)
        };
        steps.push(Step {
            rule,
            pos: Pos { line, col },
        })?;
        col = col.wrapping_add(1);
    }
    Ok(steps)
}

/// The script of steps in the first line, and of scripts of steps alone in the lines after it.
fn script_of(alloc: Global, steps: &[i64], trees: &[&[i64]]) -> Result<Script, AllocError> {
    let mut scripts = Items::new(alloc);
    let mut line = 2;
    for numbers in trees {
        scripts.push(Script {
            steps: steps_of(alloc, line, numbers)?,
            trees: Items::new(alloc),
        })?;
        line = line.wrapping_add(1);
    }
    Ok(Script {
        steps: steps_of(alloc, 1, steps)?,
        trees: scripts,
    })
}

/// What a script comes to: the sequent that is left open, or the line and column of the step that
/// is refused with NotApplicable.
#[derive(Clone, Copy)]
enum Wanted {
    Proved,
    Open(&'static str),
    Refused(u32, u32),
}

/// A sequent, its last consequent, steps, scripts for the premises of the last step, and the
/// outcome.
const CASES: [(&str, u8, &[i64], &[&[i64]], Wanted); 21] = [
    // Every premise is closed.
    ("p|", b'p', &[0], &[], Wanted::Proved),
    ("p|", b'T', &[0], &[], Wanted::Proved),
    ("qr|", b'i', &[1], &[], Wanted::Proved),
    ("q|q", b'i', &[2], &[], Wanted::Proved),
    // A step on the one premise of the step before it.
    ("q|", b'n', &[1, 1], &[&[0]], Wanted::Refused(1, 2)),
    ("q|", b'n', &[1, 2], &[], Wanted::Proved),
    ("q|", b'n', &[1], &[&[]], Wanted::Open("q|pj")),
    ("j|", b'q', &[-1], &[&[0]], Wanted::Refused(2, 1)),
    // No step leaves the sequent open.
    ("p|r", b'q', &[], &[], Wanted::Open("p|rq")),
    ("p|r", b'q', &[], &[&[0]], Wanted::Open("p|rq")),
    // Each script stands for a premise, and the first one that is left open is the outcome.
    ("|", b'i', &[1], &[&[], &[]], Wanted::Open("p|q")),
    ("|", b'i', &[1], &[&[0], &[]], Wanted::Refused(2, 1)),
    ("|", b'i', &[1], &[&[], &[0]], Wanted::Refused(3, 1)),
    // Another number of scripts or of steps follows a step than it has premises.
    ("|", b'i', &[1], &[], Wanted::Refused(1, 1)),
    ("|", b'i', &[1], &[&[]], Wanted::Refused(1, 1)),
    ("|", b'i', &[1], &[&[], &[], &[]], Wanted::Refused(1, 1)),
    ("p|", b'p', &[0], &[&[]], Wanted::Refused(1, 1)),
    ("|", b'i', &[1, 0], &[], Wanted::Refused(1, 1)),
    ("p|", b'p', &[0, 0], &[], Wanted::Refused(1, 1)),
    // A step is refused.
    ("p|", b'q', &[0], &[], Wanted::Refused(1, 1)),
    ("p|", b'q', &[3], &[&[]], Wanted::Refused(1, 1)),
];

/// Whether a script comes to this. One that proves a sequent by rules of logic cites nothing.
fn is_outcome(store: &mut Store, outcome: &Outcome, wanted: Wanted) -> Result<bool, MakeFault> {
    match wanted {
        Wanted::Proved => match outcome {
            Outcome::Proved(cited, uses) => Ok(cited.is_empty() && uses.is_empty()),
            _ => Ok(false),
        },
        Wanted::Open(letters) => match outcome {
            Outcome::Open(sequent) => is_written(store, sequent, letters),
            _ => Ok(false),
        },
        Wanted::Refused(line, col) => match outcome {
            Outcome::Refused(fault) => {
                let code = Code::NotApplicable;
                let pos = Pos { line, col };
                Ok(*fault == Fault { pos, code })
            }
            _ => Ok(false),
        },
    }
}

/// What a script of rules of logic comes to.
fn outcome_of(
    alloc: Global,
    store: &Store,
    script: &Script,
    sequent: Sequent,
) -> Result<Outcome, AllocError>
    requires { IsSequent store.now sequent }
{
    let mut rules = LogicRules { store };
    replay(alloc, &mut rules, script, sequent)
}

/// Whether a script comes to this on a sequent.
fn comes_to(
    alloc: Global,
    store: &mut Store,
    sequent: Sequent,
    script: &Script,
    wanted: Wanted,
) -> Result<bool, MakeFault>
    requires { IsSequent store.old sequent }
{
    let outcome = outcome_of(alloc, store, script, sequent)?;
    is_outcome(store, &outcome, wanted)
}

#[test]
fn scripts_come_to_these_outcomes(rt: HostRuntime) -> Result<(), Fail> {
    let mut store = Store::new(rt.alloc())?;
    replay_keeps_truth();
    logic_keeps_truth();
    come_to_these_outcomes(&rt, rt.alloc(), &mut store)
}

fn come_to_these_outcomes(rt: &impl Abort, alloc: Global, store: &mut Store) -> Result<(), Fail> {
    for (letters, last, steps, trees, wanted) in CASES {
        let script = script_of(alloc, steps, trees)?;
        let sequent = sequent_of(alloc, store, letters, last)?;
        let came = comes_to(alloc, store, sequent, &script, wanted)?;
        assert!(rt; came, "at {letters}");
    }
    Ok(())
}
