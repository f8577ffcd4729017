//! Cases of steps by rules of logic, each with its premises written out by hand.

ghost use Rattle.pvs_sequent.specs.Numbers.{IsSequent};

use crate::written::{is_written, sequent_of};
use pvs_base::Code;
use pvs_rules_logic::{LogicRule, step, step_keeps_truth};
use pvs_sequent::{RuleFault, Sequent};
use pvs_terms::{MakeFault, Store};
use std::alloc::Global;
use std::process::Abort;
use std::test::Fail;

/// A sequent, its last consequent, a rule, and what a step by it gives.
const CASES: [(&str, u8, LogicRule, Result<&[&str], Code>); 24] = [
    // An antecedent equals a consequent, an antecedent is FALSE, a consequent is TRUE.
    ("pq|r", b'q', LogicRule::Axiom, Ok(&[])),
    ("i|", b'i', LogicRule::Axiom, Ok(&[])),
    ("pF|", b'q', LogicRule::Axiom, Ok(&[])),
    ("p|T", b'q', LogicRule::Axiom, Ok(&[])),
    ("p|", b'T', LogicRule::Axiom, Ok(&[])),
    // None of these. TRUE as an antecedent and FALSE as a consequent do not close a sequent.
    ("p|", b'q', LogicRule::Axiom, Err(Code::NotApplicable)),
    ("T|", b'F', LogicRule::Axiom, Err(Code::NotApplicable)),
    ("pp|qq", b'q', LogicRule::Axiom, Err(Code::NotApplicable)),
    ("i|", b'u', LogicRule::Axiom, Err(Code::NotApplicable)),
    // Both premises stay open.
    ("|", b'i', LogicRule::If(1), Ok(&["p|q", "|pr"])),
    ("i|", b'F', LogicRule::If(-1), Ok(&["pq|F", "r|pF"])),
    ("ri|", b'F', LogicRule::If(-2), Ok(&["pqr|F", "rr|pF"])),
    ("T|Fi", b'F', LogicRule::If(2), Ok(&["pT|qFF", "T|prFF"])),
    // The first or the second premise is closed, or both are.
    ("q|", b'i', LogicRule::If(1), Ok(&["q|pr"])),
    ("|", b'j', LogicRule::If(1), Ok(&["|pq"])),
    ("r|", b'i', LogicRule::If(1), Ok(&["pr|q"])),
    ("p|", b'i', LogicRule::If(1), Ok(&["pp|q"])),
    ("qp|", b'u', LogicRule::If(1), Ok(&[])),
    ("q|", b'u', LogicRule::If(1), Ok(&[])),
    // TRUE is not added as an antecedent.
    ("j|", b'r', LogicRule::If(-1), Ok(&["p|r", "q|pr"])),
    // The formula of the number is no conditional, or there is none.
    ("i|", b'q', LogicRule::If(1), Err(Code::NotApplicable)),
    ("|", b'i', LogicRule::If(0), Err(Code::NotApplicable)),
    ("|", b'i', LogicRule::If(2), Err(Code::NotApplicable)),
    (
        "|",
        b'i',
        LogicRule::If(-9223372036854775808),
        Err(Code::NotApplicable),
    ),
];

/// Whether these are the premises of letters.
fn are_written(store: &mut Store, premises: &[Sequent], texts: &[&str]) -> Result<bool, MakeFault> {
    for (premise, letters) in premises.iter().zip(texts) {
        if !is_written(store, premise, letters)? {
            return Ok(false);
        }
    }
    Ok(premises.len() == texts.len())
}

/// Whether these are the premises of a step, or why it has none.
fn is_answer(
    store: &mut Store,
    premises: &Result<Vec<Sequent>, RuleFault>,
    wanted: Result<&[&str], Code>,
) -> Result<bool, MakeFault> {
    match premises {
        Ok(open) => match wanted {
            Ok(texts) => are_written(store, open, texts),
            Err(_) => Ok(false),
        },
        Err(fault) => match wanted {
            Ok(_) => Ok(false),
            Err(code) => Ok(*fault == RuleFault::Refused(code)),
        },
    }
}

/// Whether a step on a sequent gives this.
fn gives(
    alloc: Global,
    store: &mut Store,
    sequent: Sequent,
    rule: LogicRule,
    wanted: Result<&[&str], Code>,
) -> Result<bool, MakeFault>
    requires { IsSequent store.old sequent }
{
    let premises = step(alloc, store, sequent, rule);
    is_answer(store, &premises, wanted)
}

#[test]
fn steps_leave_these_premises(rt: HostRuntime) -> Result<(), Fail> {
    let mut store = Store::new(rt.alloc())?;
    step_keeps_truth();
    leave_these_premises(&rt, rt.alloc(), &mut store)
}

fn leave_these_premises(rt: &impl Abort, alloc: Global, store: &mut Store) -> Result<(), Fail> {
    for (letters, last, rule, wanted) in CASES {
        let sequent = sequent_of(alloc, store, letters, last)?;
        let given = gives(alloc, store, sequent, rule, wanted)?;
        assert!(rt; given, "at {letters}");
    }
    Ok(())
}
