//! What the replay of a script comes to.

ghost use Rattle.std.specs.Prelude.{◌≡◌, IfOk};
ghost use Rattle.std.specs.Option.{option_map};
ghost use Rattle.pvs_terms.specs.Stored.{Stored};
ghost use Rattle.pvs_sequent.specs.Numbers.{sequent_at};
ghost use Rattle.pvs_replay.specs.Replaying.{Stops, after, both, closed_or_open, last_step, only_one, wrong_count};
ghost use Rattle.pvs_replay.specs.Numbers.{Answer, AreRefs, IsEffect, IsInner, IsOptional, IsRun, OutcomeIn, TreeOutcome, outcome_at, refs_at};

use crate::effect::Effect;
use pvs_base::{Code, Fault, Pos};
use pvs_sequent::Sequent;
use pvs_terms::RefId;
use std::alloc::AllocError;

/// What the replay of a script comes to.
#[derive(Drop)]
pub enum Outcome {
    /// The formulas that the steps cite, and the references that they use, in order.
    Proved(Vec<RefId>, Vec<RefId>),

    /// The first sequent that is left open.
    Open(Sequent),

    /// The fault of the first step that is refused.
    Refused(Fault),
}

/// What steps leave.
#[derive(Drop)]
pub enum Run {
    /// Their outcome so far, the place of the last step, and its premises.
    Leaves(Outcome, Pos, Vec<Sequent>),

    /// An outcome that asks for no scripts after the steps.
    Stops(Outcome),
}

/// What a step with others after it leaves.
#[derive(Drop)]
pub enum Inner {
    /// The outcome so far, and the premise that the others work on.
    Goes(Outcome, Sequent),

    /// An outcome that asks for no more steps.
    Stops(Outcome),
}

/// One part of a script after the other.
pub fn both(first: Outcome, second: Outcome) -> Result<Outcome, AllocError>
    ensures is { IfOk result (λ o. (s : Stored) → outcome_at s o ≡ both (outcome_at s first) (outcome_at s second)) }
    ensures numbers { IfOk result (λ o. (s : Stored) → OutcomeIn s first → OutcomeIn s second → OutcomeIn s o) }
{
    match first {
        Outcome::Refused(fault) => Ok(Outcome::Refused(fault)),
        Outcome::Open(sequent) => match second {
            Outcome::Refused(fault) => Ok(Outcome::Refused(fault)),
            _ => Ok(Outcome::Open(sequent)),
        },
        Outcome::Proved(mut cited, mut uses) => match second {
            Outcome::Proved(others, more) => {
                cited.extend_from_slice(&others)?;
                uses.extend_from_slice(&more)?;
                Ok(Outcome::Proved(cited, uses))
            }
            other => Ok(other),
        },
    }
}

/// A step alone, without its premises.
fn alone(left_open: Option<Sequent>, cited: Vec<RefId>, uses: Vec<RefId>) -> Outcome
    ensures is { (s : Stored) → outcome_at s result ≡ closed_or_open (option_map (sequent_at s) left_open) (refs_at s cited.items) (refs_at s uses.items) }
    ensures numbers { (s : Stored) → IsOptional s left_open → AreRefs s cited.items → AreRefs s uses.items → OutcomeIn s result }
{
    match left_open {
        None => Outcome::Proved(cited, uses),
        Some(sequent) => Outcome::Open(sequent),
    }
}

/// What a step at a place leaves as the last one, after this outcome.
pub fn leave(before: Outcome, pos: Pos, effect: Effect) -> Result<Run, AllocError>
    ensures { IfOk result (λ r. (s : Stored) (o : Answer) → OutcomeIn s before → IsEffect s o effect → IsRun s (after (outcome_at s before) (last_step pos o)) r) }
{
    let Effect {
        premises,
        left_open,
        cited,
        uses,
    } = effect;
    let outcome = both(before, alone(left_open, cited, uses))?;
    Ok(Run::Leaves(outcome, pos, premises))
}

/// An outcome that asks for no scripts after the steps, after this one.
pub fn stop(before: Outcome, own: Outcome) -> Result<Run, AllocError>
    ensures { IfOk result (λ r. (s : Stored) → OutcomeIn s before → OutcomeIn s own → IsRun s (after (outcome_at s before) (Stops (outcome_at s own))) r) }
{
    let outcome = both(before, own)?;
    Ok(Run::Stops(outcome))
}

/// A step with another number of premises than scripts or steps follow it.
pub fn wrong_count(pos: Pos) -> Outcome
    ensures is { (s : Stored) → outcome_at s result ≡ wrong_count pos }
    ensures numbers { (s : Stored) → OutcomeIn s result }
{
    Outcome::Refused(Fault {
        pos,
        code: Code::NotApplicable,
    })
}

/// The premise, where there is exactly one.
fn only_one(mut premises: Vec<Sequent>) -> Option<Sequent>
    ensures { result ≡ only_one premises.items }
{
    if premises.len() == 1 {
        premises.pop()
    } else {
        None
    }
}

/// What a step with others after it leaves, by what it leaves as the last one.
pub fn go_on(run: Run) -> Result<Inner, AllocError>
    ensures { IfOk result (λ i. (s : Stored) (b : TreeOutcome) (at : Pos) (o : Answer) → IsRun s (after b (last_step at o)) run → IsInner s b at o i) }
{
    match run {
        Run::Stops(outcome) => Ok(Inner::Stops(outcome)),
        Run::Leaves(outcome, pos, premises) => match only_one(premises) {
            Some(premise) => Ok(Inner::Goes(outcome, premise)),
            None => {
                let refused = both(outcome, wrong_count(pos))?;
                Ok(Inner::Stops(refused))
            }
        },
    }
}
