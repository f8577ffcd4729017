//! Replays scripts.

ghost use Rattle.std.specs.Prelude.{◌≡◌, IfOk};
ghost use Rattle.pvs_terms.specs.Stored.{Extends};
ghost use Rattle.pvs_sequent.specs.Numbers.{IsSequent, sequent_at};
ghost use Rattle.pvs_replay.specs.Replaying.{after, both, last_step, replay, run};
ghost use Rattle.pvs_replay.specs.Numbers.{IsInner, IsOutcome, IsRun, OutcomeIn, outcome_at};

use crate::effect::Rules;
use crate::fault::StepFault;
use crate::outcome::{Inner, Outcome, Run, both, go_on, leave, stop, wrong_count};
use pvs_script::{Script, Step};
use pvs_sequent::Sequent;
use std::alloc::{AllocError, Global};

/// One step on a sequent, after this outcome.
fn run_step<R: Rules>(
    alloc: Global,
    rules: &mut R,
    before: Outcome,
    step: &Step,
    sequent: Sequent,
) -> Result<Run, AllocError>
    requires sequent { IsSequent (R.stored rules.old) sequent }
    requires before { OutcomeIn (R.stored rules.old) before }
    ensures run { IfOk result (IsRun (R.stored rules.new) (after (outcome_at (R.stored rules.old) before) (last_step step.now.pos (R.effect rules.old step.now (sequent_at (R.stored rules.old) sequent))))) }
    ensures kept { Extends (R.stored rules.old) (R.stored rules.new) }
    ensures same { R.effect rules.new ≡ R.effect rules.old }
{
    match rules.apply(alloc, step, sequent) {
        Ok(effect) => {
            let run = leave(before, step.pos, effect)?;
            Ok(run)
        }
        Err(StepFault::At(fault)) => {
            let run = stop(before, Outcome::Refused(fault))?;
            Ok(run)
        }
        Err(StepFault::Memory) => Err(AllocError),
    }
}

/// A step with others after it: the outcome so far, and the premise that they work on, if there is
/// one.
fn run_inner<R: Rules>(
    alloc: Global,
    rules: &mut R,
    before: Outcome,
    step: &Step,
    sequent: Sequent,
) -> Result<Inner, AllocError>
    requires sequent { IsSequent (R.stored rules.old) sequent }
    requires before { OutcomeIn (R.stored rules.old) before }
    ensures inner { IfOk result (IsInner (R.stored rules.new) (outcome_at (R.stored rules.old) before) step.now.pos (R.effect rules.old step.now (sequent_at (R.stored rules.old) sequent))) }
    ensures kept { Extends (R.stored rules.old) (R.stored rules.new) }
    ensures same { R.effect rules.new ≡ R.effect rules.old }
{
    let run = run_step(alloc, rules, before, step, sequent)?;
    let inner = go_on(run)?;
    Ok(inner)
}

/// Runs steps on a sequent, each on the one premise of the step before it, after this outcome.
#[tactic(auto, using(pvs_terms::proofs::StoredLaws::extends_trans))]
fn run_steps<R: Rules>(
    alloc: Global,
    rules: &mut R,
    before: Outcome,
    steps: &[Step],
    sequent: Sequent,
) -> Result<Run, AllocError>
    requires sequent { IsSequent (R.stored rules.old) sequent }
    requires before { OutcomeIn (R.stored rules.old) before }
    ensures run { IfOk result (IsRun (R.stored rules.new) (after (outcome_at (R.stored rules.old) before) (run (R.effect rules.old) steps.now (sequent_at (R.stored rules.old) sequent)))) }
    ensures kept { Extends (R.stored rules.old) (R.stored rules.new) }
    ensures same { R.effect rules.new ≡ R.effect rules.old }
{
    let Some((last, inner)) = steps.split_last() else {
        let run = stop(before, Outcome::Open(sequent))?;
        return Ok(run);
    };
    let mut so_far = before;
    let mut current = sequent;
    for step in inner {
        match run_inner(alloc, rules, so_far, step, current)? {
            Inner::Goes(outcome, premise) => {
                so_far = outcome;
                current = premise;
            }
            Inner::Stops(outcome) => return Ok(Run::Stops(outcome)),
        }
    }
    run_step(alloc, rules, so_far, last, current)
}

/// Replays a script on a sequent, after this outcome.
#[tactic(auto, using(pvs_terms::proofs::StoredLaws::extends_trans))]
fn replay_after<R: Rules>(
    alloc: Global,
    rules: &mut R,
    before: Outcome,
    script: &Script,
    sequent: Sequent,
) -> Result<Outcome, AllocError>
    requires sequent { IsSequent (R.stored rules.old) sequent }
    requires before { OutcomeIn (R.stored rules.old) before }
    ensures outcome { IfOk result (IsOutcome (R.stored rules.new) (both (outcome_at (R.stored rules.old) before) (replay (R.effect rules.old) script.now (sequent_at (R.stored rules.old) sequent)))) }
    ensures kept { Extends (R.stored rules.old) (R.stored rules.new) }
    ensures same { R.effect rules.new ≡ R.effect rules.old }
{
    let steps = script.steps.as_slice();
    let trees = script.trees.as_slice();
    let (outcome, pos, premises) = match run_steps(alloc, rules, before, steps, sequent)? {
        Run::Leaves(outcome, pos, premises) => (outcome, pos, premises),
        Run::Stops(outcome) => return Ok(outcome),
    };
    if premises.len() != trees.len() {
        let refused = both(outcome, wrong_count(pos))?;
        return Ok(refused);
    }
    let mut so_far = outcome;
    let mut left = premises.into_iter();
    for tree in trees {
        let Some(premise) = left.next() else {
            return Ok(so_far);
        };
        so_far = replay_after(alloc, rules, so_far, tree, premise)?;
    }
    Ok(so_far)
}

/// Replays a script on a sequent: each step but the last works on the one premise of the step
/// before it, and each script after the last step on a premise of that step, in order.
///
/// The first step that is refused refuses the script with its fault; that fault is NotApplicable
/// at the step where it has another number of premises than steps or scripts follow it. Where no
/// step is refused, the first sequent that is left open is the outcome, if there is one.
pub fn replay<R: Rules>(
    alloc: Global,
    rules: &mut R,
    script: &Script,
    sequent: Sequent,
) -> Result<Outcome, AllocError>
    requires { IsSequent (R.stored rules.old) sequent }
    ensures outcome { IfOk result (IsOutcome (R.stored rules.new) (replay (R.effect rules.old) script.now (sequent_at (R.stored rules.old) sequent))) }

    // Numbers stand for what they stood for, and steps do what they did.
    ensures kept { Extends (R.stored rules.old) (R.stored rules.new) }
    ensures same { R.effect rules.new ≡ R.effect rules.old }
{
    let nothing = Outcome::Proved(Vec::new(alloc), Vec::new(alloc));
    replay_after(alloc, rules, nothing, script, sequent)
}
