//! What one step does.

ghost use Rattle.std.specs.Prelude.{◌≡◌, IfErr, IfOk};

use crate::fault::StepFault;
use pvs_script::Step;
use pvs_sequent::Sequent;
use pvs_terms::RefId;
use std::alloc::Global;

/// What a step does on a sequent.
#[derive(Drop)]
pub struct Effect {
    pub premises: Vec<Sequent>,

    /// The sequent, where the step leaves it open.
    pub left_open: Option<Sequent>,

    /// The formulas that the step cites.
    pub cited: Vec<RefId>,

    /// The references that the step uses.
    pub uses: Vec<RefId>,
}

/// The rules that steps are by, over a store of nodes that may grow.
pub trait Rules {
    ghost use Rattle.pvs_terms.specs.Stored.{Stored, Extends};
    ghost use Rattle.pvs_sequent.specs.Numbers.{IsSequent, sequent_at};
    ghost use Rattle.pvs_replay.specs.Effects.{Effects};
    ghost use Rattle.pvs_replay.specs.Numbers.{IsEffect, IsStepFault};

    ghost stored: { Self → Stored };

    ghost effect: { Self → Effects };

    /// What a step does on a sequent, or the fault that refuses it there.
    fn apply(&mut self, alloc: Global, step: &Step, sequent: Sequent) -> Result<Effect, StepFault>
        requires { IsSequent (stored self.old) sequent }
        ensures ok { IfOk result (IsEffect (stored self.new) (effect self.old step.now (sequent_at (stored self.old) sequent))) }
        ensures refused { IfErr result (IsStepFault (effect self.old step.now (sequent_at (stored self.old) sequent))) }

        // Numbers stand for what they stood for, and steps do what they did.
        ensures kept { Extends (stored self.old) (stored self.new) }
        ensures same { effect self.new ≡ effect self.old };
}
