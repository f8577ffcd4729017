//! Steps by the rules of logic.

ghost use Rattle.std.specs.Prelude.{◌≡◌};
ghost use Rattle.pvs_rules_logic.specs.Numbers.{rule_at};
ghost use Rattle.pvs_terms.specs.Stored.{Stored};
ghost use Rattle.pvs_replay.specs.Logic.{rule_of};

use crate::effect::{Effect, Rules};
use crate::fault::StepFault;
use pvs_base::Fault;
use pvs_rules_logic::{LogicRule, step as logic_step};
use pvs_script::{Rule, Step};
use pvs_sequent::{RuleFault, Sequent};
use pvs_terms::Store;
use std::alloc::Global;

/// The rules of logic, on sequents of a store. No step makes a node.
#[derive(Clone, Copy)]
pub struct LogicRules<'a> {
    pub store: &'a Store,
}

/// The rule of a step as it is written.
fn logic_rule(rule: Rule) -> LogicRule
    ensures { (s : Stored) → rule_at s result ≡ rule_of rule }
{
    match rule {
        Rule::Axiom => LogicRule::Axiom,
        Rule::If(number) => LogicRule::If(number),
    }
}

impl Rules for LogicRules<'_> {
    ghost use Rattle.pvs_replay.specs.Logic.{logic_effect};

    ghost stored = { λ r. r.store.now };

    ghost effect = { λ _. logic_effect };

    fn apply(&mut self, alloc: Global, step: &Step, sequent: Sequent) -> Result<Effect, StepFault> {
        match logic_step(alloc, self.store, sequent, logic_rule(step.rule)) {
            Ok(premises) => Ok(Effect {
                premises,
                left_open: None,
                cited: Vec::new(alloc),
                uses: Vec::new(alloc),
            }),
            Err(RuleFault::Refused(code)) => Err(StepFault::At(Fault {
                pos: step.pos,
                code,
            })),
            Err(RuleFault::Memory) => Err(StepFault::Memory),
        }
    }
}
