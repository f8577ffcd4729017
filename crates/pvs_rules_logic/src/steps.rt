//! Steps by the rules of logic.

ghost use Rattle.std.specs.Prelude.{◌≡◌, IfErr, IfOk, Some};
ghost use Rattle.pvs_terms.specs.Stored.{IsNode, tree_at};
ghost use Rattle.pvs_sequent.specs.Sequents.{formula_at, place_of};
ghost use Rattle.pvs_sequent.specs.Premises.{finished};
ghost use Rattle.pvs_sequent.specs.Numbers.{ArePremises, IsRefusal, IsSequent, sequent_at};
ghost use Rattle.pvs_rules_logic.specs.Rows.{axiom_row, if_row};
ghost use Rattle.pvs_rules_logic.specs.Step.{step};
ghost use Rattle.pvs_rules_logic.specs.Numbers.{rule_at};
ghost use Rattle.pvs_rules_logic.specs.Rules as rules;

use crate::branches::{Branch, fork};
use crate::rule::LogicRule;
use pvs_base::Code;
use pvs_sequent::{Place, RuleFault, Sequent, Side, place_of, side_of};
use pvs_terms::{Id, Node, Store};
use std::alloc::Global;

/// The premises of the rule axiom: none.
fn axiom_step(alloc: Global, store: &Store, sequent: Sequent) -> Result<Vec<Sequent>, RuleFault>
    requires { IsSequent store.now sequent }
    ensures ok { IfOk result (λ v. ArePremises store.now (finished (sequent_at store.now sequent) (axiom_row (sequent_at store.now sequent))) v.items) }
    ensures refused { IfErr result (IsRefusal (finished (sequent_at store.now sequent) (axiom_row (sequent_at store.now sequent)))) }
{
    if sequent.is_closed(store) {
        Ok(Vec::new(alloc))
    } else {
        Err(RuleFault::Refused(Code::NotApplicable))
    }
}

/// The premises of the rule if for the formula at a place.
fn if_at(
    alloc: Global,
    store: &Store,
    mut sequent: Sequent,
    place: Place,
    formula: Id,
) -> Result<Vec<Sequent>, RuleFault>
    requires sequent { IsSequent store.now sequent }
    requires formula { IsNode store.now formula }
    requires stands { formula_at (sequent_at store.now sequent) place ≡ Some (tree_at store.now formula) }
    ensures ok { IfOk result (λ v. ArePremises store.now (finished (sequent_at store.now sequent) (if_row (sequent_at store.now sequent) place (tree_at store.now formula))) v.items) }
    ensures refused { IfErr result (IsRefusal (finished (sequent_at store.now sequent) (if_row (sequent_at store.now sequent) place (tree_at store.now formula)))) }
{
    let Node::If(condition, first, second) = store.view(formula) else {
        return Err(RuleFault::Refused(Code::NotApplicable));
    };
    sequent.remove(store, place);
    let side = side_of(place);
    let holds = Branch {
        side,
        formula: first,
        condition_side: Side::Antecedents,
        condition,
    };
    let fails = Branch {
        side,
        formula: second,
        condition_side: Side::Consequents,
        condition,
    };
    let premises = fork(alloc, store, sequent, &holds, &fails)?;
    Ok(premises)
}

/// The premises of the rule if for the formula of a number.
fn if_step(
    alloc: Global,
    store: &Store,
    sequent: Sequent,
    number: i64,
) -> Result<Vec<Sequent>, RuleFault>
    requires { IsSequent store.now sequent }
    ensures ok { IfOk result (λ v. ArePremises store.now (step (sequent_at store.now sequent) (rules.If number)) v.items) }
    ensures refused { IfErr result (IsRefusal (step (sequent_at store.now sequent) (rules.If number))) }
{
    let place = place_of(number);
    match sequent.formula_at(place) {
        None => Err(RuleFault::Refused(Code::NotApplicable)),
        Some(formula) => if_at(alloc, store, sequent, place, formula),
    }
}

/// The premises that a step leaves of a sequent, but for those that the rule axiom closes.
///
/// The code NotApplicable comes where the rule does not apply to the sequent: axiom does not close
/// it, or no conditional has the number.
pub fn step(
    alloc: Global,
    store: &Store,
    sequent: Sequent,
    rule: LogicRule,
) -> Result<Vec<Sequent>, RuleFault>
    requires { IsSequent store.now sequent }
    ensures ok { IfOk result (λ v. ArePremises store.now (step (sequent_at store.now sequent) (rule_at store.now rule)) v.items) }
    ensures refused { IfErr result (IsRefusal (step (sequent_at store.now sequent) (rule_at store.now rule))) }
{
    match rule {
        LogicRule::Axiom => axiom_step(alloc, store, sequent),
        LogicRule::If(number) => if_step(alloc, store, sequent, number),
    }
}
