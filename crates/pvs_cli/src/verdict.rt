//! The verdicts of proofs.

ghost use Rattle.std.specs.Prelude.{◌≡◌, ◌≤◌, ◌^◌, List, [], ◌∷◌, length, IfOk, OnOk};
ghost use Rattle.std.specs.Option.{option_or};
ghost use Rattle.pvs_syntax.specs.declared.unit.Item.TheVariants as item;
ghost use Rattle.pvs_parser.specs.Text.{SpanIn};
ghost use Rattle.pvs_script.specs.code.Reading.{script_of};
ghost use Rattle.pvs_terms.specs.Stored.{Stored, IsNode, tree_at};
ghost use Rattle.pvs_theory.specs.code.Index.{HasFormulas};
ghost use Rattle.pvs_cli.specs.code.LemmaIndex.{HasLemmas, HasNodes, lemma_tree};
ghost use Rattle.pvs_theory.specs.Names.{FormulaName};
ghost use Rattle.pvs_theory.specs.code.Shown.{AreEntriesOf, ArePartsOf, IsEntryOf, IsPartOf, entries_shown, entry_shown, part_shown, parts_shown};
ghost use Rattle.pvs_theory.specs.Theories.{Accepted};
ghost use Rattle.pvs_theory.specs.Theories as spec;
ghost use Rattle.pvs_cli.specs.code.Shown.{summary};
ghost use Rattle.pvs_sequent.specs.Sequents.{goal};
ghost use Rattle.pvs_cli.specs.Verdicts.{part_lemma, script_outcome, verdict};

use crate::outcome::{Outcome, summary};
use pvs_base::{Code, Fault};
use pvs_replay::{LogicRules, replay};
use pvs_script::{ScriptFault, read_script};
use pvs_sequent::Sequent;
use pvs_syntax::{FormulaWord, Proof};
use pvs_terms::{Id, Store};
use pvs_theory::{Entry, FormulaIndex, Part, spelling_of};
use std::alloc::{AllocError, Global};

/// Adds the formula of an entry of a theory that is a lemma, where its name has none.
fn add_lemma<'a>(
    formulas: &mut FormulaIndex<'a, Id>,
    text: &'a [u8],
    theory: &'a [u8],
    entry: &Entry,
) -> Result<(), AllocError>
    ensures trees { (s : Stored) (n : FormulaName) → OnOk result (lemma_tree s formulas.new n ≡ option_or (lemma_tree s formulas.old n) (part_lemma (Accepted theory.now (entry_shown s text.now entry.now ∷ [])) n)) }
    ensures nodes { (s : Stored) → HasNodes s formulas.old → IsEntryOf s entry.now → OnOk result (HasNodes s formulas.new) }
{
    match entry {
        Entry::Formula(name, FormulaWord::Lemma, tree) => {
            formulas.add(theory, spelling_of(text, name), *tree)
        }
        _ => Ok(()),
    }
}

/// Adds the formulas of the lemmas of a theory.
fn add_lemmas<'a>(
    formulas: &mut FormulaIndex<'a, Id>,
    text: &'a [u8],
    theory: &'a [u8],
    entries: &[Entry],
) -> Result<(), AllocError>
    ensures trees { (s : Stored) (n : FormulaName) → OnOk result (lemma_tree s formulas.new n ≡ option_or (lemma_tree s formulas.old n) (part_lemma (Accepted theory.now (entries_shown s text.now entries.now)) n)) }
    ensures nodes { (s : Stored) → HasNodes s formulas.old → AreEntriesOf s entries.now → OnOk result (HasNodes s formulas.new) }
{
    for entry in entries {
        add_lemma(formulas, text, theory, entry)?;
    }
    Ok(())
}

/// Adds the formulas of the lemmas of a part.
fn add_part<'a>(
    formulas: &mut FormulaIndex<'a, Id>,
    text: &'a [u8],
    part: &Part<'_>,
) -> Result<(), AllocError>
    ensures trees { (s : Stored) (n : FormulaName) → OnOk result (lemma_tree s formulas.new n ≡ option_or (lemma_tree s formulas.old n) (part_lemma (part_shown s text.now part.now) n)) }
    ensures nodes { (s : Stored) → HasNodes s formulas.old → IsPartOf s part.now → OnOk result (HasNodes s formulas.new) }
{
    match part {
        Part::Accepted(theory, entries) => {
            add_lemmas(formulas, text, spelling_of(text, theory), entries)
        }
        _ => Ok(()),
    }
}

/// The index of the formulas of the lemmas of a unit with these parts.
pub fn index_lemmas<'a>(
    alloc: Global,
    text: &'a [u8],
    parts: &[Part<'_>],
) -> Result<FormulaIndex<'a, Id>, AllocError>
    ensures lemmas { (s : Stored) → IfOk result (λ i. HasLemmas s i (parts_shown s text.now parts.now)) }
    ensures nodes { (s : Stored) → ArePartsOf s parts.now → IfOk result (HasNodes s) }
{
    let mut formulas = FormulaIndex::new(alloc);
    for part in parts {
        add_part(&mut formulas, text, part)?;
    }
    Ok(formulas)
}

/// The outcome of the script of a proof on a formula. The fault is the first of the script, or else
/// that of the first step that is refused.
fn script_outcome(
    alloc: Global,
    store: &Store,
    text: &[u8],
    proof: &Proof,
    formula: Id,
) -> Result<Outcome, AllocError>
    requires short { length text.now ≤ 2 ^ 20 }
    requires span { SpanIn text.now (item.Proof proof.now) }
    requires node { IsNode store.now formula }
    ensures { IfOk result (λ o. o ≡ summary (script_outcome (goal (tree_at store.now formula)) (script_of text.now proof.now))) }
{
    match read_script(alloc, text, proof) {
        Ok(script) => {
            let goal = Sequent::goal(alloc, store, formula)?;
            let mut rules = LogicRules { store };
            let outcome = replay(alloc, &mut rules, &script, goal)?;
            Ok(summary(outcome))
        }
        Err(ScriptFault::At(fault)) => Ok(Outcome::Refused(fault)),
        Err(ScriptFault::Memory) => Err(AllocError),
    }
}

/// The outcome of a proof of a unit with these lemmas, where earlier proofs name these formulas.
///
/// The fault NoSuchFormula comes where there is no such lemma, or an earlier proof names it.
pub fn verdict<'a>(
    alloc: Global,
    store: &Store,
    text: &'a [u8],
    lemmas: &FormulaIndex<'a, Id>,
    named: &FormulaIndex<'a, ()>,
    proof: &Proof,
) -> Result<Outcome, AllocError>
    requires short { length text.now ≤ 2 ^ 20 }
    requires span { SpanIn text.now (item.Proof proof.now) }
    requires nodes { HasNodes store.now lemmas.now }
    ensures { (parts : List spec.Part) (earlier : List FormulaName) → HasLemmas store.now lemmas.now parts → HasFormulas named.now earlier → IfOk result (λ o. o ≡ summary (verdict script_of parts earlier text.now proof.now)) }
{
    let no_such_formula = Outcome::Refused(Fault {
        pos: proof.theory.pos,
        code: Code::NoSuchFormula,
    });
    let theory = spelling_of(text, &proof.theory);
    let formula = spelling_of(text, &proof.formula);
    let Some(tree) = lemmas.find(theory, formula) else {
        return Ok(no_such_formula);
    };
    if named.find(theory, formula).is_some() {
        return Ok(no_such_formula);
    }
    script_outcome(alloc, store, text, proof, tree)
}
