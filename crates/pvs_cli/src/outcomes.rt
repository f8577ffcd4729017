//! The outcomes of the parts of a unit.

ghost use Rattle.std.specs.Prelude.{◌≡◌, ◌≤◌, ◌^◌, ◌||◌, ◌++◌, ◌∷◌, [], List, ℕ, length, map, is_some, IfOk, OnOk};
ghost use Rattle.std.specs.List.{All, list_any};
ghost use Rattle.pvs_script.specs.code.Reading.{script_of};
ghost use Rattle.pvs_theory.specs.code.Index.{HasFormulas, formula_value};
ghost use Rattle.pvs_terms.specs.Stored.{Stored};
ghost use Rattle.pvs_cli.specs.code.LemmaIndex.{HasLemmas, HasNodes};
ghost use Rattle.pvs_theory.specs.Names.{FormulaName};
ghost use Rattle.pvs_cli.specs.code.Shown.{IsPartIn, part_outcome_shown, part_outcomes_shown, plain};
ghost use Rattle.pvs_theory.specs.code.Shown.{ArePartsOf, part_shown, parts_shown};
ghost use Rattle.pvs_theory.specs.Theories as spec;
ghost use Rattle.pvs_cli.specs.Outcomes.{names_in, outcomes_of, part_outcome, proves};

use crate::outcome::Outcome;
use crate::verdict::{index_lemmas, verdict};
use pvs_base::Fault;
use pvs_terms::{Id, Store};
use pvs_theory::{Entry, FormulaIndex, Part, add_formula, spelling_of};
use std::alloc::{AllocError, Global};

/// A part of a unit with its outcome. Names are spans of the text.
#[derive(Drop)]
pub enum PartOutcome<'e, 'a> {
    /// An accepted theory, with its entries.
    Accepted(&'a [u8], &'e [Entry]),

    /// A theory, with its first fault.
    Rejected(&'a [u8], Fault),

    /// A proof, by the names of the theory and of the formula, with its outcome.
    Proof(&'a [u8], &'a [u8], Outcome),
}

/// The outcome of a part of a unit with these lemmas, where earlier proofs name these formulas. The
/// formula of a proof is added to them.
fn part_outcome<'e, 'a>(
    alloc: Global,
    store: &Store,
    text: &'a [u8],
    lemmas: &FormulaIndex<'a, Id>,
    named: &mut FormulaIndex<'a, ()>,
    part: &'e Part<'_>,
) -> Result<PartOutcome<'e, 'a>, AllocError>
    requires short { length text.now ≤ 2 ^ 20 }
    requires span { IsPartIn (part_shown store.now text.now part.now) }
    requires nodes { HasNodes store.now lemmas.now }
    ensures outcome { (parts : List spec.Part) (earlier : List FormulaName) → HasLemmas store.now lemmas.now parts → HasFormulas named.old earlier → IfOk result (λ o. part_outcome_shown store.now text.now o ≡ plain (part_outcome script_of parts earlier (part_shown store.now text.now part.now))) }
    ensures names { (earlier : List FormulaName) → HasFormulas named.old earlier → OnOk result (HasFormulas named.new (earlier ++ names_in (part_shown store.now text.now part.now))) }
{
    match part {
        Part::Accepted(theory, entries) => {
            Ok(PartOutcome::Accepted(spelling_of(text, theory), entries))
        }
        Part::Rejected(theory, fault) => {
            Ok(PartOutcome::Rejected(spelling_of(text, theory), *fault))
        }
        Part::Proving(proof) => {
            let theory = spelling_of(text, &proof.theory);
            let formula = spelling_of(text, &proof.formula);
            let outcome = verdict(alloc, store, text, lemmas, named, proof)?;
            add_formula(named, theory, formula)?;
            Ok(PartOutcome::Proof(theory, formula, outcome))
        }
    }
}

/// The outcomes of the parts of a unit, in order.
pub fn outcomes<'e, 'a>(
    alloc: Global,
    store: &Store,
    text: &'a [u8],
    parts: &'e [Part<'_>],
) -> Result<Vec<PartOutcome<'e, 'a>>, AllocError>
    requires short { length text.now ≤ 2 ^ 20 }
    requires spans { All (λ p. IsPartIn (part_shown store.now text.now p)) parts.now }
    requires nodes { ArePartsOf store.now parts.now }
    ensures { IfOk result (λ v. part_outcomes_shown store.now text.now v.items ≡ map plain (outcomes_of script_of (parts_shown store.now text.now parts.now))) }
{
    let lemmas = index_lemmas(alloc, text, parts)?;
    let mut named = FormulaIndex::new(alloc);
    let mut outcomes = Vec::new(alloc);
    for part in parts {
        outcomes.push(part_outcome(alloc, store, text, &lemmas, &mut named, part)?)?;
    }
    Ok(outcomes)
}

/// Adds the formula of a part that is a proof and proves it.
fn add_proved<'a>(
    proved: &mut FormulaIndex<'a, ()>,
    outcome: &PartOutcome<'_, 'a>,
) -> Result<(), AllocError>
    ensures { (s : Stored) (text : List ℕ) (n : FormulaName) → OnOk result (is_some (formula_value proved.new n) ≡ is_some (formula_value proved.old n) || proves n (part_outcome_shown s text outcome.now)) }
{
    match outcome {
        PartOutcome::Accepted(_, _) | PartOutcome::Rejected(_, _) => Ok(()),
        PartOutcome::Proof(theory, formula, outcome) => match outcome {
            Outcome::Proved => proved.add(theory, formula, ()),
            Outcome::Open | Outcome::Refused(_) => Ok(()),
        },
    }
}

/// The formulas that the proofs of a unit prove.
pub fn proved_formulas<'a>(
    alloc: Global,
    outcomes: &[PartOutcome<'_, 'a>],
) -> Result<FormulaIndex<'a, ()>, AllocError>
    ensures { (s : Stored) (text : List ℕ) (n : FormulaName) → IfOk result (λ i. is_some (formula_value i n) ≡ list_any (proves n) (part_outcomes_shown s text outcomes.now)) }
{
    let mut proved = FormulaIndex::new(alloc);
    for outcome in outcomes {
        add_proved(&mut proved, outcome)?;
    }
    Ok(proved)
}
