//! A sequent as lines.

ghost use Rattle.std.specs.Prelude.{◌≡◌, ◌++◌, ◌≤◌, map, length, codes, OnOk, OnErr};
ghost use Rattle.pvs_terms.specs.Stored.{IsName, AreNodes, text_at, tree_at};
ghost use Rattle.pvs_instantiate.specs.InstancesView.{development};
ghost use Rattle.pvs_printer.specs.Text.{AddsPrefix};
ghost use Rattle.pvs_sequent.specs.Numbers.{IsSequent, sequent_at};
ghost use Rattle.pvs_term_lines.specs.Lines.{formula_line, lines_from, sequent_text, variable_line};

use crate::lines::{put_formula, put_variable};
use crate::text::put_text;
use pvs_cache::Judgements;
use pvs_instantiate::Instances;
use pvs_sequent::{IdList, Sequent};
use pvs_terms::{Id, Name};
use std::alloc::AllocError;

/// Adds the lines of variables by their types, the first one first.
fn put_variables<J: Judgements>(
    instances: &Instances<J>,
    theory: Name,
    types: &[Id],
    out: &mut Vec<u8>,
) -> Result<(), AllocError>
    requires theory { IsName instances.now.store theory }
    requires types { AreNodes instances.now.store types.now }
    requires count { length types.now ≤ 1000000 }
    ensures ok { OnOk result (out.new.items ≡ out.old.items ++ (lines_from (variable_line (development instances.now) (text_at instances.now.store theory)) 0 (map (tree_at instances.now.store) types.now))) }
    ensures err { OnErr result (AddsPrefix out.old.items (lines_from (variable_line (development instances.now) (text_at instances.now.store theory)) 0 (map (tree_at instances.now.store) types.now)) out.new.items) }
{
    for at in 0..types.len() {
        put_variable(instances, theory, at, types[at], out)?;
    }
    Ok(())
}

/// Adds the lines of the formulas of a side, by its sign.
fn put_formulas<J: Judgements>(
    instances: &Instances<J>,
    theory: Name,
    variables: u32,
    sign: &[u8],
    formulas: &IdList,
    out: &mut Vec<u8>,
) -> Result<(), AllocError>
    requires theory { IsName instances.now.store theory }
    requires formulas { AreNodes instances.now.store formulas.now }
    ensures ok { OnOk result (out.new.items ≡ out.old.items ++ (lines_from (formula_line (development instances.now) (text_at instances.now.store theory) variables sign.now) 0 (map (tree_at instances.now.store) formulas.now))) }
    ensures err { OnErr result (AddsPrefix out.old.items (lines_from (formula_line (development instances.now) (text_at instances.now.store theory) variables sign.now) 0 (map (tree_at instances.now.store) formulas.now)) out.new.items) }
{
    for at in 0..formulas.len() {
        match formulas.get(at) {
            None => return Ok(()),
            Some(formula) => { put_formula(instances, theory, variables, sign, at, formula, out)? }
        }
    }
    Ok(())
}

/// Adds a sequent in the terms of a theory: a line `s!i: TYPE` for each variable, a line `-n: TERM`
/// for each antecedent, the line `|-`, and a line `n: TERM` for each consequent. Where memory runs
/// out, a prefix of the lines was added.
pub fn put_sequent<J: Judgements>(
    instances: &Instances<J>,
    theory: Name,
    sequent: &Sequent,
    out: &mut Vec<u8>,
) -> Result<(), AllocError>
    requires theory { IsName instances.now.store theory }
    requires sequent { IsSequent instances.now.store sequent.now }
    requires variables { length sequent.now.variables ≤ 1000000 }
    ensures ok { OnOk result (out.new.items ≡ out.old.items ++ sequent_text (development instances.now) (text_at instances.now.store theory) (sequent_at instances.now.store sequent.now)) }
    ensures err { OnErr result (AddsPrefix out.old.items (sequent_text (development instances.now) (text_at instances.now.store theory) (sequent_at instances.now.store sequent.now)) out.new.items) }
{
    let types = sequent.variables().last_first();
    let variables = types.len() as u32;
    put_variables(instances, theory, types, out)?;
    put_formulas(
        instances,
        theory,
        variables,
        b"-",
        sequent.antecedents(),
        out,
    )?;
    put_text(out, b"|-\n")?;
    put_formulas(
        instances,
        theory,
        variables,
        b"",
        sequent.consequents(),
        out,
    )
}
