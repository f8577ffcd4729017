//! A tree as a line.

ghost use Rattle.std.specs.Prelude.{◌≡◌, ◌++◌, ◌+◌, ◌<◌, ◌^◌, OnOk, OnErr};
ghost use Rattle.pvs_terms.specs.Stored.{IsName, IsNode, text_at, tree_at};
ghost use Rattle.pvs_instantiate.specs.InstancesView.{development};
ghost use Rattle.pvs_printer.specs.Text.{AddsPrefix};
ghost use Rattle.pvs_term_lines.specs.Lines.{formula_line, term_line, tree_line, variable_line};

use crate::text::{put_label, put_text};
use pvs_cache::Judgements;
use pvs_instantiate::Instances;
use pvs_printer::{print_term, print_type};
use pvs_terms::{Id, Name};
use std::alloc::AllocError;

/// Adds the text of a term, for a sequent with so many variables, and a line feed.
pub(crate) fn put_term<J: Judgements>(
    instances: &Instances<J>,
    theory: Name,
    id: Id,
    variables: u32,
    out: &mut Vec<u8>,
) -> Result<(), AllocError>
    requires theory { IsName instances.now.store theory }
    requires id { IsNode instances.now.store id }
    ensures ok { OnOk result (out.new.items ≡ out.old.items ++ (tree_line (development instances.now) (text_at instances.now.store theory) variables (tree_at instances.now.store id))) }
    ensures err { OnErr result (AddsPrefix out.old.items (tree_line (development instances.now) (text_at instances.now.store theory) variables (tree_at instances.now.store id)) out.new.items) }
{
    print_term(instances, theory, id, variables, out)?;
    put_text(out, b"\n")
}

/// Adds the text of a type, for a sequent with so many variables, and a line feed.
pub(crate) fn put_type<J: Judgements>(
    instances: &Instances<J>,
    theory: Name,
    id: Id,
    variables: u32,
    out: &mut Vec<u8>,
) -> Result<(), AllocError>
    requires theory { IsName instances.now.store theory }
    requires id { IsNode instances.now.store id }
    ensures ok { OnOk result (out.new.items ≡ out.old.items ++ (tree_line (development instances.now) (text_at instances.now.store theory) variables (tree_at instances.now.store id))) }
    ensures err { OnErr result (AddsPrefix out.old.items (tree_line (development instances.now) (text_at instances.now.store theory) variables (tree_at instances.now.store id)) out.new.items) }
{
    print_type(instances, theory, id, variables, out)?;
    put_text(out, b"\n")
}

/// Adds the line that stands below that of a condition in a report: two blanks and the condition as
/// printed in the terms of its theory. Where memory runs out, a prefix of the line was added.
pub fn put_term_line<J: Judgements>(
    instances: &Instances<J>,
    theory: Name,
    id: Id,
    out: &mut Vec<u8>,
) -> Result<(), AllocError>
    requires theory { IsName instances.now.store theory }
    requires id { IsNode instances.now.store id }
    ensures ok { OnOk result (out.new.items ≡ out.old.items ++ term_line (development instances.now) (text_at instances.now.store theory) (tree_at instances.now.store id)) }
    ensures err { OnErr result (AddsPrefix out.old.items (term_line (development instances.now) (text_at instances.now.store theory) (tree_at instances.now.store id)) out.new.items) }
{
    put_text(out, b"  ")?;
    put_term(instances, theory, id, 0, out)
}

/// Adds the line of a variable of a sequent by its type, where so many stand before it.
pub(crate) fn put_variable<J: Judgements>(
    instances: &Instances<J>,
    theory: Name,
    before: usize,
    ty: Id,
    out: &mut Vec<u8>,
) -> Result<(), AllocError>
    requires theory { IsName instances.now.store theory }
    requires ty { IsNode instances.now.store ty }
    requires before { before < 1000000 }
    ensures ok { OnOk result (out.new.items ≡ out.old.items ++ (variable_line (development instances.now) (text_at instances.now.store theory) before (tree_at instances.now.store ty))) }
    ensures err { OnErr result (AddsPrefix out.old.items (variable_line (development instances.now) (text_at instances.now.store theory) before (tree_at instances.now.store ty)) out.new.items) }
{
    put_label(out, b"s!", before + 1)?;
    put_type(instances, theory, ty, before as u32, out)
}

/// Adds the line of a formula of a sequent, by the sign of its side, where so many stand before it.
pub(crate) fn put_formula<J: Judgements>(
    instances: &Instances<J>,
    theory: Name,
    variables: u32,
    sign: &[u8],
    before: usize,
    formula: Id,
    out: &mut Vec<u8>,
) -> Result<(), AllocError>
    requires theory { IsName instances.now.store theory }
    requires formula { IsNode instances.now.store formula }
    requires before { before + 1 < 2 ^ 64 }
    ensures ok { OnOk result (out.new.items ≡ out.old.items ++ (formula_line (development instances.now) (text_at instances.now.store theory) variables sign.now before (tree_at instances.now.store formula))) }
    ensures err { OnErr result (AddsPrefix out.old.items (formula_line (development instances.now) (text_at instances.now.store theory) variables sign.now before (tree_at instances.now.store formula)) out.new.items) }
{
    put_label(out, sign, before + 1)?;
    put_term(instances, theory, formula, variables, out)
}
