//! Bindings. A type that several of them share is searched once, since types nest.

ghost use Rattle.std.specs.Prelude.{◌≡◌, false, ◌∷◌, ◌++◌, drop, OnOk};
ghost use Rattle.pvs_base.specs.declared.place.Pos.{Pos};
ghost use Rattle.pvs_terms.specs.Tree.{Text};
ghost use Rattle.pvs_elab.specs.Desugar.{type_from};
ghost use Rattle.pvs_phrases.specs.Parts.{bounds};
ghost use Rattle.pvs_phrases.specs.declared.part.Part.TheVariants as spec_part;
ghost use Rattle.pvs_free_variables.specs.declared.task.Task.TheVariants as spec_task;
ghost use Rattle.pvs_free_variables.specs.code.Tasks.{AddsType, type_written};
ghost use Rattle.pvs_free_variables.specs.code.Tasks.{next_first, quantifier_tasks, scope_tasks, binder_tasks, tuple_tasks};
ghost use Rattle.pvs_free_variables.specs.code.Searching.{Expands};

use crate::expand::{push_parts, push_under_all};
use crate::task::{Task, Tasks};
use pvs_lexer::spelling;
use pvs_phrases::{Part, layer_of};
use pvs_syntax::{BinderWord, Binding, Expr, TypeExpr};
use sqlite_items::Items;
use std::alloc::AllocError;

/// The type that is written next after so many of these bindings, where there is one. This takes
/// no memory.
fn written_type<'a>(bindings: &'a Items<Binding>, from: usize) -> Option<&'a TypeExpr>
    ensures { (text x : Text) (pos : Pos) → type_from x pos (bounds text (drop from bindings.now)) ≡ type_written text x pos result }
{
    for at in from..bindings.len() {
        if let Some(ty) = &bindings.as_slice()[at].ty {
            return Some(ty);
        }
    }
    None
}

/// Adds the occurrences in the type that is written next after so many of these bindings.
fn push_type<'a>(
    tasks: &mut Tasks<'a>,
    bindings: &'a Items<Binding>,
    from: usize,
) -> Result<(), AllocError>
    ensures { OnOk result (AddsType (next_first tasks.old) (next_first tasks.new) bindings.now from) }
{
    match written_type(bindings, from) {
        Some(ty) => tasks.push(Task::Type(Part::Type(ty))),
        None => Ok(()),
    }
}

/// Adds the parts of a task for bindings.
pub(crate) fn push_bindings<'a>(
    tasks: &mut Tasks<'a>,
    text: &'a [u8],
    bindings: &'a Items<Binding>,
    from: usize,
    is_searched: bool,
) -> Result<(), AllocError>
    ensures { OnOk result (Expands text.now (spec_task.Bindings bindings.entry from is_searched) (next_first tasks.old) (next_first tasks.new)) }
{
    if from >= bindings.len() {
        return Ok(());
    }
    let binding = &bindings.as_slice()[from];
    tasks.push(Task::Bindings {
        bindings,
        from: from + 1,
        is_searched: binding.ty.is_none(),
    })?;
    tasks.push(Task::Enter(spelling(text, binding.word.start, binding.word.end)))?;
    if is_searched {
        Ok(())
    } else {
        push_type(tasks, bindings, from)
    }
}

/// Adds the types of these bindings, the first of which has not been searched.
fn push_types<'a>(tasks: &mut Tasks<'a>, bindings: &'a Items<Binding>) -> Result<(), AllocError>
    ensures { OnOk result (next_first tasks.new ≡ spec_task.Bindings bindings.entry 0 false ∷ next_first tasks.old) }
{
    tasks.push(Task::Bindings {
        bindings,
        from: 0,
        is_searched: false,
    })
}

/// Adds the parts of a quantifier.
fn push_quantifier<'a>(
    tasks: &mut Tasks<'a>,
    bindings: &'a Items<Binding>,
    body: &'a Expr,
) -> Result<(), AllocError>
    ensures { OnOk result (next_first tasks.new ≡ quantifier_tasks bindings.entry body.entry ++ next_first tasks.old) }
{
    tasks.push(Task::Leave(bindings.len()))?;
    tasks.push(Task::Term(Part::Expr(body)))?;
    push_types(tasks, bindings)
}

/// Adds the types of these bindings, and then a task in the scope of their names.
fn push_scope<'a>(
    tasks: &mut Tasks<'a>,
    bindings: &'a Items<Binding>,
    task: Task<'a>,
) -> Result<(), AllocError>
    ensures { OnOk result (next_first tasks.new ≡ scope_tasks bindings.entry task.entry ++ next_first tasks.old) }
{
    push_under_all(tasks, bindings, task)?;
    tasks.push(Task::Leave(bindings.len()))?;
    push_types(tasks, bindings)
}

/// Adds the parts of a quantifier or a LAMBDA.
pub(crate) fn push_binder<'a>(
    tasks: &mut Tasks<'a>,
    word: BinderWord,
    bindings: &'a Items<Binding>,
    body: &'a Expr,
) -> Result<(), AllocError>
    ensures { OnOk result (next_first tasks.new ≡ binder_tasks word bindings.entry body.entry ++ next_first tasks.old) }
{
    match word {
        BinderWord::Forall | BinderWord::Exists => push_quantifier(tasks, bindings, body),
        BinderWord::Lambda => push_scope(tasks, bindings, Task::Term(Part::Expr(body))),
    }
}

/// Adds the parts of a type of tuples.
fn push_tuple_type<'a>(
    tasks: &mut Tasks<'a>,
    bindings: &'a Items<Binding>,
) -> Result<(), AllocError>
    ensures { OnOk result (next_first tasks.new ≡ tuple_tasks bindings.entry ++ next_first tasks.old) }
{
    tasks.push(Task::Leave(bindings.len()))?;
    push_types(tasks, bindings)
}

/// Adds the parts of a type that a text has.
fn visit_type_expr<'a>(
    tasks: &mut Tasks<'a>,
    text: &'a [u8],
    ty: &'a TypeExpr,
) -> Result<(), AllocError>
    ensures { OnOk result (Expands text.now (spec_task.Type (spec_part.Type ty.entry)) (next_first tasks.old) (next_first tasks.new)) }
{
    match ty {
        TypeExpr::FunType(bindings, range, _) => {
            push_scope(tasks, bindings, Task::Type(Part::Type(range.get())))
        }
        TypeExpr::TupleType(bindings, _) if bindings.len() > 1 => push_tuple_type(tasks, bindings),
        _ => push_parts(tasks, layer_of(text, Part::Type(ty))),
    }
}

/// Adds the parts of a type.
pub(crate) fn visit_type<'a>(
    tasks: &mut Tasks<'a>,
    text: &'a [u8],
    ty: Part<'a>,
) -> Result<(), AllocError>
    ensures { OnOk result (Expands text.now (spec_task.Type ty.entry) (next_first tasks.old) (next_first tasks.new)) }
{
    match ty {
        Part::Type(expr) => visit_type_expr(tasks, text, expr),
        _ => push_parts(tasks, layer_of(text, ty)),
    }
}
