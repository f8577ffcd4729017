//! The search for the free VARs of a formula. What is left to do stands in a list, so that no call
//! nests with the text.

ghost use Rattle.std.specs.Prelude.{◌≡◌, true, [], IfOk, OnOk};
ghost use Rattle.pvs_elab.specs.Formula.{firsts, occurrence, occurrences};
ghost use Rattle.pvs_phrases.specs.Parts.{phrase_at};
ghost use Rattle.pvs_free_variables.specs.Occurrences.{all_occurs};
ghost use Rattle.pvs_free_variables.specs.code.Finding.{add_all};
ghost use Rattle.pvs_free_variables.specs.code.Tasks.{next_first};
ghost use Rattle.pvs_free_variables.specs.code.Searching.{Finishes, Steps};
ghost use Rattle.pvs_phrases.specs.declared.part.Part.TheVariants as spec_part;
ghost use Rattle.pvs_free_variables.specs.declared.task.Task.TheVariants as spec_task;

use crate::binders::{push_binder, push_bindings, visit_type};
use crate::bound::Bound;
use crate::expand::push_parts;
use crate::found::{Found, Occurrence};
use crate::task::{Task, Tasks};
use pvs_base::Pos;
use pvs_elaboration::Scope;
use pvs_phrases::{Layer, Nullary, Part, layer_of};
use pvs_syntax::Expr;
use std::alloc::{AllocError, Global};

/// A search at a place of a text.
#[derive(Drop)]
pub(crate) struct Search<'a> {
    pub(crate) text: &'a [u8],
    pub(crate) tasks: Tasks<'a>,
    pub(crate) bound: Bound<'a>,
    pub(crate) found: Found<'a>,
}

/// Adds a name in the place of a term, where it is free and a VAR.
fn visit_name<'a, S: Scope>(
    scope: &S,
    bound: &Bound<'a>,
    found: &mut Found<'a>,
    name: &'a [u8],
    pos: Pos,
) -> Result<(), AllocError>
    ensures { OnOk result (found.new ≡ add_all found.old (occurrence (S.known scope.now).names bound.now name.now pos)) }
{
    if bound.contains(name) || scope.variable_named(name).is_err() {
        Ok(())
    } else {
        found.add(Occurrence { name, pos })
    }
}

/// Takes the outermost form of a term apart.
fn visit_layer<'a, S: Scope>(
    scope: &S,
    search: &mut Search<'a>,
    term: Part<'a>,
) -> Result<(), AllocError>
    ensures { OnOk result (Steps (S.known scope.now).names search.old (spec_task.Term term.entry) search.new) }
{
    let layer = layer_of(search.text, term);
    if let Layer::Nullary(Nullary::Name(name, pos)) = layer {
        visit_name(scope, &search.bound, &mut search.found, name, pos)
    } else {
        push_parts(&mut search.tasks, layer)
    }
}

/// Takes an expression apart.
fn visit_expr<'a, S: Scope>(
    scope: &S,
    search: &mut Search<'a>,
    expr: &'a Expr,
) -> Result<(), AllocError>
    ensures { OnOk result (Steps (S.known scope.now).names search.old (spec_task.Term (spec_part.Expr expr.entry)) search.new) }
{
    match expr {
        Expr::Binder(word, bindings, body, _) if bindings.len() > 0 => {
            push_binder(&mut search.tasks, *word, bindings, body.get())
        }
        _ => visit_layer(scope, search, Part::Expr(expr)),
    }
}

/// Takes a term apart.
fn visit_term<'a, S: Scope>(
    scope: &S,
    search: &mut Search<'a>,
    term: Part<'a>,
) -> Result<(), AllocError>
    ensures { OnOk result (Steps (S.known scope.now).names search.old (spec_task.Term term.entry) search.new) }
{
    match term {
        Part::Expr(expr) => visit_expr(scope, search, expr),
        _ => visit_layer(scope, search, term),
    }
}

/// Does a task.
fn step<'a, S: Scope>(scope: &S, search: &mut Search<'a>, task: Task<'a>) -> Result<(), AllocError>
    ensures { OnOk result (Steps (S.known scope.now).names search.old task.entry search.new) }
{
    match task {
        Task::Term(term) => visit_term(scope, search, term),
        Task::Type(ty) => visit_type(&mut search.tasks, search.text, ty),
        Task::Bindings {
            bindings,
            from,
            is_searched,
        } => push_bindings(&mut search.tasks, search.text, bindings, from, is_searched),
        Task::Enter(name) => search.bound.enter(name),
        Task::EnterAll(bindings) => search.bound.enter_all(search.text, bindings),
        Task::Leave(count) => {
            search.bound.leave(count);
            Ok(())
        }
    }
}

/// Does what is left to do.
fn run<'a, S: Scope>(scope: &S, search: &mut Search<'a>) -> Result<(), AllocError>
    ensures { OnOk result (Finishes (S.known scope.now).names search.old search.new) }
{
    while let Some(task) = search.tasks.pop() {
        step(scope, search, task)?;
    }
    Ok(())
}

/// The free VARs of a formula: the first occurrence of each VAR that stands in the place of a term
/// where no binder has its name, in the order of the text.
pub fn first_occurrences<'a, S: Scope>(
    alloc: Global,
    scope: &S,
    text: &'a [u8],
    part: Part<'a>,
) -> Result<Vec<Occurrence<'a>>, AllocError>
    ensures { IfOk result (λ v. all_occurs v.items ≡ firsts [] (occurrences (S.known scope.now).names true [] (phrase_at text.now part.entry))) }
{
    let mut tasks = Tasks::new(alloc);
    tasks.push(Task::Term(part))?;
    let mut search = Search {
        text,
        tasks,
        bound: Bound::new(alloc),
        found: Found::new(alloc),
    };
    run(scope, &mut search)?;
    Ok(search.found.into_occurrences())
}
