//! The parts of a phrase, in the order of the text, with the scopes of its binders.

ghost use Rattle.std.specs.Prelude.{◌≡◌, ◌∷◌, ◌++◌, OnOk};
ghost use Rattle.pvs_free_variables.specs.declared.task.Task.TheVariants as spec_task;
ghost use Rattle.pvs_free_variables.specs.code.Tasks.{next_first, under, under_all, binary_tasks, ternary_tasks, layer_tasks};

use crate::task::{Task, Tasks};
use pvs_phrases::{Binary, Layer, Part, Ternary};
use pvs_syntax::Binding;
use sqlite_items::Items;
use std::alloc::AllocError;

/// Adds two tasks.
fn push_two<'a>(tasks: &mut Tasks<'a>, first: Task<'a>, second: Task<'a>) -> Result<(), AllocError>
    ensures { OnOk result (next_first tasks.new ≡ first.entry ∷ second.entry ∷ next_first tasks.old) }
{
    tasks.push(second)?;
    tasks.push(first)
}

/// Adds a task in the scope of a name.
fn push_under<'a>(tasks: &mut Tasks<'a>, name: &'a [u8], task: Task<'a>) -> Result<(), AllocError>
    ensures { OnOk result (next_first tasks.new ≡ under name.entry task.entry ++ next_first tasks.old) }
{
    tasks.push(Task::Leave(1))?;
    push_two(tasks, Task::Enter(name), task)
}

/// Adds a task in the scope of these variables.
pub(crate) fn push_under_all<'a>(
    tasks: &mut Tasks<'a>,
    bindings: &'a Items<Binding>,
    task: Task<'a>,
) -> Result<(), AllocError>
    ensures { OnOk result (next_first tasks.new ≡ under_all bindings.entry task.entry ++ next_first tasks.old) }
{
    tasks.push(Task::Leave(bindings.len()))?;
    push_two(tasks, Task::EnterAll(bindings), task)
}

/// Adds the parts of a form with two parts.
fn push_binary<'a>(
    tasks: &mut Tasks<'a>,
    form: Binary<'a>,
    first: Part<'a>,
    second: Part<'a>,
) -> Result<(), AllocError>
    ensures { OnOk result (next_first tasks.new ≡ binary_tasks form.entry first.entry second.entry ++ next_first tasks.old) }
{
    match form {
        Binary::Apply | Binary::Tuple(_, _) | Binary::Equal | Binary::Iff => {
            push_two(tasks, Task::Term(first), Task::Term(second))
        }
        Binary::Forall(name, _) | Binary::Subtype(name, _) => {
            push_under(tasks, name, Task::Term(second))?;
            tasks.push(Task::Type(first))
        }
        Binary::Lambda(bindings, _) => {
            push_under_all(tasks, bindings, Task::Term(second))?;
            tasks.push(Task::Type(first))
        }
        Binary::Let(name, _) => {
            push_under(tasks, name, Task::Term(second))?;
            tasks.push(Task::Term(first))
        }
        Binary::Function(bindings, _) => {
            push_under_all(tasks, bindings, Task::Type(second))?;
            tasks.push(Task::Type(first))
        }
        Binary::Product(_, name, _) => {
            push_under(tasks, name, Task::Type(second))?;
            tasks.push(Task::Type(first))
        }
    }
}

/// Adds the parts of a form with three parts.
fn push_ternary<'a>(
    tasks: &mut Tasks<'a>,
    form: Ternary<'a>,
    first: Part<'a>,
    second: Part<'a>,
    third: Part<'a>,
) -> Result<(), AllocError>
    ensures { OnOk result (next_first tasks.new ≡ ternary_tasks form.entry first.entry second.entry third.entry ++ next_first tasks.old) }
{
    match form {
        Ternary::Choice { .. } => {
            tasks.push(Task::Term(third))?;
            push_two(tasks, Task::Term(first), Task::Term(second))
        }
        Ternary::LetAs(name, _) => {
            push_under(tasks, name, Task::Term(third))?;
            push_two(tasks, Task::Type(first), Task::Term(second))
        }
    }
}

/// Adds the parts of a layer.
pub(crate) fn push_parts<'a>(tasks: &mut Tasks<'a>, layer: Layer<'a>) -> Result<(), AllocError>
    ensures { OnOk result (next_first tasks.new ≡ layer_tasks layer.entry ++ next_first tasks.old) }
{
    match layer {
        Layer::Nullary(_) => Ok(()),
        Layer::Unary(_, part) => tasks.push(Task::Term(part)),
        Layer::Binary(form, first, second) => push_binary(tasks, form, first, second),
        Layer::Ternary(form, first, second, third) => {
            push_ternary(tasks, form, first, second, third)
        }
    }
}
