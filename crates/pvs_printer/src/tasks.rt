//! What is left to print, as a stack of tasks.

ghost use Rattle.std.specs.Prelude.{◌≡◌, List, OnOk};
ghost use Rattle.pvs_terms.specs.Stored.{Stored};
ghost use Rattle.pvs_printer.specs.Names.{Names};
ghost use Rattle.pvs_printer.specs.code.Tasks.{onto};
ghost use Rattle.pvs_printer.specs.code.Tasks as model;
ghost use Rattle.pvs_printer.specs.code.TasksAt.{tasks_at, TasksIn, Pushes};

use crate::words::Sign;
use pvs_terms::{Id, Name, RefId};
use std::alloc::AllocError;

/// A blank, or a token.
#[derive(Clone, Copy, Debug, PartialEq, Eq)]
pub(crate) enum Piece {
    Space,
    Fixed(Sign),
    /// The variable of a binder, by its number.
    Bound(u32),
    /// The variable of the sequent with this number.
    Free(u32),
    Number(u32),
    /// The name of an own entry, of a formal, of a theory, and of an entry of a theory.
    Own(u32),
    Formal(u32),
    Theory(Name),
    Entry(Name, u32),
}

/// A part of what is left to print.
#[derive(Clone, Copy, Debug, PartialEq, Eq)]
pub(crate) enum Task {
    Write(Piece),
    /// A tree under so many binders.
    Print(u32, Id),
    /// A tree under so many binders as an operand, in parentheses where it needs them.
    Operand(u32, Id),
    /// So many parts of a tuple, under so many binders.
    Arguments(u32, u32, Id),
    /// So many components of a tuple type, the first of which stands under so many binders.
    Components(u32, u32, Id),
    /// The actuals of a reference from this one on, counted from 0.
    Actuals(RefId, usize),
    /// The variable with this number and a colon, where the tree mentions it.
    Binding(u32, Id),
}

/// Puts tasks on the stack, the first of them uppermost.
fn push_all(stack: &mut Vec<Task>, tasks: &[Task]) -> Result<(), AllocError>
    ensures { OnOk result (stack.new.items ≡ onto stack.old.items tasks.now) }
{
    match tasks.split_first() {
        None => Ok(()),
        Some((first, rest)) => {
            push_all(stack, rest)?;
            stack.push(*first)?;
            Ok(())
        }
    }
}

/// The same, by what the tasks stand for.
pub(crate) fn push(stack: &mut Vec<Task>, tasks: &[Task]) -> Result<(), AllocError>
    ensures { (s : Stored) (ts : Names → List model.Task) → TasksIn s tasks.now → ((names : Names) → tasks_at s names tasks.now ≡ ts names) → OnOk result (Pushes s ts stack.old.items stack.new.items) }
{
    push_all(stack, tasks)?;
    Ok(())
}
