//! Terms and types as text.

ghost use Rattle.std.specs.Prelude.{◌≡◌, ◌++◌, OnOk, OnErr};
ghost use Rattle.pvs_terms.specs.Stored.{IsName, IsNode, text_at, tree_at};
ghost use Rattle.pvs_instantiate.specs.InstancesView.{development};
ghost use Rattle.pvs_printer.specs.Names.{Names, names_from};
ghost use Rattle.pvs_printer.specs.Pieces.{spell};
ghost use Rattle.pvs_printer.specs.Text.{printed, AddsPrefix};
ghost use Rattle.pvs_printer.specs.code.Tasks.{left_bytes, task_pieces, HasRoom};
ghost use Rattle.pvs_printer.specs.code.TasksAt.{task_at, tasks_at, TaskIn, TasksIn, HaveRoom, Steps};

use crate::expand::expand;
use crate::tasks::Task;
use crate::writing::write;
use pvs_cache::Judgements;
use pvs_instantiate::Instances;
use pvs_terms::{Id, Name};
use std::alloc::AllocError;

/// Does a task: a piece is written, and each other task is replaced by smaller ones.
fn step<J: Judgements>(
    instances: &Instances<J>,
    theory: Name,
    variables: u32,
    task: Task,
    stack: &mut Vec<Task>,
    out: &mut Vec<u8>,
) -> Result<(), AllocError>
    requires theory { IsName instances.now.store theory }
    requires within { TaskIn instances.now.store task }
    requires room { (names : Names) → HasRoom (task_at instances.now.store names task) }
    ensures ok { OnOk result (Steps instances.now.store (names_from (development instances.now) (text_at instances.now.store theory)) variables task stack.old.items stack.new.items out.old.items out.new.items) }
    ensures err { OnErr result (AddsPrefix out.old.items (spell (task_pieces (names_from (development instances.now) (text_at instances.now.store theory)) variables (task_at instances.now.store (names_from (development instances.now) (text_at instances.now.store theory)) task))) out.new.items) }
{
    match task {
        Task::Write(piece) => {
            write(instances, theory, piece, out)?;
            Ok(())
        }
        _ => {
            expand(instances.store(), variables, task, stack)?;
            Ok(())
        }
    }
}

/// Does the tasks on the stack, the last in the list first.
fn print_all<J: Judgements>(
    instances: &Instances<J>,
    theory: Name,
    variables: u32,
    stack: &mut Vec<Task>,
    out: &mut Vec<u8>,
) -> Result<(), AllocError>
    requires theory { IsName instances.now.store theory }
    requires within { TasksIn instances.now.store stack.old.items }
    requires room { HaveRoom instances.now.store stack.old.items }
    ensures ok { OnOk result (out.new.items ≡ out.old.items ++ left_bytes (names_from (development instances.now) (text_at instances.now.store theory)) variables (tasks_at instances.now.store (names_from (development instances.now) (text_at instances.now.store theory)) stack.old.items)) }
    ensures err { OnErr result (AddsPrefix out.old.items (left_bytes (names_from (development instances.now) (text_at instances.now.store theory)) variables (tasks_at instances.now.store (names_from (development instances.now) (text_at instances.now.store theory)) stack.old.items)) out.new.items) }
{
    while let Some(task) = stack.pop() {
        step(instances, theory, variables, task, stack, out)?;
    }
    Ok(())
}

/// Adds the text of a tree.
fn print<J: Judgements>(
    instances: &Instances<J>,
    theory: Name,
    id: Id,
    variables: u32,
    out: &mut Vec<u8>,
) -> Result<(), AllocError>
    requires theory { IsName instances.now.store theory }
    requires id { IsNode instances.now.store id }
    ensures ok { OnOk result (out.new.items ≡ out.old.items ++ printed (development instances.now) (text_at instances.now.store theory) variables (tree_at instances.now.store id)) }
    ensures err { OnErr result (AddsPrefix out.old.items (printed (development instances.now) (text_at instances.now.store theory) variables (tree_at instances.now.store id)) out.new.items) }
{
    let _size = instances.store().size(id);
    let mut stack = Vec::new(instances.allocator());
    stack.push(Task::Print(0, id))?;
    print_all(instances, theory, variables, &mut stack, out)
}

/// Adds the text of a term at the end: own names of the theory plain, those of instances with the
/// instance's theory and actuals before them, and variables as `v!n` and `s!n`, for a sequent with so
/// many variables. Each byte is written once. Where memory runs out, a prefix of the text was added.
pub fn print_term<J: Judgements>(
    instances: &Instances<J>,
    theory: Name,
    id: Id,
    variables: u32,
    out: &mut Vec<u8>,
) -> Result<(), AllocError>
    requires theory { IsName instances.now.store theory }
    requires id { IsNode instances.now.store id }
    ensures ok { OnOk result (out.new.items ≡ out.old.items ++ printed (development instances.now) (text_at instances.now.store theory) variables (tree_at instances.now.store id)) }
    ensures err { OnErr result (AddsPrefix out.old.items (printed (development instances.now) (text_at instances.now.store theory) variables (tree_at instances.now.store id)) out.new.items) }
{
    print(instances, theory, id, variables, out)
}

/// Adds the text of a type at the end, in the same way.
pub fn print_type<J: Judgements>(
    instances: &Instances<J>,
    theory: Name,
    id: Id,
    variables: u32,
    out: &mut Vec<u8>,
) -> Result<(), AllocError>
    requires theory { IsName instances.now.store theory }
    requires id { IsNode instances.now.store id }
    ensures ok { OnOk result (out.new.items ≡ out.old.items ++ printed (development instances.now) (text_at instances.now.store theory) variables (tree_at instances.now.store id)) }
    ensures err { OnErr result (AddsPrefix out.old.items (printed (development instances.now) (text_at instances.now.store theory) variables (tree_at instances.now.store id)) out.new.items) }
{
    print(instances, theory, id, variables, out)
}
