//! Smaller tasks in the place of one.

ghost use Rattle.std.specs.Prelude.{◌≡◌, ◌<◌, ◌-◌, [], ◌∷◌, OnOk, IfSome, IfNone};
ghost use Rattle.pvs_terms.specs.Tree.{ref_actuals};
ghost use Rattle.pvs_terms.specs.Stored.{Stored, IsNode, IsRef, tree_at, ref_at};
ghost use Rattle.pvs_printer.specs.Names.{Names};
ghost use Rattle.pvs_printer.specs.Mentions.{mentions};
ghost use Rattle.pvs_printer.specs.Row.{row};
ghost use Rattle.pvs_printer.specs.code.Steps.{part_list, component_list};
ghost use Rattle.pvs_printer.specs.code.Tasks.{expand, operand_tasks, argument_tasks, component_tasks, actual_tasks, binding_tasks, is_tight_row, HasRoom};
ghost use Rattle.pvs_printer.specs.code.RowsAt.{row_at};
ghost use Rattle.pvs_printer.specs.code.TasksAt.{Pushes, TaskIn, task_at, trees_from};

use crate::row::{Row, row_of};
use crate::row_tasks::push_row;
use crate::shapes::mentions;
use crate::tasks::Piece::{Bound, Fixed, Space};
use crate::tasks::Task::{Actuals, Arguments, Binding, Components, Operand, Print, Write};
use crate::tasks::{Task, push};
use crate::words::Sign;
use pvs_terms::{Binder, Id, Joint, RefId, Shape, Store};
use std::alloc::AllocError;

/// Whether a tree of this row stands as an operand without parentheses.
fn is_tight(row: Row) -> bool
    ensures { (s : Stored) → result ≡ is_tight_row (row_at s row) }
{
    match row {
        Row::Quantified(_, _, _) => false,
        Row::Not(_) => false,
        Row::Infix(_, _, _) => false,
        _ => true,
    }
}

/// The tasks of a tree that is an operand, under so many binders.
fn push_operand(store: &Store, depth: u32, id: Id, stack: &mut Vec<Task>) -> Result<(), AllocError>
    requires { IsNode store.now id }
    ensures { OnOk result (Pushes store.now (λ names. operand_tasks (is_tight_row (row (tree_at store.now id))) depth (tree_at store.now id)) stack.old.items stack.new.items) }
{
    if is_tight(row_of(store, id)) {
        push(stack, &[Print(depth, id)])
    } else {
        push(
            stack,
            &[
                Write(Fixed(Sign::Open)),
                Print(depth, id),
                Write(Fixed(Sign::Close)),
            ],
        )
    }
}

/// The first part and the others, of a tuple that has so many.
fn split_tuple(store: &Store, k: u32, id: Id) -> Option<(Id, Id)>
    requires { IsNode store.now id }
    ensures some { IfSome result (λ q. part_list k (tree_at store.now id) ≡ tree_at store.now q.0 ∷ part_list (k - 1) (tree_at store.now q.1)) }
    ensures nodes { IfSome result (λ q. IsNode store.now q.0 × IsNode store.now q.1) }
    ensures none { IfNone result (part_list k (tree_at store.now id) ≡ tree_at store.now id ∷ []) }
{
    match store.view(id).shape() {
        Shape::Join(joint, a, b) => match joint {
            Joint::Tuple(_) => { if k >= 2 { Some((a, b)) } else { None } }
            _ => None,
        },
        _ => None,
    }
}

/// The first component and the others, of a tuple type that has so many.
fn split_tuple_type(store: &Store, k: u32, id: Id) -> Option<(Id, Id)>
    requires { IsNode store.now id }
    ensures some { IfSome result (λ q. component_list k (tree_at store.now id) ≡ tree_at store.now q.0 ∷ component_list (k - 1) (tree_at store.now q.1)) }
    ensures nodes { IfSome result (λ q. IsNode store.now q.0 × IsNode store.now q.1) }
    ensures none { IfNone result (component_list k (tree_at store.now id) ≡ tree_at store.now id ∷ []) }
{
    match store.view(id).shape() {
        Shape::Bind(binder, a, b) => match binder {
            Binder::Product(_) => { if k >= 2 { Some((a, b)) } else { None } }
            _ => None,
        },
        _ => None,
    }
}

/// The tasks of so many parts of a tuple, under so many binders.
fn push_arguments(
    store: &Store,
    depth: u32,
    k: u32,
    id: Id,
    stack: &mut Vec<Task>,
) -> Result<(), AllocError>
    requires { IsNode store.now id }
    ensures { OnOk result (Pushes store.now (λ names. argument_tasks depth (part_list k (tree_at store.now id))) stack.old.items stack.new.items) }
{
    match split_tuple(store, k, id) {
        None => push(stack, &[Print(depth, id)]),
        Some(found) => push(
            stack,
            &[
                Print(depth, found.0),
                Write(Fixed(Sign::Comma)),
                Write(Space),
                Arguments(depth, k.saturating_sub(1), found.1),
            ],
        ),
    }
}

/// The tasks of so many components of a tuple type, under so many binders.
fn push_components(
    store: &Store,
    depth: u32,
    k: u32,
    id: Id,
    stack: &mut Vec<Task>,
) -> Result<(), AllocError>
    requires node { IsNode store.now id }
    requires depth { depth < 1000000 }
    ensures { OnOk result (Pushes store.now (λ names. component_tasks depth (component_list k (tree_at store.now id))) stack.old.items stack.new.items) }
{
    match split_tuple_type(store, k, id) {
        None => push(stack, &[Print(depth, id)]),
        Some(found) => push(
            stack,
            &[
                Binding(depth + 1, found.1),
                Print(depth, found.0),
                Write(Fixed(Sign::Comma)),
                Write(Space),
                Components(depth + 1, k.saturating_sub(1), found.1),
            ],
        ),
    }
}

/// The tasks of the actuals of a reference from this one on.
fn push_actuals(
    store: &Store,
    r: RefId,
    from: usize,
    stack: &mut Vec<Task>,
) -> Result<(), AllocError>
    requires { IsRef store.now r }
    ensures { OnOk result (Pushes store.now (λ names. actual_tasks (trees_from from (ref_actuals (ref_at store.now r)))) stack.old.items stack.new.items) }
{
    let actuals = store.actuals(r);
    if from >= actuals.len() {
        push(stack, &[])
    } else if from + 1 == actuals.len() {
        push(stack, &[Print(0, actuals[from])])
    } else {
        push(
            stack,
            &[
                Print(0, actuals[from]),
                Write(Fixed(Sign::Comma)),
                Write(Space),
                Actuals(r, from + 1),
            ],
        )
    }
}

/// The tasks of the variable with this number and a colon, where the tree mentions it.
fn push_binding(store: &Store, number: u32, id: Id, stack: &mut Vec<Task>) -> Result<(), AllocError>
    requires { IsNode store.now id }
    ensures { OnOk result (Pushes store.now (λ names. binding_tasks (mentions 0 (tree_at store.now id)) number) stack.old.items stack.new.items) }
{
    let _size = store.size(id);
    if mentions(store, 0, id) {
        push(
            stack,
            &[
                Write(Bound(number)),
                Write(Fixed(Sign::Colon)),
                Write(Space),
            ],
        )
    } else {
        push(stack, &[])
    }
}

/// Puts smaller tasks on the stack in the place of one that is no piece.
pub(crate) fn expand(
    store: &Store,
    variables: u32,
    task: Task,
    stack: &mut Vec<Task>,
) -> Result<(), AllocError>
    requires within { TaskIn store.now task }
    requires room { (names : Names) → HasRoom (task_at store.now names task) }
    ensures { OnOk result (Pushes store.now (λ names. expand names variables (task_at store.now names task)) stack.old.items stack.new.items) }
{
    match task {
        Write(_) => push(stack, &[]),
        Print(depth, id) => {
            let row = row_of(store, id);
            push_row(store, variables, depth, row, stack)
        }
        Operand(depth, id) => push_operand(store, depth, id, stack),
        Arguments(depth, k, id) => push_arguments(store, depth, k, id, stack),
        Components(depth, k, id) => push_components(store, depth, k, id, stack),
        Actuals(r, from) => push_actuals(store, r, from, stack),
        Binding(number, id) => push_binding(store, number, id, stack),
    }
}
