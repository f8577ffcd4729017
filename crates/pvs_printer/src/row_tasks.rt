//! The tasks of a row.

ghost use Rattle.std.specs.Prelude.{◌≡◌, ◌<◌, ℕ, OnOk};
ghost use Rattle.pvs_terms.specs.Stored.{Stored, IsNode, IsRef, ref_at};
ghost use Rattle.pvs_printer.specs.declared.row.Row.TheVariants as row;
ghost use Rattle.pvs_printer.specs.Names.{Names};
ghost use Rattle.pvs_printer.specs.Pieces as shown;
ghost use Rattle.pvs_printer.specs.Pieces.{binder_sign, infix_sign};
ghost use Rattle.pvs_printer.specs.TreeForm.{single};
ghost use Rattle.pvs_printer.specs.code.Tasks.{ref_tasks, row_tasks};
ghost use Rattle.pvs_printer.specs.code.RowsAt.{row_at, RowIn};
ghost use Rattle.pvs_printer.specs.code.TasksAt.{Pushes, PieceIn, piece_at};

use crate::row::Row;
use crate::tasks::Piece::{Bound, Entry, Fixed, Formal, Free, Number, Own, Space, Theory};
use crate::tasks::Task::{Actuals, Arguments, Binding, Components, Operand, Print, Write};
use crate::tasks::{Piece, Task, push};
use crate::words::{BinderWord, InfixWord, Sign};
use pvs_terms::{Id, RefId, RefKind, Store};
use std::alloc::AllocError;

/// How a binder begins.
fn binder_sign(word: BinderWord) -> Sign
    ensures { result ≡ binder_sign word }
{
    match word {
        BinderWord::Forall => Sign::Forall,
        BinderWord::Exists => Sign::Exists,
        BinderWord::Lambda => Sign::Lambda,
    }
}

/// How an operator is written.
fn infix_sign(word: InfixWord) -> Sign
    ensures { result ≡ infix_sign word }
{
    match word {
        InfixWord::And => Sign::And,
        InfixWord::Or => Sign::Or,
        InfixWord::Implies => Sign::Implies,
        InfixWord::Equal => Sign::Equal,
    }
}

/// The variable of an index under so many binders, for a sequent with so many variables.
fn variable(variables: u32, depth: u32, index: u32) -> Piece
    ensures is { (s : Stored) (names : Names) → piece_at s names result ≡ shown.Named (single variables depth index) }
    ensures within { (s : Stored) → PieceIn s result }
{
    if index < depth {
        Bound(depth - index)
    } else {
        Free(variables.saturating_sub(index - depth))
    }
}

/// The tasks of a reference.
fn push_name(store: &Store, r: RefId, stack: &mut Vec<Task>) -> Result<(), AllocError>
    requires { IsRef store.now r }
    ensures { OnOk result (Pushes store.now (λ names. ref_tasks names (ref_at store.now r)) stack.old.items stack.new.items) }
{
    match store.kind(r) {
        RefKind::Own(n) => push(stack, &[Write(Own(n))]),
        RefKind::Formal(n) => push(stack, &[Write(Formal(n))]),
        RefKind::Inst(theory, n) => {
            if store.actuals(r).is_empty() {
                push(
                    stack,
                    &[
                        Write(Theory(theory)),
                        Write(Fixed(Sign::Dot)),
                        Write(Entry(theory, n)),
                    ],
                )
            } else {
                push(
                    stack,
                    &[
                        Write(Theory(theory)),
                        Write(Fixed(Sign::OpenBracket)),
                        Actuals(r, 0),
                        Write(Fixed(Sign::CloseBracket)),
                        Write(Fixed(Sign::Dot)),
                        Write(Entry(theory, n)),
                    ],
                )
            }
        }
    }
}

/// The tasks of a quantifier or an abstraction.
fn push_quantified(
    depth: u32,
    word: BinderWord,
    ty: Id,
    body: Id,
    stack: &mut Vec<Task>,
) -> Result<(), AllocError>
    requires { depth < 1000000 }
    ensures { (s : Stored) (variables : ℕ) → IsNode s ty → IsNode s body → OnOk result (Pushes s (λ names. row_tasks names variables depth (row_at s (row.Quantified word ty body))) stack.old.items stack.new.items) }
{
    push(
        stack,
        &[
            Write(Fixed(binder_sign(word))),
            Write(Space),
            Write(Fixed(Sign::Open)),
            Write(Bound(depth + 1)),
            Write(Fixed(Sign::Colon)),
            Write(Space),
            Print(depth, ty),
            Write(Fixed(Sign::Close)),
            Write(Fixed(Sign::Colon)),
            Write(Space),
            Print(depth + 1, body),
        ],
    )
}

/// The tasks of an operator with two operands.
fn push_infix(
    depth: u32,
    word: InfixWord,
    a: Id,
    b: Id,
    stack: &mut Vec<Task>,
) -> Result<(), AllocError>
    ensures { (s : Stored) (variables : ℕ) → IsNode s a → IsNode s b → OnOk result (Pushes s (λ names. row_tasks names variables depth (row_at s (row.Infix word a b))) stack.old.items stack.new.items) }
{
    push(
        stack,
        &[
            Operand(depth, a),
            Write(Space),
            Write(Fixed(infix_sign(word))),
            Write(Space),
            Operand(depth, b),
        ],
    )
}

/// The tasks of an IF.
fn push_conditional(
    depth: u32,
    c: Id,
    a: Id,
    b: Id,
    stack: &mut Vec<Task>,
) -> Result<(), AllocError>
    ensures { (s : Stored) (variables : ℕ) → IsNode s c → IsNode s a → IsNode s b → OnOk result (Pushes s (λ names. row_tasks names variables depth (row_at s (row.Cond c a b))) stack.old.items stack.new.items) }
{
    push(
        stack,
        &[
            Write(Fixed(Sign::If)),
            Write(Space),
            Print(depth, c),
            Write(Space),
            Write(Fixed(Sign::Then)),
            Write(Space),
            Print(depth, a),
            Write(Space),
            Write(Fixed(Sign::Else)),
            Write(Space),
            Print(depth, b),
            Write(Space),
            Write(Fixed(Sign::EndIf)),
        ],
    )
}

/// The tasks of an application to so many arguments.
fn push_application(
    depth: u32,
    f: Id,
    k: u32,
    a: Id,
    stack: &mut Vec<Task>,
) -> Result<(), AllocError>
    ensures { (s : Stored) (variables : ℕ) → IsNode s f → IsNode s a → OnOk result (Pushes s (λ names. row_tasks names variables depth (row_at s (row.Apply f k a))) stack.old.items stack.new.items) }
{
    push(
        stack,
        &[
            Operand(depth, f),
            Write(Fixed(Sign::Open)),
            Arguments(depth, k, a),
            Write(Fixed(Sign::Close)),
        ],
    )
}

/// The tasks of a tuple with all its tags, which has so many parts after the first.
fn push_tuple(depth: u32, k: u32, a: Id, b: Id, stack: &mut Vec<Task>) -> Result<(), AllocError>
    ensures { (s : Stored) (variables : ℕ) → IsNode s a → IsNode s b → OnOk result (Pushes s (λ names. row_tasks names variables depth (row_at s (row.Tuple k a b))) stack.old.items stack.new.items) }
{
    push(
        stack,
        &[
            Write(Fixed(Sign::Open)),
            Print(depth, a),
            Write(Fixed(Sign::Comma)),
            Write(Space),
            Arguments(depth, k, b),
            Write(Fixed(Sign::Close)),
        ],
    )
}

/// The tasks of another tuple.
fn push_tagged_tuple(
    depth: u32,
    k: u32,
    a: Id,
    b: Id,
    stack: &mut Vec<Task>,
) -> Result<(), AllocError>
    ensures { (s : Stored) (variables : ℕ) → IsNode s a → IsNode s b → OnOk result (Pushes s (λ names. row_tasks names variables depth (row_at s (row.TaggedTuple k a b))) stack.old.items stack.new.items) }
{
    push(
        stack,
        &[
            Write(Fixed(Sign::Open)),
            Write(Number(k)),
            Write(Fixed(Sign::Semicolon)),
            Write(Space),
            Print(depth, a),
            Write(Fixed(Sign::Comma)),
            Write(Space),
            Print(depth, b),
            Write(Fixed(Sign::Close)),
        ],
    )
}

/// The tasks of a projection to the component with this number.
fn push_component(depth: u32, a: Id, i: u32, stack: &mut Vec<Task>) -> Result<(), AllocError>
    ensures { (s : Stored) (variables : ℕ) → IsNode s a → OnOk result (Pushes s (λ names. row_tasks names variables depth (row_at s (row.Part a i))) stack.old.items stack.new.items) }
{
    push(
        stack,
        &[
            Operand(depth, a),
            Write(Fixed(Sign::Backquote)),
            Write(Number(i)),
        ],
    )
}

/// The tasks of a projection to several components.
fn push_rest(depth: u32, a: Id, stack: &mut Vec<Task>) -> Result<(), AllocError>
    ensures { (s : Stored) (variables : ℕ) → IsNode s a → OnOk result (Pushes s (λ names. row_tasks names variables depth (row_at s (row.Rest a))) stack.old.items stack.new.items) }
{
    push(
        stack,
        &[
            Operand(depth, a),
            Write(Fixed(Sign::Backquote)),
            Write(Fixed(Sign::Rest)),
        ],
    )
}

/// The tasks of a predicate subtype.
fn push_subtype(depth: u32, ty: Id, p: Id, stack: &mut Vec<Task>) -> Result<(), AllocError>
    requires { depth < 1000000 }
    ensures { (s : Stored) (variables : ℕ) → IsNode s ty → IsNode s p → OnOk result (Pushes s (λ names. row_tasks names variables depth (row_at s (row.SubType ty p))) stack.old.items stack.new.items) }
{
    push(
        stack,
        &[
            Write(Fixed(Sign::OpenBrace)),
            Write(Bound(depth + 1)),
            Write(Fixed(Sign::Colon)),
            Write(Space),
            Print(depth, ty),
            Write(Space),
            Write(Fixed(Sign::Bar)),
            Write(Space),
            Print(depth + 1, p),
            Write(Fixed(Sign::CloseBrace)),
        ],
    )
}

/// The tasks of a function type.
fn push_function_type(depth: u32, a: Id, b: Id, stack: &mut Vec<Task>) -> Result<(), AllocError>
    requires { depth < 1000000 }
    ensures { (s : Stored) (variables : ℕ) → IsNode s a → IsNode s b → OnOk result (Pushes s (λ names. row_tasks names variables depth (row_at s (row.FunType a b))) stack.old.items stack.new.items) }
{
    push(
        stack,
        &[
            Write(Fixed(Sign::OpenBracket)),
            Binding(depth + 1, b),
            Print(depth, a),
            Write(Space),
            Write(Fixed(Sign::Arrow)),
            Write(Space),
            Print(depth + 1, b),
            Write(Fixed(Sign::CloseBracket)),
        ],
    )
}

/// The tasks of a tuple type with all its tags, which has so many components after the first.
fn push_tuple_type(
    depth: u32,
    k: u32,
    a: Id,
    b: Id,
    stack: &mut Vec<Task>,
) -> Result<(), AllocError>
    requires { depth < 1000000 }
    ensures { (s : Stored) (variables : ℕ) → IsNode s a → IsNode s b → OnOk result (Pushes s (λ names. row_tasks names variables depth (row_at s (row.TupleType k a b))) stack.old.items stack.new.items) }
{
    push(
        stack,
        &[
            Write(Fixed(Sign::OpenBracket)),
            Binding(depth + 1, b),
            Print(depth, a),
            Write(Fixed(Sign::Comma)),
            Write(Space),
            Components(depth + 1, k, b),
            Write(Fixed(Sign::CloseBracket)),
        ],
    )
}

/// The tasks of another tuple type.
fn push_tagged_type(
    depth: u32,
    k: u32,
    a: Id,
    b: Id,
    stack: &mut Vec<Task>,
) -> Result<(), AllocError>
    requires { depth < 1000000 }
    ensures { (s : Stored) (variables : ℕ) → IsNode s a → IsNode s b → OnOk result (Pushes s (λ names. row_tasks names variables depth (row_at s (row.TaggedType k a b))) stack.old.items stack.new.items) }
{
    push(
        stack,
        &[
            Write(Fixed(Sign::OpenBracket)),
            Write(Number(k)),
            Write(Fixed(Sign::Semicolon)),
            Write(Space),
            Binding(depth + 1, b),
            Print(depth, a),
            Write(Fixed(Sign::Comma)),
            Write(Space),
            Print(depth + 1, b),
            Write(Fixed(Sign::CloseBracket)),
        ],
    )
}

/// The tasks of a row, under so many binders.
pub(crate) fn push_row(
    store: &Store,
    variables: u32,
    depth: u32,
    row: Row,
    stack: &mut Vec<Task>,
) -> Result<(), AllocError>
    requires within { RowIn store.now row }
    requires depth { depth < 1000000 }
    ensures { OnOk result (Pushes store.now (λ names. row_tasks names variables depth (row_at store.now row)) stack.old.items stack.new.items) }
{
    match row {
        Row::Named(_, r) => push_name(store, r, stack),
        Row::Truth(value) => {
            let word = if value { Sign::True } else { Sign::False };
            push(stack, &[Write(Fixed(word))])
        }
        Row::Variable(n) => push(stack, &[Write(variable(variables, depth, n))]),
        Row::Boolean => push(stack, &[Write(Fixed(Sign::Bool))]),
        Row::Not(a) => push(
            stack,
            &[Write(Fixed(Sign::Not)), Write(Space), Operand(depth, a)],
        ),
        Row::Quantified(word, ty, body) => push_quantified(depth, word, ty, body, stack),
        Row::Infix(word, a, b) => push_infix(depth, word, a, b, stack),
        Row::Cond(c, a, b) => push_conditional(depth, c, a, b, stack),
        Row::Apply(f, k, a) => push_application(depth, f, k, a, stack),
        Row::Tuple(k, a, b) => push_tuple(depth, k, a, b, stack),
        Row::TaggedTuple(k, a, b) => push_tagged_tuple(depth, k, a, b, stack),
        Row::Part(a, i) => push_component(depth, a, i, stack),
        Row::Rest(a) => push_rest(depth, a, stack),
        Row::SubType(ty, p) => push_subtype(depth, ty, p, stack),
        Row::FunType(a, b) => push_function_type(depth, a, b, stack),
        Row::TupleType(k, a, b) => push_tuple_type(depth, k, a, b, stack),
        Row::TaggedType(k, a, b) => push_tagged_type(depth, k, a, b, stack),
    }
}
