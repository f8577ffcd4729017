//! What the top of a tree is printed as.

ghost use Rattle.std.specs.Prelude.{◌≡◌, ◌==◌, suc};
ghost use Rattle.pvs_terms.specs.Stored.{IsNode, tree_at};
ghost use Rattle.pvs_terms.specs.Tree as t;
ghost use Rattle.pvs_terms.specs.Tree.{Tree};
ghost use Rattle.pvs_printer.specs.Row as table;
ghost use Rattle.pvs_printer.specs.code.Steps as spec;
ghost use Rattle.pvs_printer.specs.code.Steps.{part_list};
ghost use Rattle.pvs_printer.specs.code.RowsAt.{row_at, RowIn, apply_row};

use crate::shapes::{
    climb, exists_of, forall_of, is_false, is_true, is_tuple, is_tuple_type, tag_of,
};
use crate::words::{BinderWord, InfixWord};
use pvs_terms::{Binder, Id, Joint, Plain, Projection, RefId, Shape, Sort, Store};

/// The first row of the table that fits, with the parts that it shows.
#[derive(Clone, Copy)]
pub(crate) enum Row {
    Truth(bool),
    Variable(u32),
    Named(Sort, RefId),
    Boolean,
    Quantified(BinderWord, Id, Id),
    Not(Id),
    Infix(InfixWord, Id, Id),
    Cond(Id, Id, Id),
    /// A function, how many arguments there are, and the argument or the tuple of them.
    Apply(Id, u32, Id),
    /// The number of parts after the first, the first, and the tuple of the others.
    Tuple(u32, Id, Id),
    Part(Id, u32),
    SubType(Id, Id),
    FunType(Id, Id),
    /// The number of components after the first, the first, and the tuple type of the others.
    TupleType(u32, Id, Id),
    TaggedTuple(u32, Id, Id),
    Rest(Id),
    TaggedType(u32, Id, Id),
}

/// The row of an IF with these parts.
fn if_row(store: &Store, c: Id, a: Id, b: Id) -> Row
    requires c { IsNode store.now c }
    requires a { IsNode store.now a }
    requires b { IsNode store.now b }
    ensures is { row_at store.now result ≡ spec.if_steps (tree_at store.now c) (tree_at store.now a) (tree_at store.now b) }
    ensures nodes { RowIn store.now result }
{
    if is_false(store, a) && is_true(store, b) {
        match exists_of(store, c) {
            Some((ty, p)) => Row::Quantified(BinderWord::Exists, ty, p),
            None => Row::Not(c),
        }
    } else if is_false(store, b) {
        Row::Infix(InfixWord::And, c, a)
    } else if is_true(store, a) {
        Row::Infix(InfixWord::Or, c, b)
    } else if is_true(store, b) {
        Row::Infix(InfixWord::Implies, c, a)
    } else {
        Row::Cond(c, a, b)
    }
}

/// The row of an equality.
fn equality_row(store: &Store, id: Id, a: Id, b: Id) -> Row
    requires node { IsNode store.now id }
    requires a { IsNode store.now a }
    requires b { IsNode store.now b }
    ensures is { row_at store.now result ≡ spec.equality_row (tree_at store.now a) (tree_at store.now b) (spec.forall_steps (tree_at store.now id)) }
    ensures nodes { RowIn store.now result }
{
    match forall_of(store, id) {
        Some((ty, p)) => Row::Quantified(BinderWord::Forall, ty, p),
        None => Row::Infix(InfixWord::Equal, a, b),
    }
}

/// How many arguments a function is applied to: the parts of a tuple with all its tags, and else one.
#[tactic(auto, using(crate::proofs::PartsLaws::many_arguments, crate::proofs::PartsLaws::one_argument, crate::proofs::PartsLaws::no_tuple))]
fn argument_count(store: &Store, a: Id) -> u32
    requires { IsNode store.now a }
    ensures { (f : Tree) → apply_row f (part_list result (tree_at store.now a)) ≡ table.apply_row f (tree_at store.now a) (table.arguments (tree_at store.now a)) }
{
    match tag_of(store, a) {
        None => 1,
        Some(k) => { if is_tuple(store, k, a) { k } else { 1 } }
    }
}

/// The row of a tuple.
fn tuple_row(store: &Store, id: Id, k: u32, a: Id, b: Id) -> Row
    requires node { IsNode store.now id }
    requires a { IsNode store.now a }
    requires b { IsNode store.now b }
    requires is { tree_at store.now id ≡ t.Tup k (tree_at store.now a) (tree_at store.now b) }
    ensures is { row_at store.now result ≡ table.tuple_row k (tree_at store.now a) (tree_at store.now b) (table.parts k (tree_at store.now id)) }
    ensures nodes { RowIn store.now result }
{
    if is_tuple(store, k, id) {
        Row::Tuple(k.saturating_sub(1), a, b)
    } else {
        Row::TaggedTuple(k, a, b)
    }
}

/// The row of a tuple type.
fn type_row(store: &Store, id: Id, k: u32, a: Id, b: Id) -> Row
    requires node { IsNode store.now id }
    requires a { IsNode store.now a }
    requires b { IsNode store.now b }
    requires is { tree_at store.now id ≡ t.TPair k (tree_at store.now a) (tree_at store.now b) }
    ensures is { row_at store.now result ≡ table.type_row k (tree_at store.now a) (tree_at store.now b) (table.components k (tree_at store.now id)) }
    ensures nodes { RowIn store.now result }
{
    if is_tuple_type(store, k, id) {
        Row::TupleType(k.saturating_sub(1), a, b)
    } else {
        Row::TaggedType(k, a, b)
    }
}

/// The row of a projection to the first component.
fn first_row(store: &Store, k: u32, a: Id) -> Row
    requires { IsNode store.now a }
    ensures is { row_at store.now result ≡ table.first_row k (table.climb (suc k) (tree_at store.now a)) }
    ensures nodes { RowIn store.now result }
{
    let _size = store.size(a);
    let (end, length) = climb(store, u64::from(k) + 1, a);
    Row::Part(end, length + 1)
}

/// The row of a projection to the others.
fn second_row(store: &Store, k: u32, a: Id) -> Row
    requires { IsNode store.now a }
    ensures is { row_at store.now result ≡ table.second_row (k == 2) (tree_at store.now a) (table.climb (suc k) (tree_at store.now a)) }
    ensures nodes { RowIn store.now result }
{
    if k == 2 {
        let _size = store.size(a);
        let (end, length) = climb(store, 3, a);
        Row::Part(end, length + 2)
    } else {
        Row::Rest(a)
    }
}

fn bound_row(store: &Store, id: Id, binder: Binder, a: Id, b: Id) -> Row
    requires node { IsNode store.now id }
    requires a { IsNode store.now a }
    requires b { IsNode store.now b }
    requires is { tree_at store.now id ≡ t.Bind binder (tree_at store.now a) (tree_at store.now b) }
    ensures is { row_at store.now result ≡ table.row (tree_at store.now id) }
    ensures nodes { RowIn store.now result }
{
    match binder {
        Binder::Subtype => Row::SubType(a, b),
        Binder::Function => Row::FunType(a, b),
        Binder::Product(k) => type_row(store, id, k, a, b),
        Binder::Lambda => Row::Quantified(BinderWord::Lambda, a, b),
    }
}

#[tactic(auto, using(crate::proofs::StepLaws::forall_by_steps, crate::proofs::StepLaws::equality_by_steps))]
fn joined_row(store: &Store, id: Id, joint: Joint, a: Id, b: Id) -> Row
    requires node { IsNode store.now id }
    requires a { IsNode store.now a }
    requires b { IsNode store.now b }
    requires is { tree_at store.now id ≡ t.Join joint (tree_at store.now a) (tree_at store.now b) }
    ensures is { row_at store.now result ≡ table.row (tree_at store.now id) }
    ensures nodes { RowIn store.now result }
{
    match joint {
        Joint::Apply => Row::Apply(a, argument_count(store, b), b),
        Joint::Tuple(k) => tuple_row(store, id, k, a, b),
        Joint::Equal => equality_row(store, id, a, b),
    }
}

/// The row of a tree.
#[tactic(auto, using(crate::proofs::StepLaws::if_by_steps))]
pub(crate) fn row_of(store: &Store, id: Id) -> Row
    requires { IsNode store.now id }
    ensures is { row_at store.now result ≡ table.row (tree_at store.now id) }
    ensures nodes { RowIn store.now result }
{
    match store.view(id).shape() {
        Shape::Leaf(plain) => match plain {
            Plain::BoolType => Row::Boolean,
            Plain::Yes => Row::Truth(true),
            Plain::No => Row::Truth(false),
        },
        Shape::Index(n) => Row::Variable(n),
        Shape::Name(sort, r) => Row::Named(sort, r),
        Shape::Bind(binder, a, b) => bound_row(store, id, binder, a, b),
        Shape::Join(joint, a, b) => joined_row(store, id, joint, a, b),
        Shape::Project(projection, a) => match projection {
            Projection::First(k) => first_row(store, k, a),
            Projection::Second(k) => second_row(store, k, a),
        },
        Shape::Choose(c, a, b) => if_row(store, c, a, b),
    }
}
