//! Tuples, chains of projections, applications to several arguments, and tuple types.

use crate::fault::TreeFault;
use crate::tests::{is_term_text, is_type_text};
use crate::trees::Trees;
use pvs_terms::Node;
use std::process::Abort;
use std::test::Fail;

fn tuples(rt: &impl Abort, trees: &mut Trees) -> Result<(), TreeFault> {
    let p = trees.constant()?;
    let pair = trees.term(Node::Tup(2, p, p))?;
    let triple = trees.term(Node::Tup(3, p, pair))?;
    let nested = trees.term(Node::Tup(2, p, pair))?;
    let tagged = trees.term(Node::Tup(3, p, p))?;
    let applied = trees.term(Node::App(p, triple))?;
    let to_one = trees.term(Node::App(p, tagged))?;
    assert!(rt; is_term_text(trees, triple, b"(p, p, p)")?);
    assert!(rt; is_term_text(trees, nested, b"(p, (p, p))")?);
    assert!(rt; is_term_text(trees, tagged, b"(3; p, p)")?);
    assert!(rt; is_term_text(trees, applied, b"p(p, p, p)")?);
    assert!(rt; is_term_text(trees, to_one, b"p((3; p, p))")?);
    Ok(())
}

fn projections(rt: &impl Abort, trees: &mut Trees) -> Result<(), TreeFault> {
    let p = trees.constant()?;
    let rest = trees.term(Node::Snd(3, p))?;
    let first = trees.term(Node::Fst(3, p))?;
    let middle = trees.term(Node::Fst(2, rest))?;
    let last = trees.term(Node::Snd(2, rest))?;
    let part_of_last = trees.term(Node::Fst(2, last))?;
    let equal = trees.term(Node::Eq(p, p))?;
    let of_operator = trees.term(Node::Fst(2, equal))?;
    assert!(rt; is_term_text(trees, rest, b"p`rest")?);
    assert!(rt; is_term_text(trees, first, b"p`1")?);
    assert!(rt; is_term_text(trees, middle, b"p`2")?);
    assert!(rt; is_term_text(trees, last, b"p`3")?);
    assert!(rt; is_term_text(trees, part_of_last, b"p`3`1")?);
    assert!(rt; is_term_text(trees, of_operator, b"(p = p)`1")?);
    Ok(())
}

fn tuple_types(rt: &impl Abort, trees: &mut Trees) -> Result<(), TreeFault> {
    let ty = trees.formal_type()?;
    let x = trees.term(Node::Var(0))?;
    let outer = trees.term(Node::Var(2))?;
    let equal = trees.term(Node::Eq(x, outer))?;
    let equals = trees.ty(Node::TSub(ty, equal))?;
    let pair = trees.ty(Node::TPair(2, ty, ty))?;
    let plain = trees.ty(Node::TPair(3, ty, pair))?;
    let inner = trees.ty(Node::TPair(2, ty, equals))?;
    let dependent = trees.ty(Node::TPair(3, ty, inner))?;
    let tagged = trees.ty(Node::TPair(3, ty, ty))?;
    assert!(rt; is_type_text(trees, plain, b"[T, T, T]")?);
    assert!(rt; is_type_text(trees, dependent, b"[v!1: T, T, {v!3: T | v!3 = v!1}]")?);
    assert!(rt; is_type_text(trees, tagged, b"[3; T, T]")?);
    Ok(())
}

#[test]
fn tuples_have_their_texts(rt: HostRuntime) -> Result<(), Fail> {
    let mut trees = Trees::new(rt.alloc())?;
    tuples(&rt, &mut trees)?;
    projections(&rt, &mut trees)?;
    tuple_types(&rt, &mut trees)?;
    Ok(())
}
