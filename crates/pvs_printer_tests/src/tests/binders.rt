//! Variables under 0, 1 and 3 binders, and types that bind.

use crate::fault::TreeFault;
use crate::tests::{is_term_text, is_type_text};
use crate::trees::Trees;
use pvs_terms::Node;
use std::process::Abort;
use std::test::Fail;

fn variables(rt: &impl Abort, trees: &mut Trees) -> Result<(), TreeFault> {
    let ty = trees.formal_type()?;
    let near = trees.term(Node::Var(0))?;
    let far = trees.term(Node::Var(2))?;
    let free = trees.term(Node::Var(3))?;
    let alone = trees.term(Node::App(far, near))?;
    let one = trees.term(Node::Lam(ty, alone))?;
    let pair = trees.term(Node::Tup(2, near, free))?;
    let body = trees.term(Node::App(far, pair))?;
    let third = trees.term(Node::Lam(ty, body))?;
    let second = trees.term(Node::Lam(ty, third))?;
    let three = trees.term(Node::Lam(ty, second))?;
    assert!(rt; is_term_text(trees, near, b"s!2")?);
    assert!(rt; is_term_text(trees, one, b"LAMBDA (v!1: T): s!1(v!1)")?);
    assert!(rt;
        is_term_text(
            trees,
            three,
            b"LAMBDA (v!1: T): LAMBDA (v!2: T): LAMBDA (v!3: T): v!1(v!3, s!2)"
        )?
    );
    Ok(())
}

/// The type of a binder does not stand under it, and a variable that is not written counts.
fn types(rt: &impl Abort, trees: &mut Trees) -> Result<(), TreeFault> {
    let ty = trees.formal_type()?;
    let truth = trees.ty(Node::TBool)?;
    let x = trees.term(Node::Var(0))?;
    let outer = trees.term(Node::Var(1))?;
    let equal = trees.term(Node::Eq(x, outer))?;
    let subtype = trees.ty(Node::TSub(truth, x))?;
    let equals = trees.ty(Node::TSub(ty, equal))?;
    let plain = trees.ty(Node::TFun(ty, subtype))?;
    let dependent = trees.ty(Node::TFun(ty, equals))?;
    let restricted = trees.term(Node::Lam(subtype, x))?;
    assert!(rt; is_type_text(trees, subtype, b"{v!1: bool | v!1}")?);
    assert!(rt; is_type_text(trees, plain, b"[T -> {v!2: bool | v!2}]")?);
    assert!(rt; is_type_text(trees, dependent, b"[v!1: T -> {v!2: T | v!2 = v!1}]")?);
    assert!(rt; is_term_text(trees, restricted, b"LAMBDA (v!1: {v!1: bool | v!1}): v!1")?);
    Ok(())
}

#[test]
fn binders_have_their_texts(rt: HostRuntime) -> Result<(), Fail> {
    let mut trees = Trees::new(rt.alloc())?;
    variables(&rt, &mut trees)?;
    types(&rt, &mut trees)?;
    Ok(())
}
