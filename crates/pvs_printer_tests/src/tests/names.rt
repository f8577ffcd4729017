//! Names of formals, entries and instances, and variables of a sequent.

use crate::fault::TreeFault;
use crate::tests::{is_term_text, is_type_text};
use crate::trees::Trees;
use pvs_terms::Node;
use std::process::Abort;
use std::test::Fail;

fn own_names(rt: &impl Abort, trees: &mut Trees) -> Result<(), TreeFault> {
    let ty = trees.formal_type()?;
    let p = trees.constant()?;
    let last = trees.term(Node::Var(0))?;
    let first = trees.term(Node::Var(1))?;
    let q = trees.plain_instance()?;
    assert!(rt; is_type_text(trees, ty, b"T")?);
    assert!(rt; is_term_text(trees, p, b"p")?);
    assert!(rt; is_term_text(trees, last, b"s!2")?);
    assert!(rt; is_term_text(trees, first, b"s!1")?);
    assert!(rt; is_term_text(trees, q, b"groups.p")?);
    Ok(())
}

/// Actuals under a binder count binders from 0 again.
fn instances(rt: &impl Abort, trees: &mut Trees) -> Result<(), TreeFault> {
    let ty = trees.formal_type()?;
    let x = trees.term(Node::Var(0))?;
    let identity = trees.term(Node::Lam(ty, x))?;
    let pair = trees.ty(Node::TPair(2, ty, ty))?;
    let p = trees.instance(pair, identity)?;
    let under = trees.term(Node::Lam(ty, p))?;
    assert!(rt; is_term_text(trees, p, b"groups[[T, T], LAMBDA (v!1: T): v!1].p")?);
    assert!(rt;
        is_term_text(
            trees,
            under,
            b"LAMBDA (v!1: T): groups[[T, T], LAMBDA (v!1: T): v!1].p"
        )?
    );
    Ok(())
}

#[test]
fn names_have_their_texts(rt: HostRuntime) -> Result<(), Fail> {
    let mut trees = Trees::new(rt.alloc())?;
    own_names(&rt, &mut trees)?;
    instances(&rt, &mut trees)?;
    Ok(())
}
