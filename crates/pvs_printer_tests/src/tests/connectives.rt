//! Connectives, quantifiers and operands: each shape that is tried before another.

use crate::fault::TreeFault;
use crate::tests::is_term_text;
use crate::trees::Trees;
use pvs_terms::{Id, Node};
use std::process::Abort;
use std::test::Fail;

fn not(trees: &mut Trees, a: Id) -> Result<Id, TreeFault> {
    let yes = trees.term(Node::True)?;
    let no = trees.term(Node::False)?;
    trees.term(Node::If(a, no, yes))
}

fn forall(trees: &mut Trees, body: Id) -> Result<Id, TreeFault> {
    let ty = trees.formal_type()?;
    let yes = trees.term(Node::True)?;
    let predicate = trees.term(Node::Lam(ty, body))?;
    let whole = trees.term(Node::Lam(ty, yes))?;
    trees.term(Node::Eq(predicate, whole))
}

fn quantifiers(rt: &impl Abort, trees: &mut Trees) -> Result<(), TreeFault> {
    let x = trees.term(Node::Var(0))?;
    let negated = not(trees, x)?;
    let all = forall(trees, x)?;
    let none = forall(trees, negated)?;
    let exists = not(trees, none)?;
    let not_all = not(trees, all)?;
    assert!(rt; is_term_text(trees, all, b"FORALL (v!1: T): v!1")?);
    assert!(rt; is_term_text(trees, none, b"FORALL (v!1: T): NOT v!1")?);
    assert!(rt; is_term_text(trees, exists, b"EXISTS (v!1: T): v!1")?);
    assert!(rt; is_term_text(trees, not_all, b"NOT (FORALL (v!1: T): v!1)")?);
    Ok(())
}

/// The shapes of IF are tried from left to right.
fn conditionals(rt: &impl Abort, trees: &mut Trees) -> Result<(), TreeFault> {
    let p = trees.constant()?;
    let yes = trees.term(Node::True)?;
    let no = trees.term(Node::False)?;
    let and = trees.term(Node::If(p, p, no))?;
    let and_true = trees.term(Node::If(p, yes, no))?;
    let or = trees.term(Node::If(p, yes, p))?;
    let or_true = trees.term(Node::If(p, yes, yes))?;
    let implies = trees.term(Node::If(p, p, yes))?;
    let other = trees.term(Node::If(p, p, p))?;
    assert!(rt; is_term_text(trees, and, b"p AND p")?);
    assert!(rt; is_term_text(trees, and_true, b"p AND TRUE")?);
    assert!(rt; is_term_text(trees, or, b"p OR p")?);
    assert!(rt; is_term_text(trees, or_true, b"p OR TRUE")?);
    assert!(rt; is_term_text(trees, implies, b"p IMPLIES p")?);
    assert!(rt; is_term_text(trees, other, b"IF p THEN p ELSE p ENDIF")?);
    Ok(())
}

/// Operators, NOT, quantifiers and abstractions stand in parentheses as operands.
fn operands(rt: &impl Abort, trees: &mut Trees) -> Result<(), TreeFault> {
    let p = trees.constant()?;
    let equal = trees.term(Node::Eq(p, p))?;
    let negated = not(trees, equal)?;
    let both = trees.term(Node::Eq(negated, equal))?;
    let all = forall(trees, both)?;
    let applied = trees.term(Node::App(all, negated))?;
    let tight = trees.term(Node::Eq(applied, p))?;
    assert!(rt; is_term_text(trees, negated, b"NOT (p = p)")?);
    assert!(rt; is_term_text(trees, both, b"(NOT (p = p)) = (p = p)")?);
    assert!(rt;
        is_term_text(
            trees,
            tight,
            b"(FORALL (v!1: T): (NOT (p = p)) = (p = p))(NOT (p = p)) = p"
        )?
    );
    Ok(())
}

#[test]
fn connectives_have_their_texts(rt: HostRuntime) -> Result<(), Fail> {
    let mut trees = Trees::new(rt.alloc())?;
    quantifiers(&rt, &mut trees)?;
    conditionals(&rt, &mut trees)?;
    operands(&rt, &mut trees)?;
    Ok(())
}
