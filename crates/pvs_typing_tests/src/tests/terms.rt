//! The types of terms, what it takes to be of a type, and well-formed types.

use super::{check_owes, term_owes, type_owes};
use crate::trees::Trees;
use pvs_terms::Node;
use pvs_typing::TypeFault;
use std::process::Abort;

/// An IF of the variable, itself a truth value, and TRUE: of the first type above both.
fn joins_above(rt: &impl Abort, trees: &mut Trees) -> Result<(), TypeFault> {
    let defined = trees.defined_type()?;
    let truth = trees.ty(Node::TBool)?;
    let x = trees.term(Node::Var(0))?;
    let yes = trees.term(Node::True)?;
    let choice = trees.term(Node::If(x, x, yes))?;
    let holds = term_owes(trees, defined, choice, truth, &[]);
    assert!(rt; holds);
    Ok(())
}

#[test]
fn branches_join_at_a_type_above_both(rt: HostRuntime) -> Result<(), TypeFault> {
    let mut trees = Trees::new(rt.alloc())?;
    joins_above(&rt, &mut trees)
}

/// An IF of functions to the defined type and to the truth values: of the most general form of the
/// first.
fn joins_wider(rt: &impl Abort, trees: &mut Trees) -> Result<(), TypeFault> {
    let defined = trees.defined_type()?;
    let truth = trees.ty(Node::TBool)?;
    let wide = trees.ty(Node::TFun(truth, truth))?;
    let x = trees.term(Node::Var(0))?;
    let above = trees.term(Node::Var(1))?;
    let yes = trees.term(Node::True)?;
    let first = trees.term(Node::Lam(truth, above))?;
    let second = trees.term(Node::Lam(truth, yes))?;
    let choice = trees.term(Node::If(x, first, second))?;
    let holds = term_owes(trees, defined, choice, wide, &[]);
    assert!(rt; holds);
    Ok(())
}

#[test]
fn branches_join_at_the_most_general_form(rt: HostRuntime) -> Result<(), TypeFault> {
    let mut trees = Trees::new(rt.alloc())?;
    joins_wider(&rt, &mut trees)
}

/// FORALL over the defined type, and the components of a tuple.
fn quantifies(rt: &impl Abort, trees: &mut Trees) -> Result<(), TypeFault> {
    let defined = trees.defined_type()?;
    let truth = trees.ty(Node::TBool)?;
    let x = trees.term(Node::Var(0))?;
    let yes = trees.term(Node::True)?;
    let predicate = trees.term(Node::Lam(defined, x))?;
    let everywhere = trees.term(Node::Lam(defined, yes))?;
    let forall = trees.term(Node::Eq(predicate, everywhere))?;
    let pair = trees.term(Node::Tup(2, forall, x))?;
    let second = trees.term(Node::Snd(2, pair))?;
    let holds = term_owes(trees, defined, forall, truth, &[]);
    assert!(rt; holds);
    let holds = term_owes(trees, defined, second, defined, &[]);
    assert!(rt; holds);
    Ok(())
}

#[test]
fn a_forall_is_a_truth_value(rt: HostRuntime) -> Result<(), TypeFault> {
    let mut trees = Trees::new(rt.alloc())?;
    quantifies(&rt, &mut trees)
}

/// The same IF, checked against a subtype: each branch owes the predicate, the first one first.
fn checks_branches(rt: &impl Abort, trees: &mut Trees) -> Result<(), TypeFault> {
    let truth = trees.ty(Node::TBool)?;
    let x = trees.term(Node::Var(0))?;
    let yes = trees.term(Node::True)?;
    let no = trees.term(Node::False)?;
    let subtype = trees.ty(Node::TSub(truth, x))?;
    let choice = trees.term(Node::If(x, yes, no))?;
    let holds = check_owes(trees, truth, choice, subtype, &[yes, no]);
    assert!(rt; holds);
    let pair = trees.term(Node::Tup(2, choice, x))?;
    let pairs = trees.ty(Node::TPair(2, subtype, truth))?;
    let holds = check_owes(trees, truth, pair, pairs, &[choice]);
    assert!(rt; holds);
    Ok(())
}

#[test]
fn branches_are_checked_one_by_one(rt: HostRuntime) -> Result<(), TypeFault> {
    let mut trees = Trees::new(rt.alloc())?;
    checks_branches(&rt, &mut trees)
}

/// A function applied to an argument that owes the predicate of the domain, and a constant.
fn checks_arguments(rt: &impl Abort, trees: &mut Trees) -> Result<(), TypeFault> {
    let defined = trees.defined_type()?;
    let truth = trees.ty(Node::TBool)?;
    let x = trees.term(Node::Var(0))?;
    let identity = trees.term(Node::Lam(defined, x))?;
    let applied = trees.term(Node::App(identity, x))?;
    let holds = term_owes(trees, truth, applied, defined, &[x]);
    assert!(rt; holds);
    let constant = trees.constant(4)?;
    let applied = trees.term(Node::App(identity, constant))?;
    let holds = term_owes(trees, truth, applied, defined, &[]);
    assert!(rt; holds);
    Ok(())
}

#[test]
fn an_argument_owes_the_predicate_of_the_domain(rt: HostRuntime) -> Result<(), TypeFault> {
    let mut trees = Trees::new(rt.alloc())?;
    checks_arguments(&rt, &mut trees)
}

/// The second component of a pair whose type depends on the first one.
fn depends(rt: &impl Abort, trees: &mut Trees) -> Result<(), TypeFault> {
    let truth = trees.ty(Node::TBool)?;
    let x = trees.term(Node::Var(0))?;
    let above = trees.term(Node::Var(1))?;
    let equal = trees.term(Node::Eq(x, above))?;
    let others = trees.ty(Node::TSub(truth, equal))?;
    let pairs = trees.ty(Node::TPair(2, truth, others))?;
    let outer_first = trees.term(Node::Fst(2, above))?;
    let equal_first = trees.term(Node::Eq(x, outer_first))?;
    let wanted = trees.ty(Node::TSub(truth, equal_first))?;
    let second = trees.term(Node::Snd(2, x))?;
    let holds = term_owes(trees, pairs, second, wanted, &[]);
    assert!(rt; holds);
    Ok(())
}

#[test]
fn a_second_component_depends_on_the_first(rt: HostRuntime) -> Result<(), TypeFault> {
    let mut trees = Trees::new(rt.alloc())?;
    depends(&rt, &mut trees)
}

/// Functions to a subtype whose predicate applies a function on a subtype: of a predicate, the
/// conditions are those of its terms.
fn forms(rt: &impl Abort, trees: &mut Trees) -> Result<(), TypeFault> {
    let defined = trees.defined_type()?;
    let truth = trees.ty(Node::TBool)?;
    let x = trees.term(Node::Var(0))?;
    let identity = trees.term(Node::Lam(defined, x))?;
    let applied = trees.term(Node::App(identity, x))?;
    let subtype = trees.ty(Node::TSub(truth, applied))?;
    let functions = trees.ty(Node::TFun(defined, subtype))?;
    let holds = type_owes(trees, truth, functions, &[x]);
    assert!(rt; holds);
    Ok(())
}

#[test]
fn a_predicate_owes_what_its_terms_owe(rt: HostRuntime) -> Result<(), TypeFault> {
    let mut trees = Trees::new(rt.alloc())?;
    forms(&rt, &mut trees)
}
