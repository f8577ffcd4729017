//! The codes with which typing refuses.

use super::{coercion_is_refused, coercion_owes, term_is_refused, type_is_refused};
use crate::trees::Trees;
use pvs_base::Code;
use pvs_terms::{Id, Node};
use pvs_typing::TypeFault;
use std::process::Abort;

/// A variable that is not bound, in a part of a pair.
fn refuses_unbound(rt: &impl Abort, trees: &mut Trees) -> Result<(), TypeFault> {
    let truth = trees.ty(Node::TBool)?;
    let x = trees.term(Node::Var(0))?;
    let above = trees.term(Node::Var(1))?;
    let pair = trees.term(Node::Tup(2, x, above))?;
    let holds = term_is_refused(trees, truth, pair, Code::Unknown);
    assert!(rt; holds);
    Ok(())
}

#[test]
fn an_unbound_variable_is_unknown(rt: HostRuntime) -> Result<(), TypeFault> {
    let mut trees = Trees::new(rt.alloc())?;
    refuses_unbound(&rt, &mut trees)
}

/// The application of a truth value.
fn refuses_application(rt: &impl Abort, trees: &mut Trees) -> Result<(), TypeFault> {
    let defined = trees.defined_type()?;
    let x = trees.term(Node::Var(0))?;
    let applied = trees.term(Node::App(x, x))?;
    let holds = term_is_refused(trees, defined, applied, Code::NotFunction);
    assert!(rt; holds);
    Ok(())
}

#[test]
fn a_truth_value_is_no_function(rt: HostRuntime) -> Result<(), TypeFault> {
    let mut trees = Trees::new(rt.alloc())?;
    refuses_application(&rt, &mut trees)
}

/// A component of a truth value, and a component of a pair as if it were of a triple.
fn refuses_components(rt: &impl Abort, trees: &mut Trees) -> Result<(), TypeFault> {
    let defined = trees.defined_type()?;
    let x = trees.term(Node::Var(0))?;
    let pair = trees.term(Node::Tup(2, x, x))?;
    let first = trees.term(Node::Fst(2, x))?;
    let holds = term_is_refused(trees, defined, first, Code::NotTuple);
    assert!(rt; holds);
    let second = trees.term(Node::Snd(3, pair))?;
    let holds = term_is_refused(trees, defined, second, Code::NoSuchPart);
    assert!(rt; holds);
    Ok(())
}

#[test]
fn components_are_those_of_tuples(rt: HostRuntime) -> Result<(), TypeFault> {
    let mut trees = Trees::new(rt.alloc())?;
    refuses_components(&rt, &mut trees)
}

/// A pair in the place of a truth value: as an argument, as a condition and as a predicate.
fn refuses_other_types(rt: &impl Abort, trees: &mut Trees) -> Result<(), TypeFault> {
    let truth = trees.ty(Node::TBool)?;
    let x = trees.term(Node::Var(0))?;
    let pair = trees.term(Node::Tup(2, x, x))?;
    let identity = trees.term(Node::Lam(truth, x))?;
    let applied = trees.term(Node::App(identity, pair))?;
    let holds = term_is_refused(trees, truth, applied, Code::Mismatch);
    assert!(rt; holds);
    let choice = trees.term(Node::If(pair, x, x))?;
    let holds = term_is_refused(trees, truth, choice, Code::Mismatch);
    assert!(rt; holds);
    let subtype = trees.ty(Node::TSub(truth, pair))?;
    let holds = type_is_refused(trees, truth, subtype, Code::Mismatch);
    assert!(rt; holds);
    Ok(())
}

#[test]
fn a_pair_is_no_truth_value(rt: HostRuntime) -> Result<(), TypeFault> {
    let mut trees = Trees::new(rt.alloc())?;
    refuses_other_types(&rt, &mut trees)
}

/// A type of functions to functions, and so on, that is 1,000 deep, as deep as a tree may be.
fn deepest_type(trees: &mut Trees) -> Result<Id, TypeFault> {
    let truth = trees.ty(Node::TBool)?;
    let mut ty = truth;
    for _ in 1..1000 {
        ty = trees.ty(Node::TFun(truth, ty))?;
    }
    Ok(ty)
}

/// A first component of a first component, and so on, of variable 0, that is so deep.
fn deep_term(trees: &mut Trees, depth: u32) -> Result<Id, TypeFault> {
    let mut term = trees.term(Node::Var(0))?;
    for _ in 1..depth {
        term = trees.term(Node::Fst(2, term))?;
    }
    Ok(term)
}

/// An abstraction whose body is of the deepest type.
fn refuses_deep_abstraction(rt: &impl Abort, trees: &mut Trees) -> Result<(), TypeFault> {
    let truth = trees.ty(Node::TBool)?;
    let deepest = deepest_type(trees)?;
    let outer = trees.term(Node::Var(1))?;
    let constant = trees.term(Node::Lam(truth, outer))?;
    let holds = term_is_refused(trees, deepest, outer, Code::Unknown);
    assert!(rt; holds);
    let holds = term_is_refused(trees, deepest, constant, Code::TooLarge);
    assert!(rt; holds);
    Ok(())
}

#[test]
fn the_type_of_an_abstraction_is_too_large(rt: HostRuntime) -> Result<(), TypeFault> {
    let mut trees = Trees::new(rt.alloc())?;
    refuses_deep_abstraction(&rt, &mut trees)
}

/// A coercion of the deepest term between pairs, whose components are no truth values: the first
/// component is too large before that is seen.
fn refuses_deep_component(rt: &impl Abort, trees: &mut Trees) -> Result<(), TypeFault> {
    let truth = trees.ty(Node::TBool)?;
    let functions = trees.ty(Node::TFun(truth, truth))?;
    let from = trees.ty(Node::TPair(2, functions, truth))?;
    let to = trees.ty(Node::TPair(2, truth, truth))?;
    let deepest = deep_term(trees, 1000)?;
    let holds = coercion_is_refused(trees, deepest, from, to, Code::TooLarge);
    assert!(rt; holds);
    let x = trees.term(Node::Var(0))?;
    let holds = coercion_is_refused(trees, x, from, to, Code::Mismatch);
    assert!(rt; holds);
    Ok(())
}

#[test]
fn a_component_is_too_large(rt: HostRuntime) -> Result<(), TypeFault> {
    let mut trees = Trees::new(rt.alloc())?;
    refuses_deep_component(&rt, &mut trees)
}

/// A coercion of the deepest term between functions: the domains mismatch before it is applied, and it
/// is applied before the ranges mismatch.
fn refuses_deep_application(rt: &impl Abort, trees: &mut Trees) -> Result<(), TypeFault> {
    let truth = trees.ty(Node::TBool)?;
    let functions = trees.ty(Node::TFun(truth, truth))?;
    let to = trees.ty(Node::TFun(truth, functions))?;
    let other = trees.ty(Node::TFun(functions, truth))?;
    let deepest = deep_term(trees, 1000)?;
    let holds = coercion_is_refused(trees, deepest, functions, to, Code::TooLarge);
    assert!(rt; holds);
    let holds = coercion_is_refused(trees, deepest, functions, other, Code::Mismatch);
    assert!(rt; holds);
    Ok(())
}

#[test]
fn an_application_is_too_large(rt: HostRuntime) -> Result<(), TypeFault> {
    let mut trees = Trees::new(rt.alloc())?;
    refuses_deep_application(&rt, &mut trees)
}

/// A coercion to a subtype whose predicate is too large with the term substituted: the supertype
/// mismatches before.
fn refuses_deep_predicate(rt: &impl Abort, trees: &mut Trees) -> Result<(), TypeFault> {
    let truth = trees.ty(Node::TBool)?;
    let functions = trees.ty(Node::TFun(truth, truth))?;
    let predicate = deep_term(trees, 999)?;
    let x = trees.term(Node::Var(0))?;
    let deeper = deep_term(trees, 3)?;
    let to = trees.ty(Node::TSub(truth, predicate))?;
    let holds = coercion_is_refused(trees, deeper, truth, to, Code::TooLarge);
    assert!(rt; holds);
    let holds = coercion_is_refused(trees, deeper, functions, to, Code::Mismatch);
    assert!(rt; holds);
    let holds = coercion_owes(trees, x, truth, to, &[predicate]);
    assert!(rt; holds);
    Ok(())
}

#[test]
fn a_predicate_is_too_large(rt: HostRuntime) -> Result<(), TypeFault> {
    let mut trees = Trees::new(rt.alloc())?;
    refuses_deep_predicate(&rt, &mut trees)
}
