//! Coercions, case by case.

use super::{coercion_is_refused, coercion_owes};
use crate::trees::Trees;
use pvs_base::Code;
use pvs_terms::Node;
use pvs_typing::TypeFault;
use std::process::Abort;

/// To a type above, nothing is owed; to the name of a type with a body, what is owed to the body; to a
/// name with none, nothing else is coerced.
fn coerces_to_names(rt: &impl Abort, trees: &mut Trees) -> Result<(), TypeFault> {
    let defined = trees.defined_type()?;
    let plain = trees.formal_type(1)?;
    let truth = trees.ty(Node::TBool)?;
    let x = trees.term(Node::Var(0))?;
    let holds = coercion_owes(trees, x, defined, truth, &[]);
    assert!(rt; holds);
    let holds = coercion_owes(trees, x, truth, defined, &[x]);
    assert!(rt; holds);
    let third = trees.own_type(2)?;
    let holds = coercion_owes(trees, x, truth, third, &[x]);
    assert!(rt; holds);
    let holds = coercion_is_refused(trees, x, truth, plain, Code::Mismatch);
    assert!(rt; holds);
    let holds = coercion_is_refused(trees, x, plain, truth, Code::Mismatch);
    assert!(rt; holds);
    Ok(())
}

#[test]
fn names_stand_for_their_bodies(rt: HostRuntime) -> Result<(), TypeFault> {
    let mut trees = Trees::new(rt.alloc())?;
    coerces_to_names(&rt, &mut trees)
}

/// To a subtype of a subtype: the predicate of the supertype is owed first.
fn coerces_to_subtypes(rt: &impl Abort, trees: &mut Trees) -> Result<(), TypeFault> {
    let truth = trees.ty(Node::TBool)?;
    let x = trees.term(Node::Var(0))?;
    let yes = trees.term(Node::True)?;
    let no = trees.term(Node::False)?;
    let equal = trees.term(Node::Eq(x, no))?;
    let outer = trees.ty(Node::TSub(truth, equal))?;
    let inner = trees.ty(Node::TSub(outer, x))?;
    let first = trees.term(Node::Eq(yes, no))?;
    let holds = coercion_owes(trees, yes, truth, inner, &[first, yes]);
    assert!(rt; holds);
    let holds = coercion_owes(trees, yes, outer, inner, &[yes]);
    assert!(rt; holds);
    Ok(())
}

#[test]
fn the_predicate_of_a_supertype_is_owed_first(rt: HostRuntime) -> Result<(), TypeFault> {
    let mut trees = Trees::new(rt.alloc())?;
    coerces_to_subtypes(&rt, &mut trees)
}

/// To pairs of subtypes, of which the second depends on the first component: for a pair that is given
/// by its components, and for a variable.
fn coerces_to_pairs(rt: &impl Abort, trees: &mut Trees) -> Result<(), TypeFault> {
    let truth = trees.ty(Node::TBool)?;
    let x = trees.term(Node::Var(0))?;
    let above = trees.term(Node::Var(1))?;
    let yes = trees.term(Node::True)?;
    let no = trees.term(Node::False)?;
    let equal = trees.term(Node::Eq(x, above))?;
    let true_values = trees.ty(Node::TSub(truth, x))?;
    let equals = trees.ty(Node::TSub(truth, equal))?;
    let pairs = trees.ty(Node::TPair(2, truth, truth))?;
    let dependent = trees.ty(Node::TPair(2, true_values, equals))?;
    let pair = trees.term(Node::Tup(2, yes, no))?;
    let compared = trees.term(Node::Eq(no, yes))?;
    let holds = coercion_owes(trees, pair, pairs, dependent, &[yes, compared]);
    assert!(rt; holds);
    let first = trees.term(Node::Fst(2, x))?;
    let second = trees.term(Node::Snd(2, x))?;
    let compared = trees.term(Node::Eq(second, first))?;
    let holds = coercion_owes(trees, x, pairs, dependent, &[first, compared]);
    assert!(rt; holds);
    Ok(())
}

#[test]
fn the_first_component_stands_in_the_type_of_the_second(rt: HostRuntime) -> Result<(), TypeFault> {
    let mut trees = Trees::new(rt.alloc())?;
    coerces_to_pairs(&rt, &mut trees)
}

/// To tuples of another number of components, and of what is no tuple.
fn refuses_other_tuples(rt: &impl Abort, trees: &mut Trees) -> Result<(), TypeFault> {
    let truth = trees.ty(Node::TBool)?;
    let x = trees.term(Node::Var(0))?;
    let pairs = trees.ty(Node::TPair(2, truth, truth))?;
    let triples = trees.ty(Node::TPair(3, truth, pairs))?;
    let others = trees.ty(Node::TPair(2, truth, pairs))?;
    let holds = coercion_is_refused(trees, x, triples, others, Code::Mismatch);
    assert!(rt; holds);
    let holds = coercion_is_refused(trees, x, truth, pairs, Code::Mismatch);
    assert!(rt; holds);
    let functions = trees.ty(Node::TFun(truth, truth))?;
    let holds = coercion_is_refused(trees, x, pairs, functions, Code::Mismatch);
    assert!(rt; holds);
    let holds = coercion_is_refused(trees, x, functions, truth, Code::Mismatch);
    assert!(rt; holds);
    Ok(())
}

#[test]
fn other_types_mismatch(rt: HostRuntime) -> Result<(), TypeFault> {
    let mut trees = Trees::new(rt.alloc())?;
    refuses_other_tuples(&rt, &mut trees)
}

/// To functions on the same domain: what is owed of the application to a variable, which is the body
/// of an abstraction on that domain.
fn coerces_ranges(rt: &impl Abort, trees: &mut Trees) -> Result<(), TypeFault> {
    let truth = trees.ty(Node::TBool)?;
    let x = trees.term(Node::Var(0))?;
    let above = trees.term(Node::Var(1))?;
    let yes = trees.term(Node::True)?;
    let true_values = trees.ty(Node::TSub(truth, x))?;
    let functions = trees.ty(Node::TFun(truth, truth))?;
    let to = trees.ty(Node::TFun(truth, true_values))?;
    let applied = trees.term(Node::App(above, x))?;
    let holds = coercion_owes(trees, x, functions, to, &[applied]);
    assert!(rt; holds);
    let constant = trees.term(Node::Lam(truth, yes))?;
    let holds = coercion_owes(trees, constant, functions, to, &[yes]);
    assert!(rt; holds);
    Ok(())
}

#[test]
fn a_function_owes_what_its_values_owe(rt: HostRuntime) -> Result<(), TypeFault> {
    let mut trees = Trees::new(rt.alloc())?;
    coerces_ranges(&rt, &mut trees)
}

/// To functions on another domain: a variable of the wide domain owes the predicate of the narrow one,
/// and then the application owes that of the range.
fn coerces_domains(rt: &impl Abort, trees: &mut Trees) -> Result<(), TypeFault> {
    let truth = trees.ty(Node::TBool)?;
    let x = trees.term(Node::Var(0))?;
    let above = trees.term(Node::Var(1))?;
    let true_values = trees.ty(Node::TSub(truth, x))?;
    let narrow = trees.ty(Node::TFun(true_values, truth))?;
    let wide = trees.ty(Node::TFun(truth, true_values))?;
    let applied = trees.term(Node::App(above, x))?;
    let holds = coercion_owes(trees, x, narrow, wide, &[x, applied]);
    assert!(rt; holds);
    Ok(())
}

#[test]
fn a_domain_is_coerced_before_the_range(rt: HostRuntime) -> Result<(), TypeFault> {
    let mut trees = Trees::new(rt.alloc())?;
    coerces_domains(&rt, &mut trees)
}
