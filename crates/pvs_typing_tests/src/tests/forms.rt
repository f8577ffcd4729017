//! The forms of types.

use crate::trees::Trees;
use pvs_subst::Assumed;
use pvs_terms::{Id, Node};
use pvs_typing::TypeFault;
use std::process::Abort;

fn is_list(types: &[Id], wanted: &[Id]) -> bool {
    if types.len() != wanted.len() {
        return false;
    }
    for (ty, other) in types.iter().zip(wanted) {
        if *ty != *other {
            return false;
        }
    }
    true
}

/// Whether these are the types above a type.
fn is_up(trees: &mut Trees, variable: Id, ty: Id, wanted: &[Id]) -> Result<bool, TypeFault> {
    let types = trees.up(Assumed::Bind(variable), ty)?;
    Ok(is_list(&types, wanted))
}

/// A subtype of the defined type, which is a subtype of the truth values.
fn widens_subtypes(rt: &impl Abort, trees: &mut Trees) -> Result<(), TypeFault> {
    let defined = trees.defined_type()?;
    let truth = trees.ty(Node::TBool)?;
    let x = trees.term(Node::Var(0))?;
    let body = trees.ty(Node::TSub(truth, x))?;
    let subtype = trees.ty(Node::TSub(defined, x))?;
    let found = trees.head(Assumed::Bind(truth), subtype)?;
    assert!(rt; found == truth);
    let holds = is_up(trees, truth, subtype, &[subtype, defined, body, truth])?;
    assert!(rt; holds);
    Ok(())
}

#[test]
fn a_head_is_no_subtype(rt: HostRuntime) -> Result<(), TypeFault> {
    let mut trees = Trees::new(rt.alloc())?;
    widens_subtypes(&rt, &mut trees)
}

/// The most general form keeps domains, and the first component where the second depends on it.
fn widens_most(rt: &impl Abort, trees: &mut Trees) -> Result<(), TypeFault> {
    let defined = trees.defined_type()?;
    let truth = trees.ty(Node::TBool)?;
    let functions = trees.ty(Node::TFun(defined, defined))?;
    let pairs = trees.ty(Node::TPair(2, defined, functions))?;
    let wide = trees.ty(Node::TFun(defined, truth))?;
    let wide_pairs = trees.ty(Node::TPair(2, truth, wide))?;
    let found = trees.most(Assumed::Bind(truth), pairs)?;
    assert!(rt; found == wide_pairs);
    let x = trees.term(Node::Var(0))?;
    let above = trees.term(Node::Var(1))?;
    let equal = trees.term(Node::Eq(x, above))?;
    let others = trees.ty(Node::TSub(truth, equal))?;
    let kept = trees.ty(Node::TFun(others, truth))?;
    let dependent = trees.ty(Node::TPair(2, defined, kept))?;
    let found = trees.most(Assumed::Bind(truth), dependent)?;
    assert!(rt; found == dependent);
    Ok(())
}

#[test]
fn the_most_general_form_keeps_domains(rt: HostRuntime) -> Result<(), TypeFault> {
    let mut trees = Trees::new(rt.alloc())?;
    widens_most(&rt, &mut trees)
}
