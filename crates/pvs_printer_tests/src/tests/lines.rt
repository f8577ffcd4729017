//! The line of a condition, and the lines of a sequent.

use crate::fault::TreeFault;
use crate::trees::Trees;
use pvs_terms::Node;
use std::process::Abort;
use std::test::Fail;

fn lines(rt: &impl Abort, trees: &mut Trees) -> Result<(), TreeFault> {
    let p = trees.constant()?;
    let equal = trees.term(Node::Eq(p, p))?;
    let line = trees.condition_line(equal)?;
    let text = trees.sequent_lines(p, equal)?;
    assert!(rt; line.as_slice() == b"  p = p\n".as_slice());
    assert!(rt; text.as_slice() == b"-1: p\n|-\n1: p = p\n".as_slice());
    Ok(())
}

/// A part that was not made is refused.
fn parts(rt: &impl Abort, trees: &mut Trees) -> Result<(), TreeFault> {
    let truth = trees.ty(Node::TBool)?;
    let x = trees.term(Node::Var(0))?;
    assert!(rt; trees.term(Node::App(truth, x)) == Err(TreeFault::NotMade));
    assert!(rt; trees.instance(truth, x) == Err(TreeFault::NotMade));
    Ok(())
}

#[test]
fn lines_have_their_bytes(rt: HostRuntime) -> Result<(), Fail> {
    let mut trees = Trees::new(rt.alloc())?;
    lines(&rt, &mut trees)?;
    parts(&rt, &mut trees)?;
    Ok(())
}
