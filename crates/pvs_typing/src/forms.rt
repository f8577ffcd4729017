//! The forms of types.

ghost use Rattle.pvs_terms.specs.Stored.{IsName, tree_at};
ghost use Rattle.pvs_sig.specs.Lookups.{IsOrdered};
ghost use Rattle.pvs_types.specs.Forms.{head, up};
ghost use Rattle.pvs_typing.specs.Above.{next_above};
ghost use Rattle.pvs_typing.specs.Answers.{FindsOption, FindsType, FindsTypes};
ghost use Rattle.pvs_typing.specs.State.{IsTypeOf};

use crate::fault::TypeFault;
use crate::theories::Theories;
use pvs_subst::Context;
use pvs_terms::{Id, Name, Node};

/// The body of a defined name, or the supertype of a predicate subtype.
pub(crate) fn next_above<T: Theories>(
    theories: &mut T,
    theory: Name,
    ty: Id,
) -> Result<Option<Id>, TypeFault>
    requires theory { IsName (T.state theories.old).stored theory }
    requires ty { IsTypeOf (T.state theories.old) theory ty }
    ensures { FindsOption (T.state theories.old) (T.state theories.new) theory (λ s l. next_above l (tree_at s ty)) result }
{
    match theories.store().view(ty) {
        Node::TSub(a, _) => Ok(Some(a)),
        Node::TName(r) => {
            let body = theories.body_of(theory, r)?;
            Ok(body)
        }
        _ => Ok(None),
    }
}

/// The head of a type: neither a defined name nor a predicate subtype.
#[tactic(auto, using(crate::proofs::FormsOver::head_itself, crate::proofs::FormsOver::next_smaller, crate::proofs::GrowthLaws::keeps_none))]
pub(crate) fn head_of<T: Theories>(theories: &mut T, theory: Name, ty: Id) -> Result<Id, TypeFault>
    requires theory { IsName (T.state theories.old).stored theory }
    requires ty { IsTypeOf (T.state theories.old) theory ty }
    requires ordered { IsOrdered ((T.state theories.old).lookups theory) }
    ensures { FindsType (T.state theories.old) (T.state theories.new) theory (λ s l. head l (tree_at s ty)) result }
{
    let mut form = ty;
    loop {
        match next_above(theories, theory, form)? {
            None => return Ok(form),
            Some(above) => form = above,
        }
    }
}

/// The types above a type, itself first: the body of a defined name and the supertype of a predicate
/// subtype, as often as there is one.
#[tactic(auto, using(crate::proofs::FormsOver::next_smaller, crate::proofs::FormsOver::up_begins, crate::proofs::GrowthLaws::keeps_none))]
pub(crate) fn up_of<T: Theories>(
    theories: &mut T,
    theory: Name,
    ty: Id,
) -> Result<Vec<Id>, TypeFault>
    requires theory { IsName (T.state theories.old).stored theory }
    requires ty { IsTypeOf (T.state theories.old) theory ty }
    requires ordered { IsOrdered ((T.state theories.old).lookups theory) }
    ensures { FindsTypes (T.state theories.old) (T.state theories.new) theory (λ s l. up l (tree_at s ty)) result }
{
    let alloc = theories.store().allocator();
    let mut types = Vec::new(alloc);
    let mut form = ty;
    loop {
        types.push(form)?;
        match next_above(theories, theory, form)? {
            None => return Ok(types),
            Some(above) => form = above,
        }
    }
}

/// The head of a type: the body of a defined name and the supertype of a predicate subtype, as often as
/// there is one. It is neither a defined name nor a predicate subtype (CSL-97-2, subtypes).
///
/// Refused with TooLarge exactly where a body on the way, with the actuals in place of the formals,
/// passes a limit of trees.
pub fn head<T: Theories>(
    theories: &mut T,
    theory: Name,
    _context: &Context,
    ty: Id,
) -> Result<Id, TypeFault>
    requires theory { IsName (T.state theories.old).stored theory }
    requires ty { IsTypeOf (T.state theories.old) theory ty }
    requires ordered { IsOrdered ((T.state theories.old).lookups theory) }
    ensures { FindsType (T.state theories.old) (T.state theories.new) theory (λ s l. head l (tree_at s ty)) result }
{
    let found = head_of(theories, theory, ty)?;
    Ok(found)
}

/// The types above a type, itself first, up to its head.
///
/// Refused with TooLarge exactly where a body on the way passes a limit of trees.
pub fn up<T: Theories>(
    theories: &mut T,
    theory: Name,
    _context: &Context,
    ty: Id,
) -> Result<Vec<Id>, TypeFault>
    requires theory { IsName (T.state theories.old).stored theory }
    requires ty { IsTypeOf (T.state theories.old) theory ty }
    requires ordered { IsOrdered ((T.state theories.old).lookups theory) }
    ensures { FindsTypes (T.state theories.old) (T.state theories.new) theory (λ s l. up l (tree_at s ty)) result }
{
    let found = up_of(theories, theory, ty)?;
    Ok(found)
}
