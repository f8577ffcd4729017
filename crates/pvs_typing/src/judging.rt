//! The types of terms, and what makes types well formed.

ghost use Rattle.std.specs.Prelude.{◌≡◌};
ghost use Rattle.pvs_terms.specs.Stored.{IsName, tree_at};
ghost use Rattle.pvs_subst.specs.Contexts.{context_at};
ghost use Rattle.pvs_sig.specs.Lookups.{IsOrdered};
ghost use Rattle.pvs_types.specs.Typing.{infer, check, well_formed, is_forall};
ghost use Rattle.pvs_typing.specs.State.{IsTypeOf, IsTermOf, IsContextOf};
ghost use Rattle.pvs_typing.specs.Judging.{JudgesTerm, JudgesType};

use crate::fault::TypeFault;
use crate::judged::Judged;
use crate::rows::forall_parts;
use crate::symbols::symbols_of;
use crate::theories::Theories;
use crate::typing::{check_of, formed_of, infer_of};
use pvs_subst::Context;
use pvs_terms::{Id, Name};

/// The type of a term in a context, with the conditions under which it has one, in order, and the
/// references that the term uses (CSL-97-2, terms of each kind). The hypotheses that stand where a
/// condition comes up are in its context.
///
/// Refused with the first fault, from left to right: Unknown for a variable that is not bound in the
/// context, NotFunction for the application of a term whose type is no function type, NotTuple and
/// NoSuchPart for a projection from a type that is no tuple type or has another number of components,
/// Mismatch where a term is not of a type that is asked for, and TooLarge exactly where a tree that a
/// rule needs passes a limit.
pub fn infer<T: Theories>(
    theories: &mut T,
    theory: Name,
    g: &Context,
    term: Id,
) -> Result<Judged, TypeFault>
    requires theory { IsName (T.state theories.old).stored theory }
    requires context { IsContextOf (T.state theories.old) theory g.now.items }
    requires term { IsTermOf (T.state theories.old) theory term }
    requires ordered { IsOrdered ((T.state theories.old).lookups theory) }
    ensures { JudgesTerm (T.state theories.old) (T.state theories.new) theory (λ s l. infer l (context_at s g.now.items) (tree_at s term)) result }
{
    let alloc = theories.store().allocator();
    let mut conditions = Vec::new(alloc);
    let ty = infer_of(theories, theory, g, term, &mut conditions)?;
    let uses = symbols_of(alloc, theories.store(), term)?;
    Ok(Judged {
        ty,
        conditions,
        uses,
    })
}

/// The conditions under which a term is of a type, in order, and the references that the term uses. An
/// IF is checked in both of its branches, and any other term has its own type coerced to this one. The
/// type answered is the one given.
///
/// Refused as `infer` and `coerce` are.
pub fn check<T: Theories>(
    theories: &mut T,
    theory: Name,
    g: &Context,
    term: Id,
    ty: Id,
) -> Result<Judged, TypeFault>
    requires theory { IsName (T.state theories.old).stored theory }
    requires context { IsContextOf (T.state theories.old) theory g.now.items }
    requires term { IsTermOf (T.state theories.old) theory term }
    requires ty { IsTypeOf (T.state theories.old) theory ty }
    requires ordered { IsOrdered ((T.state theories.old).lookups theory) }
    ensures { JudgesType (T.state theories.old) (T.state theories.new) theory ty (λ s l. check l (context_at s g.now.items) (tree_at s term) (tree_at s ty)) result }
{
    let alloc = theories.store().allocator();
    let mut conditions = Vec::new(alloc);
    check_of(theories, theory, g, term, ty, &mut conditions)?;
    let uses = symbols_of(alloc, theories.store(), term)?;
    Ok(Judged {
        ty,
        conditions,
        uses,
    })
}

/// The conditions under which a type is well formed, in order, and the references that it uses: those
/// of the predicates of its subtypes, which are checked to be truth values. The type answered is the
/// one given.
///
/// Refused as `infer` and `coerce` are.
pub fn well_formed<T: Theories>(
    theories: &mut T,
    theory: Name,
    g: &Context,
    ty: Id,
) -> Result<Judged, TypeFault>
    requires theory { IsName (T.state theories.old).stored theory }
    requires context { IsContextOf (T.state theories.old) theory g.now.items }
    requires ty { IsTypeOf (T.state theories.old) theory ty }
    requires ordered { IsOrdered ((T.state theories.old).lookups theory) }
    ensures { JudgesType (T.state theories.old) (T.state theories.new) theory ty (λ s l. well_formed l (context_at s g.now.items) (tree_at s ty)) result }
{
    let alloc = theories.store().allocator();
    let mut conditions = Vec::new(alloc);
    formed_of(theories, theory, g, ty, &mut conditions)?;
    let uses = symbols_of(alloc, theories.store(), ty)?;
    Ok(Judged {
        ty,
        conditions,
        uses,
    })
}

/// Whether these are the two sides of a FORALL: a predicate on a type, and TRUE on the same type. This
/// takes no memory.
pub fn is_forall<T: Theories>(theories: &T, _theory: Name, left: Id, right: Id) -> bool
    requires left { IsTermOf (T.state theories.now) _theory left }
    requires right { IsTermOf (T.state theories.now) _theory right }
    ensures { result ≡ is_forall (tree_at (T.state theories.now).stored left) (tree_at (T.state theories.now).stored right) }
{
    match forall_parts(theories, _theory, left, right) {
        Some(_) => true,
        None => false,
    }
}
