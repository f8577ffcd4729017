//! Trees that coercion goes on with.

ghost use Rattle.std.specs.Prelude.{◌≡◌, ◌≤◌, IfOk, IfErr};
ghost use Rattle.pvs_terms.specs.Tree.{Var, App};
ghost use Rattle.pvs_terms.specs.declared.shape.Sort.TheVariants.{OfType, OfTerm};
ghost use Rattle.pvs_terms.specs.Stored.{IsNode, IsName, tree_at};
ghost use Rattle.pvs_subst.specs.Replace.{put_in};
ghost use Rattle.pvs_types.specs.Forms.{is_among};
ghost use Rattle.pvs_types.specs.Coerce.{lift_one, application, first_part, second_part};
ghost use Rattle.pvs_typing.specs.Growth.{all_at};
ghost use Rattle.pvs_typing.specs.code.Tasks.{MakesBoth};
ghost use Rattle.pvs_typing.specs.Answers.{Gives, IsMemory, Makes};
ghost use Rattle.pvs_typing.specs.State.{IsTypeOf, IsTermOf, AreTypesOf, Grows};

use crate::fault::TypeFault;
use crate::nodes::{is_same, known_node};
use crate::theories::Theories;
use pvs_terms::{Id, Name, Node};

/// Whether a type is among these.
pub(crate) fn is_among<T: Theories>(theories: &T, theory: Name, ty: Id, types: &[Id]) -> bool
    requires ty { IsNode (T.state theories.now).stored ty }
    requires types { AreTypesOf (T.state theories.now) theory types.now }
    ensures { result ≡ is_among (tree_at (T.state theories.now).stored ty) (all_at (T.state theories.now).stored types.now) }
{
    for above in types {
        if is_same(theories, ty, *above) {
            return true;
        }
    }
    false
}

/// The first component of a tuple.
pub(crate) fn first_part<T: Theories>(
    theories: &mut T,
    theory: Name,
    components: u32,
    term: Id,
) -> Result<Id, TypeFault>
    requires theory { IsName (T.state theories.old).stored theory }
    requires term { IsTermOf (T.state theories.old) theory term }
    requires components { 2 ≤ components }
    ensures { Makes (T.state theories.old) (T.state theories.new) theory OfTerm (λ s. first_part components (tree_at s term)) result }
{
    match known_node(theories, theory, term) {
        Node::Tup(_, first, _) => Ok(first),
        _ => {
            let first = theories.make(Node::Fst(components, term))?;
            Ok(first)
        }
    }
}

/// The other components of a tuple.
pub(crate) fn second_part<T: Theories>(
    theories: &mut T,
    theory: Name,
    components: u32,
    term: Id,
) -> Result<Id, TypeFault>
    requires theory { IsName (T.state theories.old).stored theory }
    requires term { IsTermOf (T.state theories.old) theory term }
    requires components { 2 ≤ components }
    ensures { Makes (T.state theories.old) (T.state theories.new) theory OfTerm (λ s. second_part components (tree_at s term)) result }
{
    match known_node(theories, theory, term) {
        Node::Tup(_, _, second) => Ok(second),
        _ => {
            let second = theories.make(Node::Snd(components, term))?;
            Ok(second)
        }
    }
}

/// A type under one more variable.
pub(crate) fn lift_type<T: Theories>(
    theories: &mut T,
    _theory: Name,
    id: Id,
) -> Result<Id, TypeFault>
    requires theory { IsName (T.state theories.old).stored _theory }
    requires id { IsTypeOf (T.state theories.old) _theory id }
    ensures { Makes (T.state theories.old) (T.state theories.new) _theory OfType (λ s. lift_one (tree_at s id)) result }
{
    let lifted = theories.lift(id, 1, 0)?;
    Ok(lifted)
}

/// Two types under one more variable.
pub(crate) fn lift_both<T: Theories>(
    theories: &mut T,
    theory: Name,
    first: Id,
    second: Id,
) -> Result<(Id, Id), TypeFault>
    requires theory { IsName (T.state theories.old).stored theory }
    requires first { IsTypeOf (T.state theories.old) theory first }
    requires second { IsTypeOf (T.state theories.old) theory second }
    ensures { MakesBoth (T.state theories.old) (T.state theories.new) theory (λ s. lift_one (tree_at s first)) (λ s. lift_one (tree_at s second)) result }
{
    let lifted_first = lift_type(theories, theory, first)?;
    let lifted_second = lift_type(theories, theory, second)?;
    Ok((lifted_first, lifted_second))
}

/// The variable of a new binder.
pub(crate) fn new_variable<T: Theories>(theories: &mut T, _theory: Name) -> Result<Id, TypeFault>
    requires theory { IsName (T.state theories.old).stored _theory }
    ensures ok { IfOk result (Gives (T.state theories.new).stored ((T.state theories.new).declares _theory) OfTerm (Var 0)) }
    ensures refused { IfErr result IsMemory }
    ensures kept { Grows (T.state theories.old) (T.state theories.new) _theory }
{
    let made = theories.make(Node::Var(0))?;
    Ok(made)
}

/// A type with a term substituted for its index 0.
pub(crate) fn substitute<T: Theories>(
    theories: &mut T,
    _theory: Name,
    body: Id,
    arg: Id,
) -> Result<Id, TypeFault>
    requires theory { IsName (T.state theories.old).stored _theory }
    requires body { IsTypeOf (T.state theories.old) _theory body }
    requires arg { IsTermOf (T.state theories.old) _theory arg }
    ensures { Makes (T.state theories.old) (T.state theories.new) _theory OfType (λ s. put_in (tree_at s body) (tree_at s arg)) result }
{
    let made = theories.put_in(body, arg)?;
    Ok(made)
}

/// Two types with a term substituted for their index 0.
pub(crate) fn substitute_both<T: Theories>(
    theories: &mut T,
    theory: Name,
    first: Id,
    second: Id,
    arg: Id,
) -> Result<(Id, Id), TypeFault>
    requires theory { IsName (T.state theories.old).stored theory }
    requires first { IsTypeOf (T.state theories.old) theory first }
    requires second { IsTypeOf (T.state theories.old) theory second }
    requires arg { IsTermOf (T.state theories.old) theory arg }
    ensures { MakesBoth (T.state theories.old) (T.state theories.new) theory (λ s. put_in (tree_at s first) (tree_at s arg)) (λ s. put_in (tree_at s second) (tree_at s arg)) result }
{
    let first_made = substitute(theories, theory, first, arg)?;
    let second_made = substitute(theories, theory, second, arg)?;
    Ok((first_made, second_made))
}

/// A lifted term, applied to a new variable.
fn apply_to_variable<T: Theories>(
    theories: &mut T,
    _theory: Name,
    term: Id,
) -> Result<Id, TypeFault>
    requires theory { IsName (T.state theories.old).stored _theory }
    requires term { IsTermOf (T.state theories.old) _theory term }
    ensures { Makes (T.state theories.old) (T.state theories.new) _theory OfTerm (λ s. App (lift_one (tree_at s term)) (Var 0)) result }
{
    let function = theories.lift(term, 1, 0)?;
    let variable = theories.make(Node::Var(0))?;
    let applied = theories.make(Node::App(function, variable))?;
    Ok(applied)
}

/// The application of a function to a new variable of the domain: the body of an abstraction over this
/// domain, or the lifted function, applied to the variable.
pub(crate) fn application<T: Theories>(
    theories: &mut T,
    theory: Name,
    domain: Id,
    term: Id,
) -> Result<Id, TypeFault>
    requires theory { IsName (T.state theories.old).stored theory }
    requires domain { IsTypeOf (T.state theories.old) theory domain }
    requires term { IsTermOf (T.state theories.old) theory term }
    ensures { Makes (T.state theories.old) (T.state theories.new) theory OfTerm (λ s. application (tree_at s domain) (tree_at s term)) result }
{
    if let Node::Lam(a, body) = known_node(theories, theory, term) {
        if is_same(theories, a, domain) {
            return Ok(body);
        }
    }
    let applied = apply_to_variable(theories, theory, term)?;
    Ok(applied)
}
