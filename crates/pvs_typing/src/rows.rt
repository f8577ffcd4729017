//! The steps of the rows of typing that do not go into a part.

ghost use Rattle.std.specs.Prelude.{true, length, ◌≡◌, ◌∷◌, [], ◌<◌, ◌≤◌, IfSome, IfNone, false};
ghost use Rattle.pvs_terms.specs.declared.shape.Sort.TheVariants.{OfType, OfTerm};
ghost use Rattle.pvs_terms.specs.Tree.{TBool, TFun, TPair, Lam, If, Fst, IsWithinLimits};
ghost use Rattle.pvs_terms.specs.Stored.{HasParts, IsName, IsNode, IsRef, node_tree, ref_at, tree_at};
ghost use Rattle.pvs_subst.specs.Contexts.{context_at};
ghost use Rattle.pvs_sig.specs.Lookups.{IsOrdered};
ghost use Rattle.pvs_types.specs.Coerce.{coerce, lift_one};
ghost use Rattle.pvs_types.specs.Forms.{first_among};
ghost use Rattle.pvs_types.specs.Outcome.{pure};
ghost use Rattle.pvs_types.specs.Typing.{variable_infer, constant_infer, negation, is_forall};
ghost use Rattle.pvs_typing.specs.Answers.{IsOptionOf, Makes, tree_option};
ghost use Rattle.pvs_typing.specs.Growth.{EachName, all_at};
ghost use Rattle.pvs_typing.specs.Judging.{Checks, Infers, IsGiven};
ghost use Rattle.pvs_typing.specs.Nodes.{HasKnownParts};
ghost use Rattle.pvs_terms.specs.code.Shapes.{shape_of};
ghost use Rattle.pvs_typing.specs.code.Rows.{FindsCommon, FindsParts, binder_at, common_above, equal_at, equal_left, equal_sides, first_type, function_at, is_true_on, is_truth, joined, second_component, second_type, truth_tree, tuple_at, widened, widened_other, widened_to};
ghost use Rattle.pvs_typing.specs.State.{IsTypeOf, IsTermOf, AreTypesOf, IsContextOf};

use crate::coercion::coerce_of;
use crate::contexts::enter_context;
use crate::fault::TypeFault;
use crate::forms::{head_of, up_of};
use crate::general::most_of;
use crate::nodes::{is_same, known_node};
use crate::parts::{is_among, lift_type, substitute};
use crate::theories::Theories;
use pvs_base::Code;
use pvs_subst::{Assumed, Condition, Context};
use pvs_terms::{Id, Name, Node, RefId};

/// The type of truth values.
pub(crate) fn truth_type<T: Theories>(theories: &mut T, theory: Name) -> Result<Id, TypeFault>
    requires theory { IsName (T.state theories.old).stored theory }
    ensures { Infers (T.state theories.old) (T.state theories.new) theory [] [] (λ _ _. pure TBool) result }
{
    let made = theories.make(Node::TBool)?;
    Ok(made)
}

/// The type of the binder of this index, the innermost first, as it stands there.
fn binder_at(g: &Context, index: u32) -> Option<Id>
    ensures { result ≡ binder_at g.now.items index }
{
    let mut left = index;
    for item in g.items.as_slice() {
        if let Assumed::Bind(ty) = *item {
            if left == 0 {
                return Some(ty);
            }
            left -= 1;
        }
    }
    None
}

/// The type of a variable where it is used: lifted over itself and the variables that are bound after it.
pub(crate) fn variable_type<T: Theories>(
    theories: &mut T,
    theory: Name,
    g: &Context,
    index: u32,
) -> Result<Id, TypeFault>
    requires theory { IsName (T.state theories.old).stored theory }
    requires context { IsContextOf (T.state theories.old) theory g.now.items }
    requires index { index ≤ 1000000 }
    ensures { Infers (T.state theories.old) (T.state theories.new) theory [] [] (λ s _. variable_infer index (context_at s g.now.items)) result }
{
    match binder_at(g, index) {
        None => Err(TypeFault::Refused(Code::Unknown)),
        Some(ty) => {
            let lifted = theories.lift(ty, index + 1, 0)?;
            Ok(lifted)
        }
    }
}

/// The type of a constant.
pub(crate) fn constant_type<T: Theories>(
    theories: &mut T,
    theory: Name,
    r: RefId,
) -> Result<Id, TypeFault>
    requires theory { IsName (T.state theories.old).stored theory }
    requires reference { IsRef (T.state theories.old).stored r }
    requires declared { (T.state theories.old).declares theory OfTerm (ref_at (T.state theories.old).stored r) }
    ensures { Infers (T.state theories.old) (T.state theories.new) theory [] [] (λ s l. constant_infer l (ref_at s r) []) result }
{
    let ty = theories.type_of(theory, r)?;
    Ok(ty)
}

/// The type of a function.
pub(crate) fn function_type<T: Theories>(
    theories: &mut T,
    theory: Name,
    domain: Id,
    range: Id,
) -> Result<Id, TypeFault>
    requires theory { IsName (T.state theories.old).stored theory }
    requires domain { IsTypeOf (T.state theories.old) theory domain }
    requires range { IsTypeOf (T.state theories.old) theory range }
    ensures { Makes (T.state theories.old) (T.state theories.new) theory OfType (λ s. TFun (tree_at s domain) (tree_at s range)) result }
{
    let made = theories.make(Node::TFun(domain, range))?;
    Ok(made)
}

/// A tuple type.
pub(crate) fn pair_type<T: Theories>(
    theories: &mut T,
    theory: Name,
    components: u32,
    first: Id,
    second: Id,
) -> Result<Id, TypeFault>
    requires theory { IsName (T.state theories.old).stored theory }
    requires tag { 2 ≤ components }
    requires first { IsTypeOf (T.state theories.old) theory first }
    requires second { IsTypeOf (T.state theories.old) theory second }
    ensures { Makes (T.state theories.old) (T.state theories.new) theory OfType (λ s. TPair components (tree_at s first) (tree_at s second)) result }
{
    let made = theories.make(Node::TPair(components, first, second))?;
    Ok(made)
}

/// The type of a tuple, whose other components do not depend on the first.
pub(crate) fn tuple_type<T: Theories>(
    theories: &mut T,
    theory: Name,
    components: u32,
    first: Id,
    second: Id,
) -> Result<Id, TypeFault>
    requires theory { IsName (T.state theories.old).stored theory }
    requires tag { 2 ≤ components }
    requires first { IsTypeOf (T.state theories.old) theory first }
    requires second { IsTypeOf (T.state theories.old) theory second }
    ensures { Makes (T.state theories.old) (T.state theories.new) theory OfType (λ s. TPair components (tree_at s first) (lift_one (tree_at s second))) result }
{
    let lifted = lift_type(theories, theory, second)?;
    pair_type(theories, theory, components, first, lifted)
}

/// TRUE or FALSE.
pub(crate) fn truth_value<T: Theories>(
    theories: &mut T,
    theory: Name,
    truth: bool,
) -> Result<Id, TypeFault>
    requires theory { IsName (T.state theories.old).stored theory }
    ensures { Makes (T.state theories.old) (T.state theories.new) theory OfTerm (λ _. truth_tree truth) result }
{
    let node = if truth { Node::True } else { Node::False };
    let made = theories.make(node)?;
    Ok(made)
}

/// An IF of these parts.
pub(crate) fn choice<T: Theories>(
    theories: &mut T,
    theory: Name,
    condition: Id,
    first: Id,
    second: Id,
) -> Result<Id, TypeFault>
    requires theory { IsName (T.state theories.old).stored theory }
    requires condition { IsTermOf (T.state theories.old) theory condition }
    requires first { IsTermOf (T.state theories.old) theory first }
    requires second { IsTermOf (T.state theories.old) theory second }
    ensures { Makes (T.state theories.old) (T.state theories.new) theory OfTerm (λ s. If (tree_at s condition) (tree_at s first) (tree_at s second)) result }
{
    let made = theories.make(Node::If(condition, first, second))?;
    Ok(made)
}

/// The first component of a tuple.
pub(crate) fn first_component<T: Theories>(
    theories: &mut T,
    theory: Name,
    components: u32,
    tuple: Id,
) -> Result<Id, TypeFault>
    requires theory { IsName (T.state theories.old).stored theory }
    requires tag { 2 ≤ components }
    requires tuple { IsTermOf (T.state theories.old) theory tuple }
    ensures { Makes (T.state theories.old) (T.state theories.new) theory OfTerm (λ s. Fst components (tree_at s tuple)) result }
{
    let made = theories.make(Node::Fst(components, tuple))?;
    Ok(made)
}

/// The negation of a formula.
pub(crate) fn negated<T: Theories>(
    theories: &mut T,
    theory: Name,
    formula: Id,
) -> Result<Id, TypeFault>
    requires theory { IsName (T.state theories.old).stored theory }
    requires formula { IsTermOf (T.state theories.old) theory formula }
    ensures { Makes (T.state theories.old) (T.state theories.new) theory OfTerm (λ s. negation (tree_at s formula)) result }
{
    let no = truth_value(theories, theory, false)?;
    let yes = truth_value(theories, theory, true)?;
    choice(theories, theory, formula, no, yes)
}

/// The domain and the range of a type that is a function type, whatever names and subtypes stand before it.
pub(crate) fn function_parts<T: Theories>(
    theories: &mut T,
    theory: Name,
    ty: Id,
) -> Result<(Id, Id), TypeFault>
    requires theory { IsName (T.state theories.old).stored theory }
    requires ty { IsTypeOf (T.state theories.old) theory ty }
    requires ordered { IsOrdered ((T.state theories.old).lookups theory) }
    ensures { FindsParts (T.state theories.old) (T.state theories.new) theory (λ s l. function_at l (tree_at s ty)) result }
{
    let form = head_of(theories, theory, ty)?;
    match theories.store().view(form) {
        Node::TFun(domain, range) => Ok((domain, range)),
        _ => Err(TypeFault::Refused(Code::NotFunction)),
    }
}

/// The components of a type that is a tuple type of so many components.
pub(crate) fn tuple_parts<T: Theories>(
    theories: &mut T,
    theory: Name,
    components: u32,
    ty: Id,
) -> Result<(Id, Id), TypeFault>
    requires theory { IsName (T.state theories.old).stored theory }
    requires ty { IsTypeOf (T.state theories.old) theory ty }
    requires ordered { IsOrdered ((T.state theories.old).lookups theory) }
    ensures { FindsParts (T.state theories.old) (T.state theories.new) theory (λ s l. tuple_at l components (tree_at s ty)) result }
{
    let form = head_of(theories, theory, ty)?;
    match theories.store().view(form) {
        Node::TPair(count, first, second) => {
            if count == components {
                Ok((first, second))
            } else {
                Err(TypeFault::Refused(Code::NoSuchPart))
            }
        }
        _ => Err(TypeFault::Refused(Code::NotTuple)),
    }
}

/// The type of the first component of a tuple of this type.
pub(crate) fn first_type<T: Theories>(
    theories: &mut T,
    theory: Name,
    components: u32,
    ty: Id,
) -> Result<Id, TypeFault>
    requires theory { IsName (T.state theories.old).stored theory }
    requires ty { IsTypeOf (T.state theories.old) theory ty }
    requires ordered { IsOrdered ((T.state theories.old).lookups theory) }
    ensures { Infers (T.state theories.old) (T.state theories.new) theory [] [] (λ s l. first_type l components (tree_at s ty)) result }
{
    let parts = tuple_parts(theories, theory, components, ty)?;
    Ok(parts.0)
}

/// The type of the other components, with the first one in the place of the variable.
fn second_component<T: Theories>(
    theories: &mut T,
    theory: Name,
    components: u32,
    tuple: Id,
    second: Id,
) -> Result<Id, TypeFault>
    requires theory { IsName (T.state theories.old).stored theory }
    requires tag { 2 ≤ components }
    requires tuple { IsTermOf (T.state theories.old) theory tuple }
    requires second { IsTypeOf (T.state theories.old) theory second }
    ensures { Infers (T.state theories.old) (T.state theories.new) theory [] [] (λ s _. second_component components (tree_at s tuple) (tree_at s second)) result }
{
    let first = first_component(theories, theory, components, tuple)?;
    substitute(theories, theory, second, first)
}

/// The type of the other components of a tuple of this type.
pub(crate) fn second_type<T: Theories>(
    theories: &mut T,
    theory: Name,
    components: u32,
    tuple: Id,
    ty: Id,
) -> Result<Id, TypeFault>
    requires theory { IsName (T.state theories.old).stored theory }
    requires tag { 2 ≤ components }
    requires tuple { IsTermOf (T.state theories.old) theory tuple }
    requires ty { IsTypeOf (T.state theories.old) theory ty }
    requires ordered { IsOrdered ((T.state theories.old).lookups theory) }
    ensures { Infers (T.state theories.old) (T.state theories.new) theory [] [] (λ s l. second_type l components (tree_at s tuple) (tree_at s ty)) result }
{
    let parts = tuple_parts(theories, theory, components, ty)?;
    second_component(theories, theory, components, tuple, parts.1)
}

/// The node of a known tree. Its parts are known, and older.
pub(crate) fn node_of<T: Theories>(theories: &T, theory: Name, id: Id) -> Node
    requires node { IsNode (T.state theories.now).stored id }
    requires names { EachName ((T.state theories.now).declares theory) (tree_at (T.state theories.now).stored id) }
    ensures tree { tree_at (T.state theories.now).stored id ≡ node_tree (T.state theories.now).stored result }
    ensures parts { HasKnownParts (T.state theories.now).stored ((T.state theories.now).declares theory) result }
    ensures below { HasParts id (length (T.state theories.now).stored.refs) (shape_of result) }
    ensures fits { IsWithinLimits (tree_at (T.state theories.now).stored id) }
{
    theories.store().view(id)
}

/// Whether a term is TRUE.
fn is_true<T: Theories>(theories: &T, term: Id) -> bool
    requires { IsNode (T.state theories.now).stored term }
    ensures { result ≡ is_truth (tree_at (T.state theories.now).stored term) }
{
    matches!(theories.store().view(term), Node::True)
}

/// Whether a term is the predicate on this type that is TRUE.
fn is_true_on<T: Theories>(theories: &T, theory: Name, domain: Id, term: Id) -> bool
    requires domain { IsTypeOf (T.state theories.now) theory domain }
    requires term { IsTermOf (T.state theories.now) theory term }
    ensures { result ≡ is_true_on (tree_at (T.state theories.now).stored domain) (tree_at (T.state theories.now).stored term) }
{
    match known_node(theories, theory, term) {
        Node::Lam(other, body) => is_true(theories, body) && is_same(theories, domain, other),
        _ => false,
    }
}

/// The domain and the predicate of a FORALL, where the two sides of an equation are those of one:
/// a predicate on a type, and TRUE on the same type.
pub(crate) fn forall_parts<T: Theories>(
    theories: &T,
    theory: Name,
    left: Id,
    right: Id,
) -> Option<(Id, Id)>
    requires left { IsTermOf (T.state theories.now) theory left }
    requires right { IsTermOf (T.state theories.now) theory right }
    ensures some { IfSome result (λ p. (tree_at (T.state theories.now).stored left) ≡ Lam (tree_at (T.state theories.now).stored p.0) (tree_at (T.state theories.now).stored p.1)) }
    ensures test { IfSome result (λ _. is_forall (tree_at (T.state theories.now).stored left) (tree_at (T.state theories.now).stored right) ≡ true) }
    ensures below { IfSome result (λ p. (p.0 < left) × (p.1 < left)) }
    ensures domain { IfSome result (λ p. IsTypeOf (T.state theories.now) theory p.0) }
    ensures predicate { IfSome result (λ p. IsTermOf (T.state theories.now) theory p.1) }
    ensures none { IfNone result (is_forall (tree_at (T.state theories.now).stored left) (tree_at (T.state theories.now).stored right) ≡ false) }
{
    match node_of(theories, theory, left) {
        Node::Lam(domain, predicate) => {
            if is_true_on(theories, theory, domain, right) {
                Some((domain, predicate))
            } else {
                None
            }
        }
        _ => None,
    }
}

/// An equation whose sides are of these types.
pub(crate) fn equal_sides<T: Theories>(
    theories: &mut T,
    theory: Name,
    g: &Context,
    left: Id,
    right: Id,
    left_type: Id,
    right_type: Id,
    conditions: &mut Vec<Condition>,
) -> Result<Id, TypeFault>
    requires given { IsGiven (T.state theories.old) theory g.now.items conditions.old.items }
    requires left { IsTermOf (T.state theories.old) theory left }
    requires right { IsTermOf (T.state theories.old) theory right }
    requires left_type { IsTypeOf (T.state theories.old) theory left_type }
    requires right_type { IsTypeOf (T.state theories.old) theory right_type }
    ensures { Infers (T.state theories.old) (T.state theories.new) theory conditions.old.items conditions.new.items (λ s l. equal_sides l (context_at s g.now.items) (tree_at s left) (tree_at s right) (tree_at s left_type) (tree_at s right_type)) result }
{
    let common = most_of(theories, theory, left_type)?;
    equal_at(
        theories, theory, g, left, right, left_type, right_type, common, conditions,
    )
}

/// An equation at this type: the right side is of it, and then the left one.
fn equal_at<T: Theories>(
    theories: &mut T,
    theory: Name,
    g: &Context,
    left: Id,
    right: Id,
    left_type: Id,
    right_type: Id,
    common: Id,
    conditions: &mut Vec<Condition>,
) -> Result<Id, TypeFault>
    requires given { IsGiven (T.state theories.old) theory g.now.items conditions.old.items }
    requires left { IsTermOf (T.state theories.old) theory left }
    requires right { IsTermOf (T.state theories.old) theory right }
    requires left_type { IsTypeOf (T.state theories.old) theory left_type }
    requires right_type { IsTypeOf (T.state theories.old) theory right_type }
    requires common { IsTypeOf (T.state theories.old) theory common }
    ensures { Infers (T.state theories.old) (T.state theories.new) theory conditions.old.items conditions.new.items (λ s l. equal_at l (context_at s g.now.items) (tree_at s left) (tree_at s right) (tree_at s left_type) (tree_at s right_type) (tree_at s common)) result }
{
    coerce_of(theories, theory, g, right, right_type, common, conditions)?;
    equal_left(theories, theory, g, left, left_type, common, conditions)
}

/// The left side of an equation at this type.
fn equal_left<T: Theories>(
    theories: &mut T,
    theory: Name,
    g: &Context,
    left: Id,
    left_type: Id,
    common: Id,
    conditions: &mut Vec<Condition>,
) -> Result<Id, TypeFault>
    requires given { IsGiven (T.state theories.old) theory g.now.items conditions.old.items }
    requires left { IsTermOf (T.state theories.old) theory left }
    requires left_type { IsTypeOf (T.state theories.old) theory left_type }
    requires common { IsTypeOf (T.state theories.old) theory common }
    ensures { Infers (T.state theories.old) (T.state theories.new) theory conditions.old.items conditions.new.items (λ s l. equal_left l (context_at s g.now.items) (tree_at s left) (tree_at s left_type) (tree_at s common)) result }
{
    coerce_of(theories, theory, g, left, left_type, common, conditions)?;
    truth_type(theories, theory)
}

/// The first of these types that is among those.
fn first_common<T: Theories>(theories: &T, theory: Name, types: &[Id], others: &[Id]) -> Option<Id>
    requires types { AreTypesOf (T.state theories.now) theory types.now }
    requires others { AreTypesOf (T.state theories.now) theory others.now }
    ensures known { IsOptionOf (T.state theories.now) theory result }
    ensures first { tree_option (T.state theories.now).stored result ≡ first_among (all_at (T.state theories.now).stored types.now) (all_at (T.state theories.now).stored others.now) }
{
    for ty in types {
        if is_among(theories, theory, *ty, others) {
            return Some(*ty);
        }
    }
    None
}

/// The first type above the one that is above the other too, if there is one.
fn common_above<T: Theories>(
    theories: &mut T,
    theory: Name,
    first: Id,
    second: Id,
) -> Result<Option<Id>, TypeFault>
    requires theory { IsName (T.state theories.old).stored theory }
    requires first { IsTypeOf (T.state theories.old) theory first }
    requires second { IsTypeOf (T.state theories.old) theory second }
    requires ordered { IsOrdered ((T.state theories.old).lookups theory) }
    ensures { FindsCommon (T.state theories.old) (T.state theories.new) theory (λ s l. common_above l (tree_at s first) (tree_at s second)) result }
{
    let above_first = up_of(theories, theory, first)?;
    let above_second = up_of(theories, theory, second)?;
    Ok(first_common(theories, theory, &above_first, &above_second))
}

/// Adds the conditions of a coercion inside a hypothesis.
fn coerce_under<T: Theories>(
    theories: &mut T,
    theory: Name,
    g: &Context,
    hypothesis: Id,
    term: Id,
    from: Id,
    to: Id,
    conditions: &mut Vec<Condition>,
) -> Result<(), TypeFault>
    requires given { IsGiven (T.state theories.old) theory g.now.items conditions.old.items }
    requires hypothesis { IsTermOf (T.state theories.old) theory hypothesis }
    requires term { IsTermOf (T.state theories.old) theory term }
    requires from { IsTypeOf (T.state theories.old) theory from }
    requires to { IsTypeOf (T.state theories.old) theory to }
    ensures { Checks (T.state theories.old) (T.state theories.new) theory conditions.old.items conditions.new.items (λ s l. coerce l (context_at s (Assumed.Hyp hypothesis ∷ g.now.items)) (tree_at s term) (tree_at s from) (tree_at s to)) result }
{
    let alloc = theories.store().allocator();
    let inner = enter_context(alloc, g, Assumed::Hyp(hypothesis))?;
    coerce_of(theories, theory, &inner, term, from, to, conditions)
}

/// A type of both branches of an IF: one above both types, or the most general form of the first.
pub(crate) fn joined<T: Theories>(
    theories: &mut T,
    theory: Name,
    g: &Context,
    condition: Id,
    negation: Id,
    first: Id,
    second: Id,
    first_type: Id,
    second_type: Id,
    conditions: &mut Vec<Condition>,
) -> Result<Id, TypeFault>
    requires given { IsGiven (T.state theories.old) theory g.now.items conditions.old.items }
    requires condition { IsTermOf (T.state theories.old) theory condition }
    requires negation { IsTermOf (T.state theories.old) theory negation }
    requires first { IsTermOf (T.state theories.old) theory first }
    requires second { IsTermOf (T.state theories.old) theory second }
    requires first_type { IsTypeOf (T.state theories.old) theory first_type }
    requires second_type { IsTypeOf (T.state theories.old) theory second_type }
    ensures { Infers (T.state theories.old) (T.state theories.new) theory conditions.old.items conditions.new.items (λ s l. joined l (context_at s (Assumed.Hyp condition ∷ g.now.items)) (context_at s (Assumed.Hyp negation ∷ g.now.items)) (tree_at s first) (tree_at s second) (tree_at s first_type) (tree_at s second_type)) result }
{
    let above = common_above(theories, theory, first_type, second_type)?;
    match above {
        Some(ty) => Ok(ty),
        None => widened(
            theories,
            theory,
            g,
            condition,
            negation,
            first,
            second,
            first_type,
            second_type,
            conditions,
        ),
    }
}

/// Both branches of an IF at the most general form of the type of the first.
fn widened<T: Theories>(
    theories: &mut T,
    theory: Name,
    g: &Context,
    condition: Id,
    negation: Id,
    first: Id,
    second: Id,
    first_type: Id,
    second_type: Id,
    conditions: &mut Vec<Condition>,
) -> Result<Id, TypeFault>
    requires given { IsGiven (T.state theories.old) theory g.now.items conditions.old.items }
    requires condition { IsTermOf (T.state theories.old) theory condition }
    requires negation { IsTermOf (T.state theories.old) theory negation }
    requires first { IsTermOf (T.state theories.old) theory first }
    requires second { IsTermOf (T.state theories.old) theory second }
    requires first_type { IsTypeOf (T.state theories.old) theory first_type }
    requires second_type { IsTypeOf (T.state theories.old) theory second_type }
    ensures { Infers (T.state theories.old) (T.state theories.new) theory conditions.old.items conditions.new.items (λ s l. widened l (context_at s (Assumed.Hyp condition ∷ g.now.items)) (context_at s (Assumed.Hyp negation ∷ g.now.items)) (tree_at s first) (tree_at s second) (tree_at s first_type) (tree_at s second_type)) result }
{
    let common = most_of(theories, theory, first_type)?;
    widened_to(
        theories,
        theory,
        g,
        condition,
        negation,
        first,
        second,
        first_type,
        second_type,
        common,
        conditions,
    )
}

/// Both branches of an IF at this type.
fn widened_to<T: Theories>(
    theories: &mut T,
    theory: Name,
    g: &Context,
    condition: Id,
    negation: Id,
    first: Id,
    second: Id,
    first_type: Id,
    second_type: Id,
    common: Id,
    conditions: &mut Vec<Condition>,
) -> Result<Id, TypeFault>
    requires given { IsGiven (T.state theories.old) theory g.now.items conditions.old.items }
    requires condition { IsTermOf (T.state theories.old) theory condition }
    requires negation { IsTermOf (T.state theories.old) theory negation }
    requires first { IsTermOf (T.state theories.old) theory first }
    requires second { IsTermOf (T.state theories.old) theory second }
    requires first_type { IsTypeOf (T.state theories.old) theory first_type }
    requires second_type { IsTypeOf (T.state theories.old) theory second_type }
    requires common { IsTypeOf (T.state theories.old) theory common }
    ensures { Infers (T.state theories.old) (T.state theories.new) theory conditions.old.items conditions.new.items (λ s l. widened_to l (context_at s (Assumed.Hyp condition ∷ g.now.items)) (context_at s (Assumed.Hyp negation ∷ g.now.items)) (tree_at s first) (tree_at s second) (tree_at s first_type) (tree_at s second_type) (tree_at s common)) result }
{
    coerce_under(
        theories, theory, g, condition, first, first_type, common, conditions,
    )?;
    widened_other(
        theories,
        theory,
        g,
        negation,
        second,
        second_type,
        common,
        conditions,
    )
}

/// The second branch of an IF at this type.
fn widened_other<T: Theories>(
    theories: &mut T,
    theory: Name,
    g: &Context,
    negation: Id,
    second: Id,
    second_type: Id,
    common: Id,
    conditions: &mut Vec<Condition>,
) -> Result<Id, TypeFault>
    requires given { IsGiven (T.state theories.old) theory g.now.items conditions.old.items }
    requires negation { IsTermOf (T.state theories.old) theory negation }
    requires second { IsTermOf (T.state theories.old) theory second }
    requires second_type { IsTypeOf (T.state theories.old) theory second_type }
    requires common { IsTypeOf (T.state theories.old) theory common }
    ensures { Infers (T.state theories.old) (T.state theories.new) theory conditions.old.items conditions.new.items (λ s l. widened_other l (context_at s (Assumed.Hyp negation ∷ g.now.items)) (tree_at s second) (tree_at s second_type) (tree_at s common)) result }
{
    coerce_under(
        theories,
        theory,
        g,
        negation,
        second,
        second_type,
        common,
        conditions,
    )?;
    Ok(common)
}
