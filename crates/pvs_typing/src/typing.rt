//! The types of terms, and whether types are well formed: one recursion on trees, a function for each row.

ghost use Rattle.std.specs.Prelude.{◌∷◌, ◌≤◌};
ghost use Rattle.pvs_terms.specs.Tree.{TBool};
ghost use Rattle.pvs_terms.specs.declared.shape.Joint.TheVariants.{Equal};
ghost use Rattle.pvs_terms.specs.declared.shape.Projection.TheVariants.{First, Second};
ghost use Rattle.pvs_terms.specs.Stored.{tree_at};
ghost use Rattle.pvs_subst.specs.Contexts.{context_at};
ghost use Rattle.pvs_types.specs.Typing.{infer, check, well_formed, typing, lambda_infer, apply_infer, tuple_infer, equal_infer, join_infer, project_infer, if_infer, if_check, predicate_check, dependent_well_formed};
ghost use Rattle.pvs_typing.specs.Judging.{Checks, Infers, IsGiven};
ghost use Rattle.pvs_typing.specs.code.Rows.{apply_at, apply_to, branches, checked_branches, checked_other, else_branch, equal_right, forall_infer, inferred_check, lambda_body, other_branch, tuple_second};
ghost use Rattle.pvs_typing.specs.State.{IsTypeOf, IsTermOf, IsItemOf};

use crate::coercion::coerce_of;
use crate::contexts::enter_context;
use crate::fault::TypeFault;
use crate::parts::substitute;
use crate::rows::{
    constant_type, equal_sides, first_type, forall_parts, function_parts, function_type, joined,
    negated, node_of, second_type, truth_type, tuple_type, variable_type,
};
use crate::theories::Theories;
use pvs_base::Code;
use pvs_subst::{Assumed, Condition, Context};
use pvs_terms::{Id, Name, Node};

/// The type of a term inside an item.
#[cycle(typing)]
fn infer_under<T: Theories>(
    theories: &mut T,
    theory: Name,
    g: &Context,
    item: Assumed,
    term: Id,
    conditions: &mut Vec<Condition>,
) -> Result<Id, TypeFault>
    requires given { IsGiven (T.state theories.old) theory g.now.items conditions.old.items }
    requires item { IsItemOf (T.state theories.old) theory item }
    requires term { IsTermOf (T.state theories.old) theory term }
    ensures { Infers (T.state theories.old) (T.state theories.new) theory conditions.old.items conditions.new.items (λ s l. infer l (context_at s (item ∷ g.now.items)) (tree_at s term)) result }
{
    let alloc = theories.store().allocator();
    let inner = enter_context(alloc, g, item)?;
    infer_of(theories, theory, &inner, term, conditions)
}

/// What it takes for a term to be of a type, inside an item.
#[cycle(typing)]
fn check_under<T: Theories>(
    theories: &mut T,
    theory: Name,
    g: &Context,
    item: Assumed,
    term: Id,
    ty: Id,
    conditions: &mut Vec<Condition>,
) -> Result<(), TypeFault>
    requires given { IsGiven (T.state theories.old) theory g.now.items conditions.old.items }
    requires item { IsItemOf (T.state theories.old) theory item }
    requires term { IsTermOf (T.state theories.old) theory term }
    requires ty { IsTypeOf (T.state theories.old) theory ty }
    ensures { Checks (T.state theories.old) (T.state theories.new) theory conditions.old.items conditions.new.items (λ s l. check l (context_at s (item ∷ g.now.items)) (tree_at s term) (tree_at s ty)) result }
{
    let alloc = theories.store().allocator();
    let inner = enter_context(alloc, g, item)?;
    check_of(theories, theory, &inner, term, ty, conditions)
}

/// What makes a type well formed, inside an item.
#[cycle(typing)]
fn formed_under<T: Theories>(
    theories: &mut T,
    theory: Name,
    g: &Context,
    item: Assumed,
    ty: Id,
    conditions: &mut Vec<Condition>,
) -> Result<(), TypeFault>
    requires given { IsGiven (T.state theories.old) theory g.now.items conditions.old.items }
    requires item { IsItemOf (T.state theories.old) theory item }
    requires ty { IsTypeOf (T.state theories.old) theory ty }
    ensures { Checks (T.state theories.old) (T.state theories.new) theory conditions.old.items conditions.new.items (λ s l. well_formed l (context_at s (item ∷ g.now.items)) (tree_at s ty)) result }
{
    let alloc = theories.store().allocator();
    let inner = enter_context(alloc, g, item)?;
    formed_of(theories, theory, &inner, ty, conditions)
}

/// An abstraction: its domain is well formed, and its body has a type under it.
#[cycle(typing)]
fn lambda_of<T: Theories>(
    theories: &mut T,
    theory: Name,
    g: &Context,
    domain: Id,
    body: Id,
    conditions: &mut Vec<Condition>,
) -> Result<Id, TypeFault>
    requires given { IsGiven (T.state theories.old) theory g.now.items conditions.old.items }
    requires domain { IsTypeOf (T.state theories.old) theory domain }
    requires body { IsTermOf (T.state theories.old) theory body }
    ensures { Infers (T.state theories.old) (T.state theories.new) theory conditions.old.items conditions.new.items (λ s l. lambda_infer (tree_at s domain) (typing l (tree_at s domain)) (typing l (tree_at s body)) (context_at s g.now.items)) result }
{
    formed_of(theories, theory, g, domain, conditions)?;
    lambda_body(theories, theory, g, domain, body, conditions)
}

/// The type of an abstraction, by that of its body.
#[cycle(typing)]
fn lambda_body<T: Theories>(
    theories: &mut T,
    theory: Name,
    g: &Context,
    domain: Id,
    body: Id,
    conditions: &mut Vec<Condition>,
) -> Result<Id, TypeFault>
    requires given { IsGiven (T.state theories.old) theory g.now.items conditions.old.items }
    requires domain { IsTypeOf (T.state theories.old) theory domain }
    requires body { IsTermOf (T.state theories.old) theory body }
    ensures { Infers (T.state theories.old) (T.state theories.new) theory conditions.old.items conditions.new.items (λ s l. lambda_body l (context_at s g.now.items) (tree_at s domain) (tree_at s body)) result }
{
    let range = infer_under(theories, theory, g, Assumed::Bind(domain), body, conditions)?;
    function_type(theories, theory, domain, range)
}

/// An application: a function, whose domain the argument is of.
#[cycle(typing)]
fn apply_of<T: Theories>(
    theories: &mut T,
    theory: Name,
    g: &Context,
    function: Id,
    argument: Id,
    conditions: &mut Vec<Condition>,
) -> Result<Id, TypeFault>
    requires given { IsGiven (T.state theories.old) theory g.now.items conditions.old.items }
    requires function { IsTermOf (T.state theories.old) theory function }
    requires argument { IsTermOf (T.state theories.old) theory argument }
    ensures { Infers (T.state theories.old) (T.state theories.new) theory conditions.old.items conditions.new.items (λ s l. apply_infer l (tree_at s argument) (typing l (tree_at s function)) (typing l (tree_at s argument)) (context_at s g.now.items)) result }
{
    let ty = infer_of(theories, theory, g, function, conditions)?;
    apply_at(theories, theory, g, argument, ty, conditions)
}

/// An application of a function of this type.
#[cycle(typing)]
fn apply_at<T: Theories>(
    theories: &mut T,
    theory: Name,
    g: &Context,
    argument: Id,
    ty: Id,
    conditions: &mut Vec<Condition>,
) -> Result<Id, TypeFault>
    requires given { IsGiven (T.state theories.old) theory g.now.items conditions.old.items }
    requires argument { IsTermOf (T.state theories.old) theory argument }
    requires ty { IsTypeOf (T.state theories.old) theory ty }
    ensures { Infers (T.state theories.old) (T.state theories.new) theory conditions.old.items conditions.new.items (λ s l. apply_at l (context_at s g.now.items) (tree_at s argument) (tree_at s ty)) result }
{
    let parts = function_parts(theories, theory, ty)?;
    apply_to(theories, theory, g, argument, parts.0, parts.1, conditions)
}

/// An application of a function with this domain and this range.
#[cycle(typing)]
fn apply_to<T: Theories>(
    theories: &mut T,
    theory: Name,
    g: &Context,
    argument: Id,
    domain: Id,
    range: Id,
    conditions: &mut Vec<Condition>,
) -> Result<Id, TypeFault>
    requires given { IsGiven (T.state theories.old) theory g.now.items conditions.old.items }
    requires argument { IsTermOf (T.state theories.old) theory argument }
    requires domain { IsTypeOf (T.state theories.old) theory domain }
    requires range { IsTypeOf (T.state theories.old) theory range }
    ensures { Infers (T.state theories.old) (T.state theories.new) theory conditions.old.items conditions.new.items (λ s l. apply_to l (context_at s g.now.items) (tree_at s argument) (tree_at s domain) (tree_at s range)) result }
{
    check_of(theories, theory, g, argument, domain, conditions)?;
    substitute(theories, theory, range, argument)
}

/// A tuple: its first component, and then the others.
#[cycle(typing)]
fn tuple_of<T: Theories>(
    theories: &mut T,
    theory: Name,
    g: &Context,
    components: u32,
    first: Id,
    second: Id,
    conditions: &mut Vec<Condition>,
) -> Result<Id, TypeFault>
    requires given { IsGiven (T.state theories.old) theory g.now.items conditions.old.items }
    requires tag { 2 ≤ components }
    requires first { IsTermOf (T.state theories.old) theory first }
    requires second { IsTermOf (T.state theories.old) theory second }
    ensures { Infers (T.state theories.old) (T.state theories.new) theory conditions.old.items conditions.new.items (λ s l. tuple_infer components (typing l (tree_at s first)) (typing l (tree_at s second)) (context_at s g.now.items)) result }
{
    let ty = infer_of(theories, theory, g, first, conditions)?;
    tuple_second(theories, theory, g, components, second, ty, conditions)
}

/// A tuple whose first component is of this type.
#[cycle(typing)]
fn tuple_second<T: Theories>(
    theories: &mut T,
    theory: Name,
    g: &Context,
    components: u32,
    second: Id,
    first_type: Id,
    conditions: &mut Vec<Condition>,
) -> Result<Id, TypeFault>
    requires given { IsGiven (T.state theories.old) theory g.now.items conditions.old.items }
    requires tag { 2 ≤ components }
    requires second { IsTermOf (T.state theories.old) theory second }
    requires first_type { IsTypeOf (T.state theories.old) theory first_type }
    ensures { Infers (T.state theories.old) (T.state theories.new) theory conditions.old.items conditions.new.items (λ s l. tuple_second l (context_at s g.now.items) components (tree_at s second) (tree_at s first_type)) result }
{
    let second_type = infer_of(theories, theory, g, second, conditions)?;
    tuple_type(theories, theory, components, first_type, second_type)
}

/// An equation, or the two sides of a FORALL.
#[cycle(typing)]
fn equation_of<T: Theories>(
    theories: &mut T,
    theory: Name,
    g: &Context,
    left: Id,
    right: Id,
    conditions: &mut Vec<Condition>,
) -> Result<Id, TypeFault>
    requires given { IsGiven (T.state theories.old) theory g.now.items conditions.old.items }
    requires left { IsTermOf (T.state theories.old) theory left }
    requires right { IsTermOf (T.state theories.old) theory right }
    ensures { Infers (T.state theories.old) (T.state theories.new) theory conditions.old.items conditions.new.items (λ s l. join_infer l Equal (tree_at s left) (tree_at s right) (typing l (tree_at s left)) (typing l (tree_at s right)) (context_at s g.now.items)) result }
{
    match forall_parts(theories, theory, left, right) {
        Some((domain, predicate)) => forall_of(theories, theory, g, domain, predicate, conditions),
        None => equal_of(theories, theory, g, left, right, conditions),
    }
}

/// A FORALL: a predicate on a type.
#[cycle(typing)]
fn forall_of<T: Theories>(
    theories: &mut T,
    theory: Name,
    g: &Context,
    domain: Id,
    predicate: Id,
    conditions: &mut Vec<Condition>,
) -> Result<Id, TypeFault>
    requires given { IsGiven (T.state theories.old) theory g.now.items conditions.old.items }
    requires domain { IsTypeOf (T.state theories.old) theory domain }
    requires predicate { IsTermOf (T.state theories.old) theory predicate }
    ensures { Infers (T.state theories.old) (T.state theories.new) theory conditions.old.items conditions.new.items (λ s l. forall_infer l (context_at s g.now.items) (tree_at s domain) (tree_at s predicate)) result }
{
    predicate_of(theories, theory, g, domain, predicate, conditions)?;
    truth_type(theories, theory)
}

/// An equation: both sides, the right one first, are of the most general form of the type of the left one.
#[cycle(typing)]
fn equal_of<T: Theories>(
    theories: &mut T,
    theory: Name,
    g: &Context,
    left: Id,
    right: Id,
    conditions: &mut Vec<Condition>,
) -> Result<Id, TypeFault>
    requires given { IsGiven (T.state theories.old) theory g.now.items conditions.old.items }
    requires left { IsTermOf (T.state theories.old) theory left }
    requires right { IsTermOf (T.state theories.old) theory right }
    ensures { Infers (T.state theories.old) (T.state theories.new) theory conditions.old.items conditions.new.items (λ s l. equal_infer l (tree_at s left) (tree_at s right) (typing l (tree_at s left)) (typing l (tree_at s right)) (context_at s g.now.items)) result }
{
    let ty = infer_of(theories, theory, g, left, conditions)?;
    equal_right(theories, theory, g, left, right, ty, conditions)
}

/// An equation whose left side is of this type.
#[cycle(typing)]
fn equal_right<T: Theories>(
    theories: &mut T,
    theory: Name,
    g: &Context,
    left: Id,
    right: Id,
    left_type: Id,
    conditions: &mut Vec<Condition>,
) -> Result<Id, TypeFault>
    requires given { IsGiven (T.state theories.old) theory g.now.items conditions.old.items }
    requires left { IsTermOf (T.state theories.old) theory left }
    requires right { IsTermOf (T.state theories.old) theory right }
    requires left_type { IsTypeOf (T.state theories.old) theory left_type }
    ensures { Infers (T.state theories.old) (T.state theories.new) theory conditions.old.items conditions.new.items (λ s l. equal_right l (context_at s g.now.items) (tree_at s left) (tree_at s right) (tree_at s left_type)) result }
{
    let right_type = infer_of(theories, theory, g, right, conditions)?;
    equal_sides(
        theories, theory, g, left, right, left_type, right_type, conditions,
    )
}

/// The first component of a tuple.
#[cycle(typing)]
fn first_of<T: Theories>(
    theories: &mut T,
    theory: Name,
    g: &Context,
    components: u32,
    tuple: Id,
    conditions: &mut Vec<Condition>,
) -> Result<Id, TypeFault>
    requires given { IsGiven (T.state theories.old) theory g.now.items conditions.old.items }
    requires tuple { IsTermOf (T.state theories.old) theory tuple }
    ensures { Infers (T.state theories.old) (T.state theories.new) theory conditions.old.items conditions.new.items (λ s l. project_infer l (First components) (tree_at s tuple) (typing l (tree_at s tuple)) (context_at s g.now.items)) result }
{
    let ty = infer_of(theories, theory, g, tuple, conditions)?;
    first_type(theories, theory, components, ty)
}

/// The other components of a tuple.
#[cycle(typing)]
fn second_of<T: Theories>(
    theories: &mut T,
    theory: Name,
    g: &Context,
    components: u32,
    tuple: Id,
    conditions: &mut Vec<Condition>,
) -> Result<Id, TypeFault>
    requires given { IsGiven (T.state theories.old) theory g.now.items conditions.old.items }
    requires tag { 2 ≤ components }
    requires tuple { IsTermOf (T.state theories.old) theory tuple }
    ensures { Infers (T.state theories.old) (T.state theories.new) theory conditions.old.items conditions.new.items (λ s l. project_infer l (Second components) (tree_at s tuple) (typing l (tree_at s tuple)) (context_at s g.now.items)) result }
{
    let ty = infer_of(theories, theory, g, tuple, conditions)?;
    second_type(theories, theory, components, tuple, ty)
}

/// The condition of an IF is a truth value.
#[cycle(typing)]
fn condition_of<T: Theories>(
    theories: &mut T,
    theory: Name,
    g: &Context,
    condition: Id,
    conditions: &mut Vec<Condition>,
) -> Result<(), TypeFault>
    requires given { IsGiven (T.state theories.old) theory g.now.items conditions.old.items }
    requires condition { IsTermOf (T.state theories.old) theory condition }
    ensures { Checks (T.state theories.old) (T.state theories.new) theory conditions.old.items conditions.new.items (λ s l. check l (context_at s g.now.items) (tree_at s condition) TBool) result }
{
    let truth = truth_type(theories, theory)?;
    check_of(theories, theory, g, condition, truth, conditions)
}

/// An IF: its condition, and then its branches.
#[cycle(typing)]
fn if_of<T: Theories>(
    theories: &mut T,
    theory: Name,
    g: &Context,
    condition: Id,
    first: Id,
    second: Id,
    conditions: &mut Vec<Condition>,
) -> Result<Id, TypeFault>
    requires given { IsGiven (T.state theories.old) theory g.now.items conditions.old.items }
    requires condition { IsTermOf (T.state theories.old) theory condition }
    requires first { IsTermOf (T.state theories.old) theory first }
    requires second { IsTermOf (T.state theories.old) theory second }
    ensures { Infers (T.state theories.old) (T.state theories.new) theory conditions.old.items conditions.new.items (λ s l. if_infer l (tree_at s condition) (tree_at s first) (tree_at s second) (typing l (tree_at s condition)) (typing l (tree_at s first)) (typing l (tree_at s second)) (context_at s g.now.items)) result }
{
    condition_of(theories, theory, g, condition, conditions)?;
    branches(theories, theory, g, condition, first, second, conditions)
}

/// The branches of an IF: the first under the condition, the second under its negation.
#[cycle(typing)]
fn branches<T: Theories>(
    theories: &mut T,
    theory: Name,
    g: &Context,
    condition: Id,
    first: Id,
    second: Id,
    conditions: &mut Vec<Condition>,
) -> Result<Id, TypeFault>
    requires given { IsGiven (T.state theories.old) theory g.now.items conditions.old.items }
    requires condition { IsTermOf (T.state theories.old) theory condition }
    requires first { IsTermOf (T.state theories.old) theory first }
    requires second { IsTermOf (T.state theories.old) theory second }
    ensures { Infers (T.state theories.old) (T.state theories.new) theory conditions.old.items conditions.new.items (λ s l. branches l (context_at s g.now.items) (tree_at s condition) (tree_at s first) (tree_at s second)) result }
{
    let ty = infer_under(
        theories,
        theory,
        g,
        Assumed::Hyp(condition),
        first,
        conditions,
    )?;
    other_branch(
        theories, theory, g, condition, first, second, ty, conditions,
    )
}

/// The second branch of an IF whose first one is of this type.
#[cycle(typing)]
fn other_branch<T: Theories>(
    theories: &mut T,
    theory: Name,
    g: &Context,
    condition: Id,
    first: Id,
    second: Id,
    first_type: Id,
    conditions: &mut Vec<Condition>,
) -> Result<Id, TypeFault>
    requires given { IsGiven (T.state theories.old) theory g.now.items conditions.old.items }
    requires condition { IsTermOf (T.state theories.old) theory condition }
    requires first { IsTermOf (T.state theories.old) theory first }
    requires second { IsTermOf (T.state theories.old) theory second }
    requires first_type { IsTypeOf (T.state theories.old) theory first_type }
    ensures { Infers (T.state theories.old) (T.state theories.new) theory conditions.old.items conditions.new.items (λ s l. other_branch l (context_at s g.now.items) (tree_at s condition) (tree_at s first) (tree_at s second) (tree_at s first_type)) result }
{
    let negation = negated(theories, theory, condition)?;
    else_branch(
        theories, theory, g, condition, negation, first, second, first_type, conditions,
    )
}

/// The second branch of an IF, under the negation of the condition.
#[cycle(typing)]
fn else_branch<T: Theories>(
    theories: &mut T,
    theory: Name,
    g: &Context,
    condition: Id,
    negation: Id,
    first: Id,
    second: Id,
    first_type: Id,
    conditions: &mut Vec<Condition>,
) -> Result<Id, TypeFault>
    requires given { IsGiven (T.state theories.old) theory g.now.items conditions.old.items }
    requires condition { IsTermOf (T.state theories.old) theory condition }
    requires negation { IsTermOf (T.state theories.old) theory negation }
    requires first { IsTermOf (T.state theories.old) theory first }
    requires second { IsTermOf (T.state theories.old) theory second }
    requires first_type { IsTypeOf (T.state theories.old) theory first_type }
    ensures { Infers (T.state theories.old) (T.state theories.new) theory conditions.old.items conditions.new.items (λ s l. else_branch l (context_at s g.now.items) (tree_at s condition) (tree_at s negation) (tree_at s first) (tree_at s second) (tree_at s first_type)) result }
{
    let second_type = infer_under(
        theories,
        theory,
        g,
        Assumed::Hyp(negation),
        second,
        conditions,
    )?;
    joined(
        theories,
        theory,
        g,
        condition,
        negation,
        first,
        second,
        first_type,
        second_type,
        conditions,
    )
}

/// An IF against a type: its condition, and then its branches.
#[cycle(typing)]
fn if_check<T: Theories>(
    theories: &mut T,
    theory: Name,
    g: &Context,
    condition: Id,
    first: Id,
    second: Id,
    ty: Id,
    conditions: &mut Vec<Condition>,
) -> Result<(), TypeFault>
    requires given { IsGiven (T.state theories.old) theory g.now.items conditions.old.items }
    requires condition { IsTermOf (T.state theories.old) theory condition }
    requires first { IsTermOf (T.state theories.old) theory first }
    requires second { IsTermOf (T.state theories.old) theory second }
    requires ty { IsTypeOf (T.state theories.old) theory ty }
    ensures { Checks (T.state theories.old) (T.state theories.new) theory conditions.old.items conditions.new.items (λ s l. if_check (tree_at s condition) (typing l (tree_at s condition)) (typing l (tree_at s first)) (typing l (tree_at s second)) (context_at s g.now.items) (tree_at s ty)) result }
{
    condition_of(theories, theory, g, condition, conditions)?;
    checked_branches(
        theories, theory, g, condition, first, second, ty, conditions,
    )
}

/// The branches of an IF against a type.
#[cycle(typing)]
fn checked_branches<T: Theories>(
    theories: &mut T,
    theory: Name,
    g: &Context,
    condition: Id,
    first: Id,
    second: Id,
    ty: Id,
    conditions: &mut Vec<Condition>,
) -> Result<(), TypeFault>
    requires given { IsGiven (T.state theories.old) theory g.now.items conditions.old.items }
    requires condition { IsTermOf (T.state theories.old) theory condition }
    requires first { IsTermOf (T.state theories.old) theory first }
    requires second { IsTermOf (T.state theories.old) theory second }
    requires ty { IsTypeOf (T.state theories.old) theory ty }
    ensures { Checks (T.state theories.old) (T.state theories.new) theory conditions.old.items conditions.new.items (λ s l. checked_branches l (context_at s g.now.items) (tree_at s condition) (tree_at s first) (tree_at s second) (tree_at s ty)) result }
{
    check_under(
        theories,
        theory,
        g,
        Assumed::Hyp(condition),
        first,
        ty,
        conditions,
    )?;
    checked_other(theories, theory, g, condition, second, ty, conditions)
}

/// The second branch of an IF against a type.
#[cycle(typing)]
fn checked_other<T: Theories>(
    theories: &mut T,
    theory: Name,
    g: &Context,
    condition: Id,
    second: Id,
    ty: Id,
    conditions: &mut Vec<Condition>,
) -> Result<(), TypeFault>
    requires given { IsGiven (T.state theories.old) theory g.now.items conditions.old.items }
    requires condition { IsTermOf (T.state theories.old) theory condition }
    requires second { IsTermOf (T.state theories.old) theory second }
    requires ty { IsTypeOf (T.state theories.old) theory ty }
    ensures { Checks (T.state theories.old) (T.state theories.new) theory conditions.old.items conditions.new.items (λ s l. checked_other l (context_at s g.now.items) (tree_at s condition) (tree_at s second) (tree_at s ty)) result }
{
    let otherwise = negated(theories, theory, condition)?;
    check_under(
        theories,
        theory,
        g,
        Assumed::Hyp(otherwise),
        second,
        ty,
        conditions,
    )
}

/// A predicate on a type: the type is well formed, and the predicate is a truth value under it.
#[cycle(typing)]
fn predicate_of<T: Theories>(
    theories: &mut T,
    theory: Name,
    g: &Context,
    domain: Id,
    predicate: Id,
    conditions: &mut Vec<Condition>,
) -> Result<(), TypeFault>
    requires given { IsGiven (T.state theories.old) theory g.now.items conditions.old.items }
    requires domain { IsTypeOf (T.state theories.old) theory domain }
    requires predicate { IsTermOf (T.state theories.old) theory predicate }
    ensures { Checks (T.state theories.old) (T.state theories.new) theory conditions.old.items conditions.new.items (λ s l. predicate_check (tree_at s domain) (typing l (tree_at s domain)) (typing l (tree_at s predicate)) (context_at s g.now.items)) result }
{
    formed_of(theories, theory, g, domain, conditions)?;
    predicate_body(theories, theory, g, domain, predicate, conditions)
}

/// The body of a predicate on a type.
#[cycle(typing)]
fn predicate_body<T: Theories>(
    theories: &mut T,
    theory: Name,
    g: &Context,
    domain: Id,
    predicate: Id,
    conditions: &mut Vec<Condition>,
) -> Result<(), TypeFault>
    requires given { IsGiven (T.state theories.old) theory g.now.items conditions.old.items }
    requires domain { IsTypeOf (T.state theories.old) theory domain }
    requires predicate { IsTermOf (T.state theories.old) theory predicate }
    ensures { Checks (T.state theories.old) (T.state theories.new) theory conditions.old.items conditions.new.items (λ s l. check l (context_at s (Assumed.Bind domain ∷ g.now.items)) (tree_at s predicate) TBool) result }
{
    let truth = truth_type(theories, theory)?;
    check_under(
        theories,
        theory,
        g,
        Assumed::Bind(domain),
        predicate,
        truth,
        conditions,
    )
}

/// A type, and then a type that may depend on it.
#[cycle(typing)]
fn dependent_of<T: Theories>(
    theories: &mut T,
    theory: Name,
    g: &Context,
    first: Id,
    second: Id,
    conditions: &mut Vec<Condition>,
) -> Result<(), TypeFault>
    requires given { IsGiven (T.state theories.old) theory g.now.items conditions.old.items }
    requires first { IsTypeOf (T.state theories.old) theory first }
    requires second { IsTypeOf (T.state theories.old) theory second }
    ensures { Checks (T.state theories.old) (T.state theories.new) theory conditions.old.items conditions.new.items (λ s l. dependent_well_formed (tree_at s first) (typing l (tree_at s first)) (typing l (tree_at s second)) (context_at s g.now.items)) result }
{
    formed_of(theories, theory, g, first, conditions)?;
    formed_under(
        theories,
        theory,
        g,
        Assumed::Bind(first),
        second,
        conditions,
    )
}

/// The type of a term, with the conditions under which it has one added.
#[cycle(typing)]
pub(crate) fn infer_of<T: Theories>(
    theories: &mut T,
    theory: Name,
    g: &Context,
    term: Id,
    conditions: &mut Vec<Condition>,
) -> Result<Id, TypeFault>
    requires given { IsGiven (T.state theories.old) theory g.now.items conditions.old.items }
    requires term { IsTermOf (T.state theories.old) theory term }
    ensures { Infers (T.state theories.old) (T.state theories.new) theory conditions.old.items conditions.new.items (λ s l. infer l (context_at s g.now.items) (tree_at s term)) result }
{
    match node_of(theories, theory, term) {
        Node::Var(n) => variable_type(theories, theory, g, n),
        Node::Const(r) => constant_type(theories, theory, r),
        Node::True => truth_type(theories, theory),
        Node::False => truth_type(theories, theory),
        Node::Lam(a, b) => lambda_of(theories, theory, g, a, b, conditions),
        Node::App(f, a) => apply_of(theories, theory, g, f, a, conditions),
        Node::Tup(k, a, b) => tuple_of(theories, theory, g, k, a, b, conditions),
        Node::Fst(k, a) => first_of(theories, theory, g, k, a, conditions),
        Node::Snd(k, a) => second_of(theories, theory, g, k, a, conditions),
        Node::If(c, a, b) => if_of(theories, theory, g, c, a, b, conditions),
        Node::Eq(a, b) => equation_of(theories, theory, g, a, b, conditions),
        _ => Err(TypeFault::Refused(Code::Unknown)),
    }
}

/// Adds the conditions under which a term is of a type.
#[cycle(typing)]
pub(crate) fn check_of<T: Theories>(
    theories: &mut T,
    theory: Name,
    g: &Context,
    term: Id,
    ty: Id,
    conditions: &mut Vec<Condition>,
) -> Result<(), TypeFault>
    requires given { IsGiven (T.state theories.old) theory g.now.items conditions.old.items }
    requires term { IsTermOf (T.state theories.old) theory term }
    requires ty { IsTypeOf (T.state theories.old) theory ty }
    ensures { Checks (T.state theories.old) (T.state theories.new) theory conditions.old.items conditions.new.items (λ s l. check l (context_at s g.now.items) (tree_at s term) (tree_at s ty)) result }
{
    match node_of(theories, theory, term) {
        Node::If(c, a, b) => if_check(theories, theory, g, c, a, b, ty, conditions),
        _ => inferred_check(theories, theory, g, term, ty, conditions),
    }
}

/// A term is of a type where its own type is coerced to it.
#[cycle(typing)]
fn inferred_check<T: Theories>(
    theories: &mut T,
    theory: Name,
    g: &Context,
    term: Id,
    ty: Id,
    conditions: &mut Vec<Condition>,
) -> Result<(), TypeFault>
    requires given { IsGiven (T.state theories.old) theory g.now.items conditions.old.items }
    requires term { IsTermOf (T.state theories.old) theory term }
    requires ty { IsTypeOf (T.state theories.old) theory ty }
    ensures { Checks (T.state theories.old) (T.state theories.new) theory conditions.old.items conditions.new.items (λ s l. inferred_check l (context_at s g.now.items) (tree_at s term) (tree_at s ty)) result }
{
    let own = infer_of(theories, theory, g, term, conditions)?;
    coerce_of(theories, theory, g, term, own, ty, conditions)
}

/// Adds the conditions under which a type is well formed.
#[cycle(typing)]
pub(crate) fn formed_of<T: Theories>(
    theories: &mut T,
    theory: Name,
    g: &Context,
    ty: Id,
    conditions: &mut Vec<Condition>,
) -> Result<(), TypeFault>
    requires given { IsGiven (T.state theories.old) theory g.now.items conditions.old.items }
    requires ty { IsTypeOf (T.state theories.old) theory ty }
    ensures { Checks (T.state theories.old) (T.state theories.new) theory conditions.old.items conditions.new.items (λ s l. well_formed l (context_at s g.now.items) (tree_at s ty)) result }
{
    match node_of(theories, theory, ty) {
        Node::TBool => Ok(()),
        Node::TName(_r) => {
            theories.declared_types(theory);
            Ok(())
        }
        Node::TSub(a, p) => predicate_of(theories, theory, g, a, p, conditions),
        Node::TFun(a, b) => dependent_of(theories, theory, g, a, b, conditions),
        Node::TPair(_, a, b) => dependent_of(theories, theory, g, a, b, conditions),
        _ => Err(TypeFault::Refused(Code::Unknown)),
    }
}
