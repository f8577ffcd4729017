//! The steps of a coercion, by the seven cases.

ghost use Rattle.std.specs.Prelude.{◌≡◌, ◌≤◌, suc, false};
ghost use Rattle.pvs_terms.specs.Tree.{TName, TSub, TFun, TPair, tree_eq};
ghost use Rattle.pvs_terms.specs.Stored.{IsName, IsRef, tree_at, ref_at};
ghost use Rattle.pvs_subst.specs.Contexts.{context_at};
ghost use Rattle.pvs_sig.specs.Lookups.{IsOrdered};
ghost use Rattle.pvs_types.specs.Coerce.{coerce, coerce_to, coerce_parts, coerce_function};
ghost use Rattle.pvs_typing.specs.Above.{is_above, IsListed, Lists};
ghost use Rattle.pvs_typing.specs.Answers.{Finds};
ghost use Rattle.pvs_typing.specs.code.Tasks.{IsCoercionOf, IsTaskOf, Passes, Steps, apply_outcome, coercion_work, head_outcome, satisfy_outcome, second_outcome, task_outcome, task_work};
ghost use Rattle.pvs_typing.specs.State.{IsTypeOf, IsTermOf, IsContextOf};

use crate::contexts::{copy_context, enter_context};
use crate::fault::TypeFault;
use crate::forms::{head_of, up_of};
use crate::nodes::{is_same, known_node};
use crate::parts::{
    application, first_part, is_among, lift_both, new_variable, second_part, substitute_both,
};
use crate::tasks::{Above, Next, Task};
use crate::theories::Theories;
use pvs_base::Code;
use pvs_subst::{Assumed, Condition, Context};
use pvs_terms::{Id, Name, Node, RefId};

/// The types above a type, itself first.
pub(crate) fn list_above<T: Theories>(
    theories: &mut T,
    theory: Name,
    of: Id,
) -> Result<Above, TypeFault>
    requires theory { IsName (T.state theories.old).stored theory }
    requires of { IsTypeOf (T.state theories.old) theory of }
    requires ordered { IsOrdered ((T.state theories.old).lookups theory) }
    ensures { Lists (T.state theories.old) (T.state theories.new) theory of result }
{
    let types = up_of(theories, theory, of)?;
    Ok(Above { of, types })
}

/// Whether a type is another one, or above it, where the types above some type are listed.
fn is_above<T: Theories>(
    theories: &mut T,
    theory: Name,
    above: &Above,
    from: Id,
    to: Id,
) -> Result<bool, TypeFault>
    requires theory { IsName (T.state theories.old).stored theory }
    requires above { IsListed (T.state theories.old) theory above.now }
    requires from { IsTypeOf (T.state theories.old) theory from }
    requires to { IsTypeOf (T.state theories.old) theory to }
    requires ordered { IsOrdered ((T.state theories.old).lookups theory) }
    ensures { Finds (T.state theories.old) (T.state theories.new) theory (λ s l. is_above l (tree_at s from) (tree_at s to)) result }
{
    if from == above.of {
        return Ok(is_among(theories, theory, to, &above.types));
    }
    let types = up_of(theories, theory, from)?;
    let found = is_among(theories, theory, to, &types);
    Ok(found)
}

/// Nothing, where the head of the one type is the other.
fn same_head<T: Theories>(theories: &mut T, theory: Name, from: Id, to: Id) -> Result<(), TypeFault>
    requires theory { IsName (T.state theories.old).stored theory }
    requires from { IsTypeOf (T.state theories.old) theory from }
    requires to { IsTypeOf (T.state theories.old) theory to }
    requires ordered { IsOrdered ((T.state theories.old).lookups theory) }
    ensures { Passes (T.state theories.old) (T.state theories.new) theory (λ s l. head_outcome l (tree_at s from) (tree_at s to)) result }
{
    let form = head_of(theories, theory, from)?;
    if is_same(theories, form, to) {
        Ok(())
    } else {
        Err(TypeFault::Refused(Code::Mismatch))
    }
}

/// To a name: as to its body where it has one, and else from a type of this head.
fn to_name<T: Theories>(
    theories: &mut T,
    theory: Name,
    context: Context,
    term: Id,
    from: Id,
    to: Id,
    r: RefId,
) -> Result<Next, TypeFault>
    requires theory { IsName (T.state theories.old).stored theory }
    requires coercion { IsCoercionOf (T.state theories.old) theory context term from to }
    requires r { IsRef (T.state theories.old).stored r }
    requires is { tree_at (T.state theories.old).stored to ≡ TName (ref_at (T.state theories.old).stored r) }
    requires ordered { IsOrdered ((T.state theories.old).lookups theory) }
    ensures { Steps (T.state theories.old) (T.state theories.new) theory (λ s l. coerce_to l (coerce l) (context_at s context.items) (tree_at s term) (tree_at s from) (TName (ref_at s r))) (λ s l. coercion_work l (tree_at s from) (TName (ref_at s r))) result }
{
    match theories.body_of(theory, r)? {
        None => {
            same_head(theories, theory, from, to)?;
            Ok(Next::Done)
        }
        Some(body) => Ok(Next::One(Task::Coerce {
            context,
            term,
            from,
            to: body,
        })),
    }
}

/// To a predicate subtype: to its supertype, and then the predicate is owed.
fn to_subtype<T: Theories>(
    theories: &T,
    _theory: Name,
    context: Context,
    term: Id,
    from: Id,
    supertype: Id,
    predicate: Id,
) -> Result<Next, TypeFault>
    requires theory { IsName (T.state theories.now).stored _theory }
    requires coercion { IsCoercionOf (T.state theories.now) _theory context term from supertype }
    requires predicate { IsTermOf (T.state theories.now) _theory predicate }
    ensures { Steps (T.state theories.now) (T.state theories.now) _theory (λ s l. coerce_to l (coerce l) (context_at s context.items) (tree_at s term) (tree_at s from) (TSub (tree_at s supertype) (tree_at s predicate))) (λ s l. coercion_work l (tree_at s from) (TSub (tree_at s supertype) (tree_at s predicate))) result }
{
    let alloc = theories.store().allocator();
    let outer = copy_context(alloc, &context)?;
    Ok(Next::Two(
        Task::Coerce {
            context: outer,
            term,
            from,
            to: supertype,
        },
        Task::Satisfy {
            context,
            predicate,
            term,
        },
    ))
}

/// Between tuple types with as many components: the first component, and then the others.
fn between_pairs<T: Theories>(
    theories: &mut T,
    theory: Name,
    context: Context,
    term: Id,
    components: u32,
    first_from: Id,
    first_to: Id,
    others_from: Id,
    others_to: Id,
) -> Result<Next, TypeFault>
    requires theory { IsName (T.state theories.old).stored theory }
    requires first { IsCoercionOf (T.state theories.old) theory context term first_from first_to }
    requires others { IsCoercionOf (T.state theories.old) theory context term others_from others_to }
    requires components { 2 ≤ components }
    ensures { Steps (T.state theories.old) (T.state theories.new) theory (λ s l. coerce_parts (coerce l) (context_at s context.items) (tree_at s term) components (tree_at s first_from) (tree_at s others_from) (tree_at s first_to) (tree_at s others_to)) (λ s l. coercion_work l (TPair components (tree_at s first_from) (tree_at s others_from)) (TPair components (tree_at s first_to) (tree_at s others_to))) result }
{
    let alloc = theories.store().allocator();
    let first = first_part(theories, theory, components, term)?;
    let outer = copy_context(alloc, &context)?;
    Ok(Next::Two(
        Task::Coerce {
            context: outer,
            term: first,
            from: first_from,
            to: first_to,
        },
        Task::Second {
            context,
            components,
            term,
            first,
            from: others_from,
            to: others_to,
        },
    ))
}

/// To a tuple type, from one with as many components.
fn to_pair<T: Theories>(
    theories: &mut T,
    theory: Name,
    context: Context,
    term: Id,
    from: Id,
    components: u32,
    first: Id,
    others: Id,
) -> Result<Next, TypeFault>
    requires theory { IsName (T.state theories.old).stored theory }
    requires first { IsCoercionOf (T.state theories.old) theory context term from first }
    requires others { IsTypeOf (T.state theories.old) theory others }
    requires components { 2 ≤ components }
    requires ordered { IsOrdered ((T.state theories.old).lookups theory) }
    ensures { Steps (T.state theories.old) (T.state theories.new) theory (λ s l. coerce_to l (coerce l) (context_at s context.items) (tree_at s term) (tree_at s from) (TPair components (tree_at s first) (tree_at s others))) (λ s l. coercion_work l (tree_at s from) (TPair components (tree_at s first) (tree_at s others))) result }
{
    let form = head_of(theories, theory, from)?;
    match known_node(theories, theory, form) {
        Node::TPair(count, first_from, others_from) => {
            if count != components {
                return Err(TypeFault::Refused(Code::Mismatch));
            }
            let next = between_pairs(
                theories,
                theory,
                context,
                term,
                components,
                first_from,
                first,
                others_from,
                others,
            )?;
            Ok(next)
        }
        _ => Err(TypeFault::Refused(Code::Mismatch)),
    }
}

/// Between function types with different domains: a variable of each domain to the other, and then the
/// application.
fn between_domains<T: Theories>(
    theories: &mut T,
    theory: Name,
    context: Context,
    term: Id,
    domain_from: Id,
    domain_to: Id,
    range_from: Id,
    range_to: Id,
) -> Result<Next, TypeFault>
    requires theory { IsName (T.state theories.old).stored theory }
    requires domains { IsCoercionOf (T.state theories.old) theory context term domain_from domain_to }
    requires ranges { IsCoercionOf (T.state theories.old) theory context term range_from range_to }
    requires different { tree_eq (tree_at (T.state theories.old).stored domain_from) (tree_at (T.state theories.old).stored domain_to) ≡ false }
    ensures { Steps (T.state theories.old) (T.state theories.new) theory (λ s l. coerce_function (coerce l) (context_at s context.items) (tree_at s term) (tree_at s domain_to) (tree_at s range_to) (TFun (tree_at s domain_from) (tree_at s range_from))) (λ s l. coercion_work l (TFun (tree_at s domain_from) (tree_at s range_from)) (TFun (tree_at s domain_to) (tree_at s range_to))) result }
{
    let alloc = theories.store().allocator();
    let (above_from, above_to) = lift_both(theories, theory, domain_from, domain_to)?;
    let term_inside = new_variable(theories, theory)?;
    let inside_from = enter_context(alloc, &context, Assumed::Bind(domain_from))?;
    let inside_to = enter_context(alloc, &context, Assumed::Bind(domain_to))?;
    Ok(Next::Three(
        Task::Coerce {
            context: inside_from,
            term: term_inside,
            from: above_from,
            to: above_to,
        },
        Task::Coerce {
            context: inside_to,
            term: term_inside,
            from: above_to,
            to: above_from,
        },
        Task::Apply {
            context,
            domain: domain_from,
            term,
            from: range_from,
            to: range_to,
        },
    ))
}

/// Between function types: the domains, unless they are equal, and then the application.
fn between_functions<T: Theories>(
    theories: &mut T,
    theory: Name,
    context: Context,
    term: Id,
    domain_from: Id,
    domain_to: Id,
    range_from: Id,
    range_to: Id,
) -> Result<Next, TypeFault>
    requires theory { IsName (T.state theories.old).stored theory }
    requires domains { IsCoercionOf (T.state theories.old) theory context term domain_from domain_to }
    requires ranges { IsCoercionOf (T.state theories.old) theory context term range_from range_to }
    ensures { Steps (T.state theories.old) (T.state theories.new) theory (λ s l. coerce_function (coerce l) (context_at s context.items) (tree_at s term) (tree_at s domain_to) (tree_at s range_to) (TFun (tree_at s domain_from) (tree_at s range_from))) (λ s l. coercion_work l (TFun (tree_at s domain_from) (tree_at s range_from)) (TFun (tree_at s domain_to) (tree_at s range_to))) result }
{
    if is_same(theories, domain_from, domain_to) {
        return Ok(Next::One(Task::Apply {
            context,
            domain: domain_from,
            term,
            from: range_from,
            to: range_to,
        }));
    }
    let next = between_domains(
        theories,
        theory,
        context,
        term,
        domain_from,
        domain_to,
        range_from,
        range_to,
    )?;
    Ok(next)
}

/// To a function type.
fn to_function<T: Theories>(
    theories: &mut T,
    theory: Name,
    context: Context,
    term: Id,
    from: Id,
    domain: Id,
    range: Id,
) -> Result<Next, TypeFault>
    requires theory { IsName (T.state theories.old).stored theory }
    requires domain { IsCoercionOf (T.state theories.old) theory context term from domain }
    requires range { IsTypeOf (T.state theories.old) theory range }
    requires ordered { IsOrdered ((T.state theories.old).lookups theory) }
    ensures { Steps (T.state theories.old) (T.state theories.new) theory (λ s l. coerce_to l (coerce l) (context_at s context.items) (tree_at s term) (tree_at s from) (TFun (tree_at s domain) (tree_at s range))) (λ s l. coercion_work l (tree_at s from) (TFun (tree_at s domain) (tree_at s range))) result }
{
    let form = head_of(theories, theory, from)?;
    match known_node(theories, theory, form) {
        Node::TFun(domain_from, range_from) => {
            let next = between_functions(
                theories,
                theory,
                context,
                term,
                domain_from,
                domain,
                range_from,
                range,
            )?;
            Ok(next)
        }
        _ => Err(TypeFault::Refused(Code::Mismatch)),
    }
}

/// The cases after the first, by the form of the type that is wanted.
fn coerce_to<T: Theories>(
    theories: &mut T,
    theory: Name,
    context: Context,
    term: Id,
    from: Id,
    to: Id,
) -> Result<Next, TypeFault>
    requires theory { IsName (T.state theories.old).stored theory }
    requires coercion { IsCoercionOf (T.state theories.old) theory context term from to }
    requires ordered { IsOrdered ((T.state theories.old).lookups theory) }
    ensures { Steps (T.state theories.old) (T.state theories.new) theory (λ s l. coerce_to l (coerce l) (context_at s context.items) (tree_at s term) (tree_at s from) (tree_at s to)) (λ s l. coercion_work l (tree_at s from) (tree_at s to)) result }
{
    match known_node(theories, theory, to) {
        Node::TName(r) => {
            let next = to_name(theories, theory, context, term, from, to, r)?;
            Ok(next)
        }
        Node::TSub(a, p) => {
            let next = to_subtype(theories, theory, context, term, from, a, p)?;
            Ok(next)
        }
        Node::TPair(components, a, b) => {
            let next = to_pair(theories, theory, context, term, from, components, a, b)?;
            Ok(next)
        }
        Node::TFun(a, b) => {
            let next = to_function(theories, theory, context, term, from, a, b)?;
            Ok(next)
        }
        _ => {
            same_head(theories, theory, from, to)?;
            Ok(Next::Done)
        }
    }
}

/// The cases of coercion, the first that applies.
fn coerce_step<T: Theories>(
    theories: &mut T,
    theory: Name,
    above: &Above,
    context: Context,
    term: Id,
    from: Id,
    to: Id,
) -> Result<Next, TypeFault>
    requires theory { IsName (T.state theories.old).stored theory }
    requires above { IsListed (T.state theories.old) theory above.now }
    requires coercion { IsCoercionOf (T.state theories.old) theory context term from to }
    requires ordered { IsOrdered ((T.state theories.old).lookups theory) }
    ensures { Steps (T.state theories.old) (T.state theories.new) theory (λ s l. coerce l (context_at s context.items) (tree_at s term) (tree_at s from) (tree_at s to)) (λ s l. coercion_work l (tree_at s from) (tree_at s to)) result }
{
    let _term = known_node(theories, theory, term);
    if is_above(theories, theory, above, from, to)? {
        return Ok(Next::Done);
    }
    let next = coerce_to(theories, theory, context, term, from, to)?;
    Ok(next)
}

/// The predicate of a subtype is owed of a term.
fn satisfy_step<T: Theories>(
    theories: &mut T,
    _theory: Name,
    context: Context,
    predicate: Id,
    term: Id,
) -> Result<Next, TypeFault>
    requires theory { IsName (T.state theories.old).stored _theory }
    requires context { IsContextOf (T.state theories.old) _theory context.items }
    requires predicate { IsTermOf (T.state theories.old) _theory predicate }
    requires term { IsTermOf (T.state theories.old) _theory term }
    ensures { Steps (T.state theories.old) (T.state theories.new) _theory (λ s _. satisfy_outcome (context_at s context.items) (tree_at s predicate) (tree_at s term)) (λ _ _. 1) result }
{
    let goal = theories.put_in(predicate, term)?;
    Ok(Next::Owe(Condition { context, goal }))
}

/// The other components of a tuple, with the first substituted in both types.
fn second_step<T: Theories>(
    theories: &mut T,
    theory: Name,
    context: Context,
    components: u32,
    term: Id,
    first: Id,
    from: Id,
    to: Id,
) -> Result<Next, TypeFault>
    requires theory { IsName (T.state theories.old).stored theory }
    requires coercion { IsCoercionOf (T.state theories.old) theory context term from to }
    requires first { IsTermOf (T.state theories.old) theory first }
    requires components { 2 ≤ components }
    ensures { Steps (T.state theories.old) (T.state theories.new) theory (λ s l. second_outcome l (context_at s context.items) (tree_at s term) components (tree_at s first) (tree_at s from) (tree_at s to)) (λ s l. suc (coercion_work l (tree_at s from) (tree_at s to))) result }
{
    let second = second_part(theories, theory, components, term)?;
    let (second_from, second_to) = substitute_both(theories, theory, from, to, first)?;
    Ok(Next::One(Task::Coerce {
        context,
        term: second,
        from: second_from,
        to: second_to,
    }))
}

/// The application of a function to a new variable of the domain.
fn apply_step<T: Theories>(
    theories: &mut T,
    theory: Name,
    context: Context,
    domain: Id,
    term: Id,
    from: Id,
    to: Id,
) -> Result<Next, TypeFault>
    requires theory { IsName (T.state theories.old).stored theory }
    requires coercion { IsCoercionOf (T.state theories.old) theory context term from to }
    requires domain { IsTypeOf (T.state theories.old) theory domain }
    ensures { Steps (T.state theories.old) (T.state theories.new) theory (λ s l. apply_outcome l (context_at s context.items) (tree_at s domain) (tree_at s term) (tree_at s from) (tree_at s to)) (λ s l. suc (coercion_work l (tree_at s from) (tree_at s to))) result }
{
    let alloc = theories.store().allocator();
    let applied = application(theories, theory, domain, term)?;
    let inner = enter_context(alloc, &context, Assumed::Bind(domain))?;
    Ok(Next::One(Task::Coerce {
        context: inner,
        term: applied,
        from,
        to,
    }))
}

/// One task, where the types above some type are listed.
pub(crate) fn step<T: Theories>(
    theories: &mut T,
    theory: Name,
    above: &Above,
    task: Task,
) -> Result<Next, TypeFault>
    requires theory { IsName (T.state theories.old).stored theory }
    requires above { IsListed (T.state theories.old) theory above.now }
    requires task { IsTaskOf (T.state theories.old) theory task }
    requires ordered { IsOrdered ((T.state theories.old).lookups theory) }
    ensures { Steps (T.state theories.old) (T.state theories.new) theory (λ s l. task_outcome l s task) (λ s l. task_work l s task) result }
{
    match task {
        Task::Coerce {
            context,
            term,
            from,
            to,
        } => coerce_step(theories, theory, above, context, term, from, to),
        Task::Satisfy {
            context,
            predicate,
            term,
        } => satisfy_step(theories, theory, context, predicate, term),
        Task::Second {
            context,
            components,
            term,
            first,
            from,
            to,
        } => second_step(theories, theory, context, components, term, first, from, to),
        Task::Apply {
            context,
            domain,
            term,
            from,
            to,
        } => apply_step(theories, theory, context, domain, term, from, to),
    }
}
