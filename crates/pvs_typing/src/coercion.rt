//! Under which conditions a term of one type is of another.

ghost use Rattle.std.specs.Prelude.{◌≡◌, OnOk};
ghost use Rattle.pvs_terms.specs.Stored.{IsName, tree_at};
ghost use Rattle.pvs_subst.specs.Contexts.{context_at};
ghost use Rattle.pvs_sig.specs.Lookups.{IsOrdered};
ghost use Rattle.pvs_types.specs.Coerce.{coerce};
ghost use Rattle.pvs_typing.specs.Above.{IsListed};
ghost use Rattle.pvs_typing.specs.code.Tasks.{conditions_after, tasks_after};
ghost use Rattle.pvs_typing.specs.State.{IsTypeOf, IsTermOf, IsContextOf, AreConditionsOf};
ghost use Rattle.pvs_typing.specs.Judging.{Coerces, JudgesType};

use crate::contexts::copy_context;
use crate::fault::TypeFault;
use crate::judged::Judged;
use crate::nodes::known_node;
use crate::steps::{list_above, step};
use crate::tasks::{Above, Next, Task};
use crate::theories::Theories;
use pvs_subst::{Condition, Context};
use pvs_terms::{Id, Name};
use std::alloc::AllocError;

/// Adds what follows a step, so that the first task is the last in the list.
fn add_next(
    tasks: &mut Vec<Task>,
    conditions: &mut Vec<Condition>,
    next: Next,
) -> Result<(), AllocError>
    ensures tasks { OnOk result (tasks.new.items ≡ tasks_after tasks.old.items next) }
    ensures conditions { OnOk result (conditions.new.items ≡ conditions_after conditions.old.items next) }
{
    match next {
        Next::Done => {}
        Next::Owe(condition) => conditions.push(condition)?,
        Next::One(first) => tasks.push(first)?,
        Next::Two(first, second) => {
            tasks.push(second)?;
            tasks.push(first)?;
        }
        Next::Three(first, second, third) => {
            tasks.push(third)?;
            tasks.push(second)?;
            tasks.push(first)?;
        }
    }
    Ok(())
}

/// Adds the conditions under which a term of the type `from` is of the type `to`, where the types above
/// some type are listed.
fn coerce_listed<T: Theories>(
    theories: &mut T,
    theory: Name,
    above: &Above,
    g: &Context,
    term: Id,
    from: Id,
    to: Id,
    conditions: &mut Vec<Condition>,
) -> Result<(), TypeFault>
    requires theory { IsName (T.state theories.old).stored theory }
    requires above { IsListed (T.state theories.old) theory above.now }
    requires context { IsContextOf (T.state theories.old) theory g.now.items }
    requires term { IsTermOf (T.state theories.old) theory term }
    requires from { IsTypeOf (T.state theories.old) theory from }
    requires to { IsTypeOf (T.state theories.old) theory to }
    requires conditions { AreConditionsOf (T.state theories.old) theory conditions.old.items }
    requires ordered { IsOrdered ((T.state theories.old).lookups theory) }
    ensures { Coerces (T.state theories.old) (T.state theories.new) theory conditions.old.items conditions.new.items (λ s l. coerce l (context_at s g.now.items) (tree_at s term) (tree_at s from) (tree_at s to)) result }
{
    let alloc = theories.store().allocator();
    let context = copy_context(alloc, g)?;
    let mut tasks = Vec::new(alloc);
    tasks.push(Task::Coerce {
        context,
        term,
        from,
        to,
    })?;
    while let Some(task) = tasks.pop() {
        let next = step(theories, theory, above, task)?;
        add_next(&mut tasks, conditions, next)?;
    }
    Ok(())
}

/// Adds the conditions under which a term of the type `from` is of the type `to`.
pub(crate) fn coerce_of<T: Theories>(
    theories: &mut T,
    theory: Name,
    g: &Context,
    term: Id,
    from: Id,
    to: Id,
    conditions: &mut Vec<Condition>,
) -> Result<(), TypeFault>
    requires theory { IsName (T.state theories.old).stored theory }
    requires context { IsContextOf (T.state theories.old) theory g.now.items }
    requires term { IsTermOf (T.state theories.old) theory term }
    requires from { IsTypeOf (T.state theories.old) theory from }
    requires to { IsTypeOf (T.state theories.old) theory to }
    requires conditions { AreConditionsOf (T.state theories.old) theory conditions.old.items }
    requires ordered { IsOrdered ((T.state theories.old).lookups theory) }
    ensures { Coerces (T.state theories.old) (T.state theories.new) theory conditions.old.items conditions.new.items (λ s l. coerce l (context_at s g.now.items) (tree_at s term) (tree_at s from) (tree_at s to)) result }
{
    let _term = known_node(theories, theory, term);
    let above = list_above(theories, theory, from)?;
    coerce_listed(theories, theory, &above, g, term, from, to, conditions)
}

/// The conditions under which a term of the type `from` is of the type `to` (CSL-97-2, subtypes and
/// dependent types). The type answered is `to`, and no symbol is used.
///
/// Refused with Mismatch where no case applies, and with TooLarge exactly where a tree that a case
/// needs passes a limit.
pub fn coerce<T: Theories>(
    theories: &mut T,
    theory: Name,
    g: &Context,
    term: Id,
    from: Id,
    to: Id,
) -> Result<Judged, TypeFault>
    requires theory { IsName (T.state theories.old).stored theory }
    requires context { IsContextOf (T.state theories.old) theory g.now.items }
    requires term { IsTermOf (T.state theories.old) theory term }
    requires from { IsTypeOf (T.state theories.old) theory from }
    requires to { IsTypeOf (T.state theories.old) theory to }
    requires ordered { IsOrdered ((T.state theories.old).lookups theory) }
    ensures { JudgesType (T.state theories.old) (T.state theories.new) theory to (λ s l. coerce l (context_at s g.now.items) (tree_at s term) (tree_at s from) (tree_at s to)) result }
{
    let alloc = theories.store().allocator();
    let mut conditions = Vec::new(alloc);
    coerce_of(theories, theory, g, term, from, to, &mut conditions)?;
    Ok(Judged {
        ty: to,
        conditions,
        uses: Vec::new(alloc),
    })
}
