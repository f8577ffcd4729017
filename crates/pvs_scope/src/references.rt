//! References to entries and formals of the theory that is being read.

ghost use Rattle.std.specs.Prelude.{IfOk};
ghost use Rattle.pvs_terms.specs.Tree.{Own, Formal};
ghost use Rattle.pvs_terms.specs.Stored.{StandsRef};
ghost use Rattle.pvs_instantiate.specs.InstancesView.{Leaves};
ghost use Rattle.pvs_names.specs.code.Index.{IsDistinct};

use pvs_cache::Judgements;
use pvs_instantiate::Instances;
use pvs_terms::{RefId, RefKind};
use std::alloc::AllocError;

/// Names and references of the store that `instances` keeps are distinct. It does nothing.
pub(crate) fn distinct<J: Judgements>(instances: &Instances<J>)
    ensures { IsDistinct instances.now.store }
{
    let store = instances.store();
    store.one_name_per_text();
    store.one_reference();
}

/// The reference of the own entry of this number. It has no actuals, and so passes no limit.
pub(crate) fn entry_reference<J: Judgements>(
    instances: &mut Instances<J>,
    number: u32,
) -> Result<RefId, AllocError>
    ensures ok { IfOk result (StandsRef instances.new.store (Own number)) }
    ensures kept { Leaves instances.old instances.new }
{
    match instances.reference(RefKind::Own(number), &[]) {
        Ok(reference) => Ok(reference),
        Err(_) => Err(AllocError),
    }
}

/// The reference of the formal of this number. It has no actuals, and so passes no limit.
pub(crate) fn formal_reference<J: Judgements>(
    instances: &mut Instances<J>,
    number: u32,
) -> Result<RefId, AllocError>
    ensures ok { IfOk result (StandsRef instances.new.store (Formal number)) }
    ensures kept { Leaves instances.old instances.new }
{
    match instances.reference(RefKind::Formal(number), &[]) {
        Ok(reference) => Ok(reference),
        Err(_) => Err(AllocError),
    }
}
