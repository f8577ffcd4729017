//! Contexts that are copied, and with one more item.

ghost use Rattle.std.specs.Prelude.{◌≡◌, ◌∷◌, IfOk};

use pvs_subst::{Assumed, Context};
use sqlite_items::Items;
use std::alloc::{AllocError, Global};

/// The same context.
pub(crate) fn copy_context(alloc: Global, g: &Context) -> Result<Context, AllocError>
    ensures { IfOk result (λ h. h.items ≡ g.now.items) }
{
    let items = Items::from_slice(alloc, g.items.as_slice())?;
    Ok(Context { items })
}

/// The context inside an item.
pub(crate) fn enter_context(
    alloc: Global,
    g: &Context,
    item: Assumed,
) -> Result<Context, AllocError>
    ensures { IfOk result (λ h. h.items ≡ item ∷ g.now.items) }
{
    let mut items = Items::new(alloc);
    items.push(item)?;
    let outer = Items::from_slice(alloc, g.items.as_slice())?;
    items.append(outer)?;
    Ok(Context { items })
}
