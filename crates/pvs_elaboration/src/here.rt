//! Where an expression stands.

ghost use Rattle.std.specs.Prelude.{◌≡◌, ◌∷◌, IfOk, IfErr};
ghost use Rattle.pvs_elaboration.specs.declared.fault.ElabFault.TheVariants as elab_fault;
ghost use Rattle.pvs_elaboration.specs.Known.{IsUnder, IsBelow, IsNamed, IsUnnamed};

use crate::fault::ElabFault;
use pvs_subst::{Assumed, Context};
use pvs_terms::Id;
use sqlite_items::Items;
use std::alloc::{AllocError, Global};

/// A local name and the term that it stands for, as it was where `at` variables were bound.
#[derive(Clone, Copy)]
pub struct Local {
    pub name: usize,
    pub term: Id,
    pub at: u32,
}

/// The local names and the context, each the innermost first, and the nodes of the type of truth
/// values, of TRUE and FALSE, and of the variable that is bound last.
#[derive(Drop)]
pub struct Here {
    pub locals: Items<Local>,
    pub context: Context,
    pub truth: Id,
    pub yes: Id,
    pub no: Id,
    pub variable: Id,
    /// How many variables are bound.
    pub depth: u32,
}

/// A term and its type.
#[derive(Clone, Copy)]
pub struct Typed {
    pub tree: Id,
    pub ty: Id,
}

/// A context with one item more.
fn extended(alloc: Global, item: Assumed, context: &Context) -> Result<Context, AllocError>
    ensures { IfOk result (λ c. c.items ≡ item ∷ context.now.items) }
{
    let mut items = Vec::new(alloc);
    items.push(item)?;
    items.extend_from_slice(context.items.as_slice())?;
    Ok(Context {
        items: Items::from_vec(items),
    })
}

/// Local names with one more.
fn named(alloc: Global, local: Local, locals: &Items<Local>) -> Result<Items<Local>, AllocError>
    ensures { IfOk result (λ ls. ls ≡ local ∷ locals.now) }
{
    let mut items = Vec::new(alloc);
    items.push(local)?;
    items.extend_from_slice(locals.as_slice())?;
    Ok(Items::from_vec(items))
}

impl Here {
    /// The same place.
    pub(crate) fn copy(&self, alloc: Global) -> Result<Here, AllocError>
        ensures { IfOk result (λ h. h ≡ self.now) }
    {
        let locals = Items::from_slice(alloc, self.locals.as_slice())?;
        let items = Items::from_slice(alloc, self.context.items.as_slice())?;
        Ok(Here {
            locals,
            context: Context { items },
            truth: self.truth,
            yes: self.yes,
            no: self.no,
            variable: self.variable,
            depth: self.depth,
        })
    }

    /// The same place, under a hypothesis.
    pub(crate) fn with_hypothesis(&self, alloc: Global, hypothesis: Id) -> Result<Here, AllocError>
        ensures { IfOk result (IsUnder self.now hypothesis) }
    {
        let locals = Items::from_slice(alloc, self.locals.as_slice())?;
        let context = extended(alloc, Assumed::Hyp(hypothesis), &self.context)?;
        Ok(Here {
            locals,
            context,
            truth: self.truth,
            yes: self.yes,
            no: self.no,
            variable: self.variable,
            depth: self.depth,
        })
    }

    /// The place under a variable of this type, without a name for it.
    ///
    /// Memory also where the number of variables is too great.
    pub(crate) fn with_unnamed(&self, alloc: Global, ty: Id) -> Result<Here, ElabFault>
        ensures memory { IfErr result (λ e. e ≡ elab_fault.Memory) }
        ensures under { IfOk result (IsUnnamed self.now ty) }
    {
        if self.depth == u32::MAX {
            return Err(ElabFault::Memory);
        }
        let locals = Items::from_slice(alloc, self.locals.as_slice())?;
        let context = extended(alloc, Assumed::Bind(ty), &self.context)?;
        Ok(Here {
            locals,
            context,
            truth: self.truth,
            yes: self.yes,
            no: self.no,
            variable: self.variable,
            depth: self.depth + 1,
        })
    }

    /// The same place, with a local name for a term.
    pub(crate) fn with_local(
        &self,
        alloc: Global,
        name: usize,
        term: Id,
    ) -> Result<Here, AllocError>
        ensures { IfOk result (IsNamed self.now name term) }
    {
        let local = Local {
            name,
            term,
            at: self.depth,
        };
        let locals = named(alloc, local, &self.locals)?;
        let items = Items::from_slice(alloc, self.context.items.as_slice())?;
        Ok(Here {
            locals,
            context: Context { items },
            truth: self.truth,
            yes: self.yes,
            no: self.no,
            variable: self.variable,
            depth: self.depth,
        })
    }

    /// The place under a variable of this type, with this name for it.
    ///
    /// Memory also where the number of variables is too great.
    pub(crate) fn with_variable(
        &self,
        alloc: Global,
        name: usize,
        ty: Id,
    ) -> Result<Here, ElabFault>
        ensures memory { IfErr result (λ e. e ≡ elab_fault.Memory) }
        ensures under { IfOk result (IsBelow self.now name ty) }
    {
        if self.depth == u32::MAX {
            return Err(ElabFault::Memory);
        }
        let depth = self.depth + 1;
        let local = Local {
            name,
            term: self.variable,
            at: depth,
        };
        let locals = named(alloc, local, &self.locals)?;
        let context = extended(alloc, Assumed::Bind(ty), &self.context)?;
        Ok(Here {
            locals,
            context,
            truth: self.truth,
            yes: self.yes,
            no: self.no,
            variable: self.variable,
            depth,
        })
    }
}
