//! A theory that grows by a formal and by an importing.

ghost use Rattle.std.specs.Prelude.{◌≡◌, [], false, bytes_eq, IfOk, OnOk};
ghost use Rattle.pvs_terms.specs.Stored.{IsName, text_at};
ghost use Rattle.pvs_instantiate.specs.InstancesView.{development, Leaves};
ghost use Rattle.pvs_instantiate.specs.code.Importing.{IsEmptyOf, IsImportBy, HasEmpty, HasBoth};

use crate::Instances;
use pvs_cache::NoCache;
use pvs_sig::{FormalSig, Import, Signature};
use pvs_terms::Name;
use std::alloc::{AllocError, Global};
use std::test::Fail;

/// The signature of this name alone.
fn empty(alloc: Global, name: Name) -> Signature
    ensures { IsEmptyOf result name }
{
    Signature {
        name,
        formals: Vec::new(alloc),
        entries: Vec::new(alloc),
        imports: Vec::new(alloc),
    }
}

/// Adds an empty theory, where none stands.
fn add_lower(instances: &mut Instances<NoCache>, lower: Name) -> Result<(), AllocError>
    requires name { IsName instances.old.store lower }
    requires none { development instances.old ≡ [] }
    ensures ok { OnOk result (HasEmpty instances.new lower) }
    ensures store { instances.new.store ≡ instances.old.store }
{
    let signature = empty(instances.allocator(), lower);
    instances.add(signature)?;
    Ok(())
}

/// Adds the theory that is to grow, empty too.
fn add_upper(instances: &mut Instances<NoCache>, lower: Name, upper: Name) -> Result<(), AllocError>
    requires name { IsName instances.old.store upper }
    requires has { HasEmpty instances.old lower }
    requires apart { bytes_eq (text_at instances.old.store lower) (text_at instances.old.store upper) ≡ false }
    ensures ok { OnOk result (HasBoth instances.new lower upper) }
    ensures store { instances.new.store ≡ instances.old.store }
{
    let signature = empty(instances.allocator(), upper);
    instances.add(signature)?;
    Ok(())
}

/// Adds a formal type.
fn grow_by_formal(
    instances: &mut Instances<NoCache>,
    lower: Name,
    upper: Name,
) -> Result<(), AllocError>
    requires name { IsName instances.old.store upper }
    requires has { HasBoth instances.old lower upper }
    ensures ok { OnOk result (HasBoth instances.new lower upper) }
    ensures store { instances.new.store ≡ instances.old.store }
{
    let formal = FormalSig {
        name: upper,
        nonempty: true,
        ty: None,
    };
    instances.grow_formal(upper, formal)?;
    Ok(())
}

/// An importing of the empty theory, before all entries.
fn import_of(alloc: Global, lower: Name) -> Import
    ensures { IsImportBy result lower }
{
    Import {
        theory: lower,
        actuals: Vec::new(alloc),
        place: 0,
    }
}

/// Adds an importing of the empty theory.
fn grow_by_import(
    instances: &mut Instances<NoCache>,
    lower: Name,
    upper: Name,
) -> Result<(), AllocError>
    requires lower { IsName instances.old.store lower }
    requires upper { IsName instances.old.store upper }
    requires has { HasBoth instances.old lower upper }
    ensures ok { OnOk result (HasBoth instances.new lower upper) }
    ensures store { instances.new.store ≡ instances.old.store }
{
    let import = import_of(instances.allocator(), lower);
    instances.grow_import(upper, import)?;
    Ok(())
}

/// Adds two theories, and to one of them a formal and then an importing of the other.
fn grow_by_both(
    instances: &mut Instances<NoCache>,
    lower: Name,
    upper: Name,
) -> Result<(), AllocError>
    requires lower { IsName instances.old.store lower }
    requires upper { IsName instances.old.store upper }
    requires none { development instances.old ≡ [] }
    requires apart { bytes_eq (text_at instances.old.store lower) (text_at instances.old.store upper) ≡ false }
    ensures store { OnOk result (instances.new.store ≡ instances.old.store) }
{
    add_lower(instances, lower)?;
    add_upper(instances, lower, upper)?;
    grow_by_formal(instances, lower, upper)?;
    grow_by_import(instances, lower, upper)
}

/// Whether the theory has one formal, no entry and one importing, which is of this other theory.
fn has_both(instances: &Instances<NoCache>, lower: Name, upper: Name) -> bool
    requires { IsName instances.now.store upper }
{
    match instances.signature(upper) {
        None => false,
        Some(found) => {
            let one_of_each = found.formals.len() == 1 && found.imports.len() == 1;
            one_of_each && found.entries.is_empty() && found.imports[0].theory == lower
        }
    }
}

/// Whether the theory has what it has grown by.
fn grows(instances: &mut Instances<NoCache>, lower: Name, upper: Name) -> Result<bool, AllocError>
    requires lower { IsName instances.old.store lower }
    requires upper { IsName instances.old.store upper }
    requires none { development instances.old ≡ [] }
{
    if instances.store().same_name(lower, upper) {
        return Ok(false);
    }
    grow_by_both(instances, lower, upper)?;
    Ok(has_both(instances, lower, upper))
}

/// The names of the two theories.
fn two_names(instances: &mut Instances<NoCache>) -> Result<(Name, Name), AllocError>
    ensures lower { IfOk result (λ x. IsName instances.new.store x.0) }
    ensures upper { IfOk result (λ x. IsName instances.new.store x.1) }
    ensures kept { Leaves instances.old instances.new }
{
    let lower = instances.name("lower")?;
    let upper = instances.name("upper")?;
    Ok((lower, upper))
}

fn grows_by_both(instances: &mut Instances<NoCache>) -> Result<bool, AllocError>
    requires { development instances.old ≡ [] }
{
    let (lower, upper) = two_names(instances)?;
    grows(instances, lower, upper)
}

#[test]
fn a_theory_grows_by_a_formal_and_an_importing(rt: HostRuntime) -> Result<(), Fail> {
    let mut instances = Instances::new(rt.alloc(), NoCache)?;
    assert!(rt; grows_by_both(&mut instances)?);
    Ok(())
}
