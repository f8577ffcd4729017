//! The type of a constant of a theory that stands, and what it is defined as.

ghost use Rattle.std.specs.Prelude.{◌≡◌, ℕ, [], ◌∷◌, IfOk};
ghost use Rattle.pvs_terms.specs.Tree as tree;
ghost use Rattle.pvs_terms.specs.Stored.{Stands, IsName, text_at};
ghost use Rattle.pvs_terms.specs.declared.shape.Sort.TheVariants.{OfTerm};
ghost use Rattle.pvs_instantiate.specs.InstancesView.{development, Leaves};
ghost use Rattle.pvs_typing.specs.Growth.{IsKnown};
ghost use Rattle.pvs_typing.specs.Development.{IsDeclaredFrom};
ghost use Rattle.pvs_typing_tests.specs.SmallTheory.{AreTrees, IsTheoryOf, theory_of};

use pvs_cache::NoCache;
use pvs_instantiate::Instances;
use pvs_sig::{Entry, EntryKind, Signature};
use pvs_subst::Context;
use pvs_terms::{Id, Name, Node, RefKind};
use pvs_typing::{TypeFault, development_laws, head, infer};
use sqlite_items::Items;
use std::alloc::{AllocError, Global};
use std::test::Fail;

/// BOOLEAN, the name of the theory's type, and its constant.
#[derive(Clone, Copy)]
struct Trees {
    boolean: Id,
    ty: Id,
    constant: Id,
}

fn own_type(instances: &mut Instances<NoCache>) -> Result<Id, Fail>
    ensures ok { IfOk result (Stands instances.new.store (tree.TName (tree.Own 0))) }
    ensures kept { IfOk result (λ _. Leaves instances.old instances.new) }
{
    let r = instances.reference(RefKind::Own(0), &[])?;
    let made = instances.make(Node::TName(r))?;
    Ok(made)
}

fn own_constant(instances: &mut Instances<NoCache>) -> Result<Id, Fail>
    ensures ok { IfOk result (Stands instances.new.store (tree.Const (tree.Own 1))) }
    ensures kept { IfOk result (λ _. Leaves instances.old instances.new) }
{
    let r = instances.reference(RefKind::Own(1), &[])?;
    let made = instances.make(Node::Const(r))?;
    Ok(made)
}

fn make_trees(instances: &mut Instances<NoCache>) -> Result<Trees, Fail>
    ensures ok { IfOk result (λ x. AreTrees instances.new.store x.boolean x.ty x.constant) }
    ensures kept { IfOk result (λ _. Leaves instances.old instances.new) }
{
    let boolean = instances.make(Node::TBool)?;
    let ty = own_type(instances)?;
    let constant = own_constant(instances)?;
    Ok(Trees {
        boolean,
        ty,
        constant,
    })
}

/// A type that is defined as BOOLEAN, and a constant of that type.
fn signature(alloc: Global, theory: Name, boolean: Id, ty: Id) -> Result<Signature, AllocError>
    ensures { IfOk result (λ g. IsTheoryOf g theory boolean ty) }
{
    let defined = Entry {
        name: theory,
        kind: EntryKind::TypeSig {
            nonempty: false,
            body: Some(boolean),
        },
    };
    let constant = Entry {
        name: theory,
        kind: EntryKind::ConstSig { ty, body: None },
    };
    Ok(Signature {
        name: theory,
        formals: Vec::new(alloc),
        entries: vec![in alloc; defined, constant]?,
        imports: Vec::new(alloc),
    })
}

fn add(instances: &mut Instances<NoCache>, theory: Name, trees: Trees) -> Result<(), Fail>
    requires name { IsName instances.old.store theory }
    requires trees { AreTrees instances.old.store trees.boolean trees.ty trees.constant }
    requires none { development instances.old ≡ [] }
    ensures ok { IfOk result (λ _. development instances.new ≡ theory_of (text_at instances.new.store theory) ∷ []) }
    ensures store { IfOk result (λ _. instances.new.store ≡ instances.old.store) }
{
    let made = signature(instances.allocator(), theory, trees.boolean, trees.ty)?;
    instances.add(made)?;
    Ok(())
}

/// The theory alone, and its constant.
fn begin(instances: &mut Instances<NoCache>) -> Result<(Name, Id), Fail>
    requires none { development instances.old ≡ [] }
    ensures name { IfOk result (λ x. IsName instances.new.store x.0) }
    ensures known { IfOk result (λ x. IsKnown instances.new.store (IsDeclaredFrom (development instances.new) (text_at instances.new.store x.0)) OfTerm x.1) }
{
    let theory = instances.name("theory")?;
    let trees = make_trees(instances)?;
    let constant = trees.constant;
    add(instances, theory, trees)?;
    Ok((theory, constant))
}

/// The head of the type of a constant.
fn type_head(
    instances: &mut Instances<NoCache>,
    theory: Name,
    constant: Id,
) -> Result<Id, TypeFault>
    requires name { IsName instances.old.store theory }
    requires known { IsKnown instances.old.store (IsDeclaredFrom (development instances.old) (text_at instances.old.store theory)) OfTerm constant }
{
    development_laws(instances);
    let context = Context {
        items: Items::new(instances.allocator()),
    };
    let judged = infer(instances, theory, &context, constant)?;
    let form = head(instances, theory, &context, judged.ty)?;
    Ok(form)
}

/// The type of the constant is the theory's own, whose head is BOOLEAN.
fn is_boolean(instances: &mut Instances<NoCache>) -> Result<bool, Fail>
    requires none { development instances.old ≡ [] }
{
    let (theory, constant) = begin(instances)?;
    let form = type_head(instances, theory, constant)?;
    let boolean = instances.make(Node::TBool)?;
    Ok(form == boolean)
}

fn holds(alloc: Global) -> Result<bool, Fail> {
    let mut instances = Instances::new(alloc, NoCache)?;
    is_boolean(&mut instances)
}

#[test]
fn a_constant_has_the_type_of_its_declaration(rt: HostRuntime) -> Result<(), Fail> {
    assert!(rt; holds(rt.alloc())?);
    Ok(())
}
