//! The public calls, with caches that count, forget at random and refuse each pair.

mod caches;
mod growing;

ghost use Rattle.std.specs.Prelude.{◌≡◌, ℕ, [], ◌∷◌, false, Some, None, IfOk};
ghost use Rattle.pvs_terms.specs.Tree as tree;
ghost use Rattle.pvs_terms.specs.Stored.{Stands, Extends, IsName, IsNode, text_at, tree_at};
ghost use Rattle.pvs_terms.specs.declared.shape.Sort.TheVariants.{OfTerm};
ghost use Rattle.pvs_sig.specs.declared.signature.Class.TheVariants as class;
ghost use Rattle.pvs_sig.specs.declared.signature.EntryKind.TheVariants as kind;
ghost use Rattle.pvs_instantiate.specs.InstancesView.{development, Leaves};
ghost use Rattle.pvs_instantiate.specs.code.Examples.{AreExampleTrees, AreExampleRefs, IsExampleOf, HasExample, IsSimple};

use crate::{InstFault, Instances};
use caches::{Counting, Forgetful, Refusing};
use pvs_cache::{Judgements, NoCache};
use pvs_sig::{Class, Entry, EntryKind, FormalSig, Signature};
use pvs_terms::{Id, Name, Node, RefId, RefKind};
use std::alloc::{AllocError, Global};
use std::test::Fail;

/// The trees of the example: its type formal, BOOLEAN, TRUE and FALSE.
#[derive(Clone, Copy)]
struct Trees {
    formal: Id,
    boolean: Id,
    truth: Id,
    falsity: Id,
}

/// The name of the example, and its constant and its lemma in the instance with BOOLEAN.
#[derive(Clone, Copy)]
struct Refs {
    theory: Name,
    constant: RefId,
    lemma: RefId,
}

/// The type, the body and the formula that are asked for.
#[derive(PartialEq, Eq, Drop)]
struct Parts {
    ty: Id,
    body: Option<Id>,
    formula: Id,
}

/// The first formal, as a type.
fn formal_type<J: Judgements>(instances: &mut Instances<J>) -> Result<Id, Fail>
    ensures ok { IfOk result (Stands instances.new.store (tree.TName (tree.Formal 0))) }
    ensures kept { IfOk result (λ _. Leaves instances.old instances.new) }
{
    let r = instances.reference(RefKind::Formal(0), &[])?;
    let made = instances.make(Node::TName(r))?;
    Ok(made)
}

fn make_trees<J: Judgements>(instances: &mut Instances<J>) -> Result<Trees, Fail>
    ensures ok { IfOk result (λ x. AreExampleTrees instances.new.store x.boolean x.truth x.falsity x.formal) }
    ensures kept { IfOk result (λ _. Leaves instances.old instances.new) }
{
    let boolean = instances.make(Node::TBool)?;
    let truth = instances.make(Node::True)?;
    let falsity = instances.make(Node::False)?;
    let formal = formal_type(instances)?;
    Ok(Trees {
        formal,
        boolean,
        truth,
        falsity,
    })
}

fn make_refs<J: Judgements>(instances: &mut Instances<J>, boolean: Id) -> Result<Refs, Fail>
    requires node { IsNode instances.old.store boolean }
    requires is { tree_at instances.old.store boolean ≡ tree.TBool }
    ensures ok { IfOk result (λ x. AreExampleRefs instances.new.store x.theory x.constant x.lemma) }
    ensures kept { IfOk result (λ _. Leaves instances.old instances.new) }
{
    let theory = instances.name("groups")?;
    let constant = instances.reference(RefKind::Inst(theory, 0), &[boolean])?;
    let lemma = instances.reference(RefKind::Inst(theory, 1), &[boolean])?;
    Ok(Refs {
        theory,
        constant,
        lemma,
    })
}

/// The example, where the constant has this body and the lemma is FALSE.
fn signature(alloc: Global, theory: Name, trees: Trees, body: Id) -> Result<Signature, AllocError>
    ensures { IfOk result (λ x. IsExampleOf x theory trees.formal body trees.falsity) }
{
    let formal = FormalSig {
        name: theory,
        nonempty: false,
        ty: None,
    };
    let constant = Entry {
        name: theory,
        kind: EntryKind::ConstSig {
            ty: trees.formal,
            body: Some(body),
        },
    };
    let lemma = Entry {
        name: theory,
        kind: EntryKind::FormulaSig {
            class: Class::Lemma,
            body: trees.falsity,
            owner: 0,
        },
    };
    Ok(Signature {
        name: theory,
        formals: vec![in alloc; formal]?,
        entries: vec![in alloc; constant, lemma]?,
        imports: Vec::new(alloc),
    })
}

/// Adds the example, with this body of its constant.
fn add<J: Judgements>(
    instances: &mut Instances<J>,
    theory: Name,
    trees: Trees,
    body: Id,
) -> Result<u64, Fail>
    requires name { IsName instances.old.store theory }
    requires trees { AreExampleTrees instances.old.store trees.boolean trees.truth trees.falsity trees.formal }
    requires body { IsNode instances.old.store body }
    requires simple { IsSimple OfTerm (tree_at instances.old.store body) }
    requires none { development instances.old ≡ [] }
    ensures ok { IfOk result (λ _. HasExample instances.new theory) }
    ensures store { IfOk result (λ _. instances.new.store ≡ instances.old.store) }
{
    let example = signature(instances.allocator(), theory, trees, body)?;
    let stamp = instances.add(example)?;
    Ok(stamp)
}

/// Adds a constant to the example.
fn grow<J: Judgements>(instances: &mut Instances<J>, theory: Name, trees: Trees) -> Result<(), Fail>
    requires name { IsName instances.old.store theory }
    requires trees { AreExampleTrees instances.old.store trees.boolean trees.truth trees.falsity trees.formal }
    requires has { HasExample instances.old theory }
    ensures ok { IfOk result (λ _. HasExample instances.new theory) }
    ensures store { IfOk result (λ _. instances.new.store ≡ instances.old.store) }
{
    let entry = Entry {
        name: theory,
        kind: EntryKind::ConstSig {
            ty: trees.boolean,
            body: Some(trees.truth),
        },
    };
    instances.grow_entry(theory, entry)?;
    Ok(())
}

/// Takes the example out.
fn remove<J: Judgements>(instances: &mut Instances<J>, theory: Name) -> bool
    requires name { IsName instances.old.store theory }
    requires has { HasExample instances.old theory }
    ensures rest { development instances.new ≡ [] }
    ensures store { instances.new.store ≡ instances.old.store }
{
    instances.remove(theory).is_some()
}

/// What the references of the example are.
fn ask<J: Judgements>(instances: &mut Instances<J>, refs: Refs) -> Result<Parts, InstFault>
    requires refs { AreExampleRefs instances.old.store refs.theory refs.constant refs.lemma }
    requires has { HasExample instances.old refs.theory }
    ensures refs { IfOk result (λ _. AreExampleRefs instances.new.store refs.theory refs.constant refs.lemma) }
    ensures has { IfOk result (λ _. HasExample instances.new refs.theory) }
    ensures kept { IfOk result (λ _. Extends instances.old.store instances.new.store) }
{
    let ty = instances.type_of(refs.theory, refs.constant)?;
    let body = instances.body_of(refs.theory, refs.constant)?;
    let formula = instances.formula_of(refs.theory, refs.lemma)?;
    Ok(Parts { ty, body, formula })
}

/// No theory stands, and the trees and references of the example are there.
fn begin<J: Judgements>(alloc: Global, cache: J) -> Result<(Instances<J>, Trees, Refs), Fail>
    ensures trees { IfOk result (λ x. AreExampleTrees x.0.store x.1.boolean x.1.truth x.1.falsity x.1.formal) }
    ensures refs { IfOk result (λ x. AreExampleRefs x.0.store x.2.theory x.2.constant x.2.lemma) }
    ensures none { IfOk result (λ x. development x.0 ≡ []) }
{
    let mut instances = Instances::new(alloc, cache)?;
    let trees = make_trees(&mut instances)?;
    let refs = make_refs(&mut instances, trees.boolean)?;
    Ok((instances, trees, refs))
}

/// Whether each part is right, after the example with this body of its constant is added, when it is
/// asked for again, and after the example has grown. It is taken out then.
fn is_answered<J: Judgements>(
    instances: &mut Instances<J>,
    trees: Trees,
    refs: Refs,
    body: Id,
) -> Result<bool, Fail>
    requires trees { AreExampleTrees instances.old.store trees.boolean trees.truth trees.falsity trees.formal }
    requires refs { AreExampleRefs instances.old.store refs.theory refs.constant refs.lemma }
    requires body { IsNode instances.old.store body }
    requires simple { IsSimple OfTerm (tree_at instances.old.store body) }
    requires none { development instances.old ≡ [] }
    ensures trees { IfOk result (λ _. AreExampleTrees instances.new.store trees.boolean trees.truth trees.falsity trees.formal) }
    ensures refs { IfOk result (λ _. AreExampleRefs instances.new.store refs.theory refs.constant refs.lemma) }
    ensures none { IfOk result (λ _. development instances.new ≡ []) }
{
    add(instances, refs.theory, trees, body)?;
    let made = ask(instances, refs)?;
    let kept = ask(instances, refs)?;
    grow(instances, refs.theory, trees)?;
    let grown = ask(instances, refs)?;
    let removed = remove(instances, refs.theory);
    let right = Parts {
        ty: trees.boolean,
        body: Some(body),
        formula: trees.falsity,
    };
    Ok(made == right && kept == right && grown == right && removed)
}

/// Whether each part is right for two theories of one name, the second of which comes after the
/// first has gone. The cache is handed back.
fn answers<J: Judgements>(alloc: Global, cache: J) -> Result<(bool, Instances<J>), Fail> {
    let (mut instances, trees, refs) = begin(alloc, cache)?;
    let first = is_answered(&mut instances, trees, refs, trees.truth)?;
    let second = is_answered(&mut instances, trees, refs, trees.falsity)?;
    Ok((first && second, instances))
}

#[test]
fn each_cache_gives_the_same_answers(rt: HostRuntime) -> Result<(), Fail> {
    assert!(rt; answers(rt.alloc(), NoCache)?.0);
    assert!(rt; answers(rt.alloc(), Refusing)?.0);
    for seed in 0..4 {
        assert!(rt; answers(rt.alloc(), Forgetful::new(rt.alloc(), seed))?.0);
    }
    Ok(())
}

#[test]
fn kept_trees_are_found(rt: HostRuntime) -> Result<(), Fail> {
    let (right, instances) = answers(rt.alloc(), Counting::new(rt.alloc()))?;
    assert!(rt; right);
    assert!(rt; instances.cache.asked == 18);
    assert!(rt; instances.cache.found == 12);
    Ok(())
}

/// The example alone.
fn example_alone(alloc: Global) -> Result<(Instances<NoCache>, Name), Fail>
    ensures name { IfOk result (λ x. IsName x.0.store x.1) }
    ensures has { IfOk result (λ x. HasExample x.0 x.1) }
{
    let (mut instances, trees, refs) = begin(alloc, NoCache)?;
    add(&mut instances, refs.theory, trees, trees.truth)?;
    Ok((instances, refs.theory))
}

/// Whether no instance is visible at the end of the example.
fn sees_nothing(instances: &mut Instances<NoCache>, theory: Name) -> Result<bool, InstFault>
    requires name { IsName instances.old.store theory }
    requires has { HasExample instances.old theory }
{
    let scope = instances.scope_of(theory, 2)?;
    Ok(scope.place == 2 && scope.instances.is_empty())
}

#[test]
fn a_theory_without_importings_sees_no_instances(rt: HostRuntime) -> Result<(), Fail> {
    let (mut instances, theory) = example_alone(rt.alloc())?;
    assert!(rt; instances.signature(theory).is_some());
    assert!(rt; sees_nothing(&mut instances, theory)?);
    Ok(())
}

fn lifted<J: Judgements>(instances: &mut Instances<J>) -> Result<Node, Fail> {
    let variable = instances.make(Node::Var(0))?;
    let made = instances.lift(variable, 2, 0)?;
    Ok(instances.store().view(made))
}

fn substituted<J: Judgements>(instances: &mut Instances<J>) -> Result<Node, Fail> {
    let variable = instances.make(Node::Var(0))?;
    let truth = instances.make(Node::True)?;
    let made = instances.put_in(variable, truth)?;
    Ok(instances.store().view(made))
}

fn instantiated<J: Judgements>(instances: &mut Instances<J>) -> Result<Node, Fail> {
    let theory = instances.name("groups")?;
    let boolean = instances.make(Node::TBool)?;
    let made = instances.instantiate_node(boolean, theory, &[])?;
    instances.soundness();
    Ok(instances.store().view(made))
}

#[test]
fn trees_are_made_in_the_store(rt: HostRuntime) -> Result<(), Fail> {
    let mut instances = Instances::new(rt.alloc(), NoCache)?;
    assert!(rt; lifted(&mut instances)? == Node::Var(2));
    assert!(rt; substituted(&mut instances)? == Node::True);
    assert!(rt; instantiated(&mut instances)? == Node::TBool);
    Ok(())
}
