//! The theory that the trees of the tests are printed in.

ghost use Rattle.std.specs.Prelude.{◌≡◌, [], IfOk};
ghost use Rattle.pvs_terms.specs.Stored.{Extends, IsName};
ghost use Rattle.pvs_instantiate.specs.InstancesView.{development, Leaves};
ghost use Rattle.pvs_printer_tests.specs.Known.{AreNames, AreTrees, IsTheoryOf};

use crate::fault::TreeFault;
use pvs_cache::NoCache;
use pvs_instantiate::Instances;
use pvs_sig::{Entry, EntryKind, FormalSig, Signature};
use pvs_terms::{Id, Name, Node};
use std::alloc::{AllocError, Global};

/// The names of a theory, of its type formal and of its constant.
#[derive(Clone, Copy)]
struct Names {
    theory: Name,
    formal: Name,
    constant: Name,
}

fn make_names(instances: &mut Instances<NoCache>) -> Result<Names, TreeFault>
    ensures names { IfOk result (λ n. AreNames instances.new.store n.theory n.formal n.constant) }
    ensures theories { IfOk result (λ _. development instances.new ≡ development instances.old) }
{
    let theory = instances.name("groups")?;
    let formal = instances.name("T")?;
    let constant = instances.name("p")?;
    Ok(Names {
        theory,
        formal,
        constant,
    })
}

/// BOOLEAN and TRUE.
fn make_trees(instances: &mut Instances<NoCache>) -> Result<(Id, Id), TreeFault>
    ensures trees { IfOk result (λ p. AreTrees instances.new.store p.0 p.1) }
    ensures kept { IfOk result (λ _. Extends instances.old.store instances.new.store) }
    ensures theories { IfOk result (λ _. development instances.new ≡ development instances.old) }
{
    let boolean = instances.make(Node::TBool)?;
    let truth = instances.make(Node::True)?;
    Ok((boolean, truth))
}

fn signature(alloc: Global, names: Names, boolean: Id, truth: Id) -> Result<Signature, AllocError>
    ensures { IfOk result (λ g. IsTheoryOf g names.theory names.formal names.constant boolean truth) }
{
    let formal = FormalSig {
        name: names.formal,
        nonempty: false,
        ty: None,
    };
    let constant = Entry {
        name: names.constant,
        kind: EntryKind::ConstSig {
            ty: boolean,
            body: Some(truth),
        },
    };
    Ok(Signature {
        name: names.theory,
        formals: vec![in alloc; formal]?,
        entries: vec![in alloc; constant]?,
        imports: Vec::new(alloc),
    })
}

/// Adds the theory with these names.
fn stand(
    instances: &mut Instances<NoCache>,
    names: Names,
    boolean: Id,
    truth: Id,
) -> Result<u64, TreeFault>
    requires names { AreNames instances.old.store names.theory names.formal names.constant }
    requires trees { AreTrees instances.old.store boolean truth }
    requires none { development instances.old ≡ [] }
    ensures { IfOk result (λ _. instances.new.store ≡ instances.old.store) }
{
    let theory = signature(instances.allocator(), names, boolean, truth)?;
    let stamp = instances.add(theory)?;
    Ok(stamp)
}

/// Adds the theory `groups [T: TYPE]` with the constant `p: bool = TRUE`, and hands out its name.
pub(crate) fn add_theory(instances: &mut Instances<NoCache>) -> Result<Name, TreeFault>
    requires { development instances.old ≡ [] }
    ensures { IfOk result (IsName instances.new.store) }
{
    let names = make_names(instances)?;
    let theory = names.theory;
    let (boolean, truth) = make_trees(instances)?;
    let _stamp = stand(instances, names, boolean, truth)?;
    Ok(theory)
}
