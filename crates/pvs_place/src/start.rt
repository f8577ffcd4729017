//! Where elaboration begins at a place.

ghost use Rattle.std.specs.Prelude.{IfOk};
ghost use Rattle.pvs_terms.specs.Sorts.{sort_of};
ghost use Rattle.pvs_terms.specs.Stored.{StandsName, node_tree};
ghost use Rattle.pvs_sig.specs.Lookups.{IsOrdered};
ghost use Rattle.pvs_instantiate.specs.InstancesView.{Leaves, development};
ghost use Rattle.pvs_typing.specs.Answers.{Gives};
ghost use Rattle.pvs_typing.specs.Nodes.{HasKnownParts};
ghost use Rattle.pvs_elaboration.specs.Known.{Grows};
ghost use Rattle.pvs_elaboration.specs.Outermost.{IsOutermost};
ghost use Rattle.pvs_place.specs.Place.{IsDeclaredIn, known_in, lookups_in};

use crate::place::Place;
use pvs_cache::Judgements;
use pvs_elaboration::{Here, Scope};
use pvs_subst::Context;
use pvs_terms::{Id, Name, Node};
use sqlite_items::Items;
use std::alloc::AllocError;

impl<J: Judgements> Place<J> {
    /// The name of this text.
    pub fn name(&mut self, text: &str) -> Result<Name, AllocError>
        ensures ok { IfOk result (StandsName self.new.store text.now) }
        ensures kept { Leaves self.old self.new }
    {
        self.instances.name(text)
    }

    /// The number of a node that passes no limit.
    fn leaf(&mut self, node: Node) -> Result<Id, AllocError>
        requires { HasKnownParts self.old.store (IsDeclaredIn (development self.old)) node }
        ensures ok { IfOk result (Gives self.new.store (IsDeclaredIn (development self.new)) (sort_of (node_tree self.old.store node)) (node_tree self.old.store node)) }
        ensures kept { Grows (known_in self.old.store (development self.old)) (known_in self.new.store (development self.new)) }
    {
        match Scope::make(self, node) {
            Ok(id) => Ok(id),
            Err(_) => Err(AllocError),
        }
    }

    /// Each defined type is larger than its body. It does nothing.
    pub(crate) fn ordered(&self)
        ensures { IsOrdered (lookups_in (development self.now)) }
    {
        self.instances.soundness();
    }

    /// Where no name is local and nothing is assumed.
    pub fn outermost(&mut self) -> Result<Here, AllocError>
        ensures ok { IfOk result (IsOutermost (known_in self.new.store (development self.new))) }
        ensures kept { Grows (known_in self.old.store (development self.old)) (known_in self.new.store (development self.new)) }
    {
        let alloc = self.instances.allocator();
        let truth = self.leaf(Node::TBool)?;
        let yes = self.leaf(Node::True)?;
        let no = self.leaf(Node::False)?;
        let variable = self.leaf(Node::Var(0))?;
        self.ordered();
        Ok(Here {
            locals: Items::new(alloc),
            context: Context {
                items: Items::new(alloc),
            },
            truth,
            yes,
            no,
            variable,
            depth: 0,
        })
    }
}
