//! What names stand for.

ghost use Rattle.std.specs.Prelude.{length};
ghost use Rattle.pvs_terms.specs.Stored.{Stored};
ghost use Rattle.pvs_sig.specs.Signature.{Signature};
ghost use Rattle.pvs_sig.specs.Development.{Development};
ghost use Rattle.pvs_elab.specs.Names.{names_at};
ghost use Rattle.pvs_scope.specs.Refers.{Refers, RefersTyped};
ghost use Rattle.pvs_scope.specs.NamesAt.{NamesAt};

use crate::place::PlaceNames;
use pvs_base::Code;
use pvs_names::NameKind;
use pvs_terms::{Id, RefId};

impl PlaceNames {
    /// The type of a name by itself (PVS Language Reference, names). This takes no memory.
    ///
    /// Unknown: the place sees no type of this name. OutOfProfile: nor does this checker have it,
    /// though PVS does. Ambiguous: several importings bring one.
    pub fn type_named(&self, name: &[u8]) -> Result<RefId, Code>
        ensures { (s : Stored) (d : Development) (g : Signature) → NamesAt s self.now d g → Refers s result ((names_at d g (length g.entries)).type_named name.now) }
    {
        self.plain(NameKind::TypeName, name)
    }

    /// The constant or formal of a name by itself. A VAR hides an imported constant of its name,
    /// and is none. This takes no memory.
    ///
    /// The codes are those of `type_named`.
    pub fn constant_named(&self, name: &[u8]) -> Result<RefId, Code>
        ensures { (s : Stored) (d : Development) (g : Signature) → NamesAt s self.now d g → Refers s result ((names_at d g (length g.entries)).constant_named name.now) }
    {
        self.constant(name)
    }

    /// The own VAR of a name, with its type. This takes no memory.
    ///
    /// Unknown: no own entry or formal of this name is a VAR. Ambiguous: several have the name.
    pub fn variable_named(&self, name: &[u8]) -> Result<(RefId, Id), Code>
        ensures { (s : Stored) (d : Development) (g : Signature) → NamesAt s self.now d g → RefersTyped s result ((names_at d g (length g.entries)).variable_named name.now) }
    {
        self.variable(name)
    }
}
