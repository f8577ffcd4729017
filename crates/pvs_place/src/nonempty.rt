//! Whether a type is known to be nonempty.

ghost use Rattle.std.specs.Prelude.{◌≡◌, ◌++◌, Ok, IfOk, IfErr, OnOk};
ghost use Rattle.pvs_terms.specs.Tree.{Own, Formal, TName};
ghost use Rattle.pvs_terms.specs.declared.shape.Sort.TheVariants.{OfType};
ghost use Rattle.pvs_terms.specs.Stored.{Stored, IsName, IsRef, ref_at, text_at, tree_at};
ghost use Rattle.pvs_sig.specs.Signature.{formal_at, kind_at, kind_in};
ghost use Rattle.pvs_sig.specs.SignatureAt.{signature_at};
ghost use Rattle.pvs_sig.specs.Development.{theory_named};
ghost use Rattle.pvs_sig.specs.LookupsOf.{is_nonempty_kind};
ghost use Rattle.pvs_types.specs.Forms.{is_known_nonempty};
ghost use Rattle.pvs_instantiate.specs.InstancesView.{development};
ghost use Rattle.pvs_instantiate.specs.Parts.{kind_from};
ghost use Rattle.pvs_typing.specs.Answers.{IsRefusal};
ghost use Rattle.pvs_elaboration.specs.Known.{Grows, IsDeclared, IsTypeOf};
ghost use Rattle.pvs_place.specs.Place.{IsDeclaredIn, IsLatest, known_in, lookups_in};
ghost use Rattle.pvs_place.specs.code.Nonempty.{Reduces, needed_types};

use crate::place::Place;
use pvs_cache::Judgements;
use pvs_elaboration::Scope;
use pvs_instantiate::Instances;
use pvs_sig::{EntryKind, Signature};
use pvs_terms::{Id, Name, Node, RefId, RefKind};
use pvs_typing::{Theories, TypeFault};
use std::alloc::AllocError;

/// When a type is known to be nonempty.
#[derive(Clone, Copy, Debug, PartialEq, Eq)]
pub(crate) enum Nonempty {
    Always,
    /// Where this type is.
    If(Id),
    /// Where both are. The first is asked first.
    IfBoth(Id, Id),
    Never,
}

/// Whether an entry is a type that was declared nonempty.
fn is_nonempty_entry(signature: &Signature, number: u32) -> bool
    ensures { (s : Stored) → result ≡ is_nonempty_kind (kind_at (signature_at s signature.now) number) }
{
    match signature.lookup(number) {
        None => false,
        Some(entry) => match entry.kind {
            EntryKind::TypeSig { nonempty, .. } => nonempty,
            _ => false,
        },
    }
}

/// Whether a formal is a type that was declared nonempty.
fn is_nonempty_formal(signature: &Signature, number: u32) -> bool
    ensures { (s : Stored) → result ≡ is_nonempty_kind (formal_at (signature_at s signature.now) number) }
{
    match signature.formals.get(number as usize) {
        None => false,
        Some(formal) => match formal.ty {
            None => formal.nonempty,
            Some(_) => false,
        },
    }
}

/// Whether an entry of the theory of this name is a type that was declared nonempty.
fn is_nonempty_in<J: Judgements>(instances: &Instances<J>, theory: Name, number: u32) -> bool
    requires { IsName instances.now.store theory }
    ensures { result ≡ is_nonempty_kind (kind_in (theory_named (development instances.now) (text_at instances.now.store theory)) number) }
{
    match instances.signature(theory) {
        None => false,
        Some(signature) => is_nonempty_entry(signature, number),
    }
}

/// Whether a formal of the theory of this name is a type that was declared nonempty.
fn is_nonempty_formal_in<J: Judgements>(instances: &Instances<J>, theory: Name, number: u32) -> bool
    requires { IsName instances.now.store theory }
    ensures { result ≡ is_nonempty_kind (kind_from (development instances.now) (text_at instances.now.store theory) (Formal number)) }
{
    match instances.signature(theory) {
        None => false,
        Some(signature) => is_nonempty_formal(signature, number),
    }
}

/// Whether a reference of the latest theory is a type that was declared nonempty.
fn is_nonempty_reference<J: Judgements>(instances: &Instances<J>, theory: Name, r: RefId) -> bool
    requires latest { IsLatest instances.now theory }
    requires reference { IsRef instances.now.store r }
    requires declared { IsDeclaredIn (development instances.now) OfType (ref_at instances.now.store r) }
    ensures { result ≡ (lookups_in (development instances.now)).is_nonempty (ref_at instances.now.store r) }
{
    instances.soundness();
    match instances.store().kind(r) {
        RefKind::Own(number) => is_nonempty_in(instances, theory, number),
        RefKind::Formal(number) => is_nonempty_formal_in(instances, theory, number),
        RefKind::Inst(other, number) => is_nonempty_in(instances, other, number),
    }
}

/// Adds the types that a type needs, so that the first is the last of them.
fn add_needed(types: &mut Vec<Id>, needed: Nonempty) -> Result<(), AllocError>
    ensures { OnOk result (types.new.items ≡ types.old.items ++ needed_types needed) }
{
    match needed {
        Nonempty::If(ty) => types.push(ty)?,
        Nonempty::IfBoth(first, others) => {
            types.push(others)?;
            types.push(first)?;
        }
        _ => {}
    }
    Ok(())
}

impl<J: Judgements> Place<J> {
    /// When a type's name is known to be nonempty: where its body is, or where it was declared so.
    fn nonempty_name(&mut self, r: RefId) -> Result<Nonempty, TypeFault>
        requires { IsDeclared (known_in self.old.store (development self.old)) OfType r }
        ensures ok { IfOk result (Reduces (lookups_in (development self.old)) self.new.store (IsDeclaredIn (development self.new)) (TName (ref_at self.old.store r))) }
        ensures refused { IfErr result (IsRefusal (is_known_nonempty (lookups_in (development self.old)) (TName (ref_at self.old.store r)))) }
        ensures kept { Grows (known_in self.old.store (development self.old)) (known_in self.new.store (development self.new)) }
    {
        self.ordered();
        let theory = self.theory;
        let is_nonempty = is_nonempty_reference(&self.instances, theory, r);
        match self.body_of(theory, r)? {
            Some(body) => Ok(Nonempty::If(body)),
            None if is_nonempty => Ok(Nonempty::Always),
            None => Ok(Nonempty::Never),
        }
    }

    /// When a type is known to be nonempty, by its form.
    fn nonempty(&mut self, ty: Id) -> Result<Nonempty, TypeFault>
        requires { IsTypeOf (known_in self.old.store (development self.old)) ty }
        ensures ok { IfOk result (Reduces (lookups_in (development self.old)) self.new.store (IsDeclaredIn (development self.new)) (tree_at self.old.store ty)) }
        ensures refused { IfErr result (IsRefusal (is_known_nonempty (lookups_in (development self.old)) (tree_at self.old.store ty))) }
        ensures kept { Grows (known_in self.old.store (development self.old)) (known_in self.new.store (development self.new)) }
    {
        self.ordered();
        match self.type_view(ty) {
            Node::TBool => Ok(Nonempty::Always),
            Node::TName(r) => self.nonempty_name(r),
            Node::TFun(_, range) => Ok(Nonempty::If(range)),
            Node::TPair(_, first, others) => Ok(Nonempty::IfBoth(first, others)),
            _ => Ok(Nonempty::Never),
        }
    }

    /// Whether a type is known to be nonempty: the truth values, a type that was declared nonempty, a
    /// defined one whose body is, a function type whose range is, and a tuple type whose components all
    /// are (the PVS Language Reference, type declarations).
    ///
    /// Refused with TooLarge exactly where a body that is asked for, with the actuals in place of the
    /// formals, passes a limit of trees. The components of a tuple type are asked in order, up to the
    /// first that is not known to be nonempty.
    pub fn is_known_nonempty(&mut self, ty: Id) -> Result<bool, TypeFault>
        requires ty { IsTypeOf (known_in self.old.store (development self.old)) ty }
        ensures ok { IfOk result (λ b. is_known_nonempty (lookups_in (development self.old)) (tree_at self.old.store ty) ≡ Ok b) }
        ensures refused { IfErr result (IsRefusal (is_known_nonempty (lookups_in (development self.old)) (tree_at self.old.store ty))) }
        ensures kept { Grows (known_in self.old.store (development self.old)) (known_in self.new.store (development self.new)) }
    {
        let alloc = self.instances.allocator();
        let mut types = Vec::new(alloc);
        types.push(ty)?;
        while let Some(form) = types.pop() {
            match self.nonempty(form)? {
                Nonempty::Never => return Ok(false),
                needed => add_needed(&mut types, needed)?,
            }
        }
        Ok(true)
    }
}
