//! The type, the body and the formula of a reference.

ghost use Rattle.std.specs.Prelude.{◌≡◌, ◌⊎◌, ℕ, [], ◌∷◌, slice_get, map, Some, None, IfOk, IfSome, Err, OnErr, Contains};
ghost use Rattle.pvs_terms.specs.Tree.{IsWithinLimits, AreClosed, Own, Formal, Inst, ref_actuals};
ghost use Rattle.pvs_terms.specs.Stored.{Stored, IsNode, IsName, IsRef, tree_at, ref_at, text_at, Stands, Extends};
ghost use Rattle.pvs_subst.specs.Instance.{instantiate, HasActuals};
ghost use Rattle.pvs_cache.specs.Kept.{AddsOnly};
ghost use Rattle.pvs_cache.specs.declared.key.JudgeKey.{JudgeKey};
ghost use Rattle.pvs_sig.specs.Signature.{kind_at, formal_at, kind_in, formals_in};
ghost use Rattle.pvs_sig.specs.Signature as trees;
ghost use Rattle.pvs_sig.specs.LookupsOf.{constant_type};
ghost use Rattle.pvs_sig.specs.SignatureAt.{option_at, signature_at, entry_kind_at, OptionIn, EntryKindIn, SignatureIn};
ghost use Rattle.pvs_sig.specs.Development.{theory_named, MatchFormals};
ghost use Rattle.pvs_instantiate.specs.InstancesView.{development, Leaves};
ghost use Rattle.pvs_instantiate.specs.Parts.{part_tree, definition, formula, kind_from, instance_kind, IsRefFrom, IsConstant, IsFormula, GivesTree, GivesOption, PassesLimit};
ghost use Rattle.pvs_instantiate.specs.code.KeptTrees.{KeepsTree, FindsTree};
ghost use Rattle.pvs_instantiate.specs.declared.fault.InstFault.{InstFault};

use crate::fault::InstFault;
use crate::instances::Instances;
use pvs_cache::{JudgeKey, Judgements, Part};
use pvs_sig::{EntryKind, Signature};
use pvs_subst::instantiate_node;
use pvs_terms::{Id, Name, RefId, RefKind, Store};
use smallvec::SmallVec;

/// The tree of this part of what an entry declares.
fn part_of_kind(part: Part, kind: &EntryKind) -> Option<Id>
    ensures tree { (s : Stored) → option_at s result ≡ part_tree part (Some (entry_kind_at s kind.now)) }
    ensures stored { (s : Stored) → EntryKindIn s kind.now → OptionIn s result }
{
    match part {
        Part::TypeOf => match *kind {
            EntryKind::ConstSig { ty, .. } => Some(ty),
            _ => None,
        },
        Part::BodyOf => match *kind {
            EntryKind::TypeSig { body, .. } => body,
            EntryKind::ConstSig { body, .. } => body,
            _ => None,
        },
        Part::FormulaOf => match *kind {
            EntryKind::FormulaSig { body, .. } => Some(body),
            _ => None,
        },
    }
}

/// The tree of this part of an entry of the signature.
fn part_of_entry(part: Part, signature: &Signature, number: u32) -> Option<Id>
    ensures tree { (s : Stored) → option_at s result ≡ part_tree part (kind_at (signature_at s signature.now) number) }
    ensures stored { (s : Stored) → SignatureIn s signature.now → OptionIn s result }
{
    match signature.lookup(number) {
        None => None,
        Some(entry) => part_of_kind(part, &entry.kind),
    }
}

/// The tree of this part of a formal of the signature.
fn part_of_formal(part: Part, signature: &Signature, number: u32) -> Option<Id>
    ensures tree { (s : Stored) → option_at s result ≡ part_tree part (formal_at (signature_at s signature.now) number) }
    ensures stored { (s : Stored) → SignatureIn s signature.now → OptionIn s result }
{
    match part {
        Part::TypeOf => match signature.formals.get(number as usize) {
            None => None,
            Some(formal) => formal.ty,
        },
        Part::BodyOf => None,
        Part::FormulaOf => None,
    }
}

/// The tree with the actuals of the reference in place of the formals of the theory.
fn instantiate_by(store: &mut Store, id: Id, theory: Name, r: RefId) -> Result<Id, InstFault>
    requires node { IsNode store.old id }
    requires theory { IsName store.old theory }
    requires reference { IsRef store.old r }
    requires formals { HasActuals (ref_actuals (ref_at store.old r)) (tree_at store.old id) }
    ensures ok { IfOk result (Stands store.new (instantiate (tree_at store.old id) (text_at store.old theory) (ref_actuals (ref_at store.old r)))) }
    ensures large { result ≡ Err InstFault.TooLarge → ¬ IsWithinLimits (instantiate (tree_at store.old id) (text_at store.old theory) (ref_actuals (ref_at store.old r))) }
    ensures many { result ≡ Err InstFault.TooManyInstances → ⊥ }
    ensures kept { Extends store.old store.new }
{
    let actuals = SmallVec::<Id, 4>::from_slice(store.allocator(), store.actuals(r))?;
    let made = instantiate_node(store, id, theory, actuals.as_slice())?;
    Ok(made)
}

/// The tree with the actuals in place of the formals, which is kept for the key, or not.
fn make_and_keep<J: Judgements>(
    store: &mut Store,
    cache: &mut J,
    key: JudgeKey,
    id: Id,
    theory: Name,
) -> Result<Id, InstFault>
    requires node { IsNode store.old id }
    requires theory { IsName store.old theory }
    requires reference { IsRef store.old key.item }
    requires formals { HasActuals (ref_actuals (ref_at store.old key.item)) (tree_at store.old id) }
    ensures ok { IfOk result (Stands store.new (instantiate (tree_at store.old id) (text_at store.old theory) (ref_actuals (ref_at store.old key.item)))) }
    ensures large { result ≡ Err InstFault.TooLarge → ¬ IsWithinLimits (instantiate (tree_at store.old id) (text_at store.old theory) (ref_actuals (ref_at store.old key.item))) }
    ensures many { result ≡ Err InstFault.TooManyInstances → ⊥ }
    ensures kept { Extends store.old store.new }
    ensures pair { IfOk result (λ made. AddsOnly (J.kept cache.old) (J.kept cache.new) (key, made)) }
    ensures pairs { OnErr result (J.kept cache.new ≡ J.kept cache.old) }
{
    let made = instantiate_by(store, id, theory, key.item)?;
    let _ = cache.keep(key, made);
    Ok(made)
}

/// The tree with the actuals in place of the formals, found in the cache or made and kept there.
fn find_or_make<J: Judgements>(
    store: &mut Store,
    cache: &mut J,
    stamp: u64,
    part: Part,
    r: RefId,
    id: Id,
    theory: Name,
) -> Result<Id, InstFault>
    requires node { IsNode store.old id }
    requires theory { IsName store.old theory }
    requires reference { IsRef store.old r }
    requires formals { HasActuals (ref_actuals (ref_at store.old r)) (tree_at store.old id) }
    requires found { FindsTree store.old (J.kept cache.old) (record { stamp = stamp; part = part; item = r }) (instantiate (tree_at store.old id) (text_at store.old theory) (ref_actuals (ref_at store.old r))) }
    ensures ok { IfOk result (Stands store.new (instantiate (tree_at store.old id) (text_at store.old theory) (ref_actuals (ref_at store.old r)))) }
    ensures large { result ≡ Err InstFault.TooLarge → ¬ IsWithinLimits (instantiate (tree_at store.old id) (text_at store.old theory) (ref_actuals (ref_at store.old r))) }
    ensures many { result ≡ Err InstFault.TooManyInstances → ⊥ }
    ensures kept { Extends store.old store.new }
    ensures pairs { KeepsTree store.new (J.kept cache.old) (J.kept cache.new) (record { stamp = stamp; part = part; item = r }) (instantiate (tree_at store.old id) (text_at store.old theory) (ref_actuals (ref_at store.old r))) }
{
    let asked = JudgeKey {
        stamp,
        part,
        item: r,
    };
    if let Some(value) = cache.find(asked) {
        let _node = store.view(value);
        return Ok(value);
    }
    let key = JudgeKey {
        stamp,
        part,
        item: r,
    };
    make_and_keep(store, cache, key, id, theory)
}

/// The number as it is. A node of the store stands for a tree within the limits.
fn stored_option(store: &Store, id: Option<Id>) -> Option<Id>
    requires { OptionIn store.now id }
    ensures { GivesOption store.now (option_at store.now id) result }
{
    if let Some(id) = id {
        let _node = store.view(id);
    }
    id
}

impl<J: Judgements> Instances<J> {
    /// The tree of this part of an own entry of the theory.
    fn own_part(&self, part: Part, theory: Name, number: u32) -> Option<Id>
        requires { IsName self.now.store theory }
        ensures { GivesOption self.now.store (part_tree part (kind_from (development self.now) (text_at self.now.store theory) (Own number))) result }
    {
        match self.find(theory) {
            None => None,
            Some(at) => {
                let found = self.theories.theory(at);
                stored_option(&self.store, part_of_entry(part, &found.signature, number))
            }
        }
    }

    /// The tree of this part of a formal of the theory.
    fn formal_part(&self, part: Part, theory: Name, number: u32) -> Option<Id>
        requires { IsName self.now.store theory }
        ensures { GivesOption self.now.store (part_tree part (kind_from (development self.now) (text_at self.now.store theory) (Formal number))) result }
    {
        match self.find(theory) {
            None => None,
            Some(at) => {
                let found = self.theories.theory(at);
                stored_option(&self.store, part_of_formal(part, &found.signature, number))
            }
        }
    }

    /// The tree of this part of an entry of an instance of the theory.
    fn instance_part(
        &mut self,
        part: Part,
        theory: Name,
        number: u32,
        r: RefId,
    ) -> Result<Option<Id>, InstFault>
        requires theory { IsName self.old.store theory }
        requires reference { IsRef self.old.store r }
        requires is { ref_at self.old.store r ≡ Inst (text_at self.old.store theory) number (ref_actuals (ref_at self.old.store r)) }
        requires formals { (s : trees.Signature) × MatchFormals (development self.old) s (formals_in (theory_named (development self.old) (text_at self.old.store theory))) (ref_actuals (ref_at self.old.store r)) }
        ensures ok { IfOk result (GivesOption self.new.store (part_tree part (instance_kind (development self.old) (text_at self.old.store theory) number (ref_actuals (ref_at self.old.store r))))) }
        ensures large { result ≡ Err InstFault.TooLarge → PassesLimit (part_tree part (instance_kind (development self.old) (text_at self.old.store theory) number (ref_actuals (ref_at self.old.store r)))) }
        ensures many { result ≡ Err InstFault.TooManyInstances → ⊥ }
        ensures kept { Leaves self.old self.new }
    {
        match self.find(theory) {
            None => Ok(None),
            Some(at) => {
                let found = self.theories.theory(at);
                let stamp = found.stamp;
                match part_of_entry(part, &found.signature, number) {
                    None => Ok(None),
                    Some(id) => {
                        let made = find_or_make(
                            &mut self.store,
                            &mut self.cache,
                            stamp,
                            part,
                            r,
                            id,
                            theory,
                        )?;
                        Ok(Some(made))
                    }
                }
            }
        }
    }

    /// The tree of this part of a reference, in the terms of the theory.
    fn part(&mut self, part: Part, theory: Name, r: RefId) -> Result<Option<Id>, InstFault>
        requires theory { IsName self.old.store theory }
        requires reference { IsRef self.old.store r }
        requires over { IsRefFrom (development self.old) (text_at self.old.store theory) (ref_at self.old.store r) }
        ensures ok { IfOk result (GivesOption self.new.store (part_tree part (kind_from (development self.old) (text_at self.old.store theory) (ref_at self.old.store r)))) }
        ensures large { result ≡ Err InstFault.TooLarge → PassesLimit (part_tree part (kind_from (development self.old) (text_at self.old.store theory) (ref_at self.old.store r))) }
        ensures many { result ≡ Err InstFault.TooManyInstances → ⊥ }
        ensures kept { Leaves self.old self.new }
    {
        match self.store.kind(r) {
            RefKind::Own(number) => Ok(self.own_part(part, theory, number)),
            RefKind::Formal(number) => Ok(self.formal_part(part, theory, number)),
            RefKind::Inst(other, number) => self.instance_part(part, other, number, r),
        }
    }

    /// The type of a constant, in the terms of the theory. TooLarge comes exactly where the type
    /// with the actuals in place of the formals passes a limit.
    pub fn type_of(&mut self, theory: Name, r: RefId) -> Result<Id, InstFault>
        requires theory { IsName self.old.store theory }
        requires reference { IsRef self.old.store r }
        requires over { IsRefFrom (development self.old) (text_at self.old.store theory) (ref_at self.old.store r) }
        requires constant { IsConstant (kind_from (development self.old) (text_at self.old.store theory) (ref_at self.old.store r)) }
        ensures ok { IfOk result (GivesTree self.new.store (constant_type (kind_from (development self.old) (text_at self.old.store theory) (ref_at self.old.store r)))) }
        ensures large { result ≡ Err InstFault.TooLarge → PassesLimit (constant_type (kind_from (development self.old) (text_at self.old.store theory) (ref_at self.old.store r))) }
        ensures many { result ≡ Err InstFault.TooManyInstances → ⊥ }
        ensures kept { Leaves self.old self.new }
    {
        match self.part(Part::TypeOf, theory, r)? {
            Some(id) => Ok(id),
            None => unreachable!(),
        }
    }

    /// The body of a constant or a type, in the terms of the theory, `None` exactly where it is
    /// undefined. TooLarge comes exactly where the body with the actuals in place of the formals
    /// passes a limit.
    pub fn body_of(&mut self, theory: Name, r: RefId) -> Result<Option<Id>, InstFault>
        requires theory { IsName self.old.store theory }
        requires reference { IsRef self.old.store r }
        requires over { IsRefFrom (development self.old) (text_at self.old.store theory) (ref_at self.old.store r) }
        ensures ok { IfOk result (GivesOption self.new.store (definition (kind_from (development self.old) (text_at self.old.store theory) (ref_at self.old.store r)))) }
        ensures large { result ≡ Err InstFault.TooLarge → PassesLimit (definition (kind_from (development self.old) (text_at self.old.store theory) (ref_at self.old.store r))) }
        ensures many { result ≡ Err InstFault.TooManyInstances → ⊥ }
        ensures kept { Leaves self.old self.new }
    {
        self.part(Part::BodyOf, theory, r)
    }

    /// The formula of a reference, in the terms of the theory. TooLarge comes exactly where the
    /// formula with the actuals in place of the formals passes a limit.
    pub fn formula_of(&mut self, theory: Name, r: RefId) -> Result<Id, InstFault>
        requires theory { IsName self.old.store theory }
        requires reference { IsRef self.old.store r }
        requires over { IsRefFrom (development self.old) (text_at self.old.store theory) (ref_at self.old.store r) }
        requires formula { IsFormula (kind_from (development self.old) (text_at self.old.store theory) (ref_at self.old.store r)) }
        ensures ok { IfOk result (GivesTree self.new.store (formula (kind_from (development self.old) (text_at self.old.store theory) (ref_at self.old.store r)))) }
        ensures large { result ≡ Err InstFault.TooLarge → PassesLimit (formula (kind_from (development self.old) (text_at self.old.store theory) (ref_at self.old.store r))) }
        ensures many { result ≡ Err InstFault.TooManyInstances → ⊥ }
        ensures kept { Leaves self.old self.new }
    {
        match self.part(Part::FormulaOf, theory, r)? {
            Some(id) => Ok(id),
            None => unreachable!(),
        }
    }
}
