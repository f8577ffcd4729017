//! Theories that come, go and grow.

ghost use Rattle.std.specs.Prelude.{◌≡◌, ◌<◌, ◌+◌, ◌-◌, ◌^◌, ℕ, [], ◌∷◌, ◌++◌, length, slice_get, Some, None, IfOk, OnOk, OnErr, IfSome, IfNone};
ghost use Rattle.std.specs.Map.{keys_of};
ghost use Rattle.pvs_terms.specs.Stored.{IsName, text_at};
ghost use Rattle.pvs_sig.specs.SignatureAt.{SignatureIn, FormalIn, EntryIn, ImportIn, signature_at, formal_sig_at, entry_at, import_at};
ghost use Rattle.pvs_sig.specs.Development.{theory_named, IsSignatureOver};
ghost use Rattle.pvs_sig.specs.Laws.{without};
ghost use Rattle.pvs_instantiate.specs.InstancesView.{development, stamps, stamps_from_one};
ghost use Rattle.pvs_instantiate.specs.Standing.{numbered};
ghost use Rattle.pvs_instantiate.specs.Grown.{IsAlone, IsNewStamp, SameStamps, other_stamps, MayGrow, grown, with_formal, with_entry, with_import};
ghost use Rattle.pvs_instantiate.specs.code.Growing.{GrowthIn, with_growth};

use crate::growth::Growth;
use crate::instances::Instances;
use crate::theories::Theory;
use pvs_cache::Judgements;
use pvs_sig::{Entry, FormalSig, Import, Signature};
use pvs_terms::Name;
use std::alloc::AllocError;

/// The stamp of a theory that is added after this one was given.
fn stamp_after(last: u64) -> u64
    requires { last < 2 ^ 64 - 1 }
    ensures { result ≡ last + 1 }
{
    last + 1
}

impl<J: Judgements> Instances<J> {
    /// Sees that a stamp is left: where the last one was given, all pairs are forgotten and the
    /// theories are numbered from 1 on.
    fn leave_stamp(&mut self)
        ensures room { self.new.last_stamp < 2 ^ 64 - 1 }
        ensures store { self.new.store ≡ self.old.store }
        ensures development { development self.new ≡ development self.old }
        ensures same { self.old.last_stamp < 2 ^ 64 - 1 → self.new ≡ self.old }
        ensures anew { self.old.last_stamp ≡ 2 ^ 64 - 1 → (self.new.kept ≡ []) × (self.new.entries ≡ numbered 0 (length self.old.entries) self.old.entries) }
    {
        if self.last_stamp == u64::MAX {
            self.cache.forget();
            self.last_stamp = self.theories.renumber();
        }
    }

    /// Adds a theory. The answer is its stamp, greater than those of all theories that stand and of
    /// all pairs that are kept. Where the last stamp was given, all pairs are forgotten and the
    /// theories are numbered from 1 on before. A refused signature is dropped, and the theory does
    /// not stand.
    pub fn add(&mut self, signature: Signature) -> Result<u64, AllocError>
        requires stored { SignatureIn self.old.store signature }
        requires new { theory_named (development self.old) (text_at self.old.store signature.name) ≡ None }
        requires over { IsSignatureOver (development self.old) (signature_at self.old.store signature) }
        ensures ok { OnOk result (development self.new ≡ signature_at self.old.store signature ∷ development self.old) }
        ensures stamp { IfOk result (λ n. IsNewStamp self.new (text_at self.old.store signature.name) n) }
        ensures others { IfOk result (λ n. self.old.last_stamp < 2 ^ 64 - 1 → (stamps self.new ≡ stamps self.old ++ (text_at self.old.store signature.name, n) ∷ []) × (self.new.kept ≡ self.old.kept)) }
        ensures anew { IfOk result (λ n. self.old.last_stamp ≡ 2 ^ 64 - 1 → (stamps self.new ≡ stamps_from_one self.old ++ (text_at self.old.store signature.name, n) ∷ []) × (self.new.kept ≡ [])) }
        ensures err { OnErr result (development self.new ≡ development self.old) }
        ensures refused { OnErr result (self.old.last_stamp < 2 ^ 64 - 1 → self.new ≡ self.old) }
        ensures store { self.new.store ≡ self.old.store }
    {
        self.leave_stamp();
        let stamp = stamp_after(self.last_stamp);
        let name = signature.name;
        self.theories.push(name, Theory { signature, stamp })?;
        self.last_stamp = stamp;
        Ok(stamp)
    }

    /// Takes out the theory of this name, which stands at this place.
    fn take_out(&mut self, at: usize, theory: Name) -> Signature
        requires at { slice_get (keys_of self.old.entries) at ≡ Some theory }
        requires alone { IsAlone (text_at self.old.store theory) (development self.old) }
        ensures found { SignatureIn self.new.store result × (theory_named (development self.old) (text_at self.old.store theory) ≡ Some (signature_at self.new.store result)) }
        ensures rest { development self.new ≡ without (text_at self.old.store theory) (development self.old) }
        ensures gone { theory_named (development self.new) (text_at self.old.store theory) ≡ None }
        ensures stamps { stamps self.new ≡ other_stamps (text_at self.old.store theory) self.old }
        ensures store { self.new.store ≡ self.old.store }
        ensures kept { self.new.kept ≡ self.old.kept }
    {
        let Theory { signature, .. } = self.theories.remove(at);
        signature
    }

    /// Takes out the theory of this name, which no other theory that stands imports or mentions, and
    /// hands back its signature. `None` exactly where it does not stand. This takes no memory.
    pub fn remove(&mut self, theory: Name) -> Option<Signature>
        requires theory { IsName self.old.store theory }
        requires alone { IsAlone (text_at self.old.store theory) (development self.old) }
        ensures some { IfSome result (λ g. SignatureIn self.new.store g × (theory_named (development self.old) (text_at self.old.store theory) ≡ Some (signature_at self.new.store g))) }
        ensures none { IfNone result (theory_named (development self.old) (text_at self.old.store theory) ≡ None) }
        ensures rest { development self.new ≡ without (text_at self.old.store theory) (development self.old) }
        ensures gone { theory_named (development self.new) (text_at self.old.store theory) ≡ None }
        ensures stamps { stamps self.new ≡ other_stamps (text_at self.old.store theory) self.old }
        ensures store { self.new.store ≡ self.old.store }
        ensures kept { self.new.kept ≡ self.old.kept }
    {
        self.soundness();
        match self.find(theory) {
            None => None,
            Some(at) => Some(self.take_out(at, theory)),
        }
    }

    /// Adds at the end of the theory of this name, which becomes the latest and keeps its stamp.
    fn grow(&mut self, theory: Name, growth: Growth) -> Result<(), AllocError>
        requires theory { IsName self.old.store theory }
        requires within { GrowthIn self.old.store growth }
        requires alone { IsAlone (text_at self.old.store theory) (development self.old) }
        requires over { MayGrow (development self.old) (text_at self.old.store theory) (with_growth self.old.store growth) }
        ensures ok { OnOk result (development self.new ≡ grown (development self.old) (text_at self.old.store theory) (with_growth self.old.store growth)) }
        ensures err { OnErr result (development self.new ≡ development self.old) }
        ensures stamps { SameStamps self.old self.new }
        ensures store { self.new.store ≡ self.old.store }
        ensures kept { self.new.kept ≡ self.old.kept }
    {
        match self.find(theory) {
            None => unreachable!(),
            Some(at) => self.theories.grow(at, growth),
        }
    }

    /// Adds a formal at the end of the theory of this name, which keeps its stamp. No other theory that
    /// stands imports it or mentions an entry of it. After a refusal the theory is as it was.
    pub fn grow_formal(&mut self, theory: Name, formal: FormalSig) -> Result<(), AllocError>
        requires theory { IsName self.old.store theory }
        requires formal { FormalIn self.old.store formal }
        requires alone { IsAlone (text_at self.old.store theory) (development self.old) }
        requires over { MayGrow (development self.old) (text_at self.old.store theory) (with_formal (formal_sig_at self.old.store formal)) }
        ensures ok { OnOk result (development self.new ≡ grown (development self.old) (text_at self.old.store theory) (with_formal (formal_sig_at self.old.store formal))) }
        ensures err { OnErr result (development self.new ≡ development self.old) }
        ensures stamps { SameStamps self.old self.new }
        ensures store { self.new.store ≡ self.old.store }
        ensures kept { self.new.kept ≡ self.old.kept }
    {
        self.grow(theory, Growth::Formal(formal))
    }

    /// Adds an entry at the end of the theory of this name, which keeps its stamp. No other theory that
    /// stands imports it or mentions an entry of it. After a refusal the theory is as it was.
    pub fn grow_entry(&mut self, theory: Name, entry: Entry) -> Result<(), AllocError>
        requires theory { IsName self.old.store theory }
        requires entry { EntryIn self.old.store entry }
        requires alone { IsAlone (text_at self.old.store theory) (development self.old) }
        requires over { MayGrow (development self.old) (text_at self.old.store theory) (with_entry (entry_at self.old.store entry)) }
        ensures ok { OnOk result (development self.new ≡ grown (development self.old) (text_at self.old.store theory) (with_entry (entry_at self.old.store entry))) }
        ensures err { OnErr result (development self.new ≡ development self.old) }
        ensures stamps { SameStamps self.old self.new }
        ensures store { self.new.store ≡ self.old.store }
        ensures kept { self.new.kept ≡ self.old.kept }
    {
        self.grow(theory, Growth::Entry(entry))
    }

    /// Adds an importing at the end of the theory of this name, which keeps its stamp. No other theory that
    /// stands imports it or mentions an entry of it. After a refusal the theory is as it was.
    pub fn grow_import(&mut self, theory: Name, import: Import) -> Result<(), AllocError>
        requires theory { IsName self.old.store theory }
        requires import { ImportIn self.old.store import }
        requires alone { IsAlone (text_at self.old.store theory) (development self.old) }
        requires over { MayGrow (development self.old) (text_at self.old.store theory) (with_import (import_at self.old.store import)) }
        ensures ok { OnOk result (development self.new ≡ grown (development self.old) (text_at self.old.store theory) (with_import (import_at self.old.store import))) }
        ensures err { OnErr result (development self.new ≡ development self.old) }
        ensures stamps { SameStamps self.old self.new }
        ensures store { self.new.store ≡ self.old.store }
        ensures kept { self.new.kept ≡ self.old.kept }
    {
        self.grow(theory, Growth::Import(import))
    }
}
