//! References by number.

ghost use Rattle.std.specs.Prelude.{◌≡◌, ℕ, ◌<◌, ◌≤◌, length, IfOk, OnErr};

use crate::fault::MakeFault;
use crate::measure::Measure;
use crate::node::{Id, RefId, RefKind};
use crate::refs::RefKey;
use crate::store::Store;
use smallvec::SmallVec;

impl Store {
    ghost use Rattle.std.specs.Prelude.{◌≢◌, IfSome, IfNone, Err};
    ghost use Rattle.pvs_terms.specs.Tree.{ref_actuals, AreClosed, IsWithinLimits, Const};
    ghost use Rattle.pvs_terms.specs.Stored.{tree_at, ref_at, trees_at, IsNode, IsRef, AreNodes, AllBelow, KindIn, MayHave};
    ghost use Rattle.pvs_terms.specs.Stored.{ref_of, given_ref, StandsRef, Extends};
    ghost use Rattle.pvs_terms.specs.code.Measures.{ref_measure, trees_measure, IsRoomy};
    ghost use Rattle.pvs_terms.specs.Sorts.{AreSorted};
    ghost use Rattle.pvs_terms.specs.code.StoreView.{IsNew};

    /// What the reference is, but for its actuals.
    pub fn kind(&self, r: RefId) -> RefKind
        requires { IsRef self.now r }
        ensures ref_is { ref_at self.now r ≡ ref_of self.now result (ref_actuals (ref_at self.now r)) }
        ensures named { KindIn self.now result }

        // A node on the reference is within the limits.
        ensures fits { IsWithinLimits (Const (ref_at self.now r)) }
    {
        self.refs.entry(r.number()).0.kind
    }

    /// The actuals of the reference, in order. Only an instance has some.
    pub fn actuals(&self, r: RefId) -> &[Id]
        requires { IsRef self.now r }
        ensures trees { trees_at self.now result.now ≡ ref_actuals (ref_at self.now r) }
        ensures nodes { AreNodes self.now result.now }

        // None has a free index, each has parts of the right sorts, and a node on the reference is
        // within the limits.
        ensures closed { AreClosed (ref_actuals (ref_at self.now r)) }
        ensures sorted { AreSorted (ref_actuals (ref_at self.now r)) }
        ensures fits { IsWithinLimits (Const (ref_at self.now r)) }
    {
        self.refs.entry(r.number()).0.actuals.as_slice()
    }

    /// The number of a reference, where there is one.
    fn find(&self, key: &RefKey) -> Option<RefId>
        requires named { KindIn self.now key.now.kind }
        requires may_have { MayHave key.now.kind key.now.actuals.items }
        requires actuals { AllBelow (length self.now.nodes) key.now.actuals.items }
        ensures some { IfSome result (StandsRef self.now (given_ref self.now key.now.kind key.now.actuals.items)) }
        ensures only { IfSome result (λ r. (q : ℕ) → IsRef self.now q → ref_at self.now q ≡ given_ref self.now key.now.kind key.now.actuals.items → q ≡ r) }
        ensures none { IfNone result ((r : ℕ) → IsRef self.now r → ref_at self.now r ≡ given_ref self.now key.now.kind key.now.actuals.items → ⊥) }
    {
        self.names.one_number_per_text();
        match self.refs.find(key) {
            Some(at) => Some(RefId::new(at)),
            None => None,
        }
    }

    /// The measure of the actuals, while a node on them is within the limits.
    fn measure_all(&self, xs: &[Id]) -> Option<Measure>
        requires { AllBelow (length self.now.nodes) xs.now }
        ensures some { IfSome result (λ m. IsRoomy m × (m ≡ trees_measure (trees_at self.now xs.now))) }
        ensures none { IfNone result (IsRoomy (trees_measure (trees_at self.now xs.now)) → ⊥) }
    {
        match xs.split_first() {
            None => Some(Measure::none()),
            Some((x, xs)) => {
                let rest = self.measure_all(xs)?;
                let all = self.measure_at(*x).beside(rest);
                if all.is_roomy() { Some(all) } else { None }
            }
        }
    }

    /// The measure of the reference, while a node on it is within the limits.
    fn measure_given(&self, kind: &RefKind, actuals: &[Id]) -> Option<Measure>
        requires { AllBelow (length self.now.nodes) actuals.now }
        ensures some { IfSome result (λ m. m ≡ ref_measure (given_ref self.now kind.now actuals.now)) }
        ensures fits { IfSome result (λ _. IsWithinLimits (Const (given_ref self.now kind.now actuals.now))) }
        ensures none { IfNone result (¬ IsWithinLimits (Const (given_ref self.now kind.now actuals.now))) }
    {
        match *kind {
            RefKind::Own(_) => Some(Measure::none().of_ref(true)),
            RefKind::Formal(_) => Some(Measure::none().of_ref(true)),
            RefKind::Inst(_, _) => {
                let all = self.measure_all(actuals)?;
                Some(all.of_ref(false))
            }
        }
    }

    /// The number of a reference. Only an instance has actuals, and they are closed.
    pub fn reference(&mut self, kind: RefKind, actuals: &[Id]) -> Result<RefId, MakeFault>
        requires named { KindIn self.old kind }
        requires may_have { MayHave kind actuals.now }
        requires actuals { AreNodes self.old actuals.now }
        requires closed { AreClosed (trees_at self.old actuals.now) }
        ensures ok { IfOk result (StandsRef self.new (given_ref self.old kind actuals.now)) }

        // Equal references have equal numbers.
        ensures only { IfOk result (λ r. (q : ℕ) → IsRef self.new q → ref_at self.new q ≡ given_ref self.old kind actuals.now → q ≡ r) }

        // A node on the reference would pass a limit.
        ensures large { result ≡ Err MakeFault.TooLarge → ¬ IsWithinLimits (Const (given_ref self.old kind actuals.now)) }
        ensures kept { Extends self.old self.new }
        ensures err { OnErr result (self.new ≡ self.old) }
    {
        let copied = SmallVec::from_slice(self.alloc, actuals)?;
        let key = RefKey {
            kind,
            actuals: copied,
        };
        if let Some(r) = self.find(&key) {
            return Ok(r);
        }
        match self.measure_given(&kind, actuals) {
            None => Err(MakeFault::TooLarge),
            Some(measure) => self.push_reference(key, measure),
        }
    }

    fn push_reference(&mut self, key: RefKey, measure: Measure) -> Result<RefId, MakeFault>
        requires { IsNew self.old key.kind key.actuals.items measure }
        ensures ok { IfOk result (StandsRef self.new (given_ref self.old key.kind key.actuals.items)) }
        ensures only { IfOk result (λ r. (q : ℕ) → IsRef self.new q → ref_at self.new q ≡ given_ref self.old key.kind key.actuals.items → q ≡ r) }
        ensures kept { Extends self.old self.new }
        ensures large { result ≢ Err MakeFault.TooLarge }
        ensures err { OnErr result (self.new ≡ self.old) }
    {
        let at = self.refs.push(key, measure)?;
        Ok(RefId::new(at))
    }
}
