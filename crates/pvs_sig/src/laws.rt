//! Laws of developments and scopes, as contracts. The functions have no body: the crates above
//! cite their clauses through the definitions that they share.

ghost use Rattle.pvs_sig.specs.Laws.{IsOverAll, AdditionKeeps, KindsAreOver, OrderIsFree, RemovalStands};
ghost use Rattle.pvs_sig.specs.Laws.{ReachIsOver, ReachIsClosed, WholeIsScope, ScopeIsDistinct, ByInstances};
ghost use Rattle.pvs_sig.specs.SignatureAt.{LaterStoresKeep};
ghost use Rattle.pvs_sig.specs.LookupsOf.{LookupsAreOrdered, FindsKinds};

/// Theories that stand: what a reference is, and what stays the same where a theory comes or goes.
pub fn development_laws()
    // A theory that stands mentions only what stands.
    ensures over_all { IsOverAll }

    // A theory of a new name changes nothing over the others.
    ensures addition { AdditionKeeps }

    // The type, body and formula of a reference mention declared things alone.
    ensures kinds { KindsAreOver }

    // Scopes do not depend on the order in which theories stand.
    ensures order { OrderIsFree }

    // Without a theory that no other mentions, the rest stands.
    ensures removal { RemovalStands }
{}

/// What numbers of a store stand for, a later store leaves.
pub fn stored_laws()
    ensures { LaterStoresKeep }
{}

/// What typing looks up in a development.
pub fn lookup_laws()
    // A defined name is larger than its body.
    ensures ordered { LookupsAreOrdered }

    // A reference whose actuals match the formals is found as what it is.
    ensures found { FindsKinds }
{}

/// Scopes: what an entry sees, and what it may rest on.
pub fn scope_laws()
    // Each reference that is reached is an entry of a theory that stands.
    ensures over { ReachIsOver }

    // What is reached mentions only what is reached.
    ensures closed { ReachIsClosed }
    ensures whole { WholeIsScope }
    ensures distinct { ScopeIsDistinct }

    // What importings bring is told by the visible instances.
    ensures by_instances { ByInstances }
{}
