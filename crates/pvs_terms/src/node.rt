//! Numbers of nodes, names and references, and nodes by their parts.

ghost use Rattle.std.specs.Prelude.{◌≡◌, ℕ};

use std::marker::Model;

/// The number of a node in its store.
#[derive(Clone, Copy, Debug, Default, PartialEq, Eq, Hash)]
pub struct Id(u64);

impl Model for Id {
    ghost Value = { ℕ };

    ghost view = { λ a. a.0 };

    ghost inverse = { λ n. record { 0 = n } };
}

impl Id {
    pub(crate) fn new(number: u64) -> Id
        ensures { result ≡ number }
    {
        Id(number)
    }

    pub(crate) fn number(self) -> u64
        ensures { result ≡ self }
    {
        self.0
    }
}

/// The number of a name in its store. Equal texts have equal numbers.
#[derive(Clone, Copy, Debug, PartialEq, Eq, Hash)]
pub struct Name(u64);

impl Model for Name {
    ghost Value = { ℕ };

    ghost view = { λ a. a.0 };

    ghost inverse = { λ n. record { 0 = n } };
}

impl Name {
    pub(crate) fn new(number: u64) -> Name
        ensures { result ≡ number }
    {
        Name(number)
    }

    pub(crate) fn number(self) -> u64
        ensures { result ≡ self }
    {
        self.0
    }
}

/// The number of a reference in its store. Equal references have equal numbers.
#[derive(Clone, Copy, Debug, PartialEq, Eq, Hash)]
pub struct RefId(u64);

impl Model for RefId {
    ghost Value = { ℕ };

    ghost view = { λ a. a.0 };

    ghost inverse = { λ n. record { 0 = n } };
}

impl RefId {
    pub(crate) fn new(number: u64) -> RefId
        ensures { result ≡ number }
    {
        RefId(number)
    }

    pub(crate) fn number(self) -> u64
        ensures { result ≡ self }
    {
        self.0
    }
}

/// A node of a core tree by its parts: types (`TBool` to `TPair`) and terms.
///
/// Variables are binder indices, 0 the innermost. `TSub`, `TFun`, `TPair` and `Lam` bind one
/// variable in their second part. A tuple of k components is `Tup(k, first, others)`, and its
/// type, its first component `Fst(k, ..)` and the tuple of the others `Snd(k, ..)` have the same
/// number.
#[derive(Clone, Copy, Debug, PartialEq, Eq, Hash)]
pub enum Node {
    TBool,
    TName(RefId),
    TSub(Id, Id),
    TFun(Id, Id),
    TPair(u32, Id, Id),
    Var(u32),
    Const(RefId),
    True,
    False,
    Lam(Id, Id),
    App(Id, Id),
    Tup(u32, Id, Id),
    Fst(u32, Id),
    Snd(u32, Id),
    If(Id, Id, Id),
    Eq(Id, Id),
}

/// What a reference is, but for the actuals of an instance: an entry of the theory itself, a
/// formal of it, both by number, or an entry of an instance of the theory of that name.
#[derive(Clone, Copy, Debug, PartialEq, Eq, Hash)]
pub enum RefKind {
    Own(u32),
    Formal(u32),
    Inst(Name, u32),
}
