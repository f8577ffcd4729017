//! The formula of a letter.

ghost use Rattle.std.specs.Prelude.{◌≡◌, IfOk};
ghost use Rattle.pvs_terms.specs.Sorts.{IsTerm};
ghost use Rattle.pvs_terms.specs.Stored.{IsNode, tree_at, Extends};

use pvs_terms::{Id, MakeFault, Node, Store};

/// The variable or the constant of a letter: p, q, r, TRUE or FALSE.
fn atom(store: &mut Store, letter: u8) -> Result<Id, MakeFault>
    ensures node { IfOk result (IsNode store.new) }
    ensures term { IfOk result (λ i. IsTerm (tree_at store.new i)) }
    ensures kept { Extends store.old store.new }
{
    match letter {
        b'T' => store.make(Node::True),
        b'F' => store.make(Node::False),
        b'q' => store.make(Node::Var(1)),
        b'r' => store.make(Node::Var(2)),
        _ => store.make(Node::Var(0)),
    }
}

/// A conditional with an atom as its second branch.
fn with_else(store: &mut Store, c: Id, a: Id, letter: u8) -> Result<Id, MakeFault>
    requires condition { IsNode store.old c × IsTerm (tree_at store.old c) }
    requires first { IsNode store.old a × IsTerm (tree_at store.old a) }
    ensures node { IfOk result (IsNode store.new) }
    ensures term { IfOk result (λ i. IsTerm (tree_at store.new i)) }
    ensures kept { Extends store.old store.new }
{
    let second = atom(store, letter)?;
    store.make(Node::If(c, a, second))
}

/// A conditional with atoms as its branches.
fn with_branches(store: &mut Store, c: Id, letters: [u8; 2]) -> Result<Id, MakeFault>
    requires { IsNode store.old c × IsTerm (tree_at store.old c) }
    ensures node { IfOk result (IsNode store.new) }
    ensures term { IfOk result (λ i. IsTerm (tree_at store.new i)) }
    ensures kept { Extends store.old store.new }
{
    let first = atom(store, letters[0])?;
    with_else(store, c, first, letters[1])
}

/// A conditional on p with atoms as its branches.
fn conditional(store: &mut Store, letters: [u8; 2]) -> Result<Id, MakeFault>
    ensures node { IfOk result (IsNode store.new) }
    ensures term { IfOk result (λ i. IsTerm (tree_at store.new i)) }
    ensures kept { Extends store.old store.new }
{
    let condition = atom(store, b'p')?;
    with_branches(store, condition, letters)
}

/// IF p THEN q ELSE another formula.
fn with_second(store: &mut Store, second: Id) -> Result<Id, MakeFault>
    requires { IsNode store.old second × IsTerm (tree_at store.old second) }
    ensures node { IfOk result (IsNode store.new) }
    ensures kept { Extends store.old store.new }
{
    let condition = atom(store, b'p')?;
    let first = atom(store, b'q')?;
    store.make(Node::If(condition, first, second))
}

/// IF p THEN q ELSE IF p THEN TRUE ELSE q.
fn nested(store: &mut Store) -> Result<Id, MakeFault>
    ensures node { IfOk result (IsNode store.new) }
    ensures kept { Extends store.old store.new }
{
    let second = conditional(store, [b'T', b'q'])?;
    with_second(store, second)
}

/// The formula of a letter.
///
/// | letter | formula |
/// |---|---|
/// | `q`, `r` | the variables 1 and 2 |
/// | `T`, `F` | TRUE and FALSE |
/// | `i` | IF p THEN q ELSE r |
/// | `j` | IF p THEN TRUE ELSE q |
/// | `u` | IF p THEN q ELSE q |
/// | `n` | IF p THEN q ELSE j |
/// | `p`, and each other one | the variable 0 |
///
/// The node is of the store, which only grows. The error is that of `Store::make`.
pub fn formula(store: &mut Store, letter: u8) -> Result<Id, MakeFault>
    ensures node { IfOk result (IsNode store.new) }
    ensures kept { Extends store.old store.new }
{
    match letter {
        b'i' => conditional(store, [b'q', b'r']),
        b'j' => conditional(store, [b'T', b'q']),
        b'u' => conditional(store, [b'q', b'q']),
        b'n' => nested(store),
        _ => atom(store, letter),
    }
}
