//! The entries of a theory.

ghost use Rattle.std.specs.Prelude.{◌≡◌, ℕ, List, [], ◌∷◌, ◌++◌, length, Ok, Some, None, if◌then◌else◌, OnOk};
ghost use Rattle.std.specs.Option.{option_or};
ghost use Rattle.pvs_terms.specs.Tree.{If, True, False};
ghost use Rattle.pvs_terms.specs.Sorts.{HasSorts, IsTerm};
ghost use Rattle.pvs_terms.specs.Stored.{Stored, Extends, PartsIn, node_tree, tree_at};
ghost use Rattle.pvs_theory.specs.code.Fault.{GivesElab};
ghost use Rattle.pvs_theory.specs.Entries.{connective, constant, core, entries_of, entry_of, is_constant, limited, named_constant, negation, out_of_profile};
ghost use Rattle.pvs_theory.specs.code.Index.{value_of};
ghost use Rattle.pvs_theory.specs.code.Shown.{AreEntriesOf, IsEntryOf, IsPlacedOf, IsTermOf, entries_shown, entry_shown, placed_at};

use crate::fault::ElabFault;
use crate::forms::plain_name;
use crate::index::Index;
use crate::names::spelling_of;
use pvs_base::{Code, Fault, Pos};
use pvs_syntax::{Decl, Expr, FormulaWord, InfixWord, Word};
use pvs_terms::{Id, MakeFault, Node, RefKind, Store};
use std::alloc::{AllocError, Global};

/// An entry of a theory, by its name.
#[derive(Drop)]
pub enum Entry {
    /// A boolean constant.
    Constant(Word),

    /// An axiom or a lemma, with its formula.
    Formula(Word, FormulaWord, Id),
}

/// A core tree, with the place of the first token of its expression.
#[derive(Drop)]
pub struct Placed {
    pub at: Pos,
    pub tree: Id,
}

/// The names that an expression of a theory may use.
#[derive(Drop)]
struct Scope<'a> {
    text: &'a [u8],

    /// The place of the theory's name.
    at: Pos,

    /// The numbers of the constants that are declared so far.
    constants: Index<'a, u32>,
}

/// Gives the name of an entry that is a constant its number, where it has none. A number past 32
/// bits, as a reference has them, counts as out of memory.
fn add_entry(scope: &mut Scope<'_>, entry: &Entry, number: usize) -> Result<(), AllocError>
    ensures text { scope.new.text.now ≡ scope.old.text.now }
    ensures at { scope.new.at ≡ scope.old.at }
    ensures names { (s : Stored) → OnOk result ((name : List ℕ) → value_of scope.new.constants name ≡ option_or (value_of scope.old.constants name) (if is_constant name (entry_shown s scope.old.text.now entry.now) then Some number else None)) }
{
    let Entry::Constant(name) = entry else {
        return Ok(());
    };
    let Ok(number) = u32::try_from(number) else {
        return Err(AllocError);
    };
    scope.constants.add(spelling_of(scope.text, name), number)?;
    Ok(())
}

/// Adds an entry to those of a theory, and its name to the scope where it is a constant.
fn push_entry(
    scope: &mut Scope<'_>,
    entries: &mut Vec<Entry>,
    entry: Entry,
) -> Result<(), AllocError>
    ensures text { scope.new.text.now ≡ scope.old.text.now }
    ensures at { scope.new.at ≡ scope.old.at }
    ensures entries { OnOk result (entries.new.items ≡ entries.old.items ++ entry ∷ []) }
    ensures names { (s : Stored) → OnOk result ((name : List ℕ) → value_of scope.new.constants name ≡ option_or (value_of scope.old.constants name) (if is_constant name (entry_shown s scope.old.text.now entry) then Some (length entries.old.items) else None)) }
{
    let number = entries.len();
    add_entry(scope, &entry, number)?;
    entries.push(entry)?;
    Ok(())
}

/// The fault of a form that is not built, in a theory whose name has this place.
pub fn out_of_profile(at: Pos) -> Fault
    ensures { result ≡ out_of_profile at }
{
    Fault {
        pos: at,
        code: Code::OutOfProfile,
    }
}

/// The tree of an expression that begins at this place, or TooLarge there where it passes a limit.
fn limited(store: &mut Store, at: Pos, node: Node) -> Result<Placed, ElabFault>
    requires parts { PartsIn store.old node }
    requires sorted { HasSorts (node_tree store.old node) }
    requires term { IsTerm (node_tree store.old node) }
    ensures tree { GivesElab (IsPlacedOf store.new) (placed_at store.new) result (limited at (node_tree store.old node)) }
    ensures kept { Extends store.old store.new }
{
    match store.make(node) {
        Ok(tree) => Ok(Placed { at, tree }),
        Err(MakeFault::TooLarge) => Err(ElabFault::At(Fault {
            pos: at,
            code: Code::TooLarge,
        })),
        Err(MakeFault::Memory) => Err(ElabFault::Memory),
    }
}

/// TRUE or FALSE.
fn truth(store: &mut Store, at: Pos, value: bool) -> Result<Placed, ElabFault>
    ensures tree { GivesElab (IsPlacedOf store.new) (placed_at store.new) result (Ok (record { at = at; tree = if value then True else False })) }
    ensures kept { Extends store.old store.new }
{
    if value {
        limited(store, at, Node::True)
    } else {
        limited(store, at, Node::False)
    }
}

/// A conditional.
fn conditional(store: &mut Store, at: Pos, c: Id, a: Id, b: Id) -> Result<Placed, ElabFault>
    requires condition { IsTermOf store.old c }
    requires first { IsTermOf store.old a }
    requires second { IsTermOf store.old b }
    ensures tree { GivesElab (IsPlacedOf store.new) (placed_at store.new) result (limited at (If (tree_at store.old c) (tree_at store.old a) (tree_at store.old b))) }
    ensures kept { Extends store.old store.new }
{
    limited(store, at, Node::If(c, a, b))
}

/// NOT of a term.
#[tactic(auto, using(pvs_terms::proofs::StoredLaws::extends_trans))]
fn negation(store: &mut Store, at: Pos, a: Id) -> Result<Placed, ElabFault>
    requires { IsTermOf store.old a }
    ensures tree { GivesElab (IsPlacedOf store.new) (placed_at store.new) result (limited at (negation (tree_at store.old a))) }
    ensures kept { Extends store.old store.new }
{
    let no = truth(store, at, false)?;
    let yes = truth(store, at, true)?;
    conditional(store, at, a, no.tree, yes.tree)
}

/// AND, OR or IMPLIES of two terms, in a theory whose name has this place.
#[tactic(auto, using(pvs_terms::proofs::StoredLaws::extends_trans))]
fn connective(
    store: &mut Store,
    at: Pos,
    word: InfixWord,
    a: &Placed,
    b: &Placed,
) -> Result<Placed, ElabFault>
    requires first { IsPlacedOf store.old a.now }
    requires second { IsPlacedOf store.old b.now }
    ensures tree { GivesElab (IsPlacedOf store.new) (placed_at store.new) result (connective at word (placed_at store.old a.now) (placed_at store.old b.now)) }
    ensures kept { Extends store.old store.new }
{
    match word {
        InfixWord::And => {
            let no = truth(store, a.at, false)?;
            conditional(store, a.at, a.tree, b.tree, no.tree)
        }
        InfixWord::Or => {
            let yes = truth(store, a.at, true)?;
            conditional(store, a.at, a.tree, yes.tree, b.tree)
        }
        InfixWord::Implies => {
            let yes = truth(store, a.at, true)?;
            conditional(store, a.at, a.tree, b.tree, yes.tree)
        }
        _ => Err(ElabFault::At(out_of_profile(at))),
    }
}

/// The core tree of an expression over the constants of a scope, or the first fault in it: Unknown
/// at a name that no constant has, or TooLarge at the first token of the expression whose tree
/// passes a limit. The faults of parts come first, from the left.
#[tactic(auto, using(pvs_terms::proofs::StoredLaws::extends_trans))]
fn core(store: &mut Store, scope: &Scope<'_>, expr: &Expr) -> Result<Placed, ElabFault>
    ensures tree { GivesElab (IsPlacedOf store.new) (placed_at store.new) result (core scope.now.text.now scope.now.at (value_of scope.now.constants) expr.now) }
    ensures kept { Extends store.old store.new }
{
    match expr {
        Expr::Truth(value, pos) => truth(store, *pos, *value),
        Expr::NameTerm(name) => named_constant(store, scope, plain_name(name)),
        Expr::Paren(inner, pos) => {
            let a = core(store, scope, inner.get())?;
            Ok(Placed {
                at: *pos,
                tree: a.tree,
            })
        }
        Expr::Cond(condition, left, right, pos) => {
            let c = core(store, scope, condition.get())?;
            let a = core(store, scope, left.get())?;
            let b = core(store, scope, right.get())?;
            conditional(store, *pos, c.tree, a.tree, b.tree)
        }
        Expr::Not(operand, pos) => {
            let a = core(store, scope, operand.get())?;
            negation(store, *pos, a.tree)
        }
        Expr::Infix(word, left, right) => {
            let a = core(store, scope, left.get())?;
            let b = core(store, scope, right.get())?;
            connective(store, scope.at, *word, &a, &b)
        }
        _ => Err(ElabFault::At(out_of_profile(scope.at))),
    }
}

/// The constant of this number, by a name at this place.
#[tactic(auto, using(pvs_terms::proofs::StoredLaws::extends_trans))]
fn constant(store: &mut Store, at: Pos, number: u32) -> Result<Placed, ElabFault>
    ensures tree { GivesElab (IsPlacedOf store.new) (placed_at store.new) result (constant at (Some number)) }
    ensures kept { Extends store.old store.new }
{
    // A constant passes no limit, so only memory can run out.
    match store.reference(RefKind::Own(number), &[]) {
        Ok(reference) => limited(store, at, Node::Const(reference)),
        Err(_) => Err(ElabFault::Memory),
    }
}

/// The constant that a plain name stands for, or Unknown at the name.
fn named_constant(
    store: &mut Store,
    scope: &Scope<'_>,
    word: Option<Word>,
) -> Result<Placed, ElabFault>
    ensures tree { GivesElab (IsPlacedOf store.new) (placed_at store.new) result (named_constant scope.now.text.now scope.now.at (value_of scope.now.constants) word) }
    ensures kept { Extends store.old store.new }
{
    let Some(word) = word else {
        return Err(ElabFault::At(out_of_profile(scope.at)));
    };
    match scope.constants.find(spelling_of(scope.text, &word)) {
        Some(number) => constant(store, word.pos, number),
        None => Err(ElabFault::At(Fault {
            pos: word.pos,
            code: Code::Unknown,
        })),
    }
}

/// The entry of a declaration over the constants of a scope, or the first fault in it.
#[tactic(auto, using(pvs_terms::proofs::StoredLaws::extends_trans))]
fn make_entry(store: &mut Store, scope: &Scope<'_>, decl: &Decl) -> Result<Entry, ElabFault>
    ensures entry { GivesElab (IsEntryOf store.new) (entry_shown store.new scope.now.text.now) result (entry_of scope.now.text.now scope.now.at (value_of scope.now.constants) decl.now) }
    ensures kept { Extends store.old store.new }
{
    match decl {
        Decl::ConstDecl { name, .. } => Ok(Entry::Constant(*name)),
        Decl::Formula { name, word, body } => {
            let formula = core(store, scope, body)?;
            Ok(Entry::Formula(*name, *word, formula.tree))
        }
        _ => Err(ElabFault::At(out_of_profile(scope.at))),
    }
}

/// The entries of the declarations of a theory whose name has this place, or the first fault in
/// them.
pub fn entries(
    alloc: Global,
    store: &mut Store,
    text: &[u8],
    at: Pos,
    decls: &[Decl],
) -> Result<Vec<Entry>, ElabFault>
    ensures entries { GivesElab (λ v. AreEntriesOf store.new v.items) (λ v. entries_shown store.new text.now v.items) result (entries_of text.now at decls.now) }
    ensures kept { Extends store.old store.new }
{
    let mut scope = Scope {
        text,
        at,
        constants: Index::new(alloc),
    };
    let mut entries = Vec::new(alloc);
    for decl in decls {
        let entry = make_entry(store, &scope, decl)?;
        push_entry(&mut scope, &mut entries, entry)?;
    }
    Ok(entries)
}
