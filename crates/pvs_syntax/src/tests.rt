//! A tree of each type, made by hand, and where it begins.

use crate::{
    Actual, BinderWord, Binding, Decl, Expr, Formal, FormulaWord, InfixWord, InstExpr, Item,
    LetPart, NameExpr, Proof, Theory, TypeExpr, Unit, Word, name_place, place, type_place,
};
use pvs_base::Pos;
use sqlite_items::{Boxed, Items};
use std::alloc::{AllocError, Global};
use std::test::Fail;

const fn at(col: u32) -> Pos {
    Pos { line: 1, col }
}

/// A word of one letter at a column.
const fn word(col: u32) -> Word {
    Word {
        start: col,
        end: col,
        pos: Pos { line: 1, col },
    }
}

fn plain(col: u32) -> NameExpr {
    NameExpr {
        qualifier: None,
        word: word(col),
    }
}

fn one<T: Drop>(alloc: Global, item: T) -> Result<Items<T>, AllocError> {
    let mut items = Items::new(alloc);
    items.push(item)?;
    Ok(items)
}

/// `a[{b: c | d}].e(f)` at column 10.
fn applied(alloc: Global) -> Result<Expr, AllocError> {
    let base = Boxed::new(alloc, TypeExpr::NameType(plain(16)))?;
    let test = Boxed::new(alloc, Expr::NameTerm(plain(20)))?;
    let sub = TypeExpr::SubType(word(13), base, test, at(12));
    let theory = InstExpr {
        theory: word(10),
        actuals: one(alloc, Actual::TypeActual(sub))?,
    };
    let name = NameExpr {
        qualifier: Some(theory),
        word: word(24),
    };
    let function = Boxed::new(alloc, Expr::NameTerm(name))?;
    Ok(Expr::Apply(function, one(alloc, Expr::NameTerm(plain(26)))?))
}

#[test]
fn places_of_trees(rt: HostRuntime) -> Result<(), Fail> {
    let alloc = rt.alloc();
    assert_eq!(rt; name_place(&plain(3)), at(3));
    let ty = TypeExpr::PredType(Boxed::new(alloc, applied(alloc)?)?, at(9));
    assert_eq!(rt; type_place(&ty), at(9));
    let project = Expr::Project(Boxed::new(alloc, applied(alloc)?)?, word(28));
    let right = Boxed::new(alloc, Expr::Truth(true, at(30)))?;
    let sum = Expr::Infix(InfixWord::Equal, Boxed::new(alloc, project)?, right);
    assert_eq!(rt; place(&sum), at(10));
    let not = Expr::Not(Boxed::new(alloc, sum)?, at(6));
    assert_eq!(rt; place(&not), at(6));
    Ok(())
}

/// A lemma `LET a = .. IN FORALL b: ..` whose first token is at column 30.
fn lemma(alloc: Global) -> Result<Decl, AllocError> {
    let part = LetPart {
        word: word(34),
        ty: None,
        value: Expr::Truth(true, at(38)),
    };
    let binding = Binding {
        word: word(40),
        ty: None,
    };
    let body = Boxed::new(alloc, Expr::Truth(true, at(44)))?;
    let binder = Expr::Binder(BinderWord::Forall, one(alloc, binding)?, body, at(42));
    let body = Expr::Let(one(alloc, part)?, Boxed::new(alloc, binder)?, at(30));
    Ok(Decl::Formula {
        name: word(7),
        word: FormulaWord::Lemma,
        body,
    })
}

/// A theory with a formal parameter and a lemma.
fn theory(alloc: Global) -> Result<Theory, AllocError> {
    let formal = Formal::TypeFormal {
        name: word(3),
        nonempty: true,
    };
    Ok(Theory {
        name: word(1),
        formals: one(alloc, formal)?,
        assuming: Items::new(alloc),
        decls: one(alloc, lemma(alloc)?)?,
        end: 60,
    })
}

fn unit(alloc: Global) -> Result<Unit, AllocError> {
    let mut items = one(alloc, Item::Theory(theory(alloc)?))?;
    items.push(Item::Proof(Proof {
        theory: word(61),
        formula: word(63),
        start: 65,
        end: 70,
        pos: at(65),
    }))?;
    Ok(Unit { items })
}

/// The column at which the first declaration, a formula, begins.
fn first_formula(theory: &Theory) -> u32 {
    match theory.decls.as_slice() {
        [Decl::Formula { body, .. }, ..] => place(body).col,
        _ => 0,
    }
}

#[test]
fn a_unit_is_what_was_put_into_it(rt: HostRuntime) -> Result<(), Fail> {
    let unit = unit(rt.alloc())?;
    match unit.items.as_slice() {
        [Item::Theory(theory), Item::Proof(proof)] => {
            assert_eq!(rt; first_formula(theory), 30);
            assert_eq!(rt; proof.start, 65);
        }
        _ => assert!(rt; false),
    }
    Ok(())
}
