//! Each public call once. The trees of units are made by hand, over texts of one line.

use crate::{FormulaIndex, Part, add_formula, parts, spelling_of};
use pvs_base::{Code, Pos};
use pvs_syntax::{Decl, Expr, FormulaWord, Item, NameExpr, Proof, Theory, TypeExpr, Word};
use pvs_terms::Store;
use sqlite_items::{Boxed, Items};
use std::alloc::{AllocError, Global};
use std::test::Fail;

/// The place of the byte at an offset.
fn place(start: u32) -> Pos {
    Pos {
        line: 1,
        col: start.saturating_add(1),
    }
}

/// The word of so many bytes at an offset.
fn word(start: u32, len: u32) -> Word {
    Word {
        start,
        end: start.saturating_add(len),
        pos: place(start),
    }
}

fn name(start: u32, len: u32) -> NameExpr {
    NameExpr {
        qualifier: None,
        word: word(start, len),
    }
}

/// A declaration of the name at an offset. In a text that begins with `bool`, `p:b` declares a
/// constant of that type, `p:c` one of the type c, and `l=p` a lemma, whose formula is NOT p.
fn decl(alloc: Global, kind: u8, argument: u8, start: u32) -> Result<Decl, AllocError> {
    let at = start.saturating_add(2);
    if kind == b'=' {
        let operand = Boxed::new(alloc, Expr::NameTerm(name(at, 1)))?;
        return Ok(Decl::Formula {
            name: word(start, 1),
            word: FormulaWord::Lemma,
            body: Expr::Not(operand, place(at)),
        });
    }
    let ty = if argument == b'b' {
        name(0, 4)
    } else {
        name(at, 1)
    };
    Ok(Decl::ConstDecl {
        name: word(start, 1),
        params: Items::new(alloc),
        ty: TypeExpr::NameType(ty),
        body: None,
    })
}

/// The theory whose name is the byte at offset 5 of a text, and whose declarations follow it.
fn theory(alloc: Global, text: &[u8]) -> Result<Theory, AllocError> {
    let mut decls = Items::new(alloc);
    let mut start = 7_u32;
    for piece in text.get(7..).unwrap_or(&[]).chunks(4) {
        if let [_, kind, argument, ..] = piece {
            decls.push(decl(alloc, *kind, *argument, start)?)?;
        }
        start = start.saturating_add(4);
    }
    Ok(Theory {
        name: word(5, 1),
        formals: Items::new(alloc),
        assuming: Items::new(alloc),
        decls,
        end: start,
    })
}

/// The items of a unit that has the theory of a text alone.
fn one_theory(alloc: Global, text: &[u8]) -> Result<Vec<Item>, AllocError> {
    let made = theory(alloc, text)?;
    let mut items = Vec::new(alloc);
    items.push(Item::Theory(made))?;
    Ok(items)
}

/// The column and the code of the fault of the first part, if it has one.
fn first_fault(parts: &[Part<'_>]) -> Option<(u32, Code)> {
    match parts.first() {
        Some(Part::Rejected(_, fault)) => Some((fault.pos.col, fault.code)),
        _ => None,
    }
}

fn fault_in(
    alloc: Global,
    store: &mut Store,
    text: &[u8],
    items: &[Item],
) -> Result<Option<(u32, Code)>, AllocError> {
    let made = parts(alloc, store, text, items)?;
    Ok(first_fault(&made))
}

/// The first fault of the theory of a text, if it has one.
fn fault_of(
    alloc: Global,
    store: &mut Store,
    text: &[u8],
) -> Result<Option<(u32, Code)>, AllocError> {
    let items = one_theory(alloc, text)?;
    fault_in(alloc, store, text, &items)
}

/// Whether the theory of a text has this fault, or none.
fn has_fault(
    alloc: Global,
    store: &mut Store,
    text: &[u8],
    fault: Option<(u32, Code)>,
) -> Result<bool, AllocError> {
    let found = fault_of(alloc, store, text)?;
    Ok(found == fault)
}

#[test]
fn faults_of_theories(rt: HostRuntime) -> Result<(), Fail> {
    let mut store = Store::new(rt.alloc())?;
    for (text, fault) in [
        (b"bool t p:b l=p q:b m=p".as_slice(), None),
        (b"bool t p:b p=p", None),
        (b"bool t p:b l=q", Some((14, Code::Unknown))),
        (b"bool t l=p p:b", Some((10, Code::Unknown))),
        (b"bool t p:b q:b p:b", Some((16, Code::Duplicate))),
        (b"bool t l=q l=q", Some((12, Code::Duplicate))),
        (b"bool t p:b p:c", Some((6, Code::OutOfProfile))),
    ] {
        assert!(rt; has_fault(rt.alloc(), &mut store, text, fault)?);
    }
    Ok(())
}

/// A proof of the lemma l of the theory t in `bool t p:b l=p`.
fn proof() -> Proof {
    Proof {
        theory: word(5, 1),
        formula: word(11, 1),
        start: 0,
        end: 0,
        pos: place(0),
    }
}

/// A unit that has the theory of a text twice, and then a proof.
fn two_theories(alloc: Global, text: &[u8]) -> Result<Vec<Item>, AllocError> {
    let mut items = one_theory(alloc, text)?;
    let again = theory(alloc, text)?;
    items.push(Item::Theory(again))?;
    items.push(Item::Proof(proof()))?;
    Ok(items)
}

/// Whether a part is accepted with this name, and so many entries.
fn is_accepted(text: &[u8], part: &Part<'_>, name: &[u8], entries: usize) -> bool {
    match part {
        Part::Accepted(word, found) => spelling_of(text, word) == name && found.len() == entries,
        _ => false,
    }
}

/// Whether a part is a refused theory of this name.
fn is_rejected(text: &[u8], part: &Part<'_>, name: &[u8]) -> bool {
    match part {
        Part::Rejected(word, _) => spelling_of(text, word) == name,
        _ => false,
    }
}

/// Whether a part is a proof of a formula of this name.
fn is_proof(text: &[u8], part: &Part<'_>, name: &[u8]) -> bool {
    match part {
        Part::Proving(proof) => spelling_of(text, &proof.formula) == name,
        _ => false,
    }
}

/// Whether the parts are the theory, the second one of its name, and the proof.
fn are_expected(text: &[u8], parts: &[Part<'_>]) -> bool {
    match parts {
        [first, second, third] => {
            let theories = is_accepted(text, first, b"t", 2) && is_rejected(text, second, b"t");
            theories && is_proof(text, third, b"l")
        }
        _ => false,
    }
}

fn has_expected(
    alloc: Global,
    store: &mut Store,
    text: &[u8],
    items: &[Item],
) -> Result<bool, AllocError> {
    let made = parts(alloc, store, text, items)?;
    Ok(are_expected(text, &made))
}

#[test]
fn parts_of_a_unit(rt: HostRuntime) -> Result<(), Fail> {
    let text = b"bool t p:b l=p";
    let mut store = Store::new(rt.alloc())?;
    let items = two_theories(rt.alloc(), text)?;
    assert!(rt; has_expected(rt.alloc(), &mut store, text, &items)?);
    Ok(())
}

/// Whether each formula has its first value, and no other formula has one.
fn has_values(numbers: &FormulaIndex<'_, u32>) -> bool {
    let first = numbers.find(b"t", b"l") == Some(1);
    let other = numbers.find(b"l", b"t") == Some(3);
    first && other && numbers.find(b"t", b"t").is_none()
}

#[test]
fn values_of_formulas(rt: HostRuntime) -> Result<(), Fail> {
    let mut numbers = FormulaIndex::new(rt.alloc());
    numbers.add(b"t", b"l", 1)?;
    numbers.add(b"t", b"l", 2)?;
    numbers.add(b"l", b"t", 3)?;
    assert!(rt; has_values(&numbers));
    Ok(())
}

#[test]
fn names_of_formulas(rt: HostRuntime) -> Result<(), Fail> {
    let mut names = FormulaIndex::new(rt.alloc());
    add_formula(&mut names, b"t", b"l")?;
    assert!(rt; names.find(b"t", b"l").is_some());
    Ok(())
}
