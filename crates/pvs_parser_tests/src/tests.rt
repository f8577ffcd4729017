//! Texts with their trees, written out by hand, and texts with their first faults.
//!
//! In the tables a text stands before `~>`, and after it its tree, in which each form has its own
//! parentheses, or its first fault.

mod expressions;
mod limits;
mod units;

use crate::shown::{self, Style};
use pvs_base::{Fault, MAX_TEXT, Pos, code_name};
use pvs_parser::{ParseFault, parse_expr, parse_unit};
use pvs_syntax::{Expr, Item, Unit};
use std::alloc::{AllocError, Global};

fn shown_fault(alloc: Global, fault: &Fault) -> Result<String, AllocError> {
    let (name, pos) = (code_name(fault.code), fault.pos);
    format!(in alloc; "{name}@{}:{}", pos.line, pos.col)
}

fn shown_expr(
    alloc: Global,
    text: &[u8],
    has_places: bool,
    read: &Result<Expr, ParseFault>,
) -> Result<String, AllocError> {
    let style = Style {
        alloc,
        text,
        has_places,
    };
    match read {
        Ok(tree) => {
            let mut out = String::new(alloc);
            shown::expr(&style, &mut out, tree)?;
            Ok(out)
        }
        Err(ParseFault::At(fault)) => shown_fault(alloc, fault),
        Err(ParseFault::Memory) => Err(AllocError),
    }
}

/// The declarations of a text that is one theory.
fn only_decls(style: &Style<'_>, tree: &Unit) -> Result<String, AllocError> {
    let mut out = String::new(style.alloc);
    match tree.items.as_slice() {
        [Item::Theory(theory)] => shown::decls(style, &mut out, theory.decls.as_slice())?,
        _ => out.push('?')?,
    }
    Ok(out)
}

fn whole_unit(style: &Style<'_>, tree: &Unit) -> Result<String, AllocError> {
    let mut out = String::new(style.alloc);
    shown::unit(style, &mut out, tree)?;
    Ok(out)
}

/// What the text of a row is.
#[derive(Clone, Copy)]
enum Kind {
    Expression,
    /// An expression that is shown with places.
    Placed,
    /// Declarations, which are put on the second of three lines of a theory.
    Declarations,
    Unit,
}

fn shown_unit(alloc: Global, text: &[u8], kind: Kind) -> Result<String, AllocError> {
    let style = Style {
        alloc,
        text,
        has_places: false,
    };
    match (parse_unit(alloc, text), kind) {
        (Ok(tree), Kind::Declarations) => only_decls(&style, &tree),
        (Ok(tree), _) => whole_unit(&style, &tree),
        (Err(ParseFault::At(fault)), _) => shown_fault(alloc, &fault),
        (Err(ParseFault::Memory), _) => Err(AllocError),
    }
}

fn in_theory(alloc: Global, decls: &[u8]) -> Result<Vec<u8>, AllocError> {
    let mut text = Vec::new(alloc);
    text.extend_from_slice(b"t: THEORY BEGIN\n")?;
    text.extend_from_slice(decls)?;
    text.extend_from_slice(b"\nEND t")?;
    Ok(text)
}

fn whole_expr(alloc: Global, text: &[u8], has_places: bool) -> Result<String, AllocError> {
    if text.len() > MAX_TEXT {
        return Err(AllocError);
    }
    let read = parse_expr(alloc, text, 0, text.len() as u32, Pos::FIRST);
    shown_expr(alloc, text, has_places, &read)
}

/// The tree of a text, or its first fault.
fn shown(alloc: Global, text: &[u8], kind: Kind) -> Result<String, AllocError> {
    match kind {
        Kind::Expression => whole_expr(alloc, text, false),
        Kind::Placed => whole_expr(alloc, text, true),
        Kind::Declarations => shown_unit(alloc, &in_theory(alloc, text)?, kind),
        Kind::Unit => shown_unit(alloc, text, kind),
    }
}

/// Whether the text of a row is what the row says.
fn holds(alloc: Global, row: &str, kind: Kind) -> Result<bool, AllocError> {
    match row.split_once(" ~> ") {
        Some((text, want)) => {
            let found = shown(alloc, text.as_bytes(), kind)?;
            Ok(found.as_str() == want)
        }
        None => Ok(false),
    }
}

/// The first row that does not hold, or nothing.
fn wrong<'a>(alloc: Global, rows: &'a str, kind: Kind) -> Result<&'a str, AllocError> {
    for row in rows.lines() {
        if !holds(alloc, row, kind)? {
            return Ok(row);
        }
    }
    Ok("")
}
