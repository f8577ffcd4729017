//! Trees as texts in which each form has its own parentheses.

use pvs_base::Pos;
use pvs_lexer::spelling;
use pvs_syntax::{
    Actual, BinderWord, Binding, Decl, Expr, Formal, FormulaWord, InfixWord, InstExpr, Item,
    LetPart, NameExpr, Proof, Theory, TypeExpr, Unit, Word,
};
use std::alloc::{AllocError, Global};

/// How trees are shown.
#[derive(Clone, Copy)]
pub struct Style<'a> {
    pub alloc: Global,
    /// The text that the trees are of.
    pub text: &'a [u8],
    /// Whether a form that has a place is shown with its column.
    pub has_places: bool,
}

fn word(style: &Style<'_>, out: &mut String, word: &Word) -> Result<(), AllocError> {
    let bytes = spelling(style.text, word.start, word.end);
    out.push_str(std::str::from_utf8(bytes).unwrap_or("?"))?;
    Ok(())
}

/// The parenthesis of a form, the sign of the form, and its place.
fn open(style: &Style<'_>, out: &mut String, sign: &str, pos: &Pos) -> Result<(), AllocError> {
    out.push('(')?;
    out.push_str(sign)?;
    if style.has_places {
        let at = format!(in style.alloc; "@{}", pos.col)?;
        out.push_str(&at)?;
    }
    Ok(())
}

fn close(out: &mut String) -> Result<(), AllocError> {
    out.push(')')?;
    Ok(())
}

fn infix(word: InfixWord) -> &'static str {
    match word {
        InfixWord::And => "(&",
        InfixWord::Or => "(|",
        InfixWord::Implies => "(=>",
        InfixWord::Iff => "(<=>",
        InfixWord::Equal => "(=",
        InfixWord::Differs => "(/=",
    }
}

fn binder(word: BinderWord) -> &'static str {
    match word {
        BinderWord::Forall => "all",
        BinderWord::Exists => "some",
        BinderWord::Lambda => "fun",
    }
}

#[cycle(shown)]
pub fn expr(style: &Style<'_>, out: &mut String, tree: &Expr) -> Result<(), AllocError> {
    match tree {
        Expr::Truth(truth, pos) => open(style, out, if *truth { "T" } else { "F" }, pos)?,
        Expr::NameTerm(tree) => return name(style, out, tree),
        Expr::Apply(function, arguments) => {
            out.push('(')?;
            expr(style, out, function.get())?;
            exprs(style, out, arguments.as_slice())?;
        }
        Expr::Project(operand, number) => {
            out.push_str("(`")?;
            word(style, out, number)?;
            spaced(style, out, operand.get())?;
        }
        Expr::Paren(inner, pos) => {
            open(style, out, "paren", pos)?;
            spaced(style, out, inner.get())?;
        }
        Expr::TupleTerm(parts, pos) => {
            open(style, out, ",", pos)?;
            exprs(style, out, parts.as_slice())?;
        }
        _ => long_form(style, out, tree)?,
    }
    close(out)
}

/// What a word begins, or an operator joins, but for the last parenthesis.
#[cycle(shown)]
fn long_form(style: &Style<'_>, out: &mut String, tree: &Expr) -> Result<(), AllocError> {
    match tree {
        Expr::Cond(test, holds, fails, pos) => {
            open(style, out, "if", pos)?;
            spaced(style, out, test.get())?;
            spaced(style, out, holds.get())?;
            spaced(style, out, fails.get())
        }
        Expr::Binder(word, variables, body, pos) => {
            open(style, out, binder(*word), pos)?;
            bindings(style, out, variables.as_slice())?;
            spaced(style, out, body.get())
        }
        Expr::Let(definitions, body, pos) => {
            open(style, out, "let", pos)?;
            parts(style, out, definitions.as_slice())?;
            spaced(style, out, body.get())
        }
        Expr::Not(inner, pos) => {
            open(style, out, "~", pos)?;
            spaced(style, out, inner.get())
        }
        Expr::Infix(word, left, right) => {
            out.push_str(infix(*word))?;
            spaced(style, out, left.get())?;
            spaced(style, out, right.get())
        }
        _ => Ok(()),
    }
}

#[cycle(shown)]
fn spaced(style: &Style<'_>, out: &mut String, tree: &Expr) -> Result<(), AllocError> {
    out.push(' ')?;
    expr(style, out, tree)
}

#[cycle(shown)]
fn exprs(style: &Style<'_>, out: &mut String, trees: &[Expr]) -> Result<(), AllocError> {
    for tree in trees {
        out.push(' ')?;
        expr(style, out, tree)?;
    }
    Ok(())
}

#[cycle(shown)]
fn name(style: &Style<'_>, out: &mut String, tree: &NameExpr) -> Result<(), AllocError> {
    if let Some(theory) = &tree.qualifier {
        inst(style, out, theory)?;
        out.push('.')?;
    }
    word(style, out, &tree.word)
}

#[cycle(shown)]
fn inst(style: &Style<'_>, out: &mut String, tree: &InstExpr) -> Result<(), AllocError> {
    word(style, out, &tree.theory)?;
    for actual in tree.actuals.as_slice() {
        out.push('[')?;
        match actual {
            Actual::ExprActual(tree) => expr(style, out, tree)?,
            Actual::TypeActual(tree) => {
                out.push_str("type ")?;
                type_expr(style, out, tree)?;
            }
        }
        out.push(']')?;
    }
    Ok(())
}

#[cycle(shown)]
fn type_expr(style: &Style<'_>, out: &mut String, tree: &TypeExpr) -> Result<(), AllocError> {
    match tree {
        TypeExpr::NameType(tree) => return name(style, out, tree),
        TypeExpr::FunType(domain, range, pos) => {
            open(style, out, "->", pos)?;
            bindings(style, out, domain.as_slice())?;
            out.push(' ')?;
            type_expr(style, out, range.get())?;
        }
        TypeExpr::TupleType(components, pos) => {
            open(style, out, "*", pos)?;
            bindings(style, out, components.as_slice())?;
        }
        TypeExpr::SubType(variable, base, test, pos) => {
            open(style, out, "sub", pos)?;
            out.push(' ')?;
            word(style, out, variable)?;
            out.push(':')?;
            type_expr(style, out, base.get())?;
            spaced(style, out, test.get())?;
        }
        TypeExpr::PredType(test, pos) => {
            open(style, out, "pred", pos)?;
            spaced(style, out, test.get())?;
        }
    }
    close(out)
}

#[cycle(shown)]
fn bindings(style: &Style<'_>, out: &mut String, trees: &[Binding]) -> Result<(), AllocError> {
    for tree in trees {
        out.push(' ')?;
        word(style, out, &tree.word)?;
        if let Some(ty) = &tree.ty {
            out.push(':')?;
            type_expr(style, out, ty)?;
        }
    }
    Ok(())
}

#[cycle(shown)]
fn parts(style: &Style<'_>, out: &mut String, trees: &[LetPart]) -> Result<(), AllocError> {
    for tree in trees {
        out.push(' ')?;
        word(style, out, &tree.word)?;
        if let Some(ty) = &tree.ty {
            out.push(':')?;
            type_expr(style, out, ty)?;
        }
        out.push('=')?;
        expr(style, out, &tree.value)?;
    }
    Ok(())
}

/// A name after a parenthesis and a word.
fn begin(
    style: &Style<'_>,
    out: &mut String,
    first: &str,
    nonempty: bool,
    name: &Word,
) -> Result<(), AllocError> {
    out.push('(')?;
    out.push_str(first)?;
    out.push_str(if nonempty { "+ " } else { " " })?;
    word(style, out, name)
}

fn formal(style: &Style<'_>, out: &mut String, tree: &Formal) -> Result<(), AllocError> {
    match tree {
        Formal::TypeFormal { name, nonempty } => begin(style, out, "type", *nonempty, name)?,
        Formal::ConstFormal { name, ty } => {
            begin(style, out, "const", false, name)?;
            out.push(' ')?;
            type_expr(style, out, ty)?;
        }
    }
    close(out)
}

fn formula(word: FormulaWord) -> &'static str {
    match word {
        FormulaWord::Axiom => "axiom",
        FormulaWord::Assumption => "assumption",
        FormulaWord::Lemma => "lemma",
    }
}

fn decl(style: &Style<'_>, out: &mut String, tree: &Decl) -> Result<(), AllocError> {
    match tree {
        Decl::Importing(instance) => {
            out.push_str("(importing ")?;
            inst(style, out, instance)?;
        }
        Decl::TypeDecl { name, nonempty } => begin(style, out, "type", *nonempty, name)?,
        Decl::TypeDef { name, body } => {
            begin(style, out, "type", false, name)?;
            out.push_str(" = ")?;
            type_expr(style, out, body)?;
        }
        Decl::VarDecl { name, ty } => {
            begin(style, out, "var", false, name)?;
            out.push(' ')?;
            type_expr(style, out, ty)?;
        }
        Decl::ConstDecl {
            name,
            params,
            ty,
            body,
        } => {
            begin(style, out, "const", false, name)?;
            bindings(style, out, params.as_slice())?;
            out.push_str(": ")?;
            type_expr(style, out, ty)?;
            if let Some(body) = body {
                out.push_str(" =")?;
                spaced(style, out, body)?;
            }
        }
        Decl::Formula { name, word, body } => {
            begin(style, out, formula(*word), false, name)?;
            spaced(style, out, body)?;
        }
    }
    close(out)
}

pub fn decls(style: &Style<'_>, out: &mut String, trees: &[Decl]) -> Result<(), AllocError> {
    for tree in trees {
        decl(style, out, tree)?;
    }
    Ok(())
}

fn theory(style: &Style<'_>, out: &mut String, tree: &Theory) -> Result<(), AllocError> {
    begin(style, out, "theory", false, &tree.name)?;
    for tree in tree.formals.as_slice() {
        formal(style, out, tree)?;
    }
    out.push_str(" [")?;
    decls(style, out, tree.assuming.as_slice())?;
    out.push_str("] ")?;
    decls(style, out, tree.decls.as_slice())?;
    close(out)
}

fn proof(style: &Style<'_>, out: &mut String, tree: &Proof) -> Result<(), AllocError> {
    begin(style, out, "proof", false, &tree.theory)?;
    out.push('.')?;
    word(style, out, &tree.formula)?;
    let (start, end, pos) = (tree.start, tree.end, tree.pos);
    let span = format!(in style.alloc; " {start}-{end}@{}:{}", pos.line, pos.col)?;
    out.push_str(&span)?;
    close(out)
}

pub fn unit(style: &Style<'_>, out: &mut String, tree: &Unit) -> Result<(), AllocError> {
    for item in tree.items.as_slice() {
        match item {
            Item::Theory(tree) => theory(style, out, tree)?,
            Item::Proof(tree) => proof(style, out, tree)?,
        }
    }
    Ok(())
}
