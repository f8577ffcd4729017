//! Declarations of theories.

ghost use Rattle.std.specs.Prelude.{◌≡◌, ◌<◌, ◌∷◌, [], length, map, IfOk};
ghost use Rattle.pvs_parser.specs.code.Descent.{Gives};
ghost use Rattle.pvs_parser.specs.Language.{language_limit, outermost};
ghost use Rattle.pvs_parser.specs.code.Steps.{each, declaration_in};
ghost use Rattle.pvs_parser.specs.Units.{type_decl, const_decl, formula_of};
ghost use Rattle.pvs_parser.specs.code.UnitDescent as spec;

use crate::descent;
use crate::failure::Failure;
use crate::formals::{plus, type_of};
use crate::importings::{ids, importing};
use crate::nesting::Nesting;
use crate::start::Start;
use crate::tables::is_id;
use crate::terminal::{Connective, Terminal, TerminalKind};
use crate::tokens::{after, expect, id, stop};
use pvs_syntax::{Binding, Decl, Expr, FormulaWord, Word};
use sqlite_items::Items;
use std::alloc::{AllocError, Global};

/// A part of a theory that has declarations.
#[derive(Clone, Copy, Debug, PartialEq, Eq)]
pub enum TheoryPart {
    Assuming,
    Body,
}

/// Declarations, and the tokens after them.
pub type Decls<'a> = Result<(Items<Decl>, &'a [Terminal]), Failure>;

fn one(alloc: Global, decl: Decl) -> Result<Items<Decl>, AllocError>
    ensures { IfOk result (λ ds. ds ≡ decl ∷ []) }
{
    let mut found = Items::new(alloc);
    found.push(decl)?;
    Ok(found)
}

/// An expression, and the tokens after it.
fn expr(alloc: Global, tokens: &[Terminal]) -> Result<(Expr, &[Terminal]), Failure>
    ensures { Gives (λ p. (p.0, p.1.now)) result (spec.expr language_limit tokens.now) }
{
    let (expr, _, rest) = descent::expr(
        alloc,
        descent::CALLS,
        tokens.len() + 1,
        Start::Chain(Connective::Iff),
        Nesting::OUTERMOST,
        tokens,
    )?;
    Ok((expr, rest))
}

/// Variables of one type, which is read for each name, so that each has a tree of its own.
fn variables<'a>(alloc: Global, names: &[Word], tokens: &'a [Terminal]) -> Decls<'a>
    requires { 0 < length names.now }
    ensures { Gives (λ p. (p.0, p.1.now)) result (spec.variables language_limit names.now tokens.now) }
{
    let mut found = Items::new(alloc);
    let mut rest = tokens;
    for name in names {
        let (ty, behind) = type_of(alloc, Nesting::OUTERMOST, tokens)?;
        found.push(Decl::VarDecl { name: *name, ty })?;
        rest = behind;
    }
    Ok((found, rest))
}

/// Constants of one type without definitions. The type is read for each name.
fn plain_constants<'a>(alloc: Global, names: &[Word], tokens: &'a [Terminal]) -> Decls<'a>
    requires { 0 < length names.now }
    ensures { Gives (λ p. (p.0, p.1.now)) result (each const_decl names.now (spec.type language_limit outermost tokens.now)) }
{
    let mut found = Items::new(alloc);
    let mut rest = tokens;
    for name in names {
        let (ty, behind) = type_of(alloc, Nesting::OUTERMOST, tokens)?;
        found.push(Decl::ConstDecl {
            name: *name,
            params: Items::new(alloc),
            ty,
            body: None,
        })?;
        rest = behind;
    }
    Ok((found, rest))
}

/// The definition of a constant, if it has one.
fn body(alloc: Global, tokens: &[Terminal]) -> Result<(Option<Expr>, &[Terminal]), Failure>
    ensures { Gives (λ p. (p.0, p.1.now)) result (spec.body language_limit tokens.now) }
{
    let Some(rest) = after(TerminalKind::Equal, tokens) else {
        return Ok((None, tokens));
    };
    let (body, rest) = expr(alloc, rest)?;
    Ok((Some(body), rest))
}

/// The type of a constant with these parameters, and its definition.
fn constant(alloc: Global, name: Word, params: Items<Binding>, tokens: &[Terminal]) -> Decls<'_>
    ensures { Gives (λ p. (p.0, p.1.now)) result (spec.constant language_limit name params tokens.now) }
{
    let (ty, rest) = type_of(alloc, Nesting::OUTERMOST, tokens)?;
    let (body, rest) = body(alloc, rest)?;
    let decl = Decl::ConstDecl {
        name,
        params,
        ty,
        body,
    };
    Ok((one(alloc, decl)?, rest))
}

/// A constant with parameters, after its name and the parenthesis.
fn function(alloc: Global, name: Word, tokens: &[Terminal]) -> Decls<'_>
    ensures { Gives (λ p. (p.0, p.1.now)) result (spec.function language_limit name tokens.now) }
{
    let (params, rest) = descent::bindings(alloc, tokens.len() + 1, Nesting::OUTERMOST, tokens)?;
    let rest = expect(TerminalKind::Colon, rest)?;
    constant(alloc, name, params, rest)
}

fn constants<'a>(alloc: Global, names: &[Word], tokens: &'a [Terminal]) -> Decls<'a>
    requires { 0 < length names.now }
    ensures { Gives (λ p. (p.0, p.1.now)) result (spec.constants language_limit names.now tokens.now) }
{
    match names {
        [name] => constant(alloc, *name, Items::new(alloc), tokens),
        _ => plain_constants(alloc, names, tokens),
    }
}

/// A type with a definition, after its `=`.
fn type_definition(alloc: Global, name: Word, tokens: &[Terminal]) -> Decls<'_>
    ensures { Gives (λ p. (p.0, p.1.now)) result (spec.type_definition language_limit name tokens.now) }
{
    let (body, rest) = type_of(alloc, Nesting::OUTERMOST, tokens)?;
    let decl = Decl::TypeDef { name, body };
    Ok((one(alloc, decl)?, rest))
}

/// Types without definitions.
fn type_decls(alloc: Global, names: &[Word], nonempty: bool) -> Result<Items<Decl>, AllocError>
    ensures { IfOk result (λ ds. ds ≡ map (type_decl nonempty) names.now) }
{
    let mut found = Items::new(alloc);
    for name in names {
        found.push(Decl::TypeDecl {
            name: *name,
            nonempty,
        })?;
    }
    Ok(found)
}

/// What stands after names, a colon and TYPE. A single name may have a definition.
fn types<'a>(alloc: Global, names: &[Word], tokens: &'a [Terminal]) -> Decls<'a>
    ensures { Gives (λ p. (p.0, p.1.now)) result (spec.types language_limit names.now tokens.now) }
{
    if let [name] = names {
        if let Some(rest) = after(TerminalKind::Equal, tokens) {
            return type_definition(alloc, *name, rest);
        }
    }
    let (nonempty, rest) = plus(tokens);
    Ok((type_decls(alloc, names, nonempty)?, rest))
}

/// The word of a formula, which a terminal is outside an assuming part.
fn formula_word(kind: TerminalKind) -> Option<FormulaWord>
    ensures { result ≡ formula_of kind }
{
    match kind {
        TerminalKind::Axiom => Some(FormulaWord::Axiom),
        TerminalKind::Lemma => Some(FormulaWord::Lemma),
        _ => None,
    }
}

/// A formula of one name. `tokens` begin with its word, which is `word`, and `rest` are those after
/// that; several names are refused at the word.
fn formula<'a>(
    alloc: Global,
    names: &[Word],
    word: FormulaWord,
    tokens: &'a [Terminal],
    rest: &'a [Terminal],
) -> Decls<'a>
    ensures { Gives (λ p. (p.0, p.1.now)) result (spec.formulas language_limit names.now word tokens.now rest.now) }
{
    let [name] = names else {
        return Err(stop(tokens));
    };
    let (body, rest) = expr(alloc, rest)?;
    let decl = Decl::Formula {
        name: *name,
        word,
        body,
    };
    Ok((one(alloc, decl)?, rest))
}

/// What the names before a colon are.
fn declared<'a>(alloc: Global, names: &[Word], tokens: &'a [Terminal]) -> Decls<'a>
    requires { 0 < length names.now }
    ensures { Gives (λ p. (p.0, p.1.now)) result (spec.decls_after_colon language_limit names.now tokens.now) }
{
    let [token, rest @ ..] = tokens else {
        return Err(stop(tokens));
    };
    match token.kind {
        TerminalKind::Type => types(alloc, names, rest),
        TerminalKind::NonemptyType => Ok((type_decls(alloc, names, true)?, rest)),
        TerminalKind::Var => variables(alloc, names, rest),
        kind => match formula_word(kind) {
            Some(word) => formula(alloc, names, word, tokens, rest),
            None => constants(alloc, names, tokens),
        },
    }
}

/// Names, a colon, and what they are.
fn named(alloc: Global, tokens: &[Terminal]) -> Decls<'_>
    ensures { Gives (λ p. (p.0, p.1.now)) result (spec.declaration_of_names language_limit tokens.now) }
{
    let (names, rest) = ids(alloc, tokens)?;
    let rest = expect(TerminalKind::Colon, rest)?;
    declared(alloc, &names, rest)
}

/// A declaration, as an entry for each name or instance.
fn declaration(alloc: Global, tokens: &[Terminal]) -> Decls<'_>
    ensures { Gives (λ p. (p.0, p.1.now)) result (spec.declaration language_limit tokens.now) }
{
    if let Some(rest) = after(TerminalKind::Importing, tokens) {
        return importing(alloc, rest);
    }
    let (name, rest) = id(tokens)?;
    match after(TerminalKind::Open, rest) {
        Some(rest) => function(alloc, name, rest),
        None => named(alloc, tokens),
    }
}

/// What the names before a colon are in an assuming part.
fn assumed_after<'a>(alloc: Global, names: &[Word], tokens: &'a [Terminal]) -> Decls<'a>
    requires { 0 < length names.now }
    ensures { Gives (λ p. (p.0, p.1.now)) result (spec.assuming_decls_after_colon language_limit names.now tokens.now) }
{
    let [token, rest @ ..] = tokens else {
        return Err(stop(tokens));
    };
    match token.kind {
        TerminalKind::Var => variables(alloc, names, rest),
        TerminalKind::Assumption => formula(alloc, names, FormulaWord::Assumption, tokens, rest),
        _ => Err(stop(tokens)),
    }
}

/// A declaration of an assuming part.
fn assumed(alloc: Global, tokens: &[Terminal]) -> Decls<'_>
    ensures { Gives (λ p. (p.0, p.1.now)) result (spec.assuming_decl language_limit tokens.now) }
{
    if let Some(rest) = after(TerminalKind::Importing, tokens) {
        return importing(alloc, rest);
    }
    let (names, rest) = ids(alloc, tokens)?;
    let rest = expect(TerminalKind::Colon, rest)?;
    assumed_after(alloc, &names, rest)
}

/// A declaration of a part of a theory.
fn entry(alloc: Global, part: TheoryPart, tokens: &[Terminal]) -> Decls<'_>
    ensures { Gives (λ p. (p.0, p.1.now)) result (declaration_in language_limit part tokens.now) }
{
    match part {
        TheoryPart::Assuming => assumed(alloc, tokens),
        TheoryPart::Body => declaration(alloc, tokens),
    }
}

/// Whether a declaration comes next.
fn comes_decl(tokens: &[Terminal]) -> bool
    ensures { result ≡ spec.comes_decl tokens.now }
{
    match tokens {
        [token, ..] => token.kind == TerminalKind::Importing || is_id(token.kind),
        [] => false,
    }
}

/// The tokens after a semicolon, where one comes next.
fn past_semicolon(tokens: &[Terminal]) -> &[Terminal]
    ensures { result.now ≡ spec.past_semicolon tokens.now }
{
    match after(TerminalKind::Semicolon, tokens) {
        Some(rest) => rest,
        None => tokens,
    }
}

/// Declarations of a part of a theory, as long as one comes next, and the tokens after them.
#[tactic(auto, using(crate::proofs::UnitTurns::many_end, crate::proofs::UnitTurns::many_err, crate::proofs::UnitTurns::many_next, crate::proofs::UnitTurns::many_full))]
pub fn declarations(alloc: Global, part: TheoryPart, tokens: &[Terminal]) -> Decls<'_>
    ensures { Gives (λ p. (p.0, p.1.now)) result (spec.many_from (declaration_in language_limit part) (length tokens.now) [] tokens.now) }
{
    let mut found = Items::new(alloc);
    let mut rest = tokens;
    for _ in 0..tokens.len() {
        if !comes_decl(rest) {
            return Ok((found, rest));
        }
        let (more, behind) = entry(alloc, part, rest)?;
        found.append(more)?;
        rest = past_semicolon(behind);
    }
    Ok((found, rest))
}
