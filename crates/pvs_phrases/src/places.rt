//! Where phrases begin.

ghost use Rattle.std.specs.Prelude.{◌≡◌, drop, length};
ghost use Rattle.pvs_elab.specs.Desugar.{all_of, domain, lets, phrase, some_of, tuple, type_from, type_phrase};
ghost use Rattle.pvs_elab.specs.Phrase.{place};
ghost use Rattle.pvs_syntax.specs.Words as words;
ghost use Rattle.pvs_phrases.specs.Parts.{bounds, phrase_at, phrases, place_in, values};

use crate::bindings::next_type;
use crate::list::next;
use crate::part::{Part, Place};
use pvs_base::Pos;
use pvs_syntax::{Binding, Expr, LetPart, TypeExpr, Word, name_place};
use sqlite_items::{Boxed, Items};

/// Where a place is in the text, by a loop over the left side of its expression. This takes no
/// memory.
pub fn resolve(text: &[u8], place: Place<'_>) -> Pos
    ensures { result ≡ place_in text.now place.entry }
{
    match place {
        Place::At(pos) => pos,
        Place::Of(expr) => first_place(text, expr),
    }
}

/// Where the phrase of a part begins. This takes no memory.
pub fn place_of(text: &[u8], part: Part<'_>) -> Pos
    ensures { result ≡ place (phrase_at text.now part.entry) }
{
    resolve(text, start_of(text, part))
}

/// Where the phrase of an expression begins, by a loop over its left side.
#[tactic(auto, using(crate::proofs::PlaceLaws::place_arguments, crate::proofs::PlaceLaws::place_operator, crate::proofs::PlaceLaws::place_quantified, crate::proofs::PlaceLaws::place_tuple, crate::proofs::PlaceLaws::place_lets))]
pub(crate) fn first_place(text: &[u8], expr: &Expr) -> Pos
    ensures { result ≡ place (phrase text.now expr.now) }
{
    let mut first = expr;
    loop {
        match first {
            Expr::Truth(_, pos) => return *pos,
            Expr::NameTerm(name) => return name_place(name),
            Expr::Apply(function, _) => first = function.get(),
            Expr::Project(operand, _) => first = operand.get(),
            Expr::Paren(_, pos) => return *pos,
            Expr::TupleTerm(_, pos) => return *pos,
            Expr::Cond(_, _, _, pos) => return *pos,
            Expr::Binder(_, _, _, pos) => return *pos,
            Expr::Let(_, _, pos) => return *pos,
            Expr::Not(_, pos) => return *pos,
            Expr::Infix(_, left, _) => first = left.get(),
        }
    }
}

/// Where the phrase of a type begins.
fn type_start(text: &[u8], ty: &TypeExpr) -> Pos
    ensures { result ≡ place (type_phrase text.now ty.now) }
{
    match ty {
        TypeExpr::NameType(name) => name_place(name),
        TypeExpr::FunType(_, _, pos) => *pos,
        TypeExpr::TupleType(bindings, pos) => match bindings.as_slice() {
            [only] => match &only.ty {
                Some(ty) => type_start(text, ty),
                None => only.word.pos,
            },
            _ => product_start(text, bindings, *pos),
        },
        TypeExpr::SubType(_, _, _, pos) => *pos,
        TypeExpr::PredType(_, pos) => *pos,
    }
}

/// Where the type of the tuples of several components begins.
fn product_start(text: &[u8], bindings: &Items<Binding>, pos: Pos) -> Pos
    requires { ¬ (length bindings.now ≡ 1) }
    ensures { result ≡ place (domain pos (bounds text.now bindings.now)) }
{
    pos
}

/// The place where the phrase of a part begins, by which `resolve` finds it. This takes no memory,
/// and no walk along the left side of an expression.
#[tactic(auto, using(crate::proofs::PlaceLaws::place_not_some))]
pub fn start_of<'a>(text: &[u8], part: Part<'a>) -> Place<'a>
    ensures { place_in text.now result ≡ place (phrase_at text.now part.entry) }
{
    match part {
        Part::Expr(expr) => Place::Of(expr),
        Part::Type(ty) => Place::At(type_start(text, ty)),
        Part::Truth(_, operand) => Place::Of(operand.get()),
        Part::Equation(left, _) => Place::Of(left.get()),
        Part::Arguments(arguments, from, pos) => arguments_start(text, arguments, from, pos),
        Part::Forall(bindings, from, body, pos) => forall_start(text, bindings, from, body, pos),
        Part::Exists(bindings, from, body, pos) => exists_start(text, bindings, from, body, pos),
        Part::NotExists(_, _, _, pos) => Place::At(pos),
        Part::ForallNotExists(_, _, _, pos) => Place::At(pos),
        Part::Domain(bindings, from, pos) => Place::At(domain_start(text, bindings, from, pos)),
        Part::TypeFrom(word, bindings, from) => {
            Place::At(type_from_start(text, word, bindings, from))
        }
        Part::Lets(parts, from, body, pos) => lets_start(text, parts, from, body, pos),
    }
}

/// Where one argument or the tuple of several begins.
#[tactic(auto, using(crate::proofs::PlaceLaws::place_one, crate::proofs::PlaceLaws::place_several))]
fn arguments_start<'a>(text: &[u8], arguments: &'a Items<Expr>, from: usize, pos: Pos) -> Place<'a>
    ensures { place_in text.now result ≡ place (tuple pos (phrases text.now (drop from arguments.now))) }
{
    match next(arguments, from) {
        Some(first) => {
            if first.left == 1 {
                Place::Of(first.value)
            } else {
                Place::At(pos)
            }
        }
        None => Place::At(pos),
    }
}

/// Where the body under FORALL over the variables after so many begins.
#[tactic(auto, using(crate::proofs::PlaceLaws::place_forall))]
fn forall_start<'a>(
    text: &[u8],
    bindings: &Items<Binding>,
    from: usize,
    body: &'a Boxed<Expr>,
    pos: Pos,
) -> Place<'a>
    ensures { place_in text.now result ≡ place (all_of pos (phrase text.now body.now) (bounds text.now (drop from bindings.now))) }
{
    match next(bindings, from) {
        Some(_) => Place::At(pos),
        None => Place::Of(body.get()),
    }
}

/// Where the body under EXISTS over the variables after so many begins.
#[tactic(auto, using(crate::proofs::PlaceLaws::place_exists))]
fn exists_start<'a>(
    text: &[u8],
    bindings: &Items<Binding>,
    from: usize,
    body: &'a Boxed<Expr>,
    pos: Pos,
) -> Place<'a>
    ensures { place_in text.now result ≡ place (some_of pos (phrase text.now body.now) (bounds text.now (drop from bindings.now))) }
{
    match next(bindings, from) {
        Some(_) => Place::At(pos),
        None => Place::Of(body.get()),
    }
}

/// Where the body under the parts of a LET after so many begins.
#[tactic(auto, using(crate::proofs::PlaceLaws::place_let))]
fn lets_start<'a>(
    text: &[u8],
    parts: &Items<LetPart>,
    from: usize,
    body: &'a Boxed<Expr>,
    pos: Pos,
) -> Place<'a>
    ensures { place_in text.now result ≡ place (lets pos (phrase text.now body.now) (values text.now (drop from parts.now))) }
{
    match next(parts, from) {
        Some(_) => Place::At(pos),
        None => Place::Of(body.get()),
    }
}

/// Where the type that is written next begins, or the word whose VAR has the type.
fn type_from_start(text: &[u8], word: Word, bindings: &Items<Binding>, from: usize) -> Pos
    ensures { result ≡ place (type_from (words.spelling text.now word) word.pos (bounds text.now (drop from bindings.now))) }
{
    match next_type(text, word, bindings, from) {
        Some(ty) => type_start(text, ty),
        None => word.pos,
    }
}

/// Where the type of one component begins, or the type of the tuples of several.
#[tactic(auto, using(crate::proofs::BindingLaws::domain_one, crate::proofs::PlaceLaws::place_components))]
fn domain_start(text: &[u8], bindings: &Items<Binding>, from: usize, pos: Pos) -> Pos
    ensures { result ≡ place (domain pos (bounds text.now (drop from bindings.now))) }
{
    match next(bindings, from) {
        Some(first) => {
            if first.left == 1 {
                type_from_start(text, first.value.word, bindings, from)
            } else {
                pos
            }
        }
        None => pos,
    }
}
