//! The layers of expressions.

ghost use Rattle.std.specs.Prelude.{◌≡◌, ◌<◌, drop, length};
ghost use Rattle.pvs_elab.specs.Desugar.{let_part, lets, lets_term, operator, phrase, quantified, tuple, tuple_term, value_of};
ghost use Rattle.pvs_phrases.specs.Parts.{bounds, layer_phrase, phrase_at, phrases, values};

use crate::bindings::{exists_layer, forall_layer};
use crate::layer::{Binary, Layer, Nullary, Ternary, Unary};
use crate::list::next;
use crate::part::{Part, Place};
use crate::places::first_place;
use crate::types::name_layer;
use crate::words::spelling_of;
use pvs_base::Pos;
use pvs_syntax::{BinderWord, Binding, Expr, InfixWord, LetPart};
use sqlite_items::{Boxed, Items};

/// One layer of an expression.
pub(crate) fn expr_layer<'a>(text: &'a [u8], expr: &'a Expr) -> Layer<'a>
    ensures { layer_phrase text.now result ≡ phrase text.now expr.now }
{
    match expr {
        Expr::Truth(truth, pos) => Layer::Nullary(Nullary::Truth(*truth, Place::At(*pos))),
        Expr::NameTerm(name) => name_layer(text, name),
        Expr::Apply(function, arguments) => match next(arguments, 0) {
            Some(first) => Layer::Binary(
                Binary::Apply,
                Part::Expr(function.get()),
                Part::Arguments(arguments, 0, first_place(text, first.value)),
            ),
            None => expr_layer(text, function.get()),
        },
        Expr::Project(operand, number) => Layer::Unary(
            Unary::Projection(spelling_of(text, *number), number.pos),
            Part::Expr(operand.get()),
        ),
        Expr::Paren(inner, pos) => Layer::Unary(Unary::Group(*pos), Part::Expr(inner.get())),
        Expr::TupleTerm(parts, pos) => tuple_term_layer(text, parts, *pos),
        Expr::Cond(condition, first, second, pos) => Layer::Ternary(
            Ternary::Choice {
                early: true,
                join: Place::Of(second.get()),
                at: Place::At(*pos),
            },
            Part::Expr(condition.get()),
            Part::Expr(first.get()),
            Part::Expr(second.get()),
        ),
        Expr::Binder(word, bindings, body, pos) => binder_layer(text, *word, bindings, body, *pos),
        Expr::Let(parts, body, pos) => let_layer(text, parts, body, *pos),
        Expr::Not(operand, pos) => {
            Layer::Unary(Unary::Not(Place::At(*pos)), Part::Expr(operand.get()))
        }
        Expr::Infix(word, left, right) => operator_layer(text, *word, left, right),
    }
}

/// An operator between two operands.
fn operator_layer<'a>(
    text: &[u8],
    word: InfixWord,
    left: &'a Boxed<Expr>,
    right: &'a Boxed<Expr>,
) -> Layer<'a>
    ensures { layer_phrase text.now result ≡ operator word (phrase text.now left.now) (phrase text.now right.now) }
{
    let first = Part::Expr(left.get());
    let second = Part::Expr(right.get());
    let choice = Ternary::Choice {
        early: false,
        join: Place::Of(right.get()),
        at: Place::Of(left.get()),
    };
    match word {
        InfixWord::And => Layer::Ternary(choice, first, second, Part::Truth(false, right)),
        InfixWord::Or => Layer::Ternary(choice, first, Part::Truth(true, right), second),
        InfixWord::Implies => Layer::Ternary(choice, first, second, Part::Truth(true, right)),
        InfixWord::Iff => Layer::Binary(Binary::Iff, first, second),
        InfixWord::Equal => Layer::Binary(Binary::Equal, first, second),
        InfixWord::Differs => Layer::Unary(
            Unary::Not(Place::Of(left.get())),
            Part::Equation(left, right),
        ),
    }
}

/// A quantifier or LAMBDA.
fn binder_layer<'a>(
    text: &'a [u8],
    word: BinderWord,
    bindings: &'a Items<Binding>,
    body: &'a Boxed<Expr>,
    pos: Pos,
) -> Layer<'a>
    ensures { layer_phrase text.now result ≡ quantified word (bounds text.now bindings.now) (phrase text.now body.now) pos }
{
    if bindings.len() == 0 {
        return Layer::Unary(Unary::Group(pos), Part::Expr(body.get()));
    }
    match word {
        BinderWord::Forall => forall_layer(text, bindings, 0, body, pos),
        BinderWord::Exists => exists_layer(text, bindings, 0, body, pos),
        BinderWord::Lambda => Layer::Binary(
            Binary::Lambda(bindings, pos),
            Part::Domain(bindings, 0, pos),
            Part::Expr(body.get()),
        ),
    }
}

/// A tuple in parentheses of its own.
fn tuple_term_layer<'a>(text: &'a [u8], parts: &'a Items<Expr>, pos: Pos) -> Layer<'a>
    ensures { layer_phrase text.now result ≡ tuple_term pos (phrases text.now parts.now) }
{
    match next(parts, 0) {
        Some(first) => {
            if first.left == 1 {
                Layer::Unary(Unary::Group(pos), Part::Expr(first.value))
            } else {
                tuple_layer(text, parts, 0, pos)
            }
        }
        None => Layer::Nullary(Nullary::Other(Place::At(pos))),
    }
}

/// One argument, or the tuple of several.
pub(crate) fn arguments_layer<'a>(
    text: &'a [u8],
    arguments: &'a Items<Expr>,
    from: usize,
    pos: Pos,
) -> Layer<'a>
    ensures { layer_phrase text.now result ≡ tuple pos (phrases text.now (drop from arguments.now)) }
{
    match next(arguments, from) {
        Some(first) => {
            if first.left == 1 {
                expr_layer(text, first.value)
            } else {
                tuple_layer(text, arguments, from, pos)
            }
        }
        None => Layer::Nullary(Nullary::Other(Place::At(pos))),
    }
}

/// The tuple of several parts.
fn tuple_layer<'a>(text: &[u8], parts: &'a Items<Expr>, from: usize, pos: Pos) -> Layer<'a>
    requires { ¬ (length (drop from parts.now) ≡ 1) }
    ensures { layer_phrase text.now result ≡ tuple pos (phrases text.now (drop from parts.now)) }
{
    match next(parts, from) {
        Some(first) => Layer::Binary(
            Binary::Tuple(first.left - 2, Place::At(pos)),
            Part::Expr(first.value),
            Part::Arguments(parts, first.from, pos),
        ),
        None => Layer::Nullary(Nullary::Other(Place::At(pos))),
    }
}

/// LET.
fn let_layer<'a>(
    text: &'a [u8],
    parts: &'a Items<LetPart>,
    body: &'a Boxed<Expr>,
    pos: Pos,
) -> Layer<'a>
    ensures { layer_phrase text.now result ≡ lets_term pos (phrase text.now body.now) (values text.now parts.now) }
{
    if parts.len() == 0 {
        return Layer::Unary(Unary::Group(pos), Part::Expr(body.get()));
    }
    lets_layer(text, parts, 0, body, pos)
}

/// The body under the parts of a LET after so many, one or more.
pub(crate) fn lets_layer<'a>(
    text: &'a [u8],
    parts: &'a Items<LetPart>,
    from: usize,
    body: &'a Boxed<Expr>,
    pos: Pos,
) -> Layer<'a>
    requires { from < length parts.now }
    ensures { layer_phrase text.now result ≡ lets pos (phrase text.now body.now) (values text.now (drop from parts.now)) }
{
    match next(parts, from) {
        Some(first) => let_part_layer(
            text,
            first.value,
            Part::Lets(parts, first.from, body, pos),
            pos,
        ),
        None => unreachable!(),
    }
}

/// One part of a LET, with what it is in.
fn let_part_layer<'a>(text: &'a [u8], part: &'a LetPart, rest: Part<'a>, pos: Pos) -> Layer<'a>
    ensures { layer_phrase text.now result ≡ let_part (value_of text.now part.now) (phrase_at text.now rest.entry) pos }
{
    let name = spelling_of(text, part.word);
    let value = Part::Expr(&part.value);
    match &part.ty {
        Some(ty) => Layer::Ternary(Ternary::LetAs(name, pos), Part::Type(ty), value, rest),
        None => Layer::Binary(Binary::Let(name, pos), value, rest),
    }
}
