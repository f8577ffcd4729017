//! One layer of a part.

ghost use Rattle.std.specs.Prelude.{◌≡◌, drop};
ghost use Rattle.pvs_elab.specs.Desugar.{all_of, lets, phrase, some_of};
ghost use Rattle.pvs_phrases.specs.Parts.{bounds, layer_phrase, phrase_at, values};
ghost use Rattle.pvs_phrases.specs.Size.{AreSmaller, parts_of};

use crate::bindings::{
    domain_layer, exists_layer, forall_layer, forall_not_exists_layer, type_from_layer,
};
use crate::expressions::{arguments_layer, expr_layer, lets_layer};
use crate::layer::{Binary, Layer, Nullary, Unary};
use crate::part::{Part, Place};
use crate::types::type_layer;
use pvs_base::Pos;
use pvs_syntax::{Binding, Expr, LetPart};
use sqlite_items::{Boxed, Items};

/// The outermost form of the phrase that a part stands for, with parts for the phrases in it, which
/// are smaller. This takes no memory.
pub fn layer_of<'a>(text: &'a [u8], part: Part<'a>) -> Layer<'a>
    ensures form { layer_phrase text.now result ≡ phrase_at text.now part.entry }
    ensures smaller { AreSmaller text.now (phrase_at text.now part.entry) (parts_of result) }
{
    form_of(text, part)
}

fn form_of<'a>(text: &'a [u8], part: Part<'a>) -> Layer<'a>
    ensures { layer_phrase text.now result ≡ phrase_at text.now part.entry }
{
    match part {
        Part::Expr(expr) => expr_layer(text, expr),
        Part::Type(ty) => type_layer(text, ty),
        Part::Truth(truth, operand) => {
            Layer::Nullary(Nullary::Truth(truth, Place::Of(operand.get())))
        }
        Part::Equation(left, right) => Layer::Binary(
            Binary::Equal,
            Part::Expr(left.get()),
            Part::Expr(right.get()),
        ),
        Part::Arguments(arguments, from, pos) => arguments_layer(text, arguments, from, pos),
        Part::Forall(bindings, from, body, pos) => all_layer(text, bindings, from, body, pos),
        Part::Exists(bindings, from, body, pos) => some_layer(text, bindings, from, body, pos),
        Part::NotExists(bindings, from, body, pos) => Layer::Unary(
            Unary::Not(Place::At(pos)),
            Part::Exists(bindings, from, body, pos),
        ),
        Part::ForallNotExists(bindings, from, body, pos) => {
            forall_not_exists_layer(text, bindings, from, body, pos)
        }
        Part::Domain(bindings, from, pos) => domain_layer(text, bindings, from, pos),
        Part::TypeFrom(word, bindings, from) => type_from_layer(text, word, bindings, from),
        Part::Lets(parts, from, body, pos) => rest_layer(text, parts, from, body, pos),
    }
}

/// The body under FORALL over the variables after so many.
fn all_layer<'a>(
    text: &'a [u8],
    bindings: &'a Items<Binding>,
    from: usize,
    body: &'a Boxed<Expr>,
    pos: Pos,
) -> Layer<'a>
    ensures { layer_phrase text.now result ≡ all_of pos (phrase text.now body.now) (bounds text.now (drop from bindings.now)) }
{
    if from < bindings.len() {
        forall_layer(text, bindings, from, body, pos)
    } else {
        expr_layer(text, body.get())
    }
}

/// The body under EXISTS over the variables after so many.
fn some_layer<'a>(
    text: &'a [u8],
    bindings: &'a Items<Binding>,
    from: usize,
    body: &'a Boxed<Expr>,
    pos: Pos,
) -> Layer<'a>
    ensures { layer_phrase text.now result ≡ some_of pos (phrase text.now body.now) (bounds text.now (drop from bindings.now)) }
{
    if from < bindings.len() {
        exists_layer(text, bindings, from, body, pos)
    } else {
        expr_layer(text, body.get())
    }
}

/// The body under the parts of a LET after so many.
fn rest_layer<'a>(
    text: &'a [u8],
    parts: &'a Items<LetPart>,
    from: usize,
    body: &'a Boxed<Expr>,
    pos: Pos,
) -> Layer<'a>
    ensures { layer_phrase text.now result ≡ lets pos (phrase text.now body.now) (values text.now (drop from parts.now)) }
{
    if from < parts.len() {
        lets_layer(text, parts, from, body, pos)
    } else {
        expr_layer(text, body.get())
    }
}
