//! The layers of bindings: quantifiers, domains and types of variables.

ghost use Rattle.std.specs.Prelude.{◌≡◌, ◌<◌, drop, length};
ghost use Rattle.pvs_elab.specs.Desugar.{all_of, domain, phrase, some_of, type_from};
ghost use Rattle.pvs_syntax.specs.Words as words;
ghost use Rattle.pvs_phrases.specs.Parts.{all_not_some, bounds, layer_phrase, type_or_var};

use crate::layer::{Binary, Layer, Nullary, Unary};
use crate::list::next;
use crate::part::{Part, Place};
use crate::types::type_layer;
use crate::words::spelling_of;
use pvs_base::Pos;
use pvs_syntax::{Binding, Expr, TypeExpr, Word};
use sqlite_items::{Boxed, Items};

/// The type that is written next after so many of these bindings, where there is one. This takes
/// no memory.
#[tactic(auto, using(crate::proofs::BindingLaws::next_written, crate::proofs::BindingLaws::next_unwritten))]
pub(crate) fn next_type<'a>(
    text: &[u8],
    word: Word,
    bindings: &'a Items<Binding>,
    from: usize,
) -> Option<&'a TypeExpr>
    ensures { type_from (words.spelling text.now word) word.pos (bounds text.now (drop from bindings.now)) ≡ type_or_var text.now word result }
{
    let mut at = from;
    while let Some(binding) = next(bindings, at) {
        if let Some(ty) = &binding.value.ty {
            return Some(ty);
        }
        at = binding.from;
    }
    None
}

/// The type that is written next, or that of a VAR.
pub(crate) fn type_from_layer<'a>(
    text: &'a [u8],
    word: Word,
    bindings: &'a Items<Binding>,
    from: usize,
) -> Layer<'a>
    ensures { layer_phrase text.now result ≡ type_from (words.spelling text.now word) word.pos (bounds text.now (drop from bindings.now)) }
{
    match next_type(text, word, bindings, from) {
        Some(ty) => type_layer(text, ty),
        None => Layer::Nullary(Nullary::TypeOf(spelling_of(text, word), word.pos)),
    }
}

/// The body under FORALL over the variables after so many, one or more.
pub(crate) fn forall_layer<'a>(
    text: &'a [u8],
    bindings: &'a Items<Binding>,
    from: usize,
    body: &'a Boxed<Expr>,
    pos: Pos,
) -> Layer<'a>
    requires { from < length bindings.now }
    ensures { layer_phrase text.now result ≡ all_of pos (phrase text.now body.now) (bounds text.now (drop from bindings.now)) }
{
    match next(bindings, from) {
        Some(first) => {
            let word = first.value.word;
            Layer::Binary(
                Binary::Forall(spelling_of(text, word), pos),
                Part::TypeFrom(word, bindings, from),
                Part::Forall(bindings, first.from, body, pos),
            )
        }
        None => unreachable!(),
    }
}

/// The body under EXISTS over the variables after so many, one or more.
pub(crate) fn exists_layer<'a>(
    text: &[u8],
    bindings: &'a Items<Binding>,
    from: usize,
    body: &'a Boxed<Expr>,
    pos: Pos,
) -> Layer<'a>
    requires { from < length bindings.now }
    ensures { layer_phrase text.now result ≡ some_of pos (phrase text.now body.now) (bounds text.now (drop from bindings.now)) }
{
    Layer::Unary(
        Unary::Not(Place::At(pos)),
        Part::ForallNotExists(bindings, from, body, pos),
    )
}

/// What an EXISTS denies.
pub(crate) fn forall_not_exists_layer<'a>(
    text: &'a [u8],
    bindings: &'a Items<Binding>,
    from: usize,
    body: &'a Boxed<Expr>,
    pos: Pos,
) -> Layer<'a>
    ensures { layer_phrase text.now result ≡ all_not_some pos (phrase text.now body.now) (bounds text.now (drop from bindings.now)) }
{
    match next(bindings, from) {
        Some(first) => {
            let word = first.value.word;
            Layer::Binary(
                Binary::Forall(spelling_of(text, word), pos),
                Part::TypeFrom(word, bindings, from),
                Part::NotExists(bindings, first.from, body, pos),
            )
        }
        None => Layer::Nullary(Nullary::Other(Place::At(pos))),
    }
}

/// The type of one component, or the type of the tuples of several.
#[tactic(auto, using(crate::proofs::BindingLaws::domain_one))]
pub(crate) fn domain_layer<'a>(
    text: &'a [u8],
    bindings: &'a Items<Binding>,
    from: usize,
    pos: Pos,
) -> Layer<'a>
    ensures { layer_phrase text.now result ≡ domain pos (bounds text.now (drop from bindings.now)) }
{
    match next(bindings, from) {
        Some(first) => {
            if first.left == 1 {
                type_from_layer(text, first.value.word, bindings, from)
            } else {
                product_layer(text, bindings, from, pos)
            }
        }
        None => Layer::Nullary(Nullary::Other(Place::At(pos))),
    }
}

/// The type of the tuples of several components.
pub(crate) fn product_layer<'a>(
    text: &'a [u8],
    bindings: &'a Items<Binding>,
    from: usize,
    pos: Pos,
) -> Layer<'a>
    requires { ¬ (length (drop from bindings.now) ≡ 1) }
    ensures { layer_phrase text.now result ≡ domain pos (bounds text.now (drop from bindings.now)) }
{
    match next(bindings, from) {
        Some(first) => {
            let word = first.value.word;
            Layer::Binary(
                Binary::Product(first.left - 2, spelling_of(text, word), pos),
                Part::TypeFrom(word, bindings, from),
                Part::Domain(bindings, first.from, pos),
            )
        }
        None => Layer::Nullary(Nullary::Other(Place::At(pos))),
    }
}
