//! The layers of types.

ghost use Rattle.std.specs.Prelude.{◌≡◌};
ghost use Rattle.pvs_elab.specs.Desugar.{name_phrase, type_phrase};
ghost use Rattle.pvs_phrases.specs.Parts.{layer_phrase};

use crate::bindings::product_layer;
use crate::layer::{Binary, Layer, Nullary, Unary};
use crate::part::{Part, Place};
use crate::words::spelling_of;
use pvs_syntax::{NameExpr, TypeExpr};

/// A name, of a term or of a type. A qualified one is out of profile.
pub(crate) fn name_layer<'a>(text: &'a [u8], name: &'a NameExpr) -> Layer<'a>
    ensures { layer_phrase text.now result ≡ name_phrase text.now name.now }
{
    Layer::Nullary(match &name.qualifier {
        Some(instance) => Nullary::Other(Place::At(instance.theory.pos)),
        None => Nullary::Name(spelling_of(text, name.word), name.word.pos),
    })
}

/// One layer of a type. Calls nest only where a type of tuples has one component, which no text
/// has.
pub(crate) fn type_layer<'a>(text: &'a [u8], ty: &'a TypeExpr) -> Layer<'a>
    ensures { layer_phrase text.now result ≡ type_phrase text.now ty.now }
{
    match ty {
        TypeExpr::NameType(name) => name_layer(text, name),
        TypeExpr::FunType(bindings, range, pos) => Layer::Binary(
            Binary::Function(bindings, *pos),
            Part::Domain(bindings, 0, *pos),
            Part::Type(range.get()),
        ),
        TypeExpr::TupleType(bindings, pos) => match bindings.as_slice() {
            [only] => match &only.ty {
                Some(ty) => type_layer(text, ty),
                None => Layer::Nullary(Nullary::TypeOf(
                    spelling_of(text, only.word),
                    only.word.pos,
                )),
            },
            _ => product_layer(text, bindings, 0, *pos),
        },
        TypeExpr::SubType(word, base, predicate, pos) => Layer::Binary(
            Binary::Subtype(spelling_of(text, *word), *pos),
            Part::Type(base.get()),
            Part::Expr(predicate.get()),
        ),
        TypeExpr::PredType(predicate, pos) => {
            Layer::Unary(Unary::Predicate(*pos), Part::Expr(predicate.get()))
        }
    }
}
