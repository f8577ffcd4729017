//! What is listed of a text: parts, places and names. What is left to do has their numbers, since a
//! value that holds a reference beside the number of a node cannot be passed on.

ghost use Rattle.std.specs.Prelude.{◌≡◌, IfOk, IfErr, IfSome, OnOk};
ghost use Rattle.pvs_elab.specs.Desugar.{decimal, names};
ghost use Rattle.pvs_elab.specs.Phrase as phrase;
ghost use Rattle.pvs_syntax.specs.Words as words;
ghost use Rattle.pvs_syntax.specs.declared.expression.Binding.{out-Binding};
ghost use Rattle.pvs_phrases.specs.Parts.{binary_phrase, bounds, layer_phrase, nullary_phrase, phrase_at, ternary_phrase, unary_phrase};
ghost use Rattle.pvs_phrases.specs.Parts as parts;
ghost use Rattle.pvs_elaboration.specs.Known.{Sources, place_in, word_at};
ghost use Rattle.pvs_elaboration.specs.Meanings as spec;
ghost use Rattle.pvs_elaboration.specs.Listing.{AreNamesAdded, AreVariablesAdded, IsBindingAdded, IsDefinitionAdded, IsFaultOrMemory, IsFormAdded, IsFormOf, IsLastName, IsNameAdded, IsPartAdded, IsPlaceAdded, IsSidesAdded, IsStartAdded, IsStartOf, Lists};

use crate::apply::Operands;
use crate::binder::Binding;
use crate::choice::Branches;
use crate::equal::Sides;
use crate::fault::ElabFault;
use crate::lets::Definition;
use crate::parts::Projection;
use crate::several::Variables;
use crate::tuples::Pair;
use pvs_base::{Code, Fault, Pos};
use pvs_lexer::spelling;
use pvs_phrases::{
    Binary, Layer, Nullary, Part, Place, Ternary, Unary, layer_of, resolve, start_of,
};
use pvs_syntax::Binding as Variable;
use sqlite_items::Items;
use std::alloc::AllocError;

/// Parts, places and names of a text. They are only added to.
#[derive(Drop)]
pub(crate) struct Listing<'a> {
    pub text: &'a [u8],
    pub parts: Vec<Part<'a>>,
    pub places: Vec<Place<'a>>,
    pub names: Vec<&'a [u8]>,
}

/// The outermost form of a part, by numbers.
#[derive(Clone, Copy)]
pub(crate) enum Form {
    Name(usize, usize),
    Truth(bool, usize),
    /// The type that the VAR of this name has.
    TypeOf(usize, usize),
    /// What stands in the parentheses, where it begins, and the place of the whole.
    Group(usize, usize, usize),
    Not(usize, usize),
    /// The condition, and the branches.
    Choice(usize, Branches),
    /// The function, and its argument.
    Apply(usize, Operands),
    Equal(Sides),
    Iff(Sides),
    /// The type of the variable, and its scope.
    Forall(usize, Binding),
    Lambda(usize, Binding),
    Function(usize, Binding),
    /// The type of the tuple of several variables, and their scope.
    LambdaOf(usize, Variables),
    FunctionOf(usize, Variables),
    /// A definition without a type that is written.
    Let(Definition),
    /// The type that is written, and the definition.
    LetAs(usize, Definition),
    /// The type of the variable, and its predicate.
    Subtype(usize, Binding),
    /// A predicate as a type: the predicate, where it begins, and the place of the whole.
    Predicate(usize, usize, usize),
    /// The first component, and the others.
    Tuple(usize, Pair),
    /// The type of the first component, the number of components beyond two, and the type of the
    /// others.
    Product(usize, usize, Binding),
    /// The operand, and the number of the component.
    Part(usize, Projection),
    /// A form that is out of profile.
    Other(usize),
}

/// The number of a part.
fn add_part<'a>(listing: &mut Listing<'a>, part: Part<'a>) -> Result<usize, AllocError>
    ensures { IfOk result (IsPartAdded listing.old listing.new part.entry) }
{
    let number = listing.parts.len();
    listing.parts.push(part)?;
    Ok(number)
}

/// The number of a place.
fn add_place<'a>(listing: &mut Listing<'a>, place: Place<'a>) -> Result<usize, AllocError>
    ensures { IfOk result (IsPlaceAdded listing.old listing.new place.entry) }
{
    let number = listing.places.len();
    listing.places.push(place)?;
    Ok(number)
}

/// The number of a name.
pub(crate) fn add_name<'a>(listing: &mut Listing<'a>, name: &'a [u8]) -> Result<usize, AllocError>
    ensures { IfOk result (IsNameAdded listing.old listing.new name.now) }
{
    let number = listing.names.len();
    listing.names.push(name)?;
    Ok(number)
}

/// The number of the place where a part begins.
fn add_start<'a>(listing: &mut Listing<'a>, part: Part<'a>) -> Result<usize, AllocError>
    ensures { IfOk result (IsStartAdded listing.old listing.new part.entry) }
{
    let place = start_of(listing.text, part);
    let number = add_place(listing, place)?;
    Ok(number)
}

/// A form without parts.
fn list_nullary<'a>(listing: &mut Listing<'a>, form: Nullary<'a>) -> Result<Form, AllocError>
    ensures { IfOk result (IsFormAdded listing.old listing.new (nullary_phrase listing.old.text.now form.entry)) }
{
    match form {
        Nullary::Name(name, pos) => {
            let name = add_name(listing, name)?;
            let at = add_place(listing, Place::At(pos))?;
            Ok(Form::Name(name, at))
        }
        Nullary::Truth(truth, place) => {
            let at = add_place(listing, place)?;
            Ok(Form::Truth(truth, at))
        }
        Nullary::TypeOf(name, pos) => {
            let name = add_name(listing, name)?;
            let at = add_place(listing, Place::At(pos))?;
            Ok(Form::TypeOf(name, at))
        }
        Nullary::Other(place) => {
            let at = add_place(listing, place)?;
            Ok(Form::Other(at))
        }
    }
}

/// Parentheses.
fn list_group<'a>(listing: &mut Listing<'a>, inner: Part<'a>, pos: Pos) -> Result<Form, AllocError>
    ensures { IfOk result (IsFormAdded listing.old listing.new (phrase.Group (phrase_at listing.old.text.now inner.entry) pos)) }
{
    let start = add_start(listing, inner)?;
    let at = add_place(listing, Place::At(pos))?;
    let inner = add_part(listing, inner)?;
    Ok(Form::Group(inner, start, at))
}

/// A predicate as a type.
fn list_predicate<'a>(
    listing: &mut Listing<'a>,
    predicate: Part<'a>,
    pos: Pos,
) -> Result<Form, AllocError>
    ensures { IfOk result (IsFormAdded listing.old listing.new (phrase.Predicate (phrase_at listing.old.text.now predicate.entry) pos)) }
{
    let start = add_start(listing, predicate)?;
    let at = add_place(listing, Place::At(pos))?;
    let predicate = add_part(listing, predicate)?;
    Ok(Form::Predicate(predicate, start, at))
}

/// The component with a number, of an operand.
fn list_projection<'a>(
    listing: &mut Listing<'a>,
    digits: &'a [u8],
    operand: Part<'a>,
    pos: Pos,
) -> Result<Form, AllocError>
    ensures { IfOk result (IsFormAdded listing.old listing.new (phrase.Part (phrase_at listing.old.text.now operand.entry) (decimal 0 digits.now) pos)) }
{
    let digits = add_name(listing, digits)?;
    let number_at = add_place(listing, Place::At(pos))?;
    let at = add_start(listing, operand)?;
    let operand = add_part(listing, operand)?;
    Ok(Form::Part(
        operand,
        Projection {
            digits,
            number_at,
            at,
        },
    ))
}

/// A form with one part.
fn list_unary<'a>(
    listing: &mut Listing<'a>,
    form: Unary<'a>,
    part: Part<'a>,
) -> Result<Form, AllocError>
    ensures { IfOk result (IsFormAdded listing.old listing.new (unary_phrase listing.old.text.now form.entry (phrase_at listing.old.text.now part.entry))) }
{
    match form {
        Unary::Group(pos) => list_group(listing, part, pos),
        Unary::Not(place) => {
            let part = add_part(listing, part)?;
            let at = add_place(listing, place)?;
            Ok(Form::Not(part, at))
        }
        Unary::Predicate(pos) => list_predicate(listing, part, pos),
        Unary::Projection(digits, pos) => list_projection(listing, digits, part, pos),
    }
}

/// Both sides of an equation.
fn list_sides<'a>(
    listing: &mut Listing<'a>,
    left: Part<'a>,
    right: Part<'a>,
) -> Result<Sides, AllocError>
    ensures { IfOk result (IsSidesAdded listing.old listing.new left.entry right.entry) }
{
    let left_at = add_start(listing, left)?;
    let right_at = add_start(listing, right)?;
    let left = add_part(listing, left)?;
    let right = add_part(listing, right)?;
    Ok(Sides {
        left,
        right,
        left_at,
        right_at,
    })
}

/// The scope of a variable.
fn list_binding<'a>(
    listing: &mut Listing<'a>,
    name: &'a [u8],
    body: Part<'a>,
    pos: Pos,
) -> Result<Binding, AllocError>
    ensures { IfOk result (IsBindingAdded listing.old listing.new name.now body.entry pos) }
{
    let name = add_name(listing, name)?;
    let at = add_place(listing, Place::At(pos))?;
    let body = add_part(listing, body)?;
    Ok(Binding { name, body, at })
}

/// A function and its argument.
fn list_apply<'a>(
    listing: &mut Listing<'a>,
    function: Part<'a>,
    argument: Part<'a>,
) -> Result<Form, AllocError>
    ensures { IfOk result (IsFormAdded listing.old listing.new (phrase.Apply (phrase_at listing.old.text.now function.entry) (phrase_at listing.old.text.now argument.entry))) }
{
    let at = add_start(listing, function)?;
    let function = add_part(listing, function)?;
    let argument = add_part(listing, argument)?;
    Ok(Form::Apply(function, Operands { argument, at }))
}

/// FORALL over a variable.
fn list_forall<'a>(
    listing: &mut Listing<'a>,
    name: &'a [u8],
    ty: Part<'a>,
    body: Part<'a>,
    pos: Pos,
) -> Result<Form, AllocError>
    ensures { IfOk result (IsFormAdded listing.old listing.new (phrase.All name.now (phrase_at listing.old.text.now ty.entry) (phrase_at listing.old.text.now body.entry) pos)) }
{
    let binding = list_binding(listing, name, body, pos)?;
    let ty = add_part(listing, ty)?;
    Ok(Form::Forall(ty, binding))
}

/// The name of a variable, after the other names.
fn list_variable<'a>(listing: &mut Listing<'a>, variable: &'a Variable) -> Result<(), AllocError>
    ensures { OnOk result (IsLastName listing.old listing.new (words.spelling listing.old.text.now (out-Binding variable.now).word)) }
{
    let name = spelling(listing.text, variable.word.start, variable.word.end);
    listing.names.push(name)?;
    Ok(())
}

/// The number of the first of the names of these variables, which are listed one after another.
#[tactic(auto, using(crate::proofs::ListingLaws::none_listed, crate::proofs::ListingLaws::variable_listed, crate::proofs::ListingLaws::variables_listed))]
pub(crate) fn list_names<'a>(
    listing: &mut Listing<'a>,
    variables: &'a Items<Variable>,
) -> Result<usize, AllocError>
    ensures { IfOk result (AreNamesAdded listing.old listing.new (names (bounds listing.old.text.now variables.now))) }
{
    let first = listing.names.len();
    for variable in variables.as_slice() {
        list_variable(listing, variable)?;
    }
    Ok(first)
}

/// Several variables, and their scope.
fn list_variables<'a>(
    listing: &mut Listing<'a>,
    variables: &'a Items<Variable>,
    body: Part<'a>,
    pos: Pos,
) -> Result<Variables, AllocError>
    ensures { IfOk result (AreVariablesAdded listing.old listing.new (names (bounds listing.old.text.now variables.now)) body.entry pos) }
{
    let first = list_names(listing, variables)?;
    let at = add_place(listing, Place::At(pos))?;
    let body = add_part(listing, body)?;
    Ok(Variables {
        first,
        count: variables.len(),
        body,
        at,
    })
}

/// LAMBDA of these variables.
fn list_lambda<'a>(
    listing: &mut Listing<'a>,
    variables: &'a Items<Variable>,
    ty: Part<'a>,
    body: Part<'a>,
    pos: Pos,
) -> Result<Form, AllocError>
    ensures { IfOk result (IsFormAdded listing.old listing.new (phrase.Lambda (phrase_at listing.old.text.now ty.entry) (names (bounds listing.old.text.now variables.now)) (phrase_at listing.old.text.now body.entry) pos)) }
{
    match variables.as_slice() {
        [only] => {
            let name = spelling(listing.text, only.word.start, only.word.end);
            let binding = list_binding(listing, name, body, pos)?;
            let ty = add_part(listing, ty)?;
            Ok(Form::Lambda(ty, binding))
        }
        _ => {
            let scope = list_variables(listing, variables, body, pos)?;
            let ty = add_part(listing, ty)?;
            Ok(Form::LambdaOf(ty, scope))
        }
    }
}

/// The type of functions of these variables.
fn list_function<'a>(
    listing: &mut Listing<'a>,
    variables: &'a Items<Variable>,
    domain: Part<'a>,
    range: Part<'a>,
    pos: Pos,
) -> Result<Form, AllocError>
    ensures { IfOk result (IsFormAdded listing.old listing.new (phrase.Function (phrase_at listing.old.text.now domain.entry) (names (bounds listing.old.text.now variables.now)) (phrase_at listing.old.text.now range.entry) pos)) }
{
    match variables.as_slice() {
        [only] => {
            let name = spelling(listing.text, only.word.start, only.word.end);
            let binding = list_binding(listing, name, range, pos)?;
            let domain = add_part(listing, domain)?;
            Ok(Form::Function(domain, binding))
        }
        _ => {
            let scope = list_variables(listing, variables, range, pos)?;
            let domain = add_part(listing, domain)?;
            Ok(Form::FunctionOf(domain, scope))
        }
    }
}

/// A name, its value, and its scope.
fn list_definition<'a>(
    listing: &mut Listing<'a>,
    name: &'a [u8],
    value: Part<'a>,
    body: Part<'a>,
    pos: Pos,
) -> Result<Definition, AllocError>
    ensures { IfOk result (IsDefinitionAdded listing.old listing.new name.now value.entry body.entry pos) }
{
    let value_at = add_start(listing, value)?;
    let binding = list_binding(listing, name, body, pos)?;
    let value = add_part(listing, value)?;
    Ok(Definition {
        name: binding.name,
        value,
        body: binding.body,
        value_at,
        at: binding.at,
    })
}

/// LET without a type that is written.
fn list_let<'a>(
    listing: &mut Listing<'a>,
    name: &'a [u8],
    value: Part<'a>,
    body: Part<'a>,
    pos: Pos,
) -> Result<Form, AllocError>
    ensures { IfOk result (IsFormAdded listing.old listing.new (phrase.Let name.now (phrase_at listing.old.text.now value.entry) (phrase_at listing.old.text.now body.entry) pos)) }
{
    let definition = list_definition(listing, name, value, body, pos)?;
    Ok(Form::Let(definition))
}

/// LET with a type that is written.
fn list_let_as<'a>(
    listing: &mut Listing<'a>,
    name: &'a [u8],
    ty: Part<'a>,
    value: Part<'a>,
    body: Part<'a>,
    pos: Pos,
) -> Result<Form, AllocError>
    ensures { IfOk result (IsFormAdded listing.old listing.new (phrase.LetAs name.now (phrase_at listing.old.text.now ty.entry) (phrase_at listing.old.text.now value.entry) (phrase_at listing.old.text.now body.entry) pos)) }
{
    let definition = list_definition(listing, name, value, body, pos)?;
    let ty = add_part(listing, ty)?;
    Ok(Form::LetAs(ty, definition))
}

/// A predicate subtype.
fn list_subtype<'a>(
    listing: &mut Listing<'a>,
    name: &'a [u8],
    ty: Part<'a>,
    predicate: Part<'a>,
    pos: Pos,
) -> Result<Form, AllocError>
    ensures { IfOk result (IsFormAdded listing.old listing.new (phrase.Sub name.now (phrase_at listing.old.text.now ty.entry) (phrase_at listing.old.text.now predicate.entry) pos)) }
{
    let binding = list_binding(listing, name, predicate, pos)?;
    let ty = add_part(listing, ty)?;
    Ok(Form::Subtype(ty, binding))
}

/// A tuple with so many components beyond two.
fn list_tuple<'a>(
    listing: &mut Listing<'a>,
    beyond: usize,
    first: Part<'a>,
    second: Part<'a>,
    place: Place<'a>,
) -> Result<Form, AllocError>
    ensures { IfOk result (IsFormAdded listing.old listing.new (phrase.Tuple beyond (phrase_at listing.old.text.now first.entry) (phrase_at listing.old.text.now second.entry) (parts.place_in listing.old.text.now place.entry))) }
{
    let at = add_place(listing, place)?;
    let first = add_part(listing, first)?;
    let second = add_part(listing, second)?;
    Ok(Form::Tuple(first, Pair { second, beyond, at }))
}

/// The type of tuples with so many components beyond two.
fn list_product<'a>(
    listing: &mut Listing<'a>,
    beyond: usize,
    name: &'a [u8],
    first: Part<'a>,
    second: Part<'a>,
    pos: Pos,
) -> Result<Form, AllocError>
    ensures { IfOk result (IsFormAdded listing.old listing.new (phrase.Product beyond name.now (phrase_at listing.old.text.now first.entry) (phrase_at listing.old.text.now second.entry) pos)) }
{
    let binding = list_binding(listing, name, second, pos)?;
    let first = add_part(listing, first)?;
    Ok(Form::Product(first, beyond, binding))
}

/// A form with two parts.
fn list_binary<'a>(
    listing: &mut Listing<'a>,
    form: Binary<'a>,
    first: Part<'a>,
    second: Part<'a>,
) -> Result<Form, AllocError>
    ensures { IfOk result (IsFormAdded listing.old listing.new (binary_phrase listing.old.text.now form.entry (phrase_at listing.old.text.now first.entry) (phrase_at listing.old.text.now second.entry))) }
{
    match form {
        Binary::Apply => list_apply(listing, first, second),
        Binary::Equal => {
            let sides = list_sides(listing, first, second)?;
            Ok(Form::Equal(sides))
        }
        Binary::Iff => {
            let sides = list_sides(listing, first, second)?;
            Ok(Form::Iff(sides))
        }
        Binary::Forall(name, pos) => list_forall(listing, name, first, second, pos),
        Binary::Lambda(variables, pos) => list_lambda(listing, variables, first, second, pos),
        Binary::Function(variables, pos) => list_function(listing, variables, first, second, pos),
        Binary::Tuple(beyond, place) => list_tuple(listing, beyond, first, second, place),
        Binary::Let(name, pos) => list_let(listing, name, first, second, pos),
        Binary::Subtype(name, pos) => list_subtype(listing, name, first, second, pos),
        Binary::Product(beyond, name, pos) => {
            list_product(listing, beyond, name, first, second, pos)
        }
    }
}

/// A condition and its branches.
fn list_choice<'a>(
    listing: &mut Listing<'a>,
    early: bool,
    join: Place<'a>,
    at: Place<'a>,
    condition: Part<'a>,
    first: Part<'a>,
    second: Part<'a>,
) -> Result<Form, AllocError>
    ensures { IfOk result (IsFormAdded listing.old listing.new (phrase.Choice early (phrase_at listing.old.text.now condition.entry) (phrase_at listing.old.text.now first.entry) (phrase_at listing.old.text.now second.entry) (parts.place_in listing.old.text.now join.entry) (parts.place_in listing.old.text.now at.entry))) }
{
    let join = add_place(listing, join)?;
    let at = add_place(listing, at)?;
    let sides = list_sides(listing, first, second)?;
    let condition = add_part(listing, condition)?;
    Ok(Form::Choice(
        condition,
        Branches {
            early,
            first: sides.left,
            second: sides.right,
            first_at: sides.left_at,
            second_at: sides.right_at,
            join,
            at,
        },
    ))
}

/// A form with three parts.
fn list_ternary<'a>(
    listing: &mut Listing<'a>,
    form: Ternary<'a>,
    condition: Part<'a>,
    first: Part<'a>,
    second: Part<'a>,
) -> Result<Form, AllocError>
    ensures { IfOk result (IsFormAdded listing.old listing.new (ternary_phrase listing.old.text.now form.entry (phrase_at listing.old.text.now condition.entry) (phrase_at listing.old.text.now first.entry) (phrase_at listing.old.text.now second.entry))) }
{
    match form {
        Ternary::Choice { early, join, at } => {
            list_choice(listing, early, join, at, condition, first, second)
        }
        Ternary::LetAs(name, pos) => list_let_as(listing, name, condition, first, second, pos),
    }
}

/// A layer of a part.
fn list_layer<'a>(listing: &mut Listing<'a>, layer: Layer<'a>) -> Result<Form, AllocError>
    ensures { IfOk result (IsFormAdded listing.old listing.new (layer_phrase listing.old.text.now layer.entry)) }
{
    match layer {
        Layer::Nullary(form) => list_nullary(listing, form),
        Layer::Unary(form, inner) => list_unary(listing, form, inner),
        Layer::Binary(form, first, second) => list_binary(listing, form, first, second),
        Layer::Ternary(form, first, second, third) => {
            list_ternary(listing, form, first, second, third)
        }
    }
}

/// The outermost form of a part, and the number of the place where it begins.
pub(crate) fn form_of(listing: &mut Listing, part: usize) -> Result<(Form, usize), ElabFault>
    ensures form { IfOk result (λ r. IsFormOf listing.old listing.new part r.0 r.1) }
    ensures memory { IfErr result (λ e. e ≡ ElabFault.Memory) }
{
    if part >= listing.parts.len() {
        return Err(ElabFault::Memory);
    }
    let part = listing.parts[part];
    let layer = layer_of(listing.text, part);
    let form = list_layer(listing, layer)?;
    let start = add_start(listing, part)?;
    Ok((form, start))
}

/// The number of the place where a listed part begins.
pub(crate) fn start_at(listing: &mut Listing, part: usize) -> Result<usize, ElabFault>
    ensures start { IfOk result (IsStartOf listing.old listing.new part) }
    ensures memory { IfErr result (λ e. e ≡ ElabFault.Memory) }
{
    if part >= listing.parts.len() {
        return Err(ElabFault::Memory);
    }
    let part = listing.parts[part];
    let start = add_start(listing, part)?;
    Ok(start)
}

/// The bytes of a name.
pub(crate) fn name_of<'a>(listing: &Listing<'a>, number: usize) -> Option<&'a [u8]>
    ensures { IfSome result (λ x. (t : Sources) → Lists listing.now t → word_at t number ≡ x.now) }
{
    if number >= listing.names.len() {
        return None;
    }
    Some(listing.names[number])
}

/// The fault of a code at a place.
pub(crate) fn fault_at(listing: &Listing, at: usize, code: Code) -> ElabFault
    ensures { (t : Sources) → Lists listing.now t → IsFaultOrMemory (spec.fault_at (place_in t at) code) result }
{
    if at >= listing.places.len() {
        return ElabFault::Memory;
    }
    let place = listing.places[at];
    let pos = resolve(listing.text, place);
    ElabFault::At(Fault { pos, code })
}
