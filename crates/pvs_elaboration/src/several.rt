//! LAMBDA and function types of several variables, whose names stand for the parts of one.

ghost use Rattle.std.specs.Prelude.{◌≡◌, ◌+◌, ◌<◌, suc};
ghost use Rattle.pvs_elaboration.specs.declared.frame.Control.TheVariants as spec_control;
ghost use Rattle.pvs_elaboration.specs.declared.frame.Entrance.TheVariants as spec_entrance;
ghost use Rattle.pvs_elaboration.specs.declared.frame.Frame.TheVariants as spec_frame;
ghost use Rattle.pvs_elaboration.specs.declared.several.NamesRow.TheVariants as names_row;
ghost use Rattle.pvs_elaboration.specs.declared.value.Value.TheVariants as value;
ghost use Rattle.pvs_elaboration.specs.Known.{AreKnownNumbers, IsHere, IsTermOf, IsTypeOf, Sources, site_in};
ghost use Rattle.pvs_elaboration.specs.Meanings.{meaning, value_numbers};
ghost use Rattle.pvs_elaboration.specs.Several.{several_answer};
ghost use Rattle.pvs_elaboration.specs.Machine.{Follows, Steps, mode_numbers, names_answer, names_numbers};

use crate::binder::{BinderRow, Binding};
use crate::fault::ElabFault;
use crate::frame::{Control, Entrance, Frame, Next, give_to};
use crate::here::Here;
use crate::scope::Scope;
use crate::tuples::tuple_size;
use crate::value::{Mode, Value};
use pvs_terms::{Id, Node};

/// What is left of a binder of several variables: the body, after the type of the variable.
#[derive(Clone, Copy)]
pub(crate) enum SeveralRow {
    Lambda,
    /// LAMBDA as the predicate of a universal formula.
    Predicate,
    /// A function type.
    Function,
}

/// The names and the scope of several variables.
#[derive(Clone, Copy)]
pub(crate) struct Variables {
    /// The first of their names, which are listed one after another.
    pub first: usize,
    pub count: usize,
    pub body: usize,
    /// The place of the whole.
    pub at: usize,
}

/// What is left to name of the parts of a tuple, before a part of the text is asked: the number of
/// the next name, how many names there are after it, and what is asked. From `First` on it is how
/// many there are but for two.
#[derive(Clone, Copy)]
pub(crate) enum NamesRow {
    /// The first component of the tuple, or the tuple itself, if it has one name.
    Tuple(Id, usize, usize, Mode),
    /// The tuple of the others, after the first: the tuple.
    First(Id, usize, usize, Mode),
    /// The names of the others, after their tuple: the first.
    Second(Id, usize, usize, Mode),
}

/// What asks the body of several variables, of which there are so many after the first.
fn ask_named(
    variable: Id,
    ty: Id,
    others: usize,
    variables: Variables,
    mode: Mode,
    frame: Frame,
) -> Next
    ensures { result ≡ record { entrance = spec_entrance.Unnamed ty; control = spec_control.Use (spec_frame.Names (names_row.Tuple variable variables.first others mode) variables.body) value.Done; frame = frame } }
{
    Next {
        entrance: Entrance::Unnamed(ty),
        control: Control::Use(
            Frame::Names(
                NamesRow::Tuple(variable, variables.first, others, mode),
                variables.body,
            ),
            Value::Done,
        ),
        frame,
    }
}

/// What is done with the type of several variables.
#[tactic(auto, using(crate::proofs::SeveralLaws::lambda_follows, crate::proofs::SeveralLaws::predicate_follows, crate::proofs::SeveralLaws::function_follows))]
fn resume_type<S: Scope>(
    scope: &S,
    here: &Here,
    row: SeveralRow,
    variables: Variables,
    others: usize,
    ty: Id,
) -> Next
    requires here { IsHere (S.known scope.now) here.now }
    requires ty { IsTypeOf (S.known scope.now) ty }
    requires others { variables.count ≡ suc others }
    ensures { (t : Sources) → Follows (S.known scope.now) (S.known scope.now) t here.now (several_answer (site_in (S.known scope.now) t here.now) (S.known scope.now).stored t row variables (meaning (S.known scope.now).stored (value.Formed ty))) result }
{
    let _store = scope.store();
    let binding = Binding {
        name: variables.first,
        body: variables.body,
        at: variables.at,
    };
    match row {
        SeveralRow::Lambda => ask_named(
            here.variable,
            ty,
            others,
            variables,
            Mode::Infer,
            Frame::Binder(BinderRow::LambdaBody(ty), binding),
        ),
        SeveralRow::Predicate => ask_named(
            here.variable,
            ty,
            others,
            variables,
            Mode::Check(here.truth),
            Frame::Binder(BinderRow::PredicateBody, binding),
        ),
        SeveralRow::Function => ask_named(
            here.variable,
            ty,
            others,
            variables,
            Mode::Formed,
            Frame::Binder(BinderRow::Range(ty), binding),
        ),
    }
}

/// What is done with a value in a binder of several variables.
#[tactic(auto, using(crate::proofs::KnownLaws::memory_failed, crate::proofs::KnownLaws::grows_none))]
pub(crate) fn resume_several<S: Scope>(
    scope: &S,
    here: &Here,
    row: SeveralRow,
    variables: Variables,
    value: Value,
) -> Result<Next, ElabFault>
    requires here { IsHere (S.known scope.now) here.now }
    requires value { AreKnownNumbers (S.known scope.now) (value_numbers value) }
    ensures { (t : Sources) → Steps (S.known scope.now) (S.known scope.now) t here.now (several_answer (site_in (S.known scope.now) t here.now) (S.known scope.now).stored t row variables (meaning (S.known scope.now).stored value)) result }
{
    if variables.count == 0 {
        return Err(ElabFault::Memory);
    }
    match value {
        Value::Formed(ty) => Ok(resume_type(scope, here, row, variables, variables.count - 1, ty)),
        _ => Err(ElabFault::Memory),
    }
}

/// The name of a tuple that has one.
fn ask_with_name(name: usize, term: Id, body: usize, mode: Mode) -> Next
    ensures { result ≡ record { entrance = spec_entrance.Local name term; control = spec_control.Ask body mode; frame = spec_frame.Same } }
{
    Next {
        entrance: Entrance::Local(name, term),
        control: Control::Ask(body, mode),
        frame: Frame::Same,
    }
}

/// The name of the first component, and those of the others.
fn name_others(name: usize, first: Id, second: Id, others: usize, body: usize, mode: Mode) -> Next
    requires { name < 18446744073709551615 }
    ensures { result ≡ record { entrance = spec_entrance.Local name first; control = spec_control.Use (spec_frame.Names (names_row.Tuple second (name + 1) others mode) body) value.Done; frame = spec_frame.Same } }
{
    Next {
        entrance: Entrance::Local(name, first),
        control: Control::Use(
            Frame::Names(NamesRow::Tuple(second, name + 1, others, mode), body),
            Value::Done,
        ),
        frame: Frame::Same,
    }
}

/// The first component of a tuple with so many names after the next.
///
/// The component is within the limits where the type of the tuple is; Memory if it is not.
#[tactic(auto, using(crate::proofs::SeveralLaws::one_follows, crate::proofs::SeveralLaws::tuple_follows, crate::proofs::KnownLaws::memory_failed, crate::proofs::KnownLaws::grows_none))]
fn name_tuple<S: Scope>(
    scope: &mut S,
    here: &Here,
    tuple: Id,
    name: usize,
    others: usize,
    body: usize,
    mode: Mode,
) -> Result<Next, ElabFault>
    requires here { IsHere (S.known scope.old) here.now }
    requires tuple { IsTermOf (S.known scope.old) tuple }
    requires mode { AreKnownNumbers (S.known scope.old) (mode_numbers mode) }
    ensures { (t : Sources) → Steps (S.known scope.old) (S.known scope.new) t here.now (names_answer (site_in (S.known scope.old) t here.now) (S.known scope.old).stored t (names_row.Tuple tuple name others mode) body (meaning (S.known scope.old).stored value.Done)) result }
{
    let _depth = here.depth;
    if others == 0 {
        return Ok(ask_with_name(name, tuple, body, mode));
    }
    match tuple_size(others - 1) {
        Ok(size) => match scope.make(Node::Fst(size, tuple)) {
            Ok(first) => Ok(give_to(
                Value::Term(first),
                Frame::Names(NamesRow::First(tuple, name, others - 1, mode), body),
            )),
            Err(_) => Err(ElabFault::Memory),
        },
        Err(_) => Err(ElabFault::Memory),
    }
}

/// The tuple of the components after the first.
#[tactic(auto, using(crate::proofs::SeveralLaws::first_follows, crate::proofs::KnownLaws::memory_failed, crate::proofs::KnownLaws::grows_none))]
fn name_first<S: Scope>(
    scope: &mut S,
    here: &Here,
    tuple: Id,
    name: usize,
    others: usize,
    first: Id,
    body: usize,
    mode: Mode,
) -> Result<Next, ElabFault>
    requires here { IsHere (S.known scope.old) here.now }
    requires tuple { IsTermOf (S.known scope.old) tuple }
    requires first { IsTermOf (S.known scope.old) first }
    requires mode { AreKnownNumbers (S.known scope.old) (mode_numbers mode) }
    ensures { (t : Sources) → Steps (S.known scope.old) (S.known scope.new) t here.now (names_answer (site_in (S.known scope.old) t here.now) (S.known scope.old).stored t (names_row.First tuple name others mode) body (meaning (S.known scope.old).stored (value.Term first))) result }
{
    let _depth = here.depth;
    match tuple_size(others) {
        Ok(size) => match scope.make(Node::Snd(size, tuple)) {
            Ok(second) => Ok(give_to(
                Value::Term(second),
                Frame::Names(NamesRow::Second(first, name, others, mode), body),
            )),
            Err(_) => Err(ElabFault::Memory),
        },
        Err(_) => Err(ElabFault::Memory),
    }
}

/// The names of the components after the first.
#[tactic(auto, using(crate::proofs::SeveralLaws::second_follows, crate::proofs::KnownLaws::memory_failed, crate::proofs::KnownLaws::grows_none))]
fn name_second<S: Scope>(
    scope: &S,
    here: &Here,
    first: Id,
    name: usize,
    others: usize,
    second: Id,
    body: usize,
    mode: Mode,
) -> Result<Next, ElabFault>
    requires here { IsHere (S.known scope.now) here.now }
    requires first { IsTermOf (S.known scope.now) first }
    requires second { IsTermOf (S.known scope.now) second }
    requires mode { AreKnownNumbers (S.known scope.now) (mode_numbers mode) }
    ensures { (t : Sources) → Steps (S.known scope.now) (S.known scope.now) t here.now (names_answer (site_in (S.known scope.now) t here.now) (S.known scope.now).stored t (names_row.Second first name others mode) body (meaning (S.known scope.now).stored (value.Term second))) result }
{
    let _store = scope.store();
    let _depth = here.depth;
    if name == usize::MAX {
        return Err(ElabFault::Memory);
    }
    Ok(name_others(name, first, second, others, body, mode))
}

/// What is done with a value where the parts of a tuple are named.
#[tactic(auto, using(crate::proofs::KnownLaws::memory_failed, crate::proofs::KnownLaws::grows_none))]
pub(crate) fn resume_names<S: Scope>(
    scope: &mut S,
    here: &Here,
    row: NamesRow,
    body: usize,
    value: Value,
) -> Result<Next, ElabFault>
    requires here { IsHere (S.known scope.old) here.now }
    requires row { AreKnownNumbers (S.known scope.old) (names_numbers row) }
    requires value { AreKnownNumbers (S.known scope.old) (value_numbers value) }
    ensures { (t : Sources) → Steps (S.known scope.old) (S.known scope.new) t here.now (names_answer (site_in (S.known scope.old) t here.now) (S.known scope.old).stored t row body (meaning (S.known scope.old).stored value)) result }
{
    match row {
        NamesRow::Tuple(tuple, name, others, mode) => match value {
            Value::Done => name_tuple(scope, here, tuple, name, others, body, mode),
            _ => Err(ElabFault::Memory),
        },
        NamesRow::First(tuple, name, others, mode) => match value {
            Value::Term(first) => {
                name_first(scope, here, tuple, name, others, first, body, mode)
            }
            _ => Err(ElabFault::Memory),
        },
        NamesRow::Second(first, name, others, mode) => match value {
            Value::Term(second) => {
                name_second(scope, here, first, name, others, second, body, mode)
            }
            _ => Err(ElabFault::Memory),
        },
    }
}
