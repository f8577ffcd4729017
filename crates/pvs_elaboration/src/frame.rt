//! What is left to do: the entries of a machine, and what follows a step.

ghost use Rattle.std.specs.Prelude.{◌≡◌};
ghost use Rattle.pvs_elaboration.specs.declared.frame.Entrance.TheVariants as spec_entrance;
ghost use Rattle.pvs_elaboration.specs.declared.frame.Control.TheVariants as spec_control;
ghost use Rattle.pvs_elaboration.specs.declared.frame.Frame.TheVariants as spec_frame;

use crate::apply::{ApplyRow, Operands};
use crate::binder::{BinderRow, Binding};
use crate::choice::{Branches, ChoiceRow, NotRow};
use crate::equal::{EqualRow, Sides};
use crate::here::{Here, Typed};
use crate::lets::{Definition, LetRow};
use crate::names::NameRow;
use crate::parts::{PartRow, Projection};
use crate::several::{NamesRow, SeveralRow, Variables};
use crate::subtypes::{PredicateRow, SubtypeRow};
use crate::tuples::{Pair, ProductRow, TupleRow};
use crate::value::{Mode, Value};
use pvs_terms::Id;

/// What is done with a value.
#[derive(Clone, Copy)]
pub(crate) enum Frame {
    /// Nothing: it is the value.
    Same,
    /// A term as one of a type: the place of TooLarge, that of other faults, and the type.
    Coerce(usize, usize, Id),
    /// A term with this type.
    WithType(Id),
    /// A type of this term.
    WithTerm(Id),
    Choice(ChoiceRow, Branches),
    /// With the place of NOT, and that of a mismatch.
    Not(NotRow, usize, usize),
    /// With the place of a fault of typing.
    Name(NameRow, usize),
    Apply(ApplyRow, Operands),
    Binder(BinderRow, Binding),
    Equal(EqualRow, Sides),
    Let(LetRow, Definition),
    Subtype(SubtypeRow, Binding),
    /// A predicate as a type, with the place where it begins, and that of the whole.
    Predicate(PredicateRow, usize, usize),
    Tuple(TupleRow, Pair),
    /// A type of tuples, with the number of components beyond two.
    Product(ProductRow, usize, Binding),
    Part(PartRow, Projection),
    Several(SeveralRow, Variables),
    /// With the part that is asked once all parts of the tuple have their names.
    Names(NamesRow, usize),
}

/// What is done at a place of the text.
#[derive(Clone, Copy)]
pub(crate) enum Control {
    Ask(usize, Mode),
    /// A term as one of a type: the place of TooLarge, that of other faults, and the type.
    Coerce(Typed, usize, usize, Id),
    Give(Value),
    /// A value is given to a frame.
    Use(Frame, Value),
}

/// Where it is done.
#[derive(Clone, Copy)]
pub(crate) enum Entrance {
    Here,
    Hypothesis(Id),
    /// A variable of this name and type.
    Variable(usize, Id),
    /// A variable of this type, without a name.
    Unnamed(Id),
    /// The same place, with a local name for a term.
    Local(usize, Id),
}

/// What follows a step: what is done there, and then with its value here.
#[derive(Clone, Copy)]
pub(crate) struct Next {
    pub entrance: Entrance,
    pub control: Control,
    pub frame: Frame,
}

/// What is left: a value is to be used, or the place is to be left for one outside.
#[derive(Drop)]
pub(crate) enum Entry {
    Use(Frame),
    Leave(Here),
}

/// A place, and what is left to do. The last entry comes first.
#[derive(Drop)]
pub(crate) struct Machine {
    pub here: Here,
    pub entries: Vec<Entry>,
}

/// What goes on with a turn, or the value in the end.
#[derive(Clone, Copy)]
pub(crate) enum Turn {
    Go(Control),
    Stop(Value),
}

/// The value.
pub(crate) fn give(value: Value) -> Next
    ensures { result ≡ record { entrance = spec_entrance.Here; control = spec_control.Give value; frame = spec_frame.Same } }
{
    Next {
        entrance: Entrance::Here,
        control: Control::Give(value),
        frame: Frame::Same,
    }
}

/// What is done with a value.
pub(crate) fn give_to(value: Value, frame: Frame) -> Next
    ensures { result ≡ record { entrance = spec_entrance.Here; control = spec_control.Give value; frame = frame } }
{
    Next {
        entrance: Entrance::Here,
        control: Control::Give(value),
        frame,
    }
}

/// What is asked of a part, and what is done with its value.
pub(crate) fn ask_then(part: usize, mode: Mode, frame: Frame) -> Next
    ensures { result ≡ record { entrance = spec_entrance.Here; control = spec_control.Ask part mode; frame = frame } }
{
    Next {
        entrance: Entrance::Here,
        control: Control::Ask(part, mode),
        frame,
    }
}

/// The same under a hypothesis.
pub(crate) fn ask_under(hypothesis: Id, part: usize, mode: Mode, frame: Frame) -> Next
    ensures { result ≡ record { entrance = spec_entrance.Hypothesis hypothesis; control = spec_control.Ask part mode; frame = frame } }
{
    Next {
        entrance: Entrance::Hypothesis(hypothesis),
        control: Control::Ask(part, mode),
        frame,
    }
}

/// The same under a variable of this name and type.
pub(crate) fn ask_with(name: usize, ty: Id, part: usize, mode: Mode, frame: Frame) -> Next
    ensures { result ≡ record { entrance = spec_entrance.Variable name ty; control = spec_control.Ask part mode; frame = frame } }
{
    Next {
        entrance: Entrance::Variable(name, ty),
        control: Control::Ask(part, mode),
        frame,
    }
}
