//! Equations, IFF and universal formulas that are written as equations.

ghost use Rattle.std.specs.Prelude.{◌≡◌, true, false};
ghost use Rattle.pvs_types.specs.Typing.{is_forall};
ghost use Rattle.pvs_terms.specs.Stored.{tree_at};
ghost use Rattle.pvs_elaboration.specs.declared.equal.EqualRow.TheVariants as equal_row;
ghost use Rattle.pvs_elaboration.specs.declared.frame.Control.TheVariants as spec_control;
ghost use Rattle.pvs_elaboration.specs.declared.frame.Entrance.TheVariants as spec_entrance;
ghost use Rattle.pvs_elaboration.specs.declared.frame.Frame.TheVariants as spec_frame;
ghost use Rattle.pvs_elaboration.specs.declared.value.Mode.TheVariants as mode;
ghost use Rattle.pvs_elaboration.specs.declared.value.Value.TheVariants as value;
ghost use Rattle.pvs_elaboration.specs.Known.{AreKnownNumbers, IsHere, IsTermOf, IsTypeOf, Sources, site_in};
ghost use Rattle.pvs_elaboration.specs.Meanings.{meaning, value_numbers};
ghost use Rattle.pvs_elaboration.specs.Equal.{equal_answer, equal_numbers};
ghost use Rattle.pvs_elaboration.specs.Listing.{Lists};
ghost use Rattle.pvs_elaboration.specs.Machine.{Steps};

use crate::fault::ElabFault;
use crate::frame::{Control, Entrance, Frame, Next, ask_then, give, give_to};
use crate::here::{Here, Typed};
use crate::listing::{Listing, fault_at};
use crate::making::make_term;
use crate::scope::Scope;
use crate::steps::fault_of;
use crate::value::{Mode, Value};
use pvs_base::Code;
use pvs_terms::{Id, Node};
use pvs_typing::TypeFault;

/// The sides of an equation, and their places.
#[derive(Clone, Copy)]
pub(crate) struct Sides {
    pub left: usize,
    pub right: usize,
    pub left_at: usize,
    pub right_at: usize,
}

/// What is left of an equation. Each has what was found before.
#[derive(Clone, Copy)]
pub(crate) enum EqualRow {
    /// The head of the type of the left side of IFF, after that side.
    Iff,
    /// The right side, after the head.
    IffHead(Typed),
    /// The right side, after the left one.
    Right,
    /// The tree, after both sides.
    Equation(Typed),
    /// Its typing, after the tree.
    Typing(Typed, Typed),
    /// The code of typing, after the text of a universal formula, which has no fault of its own.
    Refused(Code),
    /// The right side, as one of the most general type of the left one: the sides, and the tree.
    RightSide(Typed, Typed, Id),
    /// The left side, as one of the same type: the side, the tree, and the type.
    LeftSide(Typed, Id, Id),
    /// The tree with its type.
    Last(Id),
}

/// The right side of an equation.
fn ask_right(sides: Sides, left: Typed) -> Next
    ensures { result ≡ record { entrance = spec_entrance.Here; control = spec_control.Ask sides.right mode.Infer; frame = spec_frame.Equal (equal_row.Equation left) sides } }
{
    ask_then(
        sides.right,
        Mode::Infer,
        Frame::Equal(EqualRow::Equation(left), sides),
    )
}

/// The right side of IFF, where the left one is a truth value.
fn resume_head<S: Scope>(
    scope: &S,
    listing: &Listing,
    here: &Here,
    left: Typed,
    head: Id,
    sides: Sides,
) -> Result<Next, ElabFault>
    requires here { IsHere (S.known scope.now) here.now }
    requires left { AreKnownNumbers (S.known scope.now) (equal_numbers (equal_row.IffHead left)) }
    requires head { IsTypeOf (S.known scope.now) head }
    ensures { (t : Sources) → Lists listing.now t → Steps (S.known scope.now) (S.known scope.now) t here.now (equal_answer (site_in (S.known scope.now) t here.now) (S.known scope.now).stored t (equal_row.IffHead left) sides (meaning (S.known scope.now).stored (value.Formed head))) result }
{
    match scope.type_view(head) {
        Node::TBool => Ok(ask_right(sides, left)),
        _ => Err(fault_at(listing, sides.left_at, Code::Mismatch)),
    }
}

/// The typing of a universal formula. Where typing refuses it, the fault is that of its text, if there is one.
fn type_forall<S: Scope>(
    scope: &mut S,
    here: &Here,
    left: Typed,
    right: Typed,
    tree: Id,
    sides: Sides,
) -> Result<Next, ElabFault>
    requires here { IsHere (S.known scope.old) here.now }
    requires sides { AreKnownNumbers (S.known scope.old) (equal_numbers (equal_row.RightSide left right tree)) }
    requires forall { is_forall (tree_at (S.known scope.old).stored left.tree) (tree_at (S.known scope.old).stored right.tree) ≡ true }
    ensures { (t : Sources) → Steps (S.known scope.old) (S.known scope.new) t here.now (equal_answer (site_in (S.known scope.old) t here.now) (S.known scope.old).stored t (equal_row.Typing left right) sides (meaning (S.known scope.old).stored (value.Term tree))) result }
{
    let _right = right;
    match scope.predicate(here, left.tree) {
        Ok(()) => Ok(give(Value::Typed(Typed {
            tree,
            ty: here.truth,
        }))),
        Err(TypeFault::Refused(code)) => Ok(ask_then(
            sides.left,
            Mode::Predicate,
            Frame::Equal(EqualRow::Refused(code), sides),
        )),
        Err(TypeFault::Memory) => Err(ElabFault::Memory),
    }
}

/// The most general type of the left side.
fn type_sides<S: Scope>(
    scope: &mut S,
    listing: &Listing,
    here: &Here,
    left: Typed,
    right: Typed,
    tree: Id,
    sides: Sides,
) -> Result<Next, ElabFault>
    requires here { IsHere (S.known scope.old) here.now }
    requires sides { AreKnownNumbers (S.known scope.old) (equal_numbers (equal_row.RightSide left right tree)) }
    requires other { is_forall (tree_at (S.known scope.old).stored left.tree) (tree_at (S.known scope.old).stored right.tree) ≡ false }
    ensures { (t : Sources) → Lists listing.now t → Steps (S.known scope.old) (S.known scope.new) t here.now (equal_answer (site_in (S.known scope.old) t here.now) (S.known scope.old).stored t (equal_row.Typing left right) sides (meaning (S.known scope.old).stored (value.Term tree))) result }
{
    match scope.most(here, left.ty) {
        Ok(ty) => Ok(give_to(
            Value::Formed(ty),
            Frame::Equal(EqualRow::RightSide(left, right, tree), sides),
        )),
        Err(fault) => Err(fault_of(listing, sides.left_at, sides.left_at, fault)),
    }
}

/// A side as one of a type, and what is done then.
fn coerce_side(side: Typed, large: usize, at: usize, want: Id, frame: Frame) -> Next
    ensures { result ≡ record { entrance = spec_entrance.Here; control = spec_control.Coerce side large at want; frame = frame } }
{
    Next {
        entrance: Entrance::Here,
        control: Control::Coerce(side, large, at, want),
        frame,
    }
}

/// What is done with a term in an equation.
fn resume_tree<S: Scope>(
    scope: &mut S,
    listing: &Listing,
    here: &Here,
    row: EqualRow,
    sides: Sides,
    term: Id,
) -> Result<Next, ElabFault>
    requires here { IsHere (S.known scope.old) here.now }
    requires row { AreKnownNumbers (S.known scope.old) (equal_numbers row) }
    requires term { IsTermOf (S.known scope.old) term }
    ensures { (t : Sources) → Lists listing.now t → Steps (S.known scope.old) (S.known scope.new) t here.now (equal_answer (site_in (S.known scope.old) t here.now) (S.known scope.old).stored t row sides (meaning (S.known scope.old).stored (value.Term term))) result }
{
    match row {
        EqualRow::Typing(left, right) => {
            if scope.is_forall(left.tree, right.tree) {
                type_forall(scope, here, left, right, term, sides)
            } else {
                type_sides(scope, listing, here, left, right, term, sides)
            }
        }
        EqualRow::LeftSide(left, tree, want) => Ok(coerce_side(
            left,
            sides.left_at,
            sides.right_at,
            want,
            Frame::Equal(EqualRow::Last(tree), sides),
        )),
        EqualRow::Last(tree) => Ok(give(Value::Typed(Typed {
            tree,
            ty: here.truth,
        }))),
        _ => Err(ElabFault::Memory),
    }
}

/// The head of the type of the left side of IFF.
fn left_head<S: Scope>(
    scope: &mut S,
    listing: &Listing,
    here: &Here,
    side: Typed,
    sides: Sides,
) -> Result<Next, ElabFault>
    requires here { IsHere (S.known scope.old) here.now }
    requires side { AreKnownNumbers (S.known scope.old) (value_numbers (value.Typed side)) }
    ensures { (t : Sources) → Lists listing.now t → Steps (S.known scope.old) (S.known scope.new) t here.now (equal_answer (site_in (S.known scope.old) t here.now) (S.known scope.old).stored t equal_row.Iff sides (meaning (S.known scope.old).stored (value.Typed side))) result }
{
    match scope.head(here, side.ty) {
        Ok(head) => Ok(give_to(
            Value::Formed(head),
            Frame::Equal(EqualRow::IffHead(side), sides),
        )),
        Err(fault) => Err(fault_of(listing, sides.left_at, sides.left_at, fault)),
    }
}

/// What is done with a term and its type in an equation.
fn resume_side<S: Scope>(
    scope: &mut S,
    listing: &Listing,
    here: &Here,
    row: EqualRow,
    sides: Sides,
    side: Typed,
) -> Result<Next, ElabFault>
    requires here { IsHere (S.known scope.old) here.now }
    requires row { AreKnownNumbers (S.known scope.old) (equal_numbers row) }
    requires side { AreKnownNumbers (S.known scope.old) (value_numbers (value.Typed side)) }
    ensures { (t : Sources) → Lists listing.now t → Steps (S.known scope.old) (S.known scope.new) t here.now (equal_answer (site_in (S.known scope.old) t here.now) (S.known scope.old).stored t row sides (meaning (S.known scope.old).stored (value.Typed side))) result }
{
    match row {
        EqualRow::Iff => left_head(scope, listing, here, side, sides),
        EqualRow::Right => Ok(ask_right(sides, side)),
        EqualRow::Equation(left) => make_term(
            scope,
            listing,
            here,
            sides.left_at,
            Node::Eq(left.tree, side.tree),
            Frame::Equal(EqualRow::Typing(left, side), sides),
        ),
        _ => Err(ElabFault::Memory),
    }
}

/// What is done with a value in an equation.
pub(crate) fn resume_equal<S: Scope>(
    scope: &mut S,
    listing: &Listing,
    here: &Here,
    row: EqualRow,
    sides: Sides,
    value: Value,
) -> Result<Next, ElabFault>
    requires here { IsHere (S.known scope.old) here.now }
    requires row { AreKnownNumbers (S.known scope.old) (equal_numbers row) }
    requires value { AreKnownNumbers (S.known scope.old) (value_numbers value) }
    ensures { (t : Sources) → Lists listing.now t → Steps (S.known scope.old) (S.known scope.new) t here.now (equal_answer (site_in (S.known scope.old) t here.now) (S.known scope.old).stored t row sides (meaning (S.known scope.old).stored value)) result }
{
    match value {
        Value::Typed(side) => resume_side(scope, listing, here, row, sides, side),
        Value::Term(term) => resume_tree(scope, listing, here, row, sides, term),
        Value::Formed(ty) => match row {
            EqualRow::IffHead(left) => resume_head(scope, listing, here, left, ty, sides),
            EqualRow::RightSide(left, right, tree) => Ok(coerce_side(
                right,
                sides.right_at,
                sides.right_at,
                ty,
                Frame::Equal(EqualRow::LeftSide(left, tree, ty), sides),
            )),
            _ => Err(ElabFault::Memory),
        },
        Value::Done => match row {
            EqualRow::Refused(code) => Err(fault_at(listing, sides.left_at, code)),
            _ => Err(ElabFault::Memory),
        },
    }
}
