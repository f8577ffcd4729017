//! IF and the connectives, and NOT.

ghost use Rattle.std.specs.Prelude.{◌≡◌};
ghost use Rattle.pvs_elaboration.specs.declared.frame.Entrance.TheVariants as spec_entrance;
ghost use Rattle.pvs_elaboration.specs.declared.frame.Control.TheVariants as spec_control;
ghost use Rattle.pvs_elaboration.specs.declared.frame.Frame.TheVariants as spec_frame;
ghost use Rattle.pvs_elaboration.specs.Known.{AreKnownNumbers, IsHere, IsTermOf, site_in};
ghost use Rattle.pvs_elaboration.specs.Meanings.{meaning, value_numbers};
ghost use Rattle.pvs_elaboration.specs.Choice.{choice_answer, choice_numbers, not_answer, not_numbers};
ghost use Rattle.pvs_elaboration.specs.declared.choice.ChoiceRow.TheVariants as choice_row;
ghost use Rattle.pvs_elaboration.specs.declared.value.Value.TheVariants as spec_value;
ghost use Rattle.pvs_elaboration.specs.Listing.{Lists};
ghost use Rattle.pvs_elaboration.specs.Known.{Sources};
ghost use Rattle.pvs_elaboration.specs.Machine.{Steps};

use crate::fault::ElabFault;
use crate::frame::{Control, Entrance, Frame, Next, ask_under, give, give_to};
use crate::here::{Here, Typed};
use crate::join::{join_general, join_types};
use crate::listing::Listing;
use crate::making::make_term;
use crate::scope::Scope;
use crate::value::{Mode, Value};
use pvs_terms::{Id, Node};

/// The branches of a choice. The tree of an early choice is made before they are joined.
#[derive(Clone, Copy)]
pub(crate) struct Branches {
    pub early: bool,
    pub first: usize,
    pub second: usize,
    /// The places of the branches.
    pub first_at: usize,
    pub second_at: usize,
    /// The place of branches that do not join.
    pub join: usize,
    /// Its own place.
    pub at: usize,
}

/// What is left of a choice. Each has the numbers of what was found before.
#[derive(Clone, Copy)]
pub(crate) enum ChoiceRow {
    /// The first branch, after the condition.
    First,
    /// NOT of the condition, after the first branch.
    Negation(Id),
    /// The second branch, under NOT of the condition.
    Second(Id, Typed),
    /// The type of both branches, after the second one.
    Join(Id, Typed, Id),
    /// A type above both, where there is one.
    Types(Id, Typed, Id, Typed),
    /// The most general type of the first branch, where there is none.
    General(Id, Typed, Id, Typed),
    /// The first branch, as one of it.
    JoinFirst(Id, Typed, Id, Typed),
    /// The second branch, as one of it.
    JoinSecond(Id, Typed, Id, Typed, Id),
    /// The tree, of this type.
    Made(Id, Typed, Typed, Id),
    /// The first branch as one of a type, after the condition.
    CheckFirst(Id),
    /// NOT of the condition, after the first branch.
    CheckNegation(Id, Id),
    /// The second branch as one of a type, under NOT of the condition.
    CheckSecond(Id, Id, Id),
    /// The tree, after both branches.
    CheckLast(Id, Id),
}

/// What is left of NOT.
#[derive(Clone, Copy)]
pub(crate) enum NotRow {
    /// The tree.
    Tree,
    /// FALSE as one of a type, under the operand.
    False(Id),
    /// The tree, after FALSE.
    Negation(Id, Id),
    /// TRUE as one of the type, under the tree.
    True(Id),
    /// The tree that was made.
    Last(Id),
}

/// A branch as one of a type under a hypothesis, and what is done then.
fn join_under(
    hypothesis: Id,
    branch: Typed,
    large: usize,
    at: usize,
    want: Id,
    frame: Frame,
) -> Next
    ensures { result ≡ record { entrance = spec_entrance.Hypothesis hypothesis; control = spec_control.Coerce branch large at want; frame = frame } }
{
    Next {
        entrance: Entrance::Hypothesis(hypothesis),
        control: Control::Coerce(branch, large, at, want),
        frame,
    }
}

/// The first branch as one of a type under the condition.
fn join_first(
    condition: Id,
    first: Typed,
    negation: Id,
    second: Typed,
    want: Id,
    branches: Branches,
) -> Next
    ensures { result ≡ record { entrance = spec_entrance.Hypothesis condition; control = spec_control.Coerce first branches.first_at branches.join want; frame = spec_frame.Choice (choice_row.JoinSecond condition first negation second want) branches } }
{
    let branch = Typed {
        tree: first.tree,
        ty: first.ty,
    };
    let row = ChoiceRow::JoinSecond(condition, first, negation, second, want);
    let frame = Frame::Choice(row, branches);
    join_under(
        condition,
        branch,
        branches.first_at,
        branches.join,
        want,
        frame,
    )
}

/// The second branch as one of a type under NOT of the condition.
fn join_second(
    condition: Id,
    first: Typed,
    negation: Id,
    second: Typed,
    want: Id,
    branches: Branches,
) -> Next
    ensures { result ≡ record { entrance = spec_entrance.Hypothesis negation; control = spec_control.Coerce second branches.second_at branches.join want; frame = spec_frame.Choice (choice_row.Made condition first second want) branches } }
{
    let branch = Typed {
        tree: second.tree,
        ty: second.ty,
    };
    let row = ChoiceRow::Made(condition, first, second, want);
    let frame = Frame::Choice(row, branches);
    join_under(
        negation,
        branch,
        branches.second_at,
        branches.join,
        want,
        frame,
    )
}

/// The tree of an early choice, before its branches are joined.
fn join<S: Scope>(
    scope: &mut S,
    listing: &Listing,
    here: &Here,
    condition: Id,
    first: Typed,
    negation: Id,
    second: Typed,
    branches: Branches,
) -> Result<Next, ElabFault>
    requires here { IsHere (S.known scope.old) here.now }
    requires row { AreKnownNumbers (S.known scope.old) (choice_numbers (choice_row.Types condition first negation second)) }
    ensures { (t : Sources) → Lists listing.now t → Steps (S.known scope.old) (S.known scope.new) t here.now (choice_answer (site_in (S.known scope.old) t here.now) (S.known scope.old).stored t (choice_row.Join condition first negation) branches (meaning (S.known scope.old).stored (spec_value.Typed second))) result }
{
    let node = Node::If(condition, first.tree, second.tree);
    let row = ChoiceRow::Types(condition, first, negation, second);
    let frame = Frame::Choice(row, branches);
    if branches.early {
        make_term(scope, listing, here, branches.at, node, frame)
    } else {
        Ok(give_to(Value::Term(condition), frame))
    }
}

/// What is done with a branch and its type in a choice.
fn resume_branch<S: Scope>(
    scope: &mut S,
    listing: &Listing,
    here: &Here,
    row: ChoiceRow,
    branches: Branches,
    branch: Typed,
) -> Result<Next, ElabFault>
    requires here { IsHere (S.known scope.old) here.now }
    requires row { AreKnownNumbers (S.known scope.old) (choice_numbers row) }
    requires branch { AreKnownNumbers (S.known scope.old) (value_numbers (spec_value.Typed branch)) }
    ensures { (t : Sources) → Lists listing.now t → Steps (S.known scope.old) (S.known scope.new) t here.now (choice_answer (site_in (S.known scope.old) t here.now) (S.known scope.old).stored t row branches (meaning (S.known scope.old).stored (spec_value.Typed branch))) result }
{
    match row {
        ChoiceRow::Negation(p) => make_term(
            scope,
            listing,
            here,
            branches.at,
            Node::If(p, here.no, here.yes),
            Frame::Choice(ChoiceRow::Second(p, branch), branches),
        ),
        ChoiceRow::Join(p, one, n) => join(scope, listing, here, p, one, n, branch, branches),
        _ => Err(ElabFault::Memory),
    }
}

/// What is done with a term in a choice that is checked.
fn resume_checked<S: Scope>(
    scope: &mut S,
    listing: &Listing,
    here: &Here,
    row: ChoiceRow,
    branches: Branches,
    term: Id,
) -> Result<Next, ElabFault>
    requires here { IsHere (S.known scope.old) here.now }
    requires row { AreKnownNumbers (S.known scope.old) (choice_numbers row) }
    requires term { IsTermOf (S.known scope.old) term }
    ensures { (t : Sources) → Lists listing.now t → Steps (S.known scope.old) (S.known scope.new) t here.now (choice_answer (site_in (S.known scope.old) t here.now) (S.known scope.old).stored t row branches (meaning (S.known scope.old).stored (spec_value.Term term))) result }
{
    match row {
        ChoiceRow::CheckFirst(want) => {
            let frame = Frame::Choice(ChoiceRow::CheckNegation(want, term), branches);
            Ok(ask_under(term, branches.first, Mode::Check(want), frame))
        }
        ChoiceRow::CheckNegation(want, p) => make_term(
            scope,
            listing,
            here,
            branches.at,
            Node::If(p, here.no, here.yes),
            Frame::Choice(ChoiceRow::CheckSecond(want, p, term), branches),
        ),
        ChoiceRow::CheckSecond(want, p, one) => {
            let frame = Frame::Choice(ChoiceRow::CheckLast(p, one), branches);
            Ok(ask_under(term, branches.second, Mode::Check(want), frame))
        }
        ChoiceRow::CheckLast(p, one) => make_term(
            scope,
            listing,
            here,
            branches.at,
            Node::If(p, one, term),
            Frame::Same,
        ),
        _ => Err(ElabFault::Memory),
    }
}

/// What is done with a term in a choice.
fn resume_term<S: Scope>(
    scope: &mut S,
    listing: &Listing,
    here: &Here,
    row: ChoiceRow,
    branches: Branches,
    term: Id,
) -> Result<Next, ElabFault>
    requires here { IsHere (S.known scope.old) here.now }
    requires row { AreKnownNumbers (S.known scope.old) (choice_numbers row) }
    requires term { IsTermOf (S.known scope.old) term }
    ensures { (t : Sources) → Lists listing.now t → Steps (S.known scope.old) (S.known scope.new) t here.now (choice_answer (site_in (S.known scope.old) t here.now) (S.known scope.old).stored t row branches (meaning (S.known scope.old).stored (spec_value.Term term))) result }
{
    match row {
        ChoiceRow::First => {
            let frame = Frame::Choice(ChoiceRow::Negation(term), branches);
            Ok(ask_under(term, branches.first, Mode::Infer, frame))
        }
        ChoiceRow::Second(p, one) => {
            let frame = Frame::Choice(ChoiceRow::Join(p, one, term), branches);
            Ok(ask_under(term, branches.second, Mode::Infer, frame))
        }
        ChoiceRow::Types(p, one, n, two) => {
            join_types(scope, listing, here, p, one, n, two, branches)
        }
        ChoiceRow::JoinSecond(p, one, n, two, want) => {
            Ok(join_second(p, one, n, two, want, branches))
        }
        ChoiceRow::Made(p, one, two, ty) => make_term(
            scope,
            listing,
            here,
            branches.at,
            Node::If(p, one.tree, two.tree),
            Frame::WithType(ty),
        ),
        _ => resume_checked(scope, listing, here, row, branches, term),
    }
}

/// What is done with a value in a choice.
pub(crate) fn resume_choice<S: Scope>(
    scope: &mut S,
    listing: &Listing,
    here: &Here,
    row: ChoiceRow,
    branches: Branches,
    value: Value,
) -> Result<Next, ElabFault>
    requires here { IsHere (S.known scope.old) here.now }
    requires row { AreKnownNumbers (S.known scope.old) (choice_numbers row) }
    requires value { AreKnownNumbers (S.known scope.old) (value_numbers value) }
    ensures { (t : Sources) → Lists listing.now t → Steps (S.known scope.old) (S.known scope.new) t here.now (choice_answer (site_in (S.known scope.old) t here.now) (S.known scope.old).stored t row branches (meaning (S.known scope.old).stored value)) result }
{
    match value {
        Value::Typed(branch) => resume_branch(scope, listing, here, row, branches, branch),
        Value::Term(term) => resume_term(scope, listing, here, row, branches, term),
        Value::Formed(want) => match row {
            ChoiceRow::JoinFirst(p, one, n, two) => {
                Ok(join_first(p, one, n, two, want, branches))
            }
            _ => Err(ElabFault::Memory),
        },
        Value::Done => match row {
            ChoiceRow::General(p, one, n, two) => {
                join_general(scope, listing, here, p, one, n, two, branches)
            }
            _ => Err(ElabFault::Memory),
        },
    }
}

/// FALSE or TRUE as one of a type under a hypothesis, and what is done then.
fn coerce_under(hypothesis: Id, tree: Id, ty: Id, at: usize, want: Id, frame: Frame) -> Next
    ensures { result ≡ record { entrance = spec_entrance.Hypothesis hypothesis; control = spec_control.Coerce (record { tree = tree; ty = ty }) at at want; frame = frame } }
{
    Next {
        entrance: Entrance::Hypothesis(hypothesis),
        control: Control::Coerce(Typed { tree, ty }, at, at, want),
        frame,
    }
}

/// What is done with a value in NOT, which has the place `pos`. A mismatch has the place `at`.
pub(crate) fn resume_not<S: Scope>(
    scope: &mut S,
    listing: &Listing,
    here: &Here,
    row: NotRow,
    pos: usize,
    at: usize,
    value: Value,
) -> Result<Next, ElabFault>
    requires here { IsHere (S.known scope.old) here.now }
    requires row { AreKnownNumbers (S.known scope.old) (not_numbers row) }
    requires value { AreKnownNumbers (S.known scope.old) (value_numbers value) }
    ensures { (t : Sources) → Lists listing.now t → Steps (S.known scope.old) (S.known scope.new) t here.now (not_answer (site_in (S.known scope.old) t here.now) (S.known scope.old).stored t row pos at (meaning (S.known scope.old).stored value)) result }
{
    match value {
        Value::Term(p) => match row {
            NotRow::Tree => make_term(
                scope,
                listing,
                here,
                pos,
                Node::If(p, here.no, here.yes),
                Frame::WithType(here.truth),
            ),
            NotRow::False(want) => Ok(coerce_under(
                p,
                here.no,
                here.truth,
                at,
                want,
                Frame::Not(NotRow::Negation(want, p), pos, at),
            )),
            NotRow::Negation(want, p) => make_term(
                scope,
                listing,
                here,
                pos,
                Node::If(p, here.no, here.yes),
                Frame::Not(NotRow::True(want), pos, at),
            ),
            NotRow::True(want) => Ok(coerce_under(
                p,
                here.yes,
                here.truth,
                at,
                want,
                Frame::Not(NotRow::Last(p), pos, at),
            )),
            NotRow::Last(n) => Ok(give(Value::Term(n))),
        },
        _ => Err(ElabFault::Memory),
    }
}
