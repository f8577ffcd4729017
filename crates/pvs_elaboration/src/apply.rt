//! Applications.

ghost use Rattle.pvs_elaboration.specs.declared.apply.ApplyRow.TheVariants as apply_row;
ghost use Rattle.pvs_elaboration.specs.declared.value.Value.TheVariants as value;
ghost use Rattle.pvs_elaboration.specs.Known.{AreKnownNumbers, IsHere, IsTermOf, IsTypeOf, Sources, site_in};
ghost use Rattle.pvs_elaboration.specs.Meanings.{meaning, value_numbers};
ghost use Rattle.pvs_elaboration.specs.Apply.{apply_answer, apply_numbers};
ghost use Rattle.pvs_elaboration.specs.Listing.{Lists};
ghost use Rattle.pvs_elaboration.specs.Machine.{Steps};

use crate::fault::ElabFault;
use crate::frame::{Frame, Next, ask_then, give_to};
use crate::here::{Here, Typed};
use crate::listing::{Listing, fault_at};
use crate::making::make_term;
use crate::scope::Scope;
use crate::steps::fault_of;
use crate::value::{Mode, Value};
use pvs_base::Code;
use pvs_subst::SubstFault;
use pvs_terms::{Id, Node};

/// What is left of an application. Each has the numbers of what was found before.
#[derive(Clone, Copy)]
pub(crate) enum ApplyRow {
    /// The head of the type of the function.
    Function,
    /// The argument, as one of the domain.
    Head(Id),
    /// The tree, after the argument: the function, and its range.
    Argument(Id, Id),
    /// The type: the range, and the argument.
    Tree(Id, Id),
}

/// The function and the argument of an application.
#[derive(Clone, Copy)]
pub(crate) struct Operands {
    pub argument: usize,
    /// The place of the function.
    pub at: usize,
}

/// The head of the type of a function.
#[tactic(auto, using(crate::proofs::ApplyLaws::function_follows))]
fn head_of<S: Scope>(
    scope: &mut S,
    listing: &Listing,
    here: &Here,
    function: Typed,
    operands: Operands,
) -> Result<Next, ElabFault>
    requires here { IsHere (S.known scope.old) here.now }
    requires tree { IsTermOf (S.known scope.old) function.tree }
    requires ty { IsTypeOf (S.known scope.old) function.ty }
    ensures { (t : Sources) → Lists listing.now t → Steps (S.known scope.old) (S.known scope.new) t here.now (apply_answer (site_in (S.known scope.old) t here.now) (S.known scope.old).stored t apply_row.Function operands (meaning (S.known scope.old).stored (value.Typed function))) result }
{
    match scope.head(here, function.ty) {
        Ok(head) => Ok(give_to(
            Value::Formed(head),
            Frame::Apply(ApplyRow::Head(function.tree), operands),
        )),
        Err(fault) => Err(fault_of(listing, operands.at, operands.at, fault)),
    }
}

/// The argument, as one of the domain of a function type.
#[tactic(auto, using(crate::proofs::ApplyLaws::not_a_function))]
fn ask_argument<S: Scope>(
    scope: &S,
    listing: &Listing,
    here: &Here,
    function: Id,
    head: Id,
    operands: Operands,
) -> Result<Next, ElabFault>
    requires here { IsHere (S.known scope.now) here.now }
    requires function { IsTermOf (S.known scope.now) function }
    requires head { IsTypeOf (S.known scope.now) head }
    ensures { (t : Sources) → Lists listing.now t → Steps (S.known scope.now) (S.known scope.now) t here.now (apply_answer (site_in (S.known scope.now) t here.now) (S.known scope.now).stored t (apply_row.Head function) operands (meaning (S.known scope.now).stored (value.Formed head))) result }
{
    match scope.type_view(head) {
        Node::TFun(domain, range) => Ok(ask_then(
            operands.argument,
            Mode::Check(domain),
            Frame::Apply(ApplyRow::Argument(function, range), operands),
        )),
        _ => Err(fault_at(listing, operands.at, Code::NotFunction)),
    }
}

/// The tree of a function and its argument.
fn tree_of<S: Scope>(
    scope: &mut S,
    listing: &Listing,
    here: &Here,
    function: Id,
    range: Id,
    argument: Id,
    operands: Operands,
) -> Result<Next, ElabFault>
    requires here { IsHere (S.known scope.old) here.now }
    requires function { IsTermOf (S.known scope.old) function }
    requires range { IsTypeOf (S.known scope.old) range }
    requires argument { IsTermOf (S.known scope.old) argument }
    ensures { (t : Sources) → Lists listing.now t → Steps (S.known scope.old) (S.known scope.new) t here.now (apply_answer (site_in (S.known scope.old) t here.now) (S.known scope.old).stored t (apply_row.Argument function range) operands (meaning (S.known scope.old).stored (value.Term argument))) result }
{
    make_term(
        scope,
        listing,
        here,
        operands.at,
        Node::App(function, argument),
        Frame::Apply(ApplyRow::Tree(range, argument), operands),
    )
}

/// The range of a function type, with the argument in the place of its variable.
#[tactic(auto, using(crate::proofs::ApplyLaws::range_follows, crate::proofs::ApplyLaws::range_large))]
fn range_of<S: Scope>(
    scope: &mut S,
    listing: &Listing,
    here: &Here,
    tree: Id,
    range: Id,
    argument: Id,
    operands: Operands,
) -> Result<Next, ElabFault>
    requires here { IsHere (S.known scope.old) here.now }
    requires tree { IsTermOf (S.known scope.old) tree }
    requires range { IsTypeOf (S.known scope.old) range }
    requires argument { IsTermOf (S.known scope.old) argument }
    ensures { (t : Sources) → Lists listing.now t → Steps (S.known scope.old) (S.known scope.new) t here.now (apply_answer (site_in (S.known scope.old) t here.now) (S.known scope.old).stored t (apply_row.Tree range argument) operands (meaning (S.known scope.old).stored (value.Term tree))) result }
{
    match scope.put_in(range, argument) {
        Ok(ty) => Ok(give_to(Value::Formed(ty), Frame::WithTerm(tree))),
        Err(SubstFault::TooLarge) => Err(fault_at(listing, operands.at, Code::TooLarge)),
        Err(SubstFault::Memory) => Err(ElabFault::Memory),
    }
}

/// What is done with a value in an application.
#[tactic(auto, using(crate::proofs::KnownLaws::memory_failed, crate::proofs::KnownLaws::grows_none))]
pub(crate) fn resume_apply<S: Scope>(
    scope: &mut S,
    listing: &Listing,
    here: &Here,
    row: ApplyRow,
    operands: Operands,
    value: Value,
) -> Result<Next, ElabFault>
    requires here { IsHere (S.known scope.old) here.now }
    requires row { AreKnownNumbers (S.known scope.old) (apply_numbers row) }
    requires value { AreKnownNumbers (S.known scope.old) (value_numbers value) }
    ensures { (t : Sources) → Lists listing.now t → Steps (S.known scope.old) (S.known scope.new) t here.now (apply_answer (site_in (S.known scope.old) t here.now) (S.known scope.old).stored t row operands (meaning (S.known scope.old).stored value)) result }
{
    match row {
        ApplyRow::Function => match value {
            Value::Typed(function) => head_of(scope, listing, here, function, operands),
            _ => Err(ElabFault::Memory),
        },
        ApplyRow::Head(function) => match value {
            Value::Formed(head) => ask_argument(scope, listing, here, function, head, operands),
            _ => Err(ElabFault::Memory),
        },
        ApplyRow::Argument(function, range) => match value {
            Value::Term(argument) => {
                tree_of(scope, listing, here, function, range, argument, operands)
            }
            _ => Err(ElabFault::Memory),
        },
        ApplyRow::Tree(range, argument) => match value {
            Value::Term(tree) => range_of(scope, listing, here, tree, range, argument, operands),
            _ => Err(ElabFault::Memory),
        },
    }
}
