//! The faults of texts, theories and proofs.

ghost use Rattle.std.specs.Prelude.{◌≡◌, ℕ};
ghost use Rattle.pvs_base.specs.CodeName.{name_of};

use crate::place::Pos;

/// A fault and the place that it is reported at.
#[derive(Clone, Copy, Debug, PartialEq, Eq)]
pub struct Fault {
    pub pos: Pos,
    pub code: Code,
}

/// Why a text, a theory or a proof is refused.
#[derive(Clone, Copy, Debug, PartialEq, Eq)]
pub enum Code {
    // Of a text.
    /// A byte that begins no token.
    BadByte,
    /// A quote with no second one.
    UnclosedQuote,
    /// A text of more than `MAX_TEXT` bytes.
    TextTooLong,
    /// A token, or the end of the text, where the grammar has nothing to go on with.
    Unexpected,
    /// A nesting deeper than `MAX_LEVEL`, or a list of more than `MAX_LIST` entries.
    TooNested,
    /// A form of PVS that this checker does not have.
    OutOfProfile,
    /// An END with the name of another theory.
    WrongEnd,

    // Of names.
    /// A name that nothing declares.
    Unknown,
    /// A name that several importings bring.
    Ambiguous,
    /// A name that is declared before.
    Duplicate,
    /// A qualified name of a theory, or an instance, that no importing brings.
    NotImported,
    /// Another number of actuals than the theory has formals.
    ActualCount,
    /// A term for a type formal, or a type for a constant formal.
    ActualKind,
    /// An actual with a bound variable in it.
    OpenActual,
    /// An importing of a theory with formals that gives no actuals.
    GenericImporting,
    /// A theory that imports itself, by way of others or not.
    Cyclic,
    /// An importing of a theory that is refused.
    ImportsRefused,
    /// More visible instances than `MAX_INSTANCES`.
    TooManyInstances,

    // Of types.
    /// An application of what is no function.
    NotFunction,
    /// A projection of what is no tuple.
    NotTuple,
    /// A projection past the last part of a tuple.
    NoSuchPart,
    /// A term of another type than is wanted.
    Mismatch,
    /// A term in a type's place that is no predicate.
    NotPredicate,
    /// A tree, a scope, a sequent or a theory past its limit.
    TooLarge,

    // Of proofs.
    /// A proof of a formula that no accepted theory has.
    NoSuchFormula,
    /// A proof of an axiom or an assumption.
    ProofOfAxiom,
    /// A second proof of a formula.
    SecondProof,
    /// A step by a rule that does not exist.
    NoSuchRule,
    /// A step with other arguments than its rule takes.
    BadArguments,
    /// The number of no formula of the sequent.
    NoSuchNumber,
    /// A step whose rule does not apply to the sequent.
    NotApplicable,
    /// A step that cites the formula that is proved, or one that stands later.
    NotCitable,
    /// A step with another number of premises than trees follow it.
    BranchCount,
}

/// The name of a code, as a report prints it: that of the variant. This takes no memory.
pub fn code_name(code: Code) -> &'static str
    ensures { result.now ≡ name_of code }
{
    match code {
        Code::BadByte => "BadByte",
        Code::UnclosedQuote => "UnclosedQuote",
        Code::TextTooLong => "TextTooLong",
        Code::Unexpected => "Unexpected",
        Code::TooNested => "TooNested",
        Code::OutOfProfile => "OutOfProfile",
        Code::WrongEnd => "WrongEnd",
        Code::Unknown => "Unknown",
        Code::Ambiguous => "Ambiguous",
        Code::Duplicate => "Duplicate",
        Code::NotImported => "NotImported",
        Code::ActualCount => "ActualCount",
        Code::ActualKind => "ActualKind",
        Code::OpenActual => "OpenActual",
        Code::GenericImporting => "GenericImporting",
        Code::Cyclic => "Cyclic",
        Code::ImportsRefused => "ImportsRefused",
        Code::TooManyInstances => "TooManyInstances",
        Code::NotFunction => "NotFunction",
        Code::NotTuple => "NotTuple",
        Code::NoSuchPart => "NoSuchPart",
        Code::Mismatch => "Mismatch",
        Code::NotPredicate => "NotPredicate",
        Code::TooLarge => "TooLarge",
        Code::NoSuchFormula => "NoSuchFormula",
        Code::ProofOfAxiom => "ProofOfAxiom",
        Code::SecondProof => "SecondProof",
        Code::NoSuchRule => "NoSuchRule",
        Code::BadArguments => "BadArguments",
        Code::NoSuchNumber => "NoSuchNumber",
        Code::NotApplicable => "NotApplicable",
        Code::NotCitable => "NotCitable",
        Code::BranchCount => "BranchCount",
    }
}
