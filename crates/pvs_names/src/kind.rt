//! The kinds of names.

/// What a name is looked up as (PVS Language Reference, names). Each kind has names of its own: a
/// type, a constant and a formula of one name are three.
#[derive(Clone, Copy, Debug, PartialEq, Eq, Hash)]
pub enum NameKind {
    /// A type.
    TypeName,
    /// A constant, a formal constant or a VAR.
    Constant,
    /// An axiom, an assumption, a lemma or a generated condition.
    FormulaName,
}
