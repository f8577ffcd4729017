//! The rules of logic.

/// A rule of logic with its arguments. The number of a formula is -1, -2, .. for antecedents and
/// 1, 2, .. for consequents.
#[derive(Clone, Copy, Debug, PartialEq, Eq)]
pub enum LogicRule {
    /// Closes a sequent with an antecedent that equals a consequent, an antecedent FALSE or a
    /// consequent TRUE.
    Axiom,

    /// Splits on the condition of the formula of this number, which is a conditional.
    If(i64),
}
