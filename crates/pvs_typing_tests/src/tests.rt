//! The forms of types, coercions, the types of terms, and the codes of refusals, in the context of one
//! variable.

mod codes;
mod coercions;
mod forms;
mod terms;

use crate::trees::Trees;
use pvs_base::Code;
use pvs_subst::Assumed;
use pvs_terms::Id;
use pvs_typing::{Judged, TypeFault};

fn has_goals(judged: &Judged, goals: &[Id]) -> bool {
    if judged.conditions.len() != goals.len() {
        return false;
    }
    for (condition, goal) in judged.conditions.iter().zip(goals) {
        if condition.goal != *goal {
            return false;
        }
    }
    true
}

/// Whether an answer has this type, and owes these goals, in this order.
fn owes(answer: Result<Judged, TypeFault>, ty: Id, goals: &[Id]) -> bool {
    match answer {
        Ok(judged) => judged.ty == ty && has_goals(&judged, goals),
        Err(_) => false,
    }
}

/// Whether an answer is a refusal with this code.
fn is_refused(answer: Result<Judged, TypeFault>, code: Code) -> bool {
    match answer {
        Err(TypeFault::Refused(found)) => found == code,
        _ => false,
    }
}

/// Whether a term has this type, and owes these goals, where a variable of a type is bound.
fn term_owes(trees: &mut Trees, variable: Id, term: Id, ty: Id, goals: &[Id]) -> bool {
    owes(trees.infer(Assumed::Bind(variable), term), ty, goals)
}

/// Whether a term is refused with this code.
fn term_is_refused(trees: &mut Trees, variable: Id, term: Id, code: Code) -> bool {
    is_refused(trees.infer(Assumed::Bind(variable), term), code)
}

/// Whether a term owes these goals against a type.
fn check_owes(trees: &mut Trees, variable: Id, term: Id, ty: Id, goals: &[Id]) -> bool {
    owes(trees.check(Assumed::Bind(variable), term, ty), ty, goals)
}

/// Whether a type owes these goals.
fn type_owes(trees: &mut Trees, variable: Id, ty: Id, goals: &[Id]) -> bool {
    owes(trees.well_formed(Assumed::Bind(variable), ty), ty, goals)
}

/// Whether a type is refused with this code.
fn type_is_refused(trees: &mut Trees, variable: Id, ty: Id, code: Code) -> bool {
    is_refused(trees.well_formed(Assumed::Bind(variable), ty), code)
}

/// Whether a term of the type of the bound variable owes these goals against another type.
fn coercion_owes(trees: &mut Trees, term: Id, from: Id, to: Id, goals: &[Id]) -> bool {
    owes(trees.coerce(Assumed::Bind(from), term, from, to), to, goals)
}

/// Whether a term of the type of the bound variable is refused with this code against another type.
fn coercion_is_refused(trees: &mut Trees, term: Id, from: Id, to: Id, code: Code) -> bool {
    is_refused(trees.coerce(Assumed::Bind(from), term, from, to), code)
}
