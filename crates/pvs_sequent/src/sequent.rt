//! Sequents of numbered formulas.

ghost use Rattle.std.specs.Prelude.{◌≡◌, [], ◌∷◌, IfOk, OnErr, OnOk, IsSome};
ghost use Rattle.pvs_terms.specs.Stored.{Stored, IsNode, tree_at};
ghost use Rattle.pvs_sequent.specs.Sequents.{add, formula_at, goal, is_closed, place_of, with_first, without};
ghost use Rattle.pvs_sequent.specs.Numbers.{HasAdded, IsBefore, IsFormula, IsSequent, StandsFor, sequent_at};

use crate::closing::{is_antecedent, is_consequent, is_redundant, share};
use crate::list::IdList;
use crate::place::{Place, Side, place_of};
use crate::sides::Sides;
use pvs_terms::{Id, Node, Store};
use std::alloc::{AllocError, Global};
use std::marker::Model;

/// A sequent of formulas of a store: the antecedents together imply one of the consequents, for all
/// values of the variables, which are given by their types, the last one first.
///
/// After the sequents of the proof rules in CSL-97-2.
#[derive(Drop)]
pub struct Sequent {
    variables: IdList,
    sides: Sides,
}

impl Model for Sequent {
    ghost use Rattle.pvs_sequent.specs.Numbered.{Numbered};

    ghost Value = { Numbered };

    ghost view = { λ q. record { variables = q.variables; antecedents = q.sides.antecedents; consequents = q.sides.consequents } };
}

impl Sequent {
    /// The sequent that is to be proved of a formula: the formula is its only consequent.
    pub fn goal(alloc: Global, store: &Store, formula: Id) -> Result<Sequent, AllocError>
        requires { IsNode store.now formula }
        ensures { IfOk result (StandsFor store.now (goal (tree_at store.now formula))) }
    {
        let mut sides = Sides::new(alloc);
        sides.push_consequent(formula)?;
        Ok(Sequent {
            variables: IdList::new(alloc),
            sides,
        })
    }

    /// The types of the variables, the last one first.
    pub fn variables(&self) -> &IdList
        ensures { result.now ≡ self.now.variables }
    {
        &self.variables
    }

    /// The antecedents, the first one first.
    pub fn antecedents(&self) -> &IdList
        ensures { result.now ≡ self.now.antecedents }
    {
        self.sides.antecedents()
    }

    /// The consequents, the first one first.
    pub fn consequents(&self) -> &IdList
        ensures { result.now ≡ self.now.consequents }
    {
        self.sides.consequents()
    }

    /// The formula at a place, or None where there is none.
    pub fn formula_at(&self, place: Place) -> Option<Id>
        ensures { (s : Stored) → IsSequent s self.now → IsFormula s (formula_at (sequent_at s self.now) place) result }
    {
        match place {
            Place::Nowhere => None,
            Place::Antecedent(at) => self.sides.antecedent(at),
            Place::Consequent(at) => self.sides.consequent(at),
        }
    }

    /// The formula of a number, or None where no formula has it: 1, 2, .. are consequents and
    /// -1, -2, .. antecedents.
    pub fn formula(&self, number: i64) -> Option<Id>
        ensures { (s : Stored) → IsSequent s self.now → IsFormula s (formula_at (sequent_at s self.now) (place_of number)) result }
    {
        self.formula_at(place_of(number))
    }

    /// A copy.
    pub fn copy(&self, alloc: Global) -> Result<Sequent, AllocError>
        ensures { IfOk result (λ q. q ≡ self.now) }
    {
        Ok(Sequent {
            variables: self.variables.copy(alloc)?,
            sides: self.sides.copy(alloc)?,
        })
    }

    /// Takes out the formula at a place.
    pub fn remove(&mut self, store: &Store, place: Place)
        requires sequent { IsSequent store.now self.old }
        requires formula { IsSome (formula_at (sequent_at store.now self.old) place) }
        ensures { StandsFor store.now (without (sequent_at store.now self.old) place) self.new }
    {
        match place {
            Place::Nowhere => {}
            Place::Antecedent(at) => self.sides.remove_antecedent(at),
            Place::Consequent(at) => self.sides.remove_consequent(at),
        }
    }

    /// Adds a formula as the first one of a side, whatever it is.
    pub fn push_first(&mut self, store: &Store, side: Side, formula: Id) -> Result<(), AllocError>
        requires sequent { IsSequent store.now self.old }
        requires formula { IsNode store.now formula }
        ensures ok { OnOk result (StandsFor store.now (with_first side (tree_at store.now formula) (sequent_at store.now self.old)) self.new) }
        ensures err { OnErr result (self.new ≡ self.old) }
    {
        match side {
            Side::Antecedents => self.sides.push_antecedent(formula),
            Side::Consequents => self.sides.push_consequent(formula),
        }
    }

    /// Adds a new formula as the first one of a side, unless it says nothing there: TRUE as an
    /// antecedent, FALSE as a consequent.
    pub fn add(&mut self, store: &Store, side: Side, formula: Id) -> Result<(), AllocError>
        requires sequent { IsSequent store.now self.old }
        requires formula { IsNode store.now formula }
        ensures ok { OnOk result (StandsFor store.now (add side (tree_at store.now formula) (sequent_at store.now self.old)) self.new) }
        ensures err { OnErr result (self.new ≡ self.old) }
    {
        if is_redundant(store, side, formula) {
            return Ok(());
        }
        self.push_first(store, side, formula)
    }

    /// Takes out the formula that was added last.
    pub fn undo_add(&mut self, store: &Store, side: Side, formula: Id)
        requires sequent { IsSequent store.now self.old }
        requires formula { IsNode store.now formula }
        requires added { HasAdded store.now side (tree_at store.now formula) self.old }
        ensures { IsBefore store.now side (tree_at store.now formula) self.old self.new }
    {
        if is_redundant(store, side, formula) {
            return;
        }
        match side {
            Side::Antecedents => self.remove(store, Place::Antecedent(0)),
            Side::Consequents => self.remove(store, Place::Consequent(0)),
        }
    }

    /// Whether the rule axiom closes it: an antecedent is FALSE, a consequent is TRUE, or an
    /// antecedent equals a consequent.
    pub fn is_closed(&self, store: &Store) -> bool
        requires { IsSequent store.now self.now }
        ensures { result ≡ is_closed (sequent_at store.now self.now) }
    {
        is_antecedent(store, &self.sides, Node::False)
            || is_consequent(store, &self.sides, Node::True)
            || share(store, &self.sides)
    }
}
