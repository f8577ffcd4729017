//! Values by names.

ghost use Rattle.std.specs.Prelude.{◌≡◌, ℕ, List, [], ◌∷◌, ◌++◌, Some, None, bytes_eq, not, is_some, if◌then◌else◌, IfOk, OnOk};
ghost use Rattle.std.specs.Option.{option_or};
ghost use Rattle.pvs_theory.specs.code.Index.{HasFormulas, HasNames, formula_value, value_of};
ghost use Rattle.pvs_theory.specs.Names.{FormulaName, is_same};
ghost use Rattle.pvs_theory.specs.Theories.{has_name};

use std::alloc::{AllocError, Global};
use std::collections::BTreeMap;

/// A value for each of some names.
#[derive(Drop)]
pub struct Index<'a, V> {
    pub values: BTreeMap<&'a [u8], V>,
}

impl<'a, V: Copy + Drop> Index<'a, V> {
    /// The index with no name.
    pub fn new(alloc: Global) -> Self
        ensures { (name : List ℕ) → value_of result name ≡ None }
    {
        Index {
            values: BTreeMap::new(alloc),
        }
    }

    /// The value of a name.
    pub fn find(&self, name: &'a [u8]) -> Option<V>
        ensures { result ≡ value_of self.now name.now }
    {
        self.values.get(&name).copied()
    }

    /// Gives a name a value where it has none, and says whether it had none.
    pub fn add(&mut self, name: &'a [u8], value: V) -> Result<bool, AllocError>
        ensures is_new { IfOk result (λ b. b ≡ not (is_some (value_of self.old name.now))) }
        ensures values { OnOk result ((other : List ℕ) → value_of self.new other ≡ option_or (value_of self.old other) (if bytes_eq name.now other then Some value else None)) }
    {
        if self.find(name).is_some() {
            return Ok(false);
        }
        self.values.insert(name, value)?;
        Ok(true)
    }
}

/// Adds a name to those of an index, and says whether it is new there.
pub fn add_name<'a>(names: &mut Index<'a, ()>, name: &'a [u8]) -> Result<bool, AllocError>
    ensures is_new { (seen : List (List ℕ)) → HasNames names.old seen → IfOk result (λ b. b ≡ not (has_name name.now seen)) }
    ensures names { OnOk result ((seen : List (List ℕ)) → HasNames names.old seen → HasNames names.new (seen ++ name.now ∷ [])) }
{
    names.add(name, ())
}

/// A value for each of some formulas, by the names of their theories and their own.
#[derive(Drop)]
pub struct FormulaIndex<'a, V> {
    pub values: BTreeMap<(&'a [u8], &'a [u8]), V>,
}

impl<'a, V: Copy + Drop> FormulaIndex<'a, V> {
    /// The index with no formula.
    pub fn new(alloc: Global) -> Self
        ensures { (n : FormulaName) → formula_value result n ≡ None }
    {
        FormulaIndex {
            values: BTreeMap::new(alloc),
        }
    }

    /// The value of a formula.
    pub fn find(&self, theory: &'a [u8], formula: &'a [u8]) -> Option<V>
        ensures { result ≡ formula_value self.now (record { theory = theory.now; formula = formula.now }) }
    {
        self.values.get(&(theory, formula)).copied()
    }

    /// Gives a formula a value where it has none.
    pub fn add(&mut self, theory: &'a [u8], formula: &'a [u8], value: V) -> Result<(), AllocError>
        ensures { OnOk result ((other : FormulaName) → formula_value self.new other ≡ option_or (formula_value self.old other) (if is_same (record { theory = theory.now; formula = formula.now }) other then Some value else None)) }
    {
        if self.find(theory, formula).is_none() {
            self.values.insert((theory, formula), value)?;
        }
        Ok(())
    }
}

/// Adds a formula to those of an index.
pub fn add_formula<'a>(
    formulas: &mut FormulaIndex<'a, ()>,
    theory: &'a [u8],
    formula: &'a [u8],
) -> Result<(), AllocError>
    ensures { OnOk result ((seen : List FormulaName) → HasFormulas formulas.old seen → HasFormulas formulas.new (seen ++ record { theory = theory.now; formula = formula.now } ∷ [])) }
{
    formulas.add(theory, formula, ())
}
