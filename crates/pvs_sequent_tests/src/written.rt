//! Sequents that are written as letters: antecedents, a bar and consequents.

ghost use Rattle.std.specs.Prelude.{◌≡◌, IfOk, OnOk};
ghost use Rattle.pvs_sequent.specs.Numbers.{IsSequent};

use crate::letters::formula;
use pvs_sequent::{Sequent, Side};
use pvs_terms::{MakeFault, Store};
use std::alloc::Global;

/// Adds the formula of a letter as the first one of a side.
fn push_letter(
    store: &mut Store,
    sequent: &mut Sequent,
    side: Side,
    letter: u8,
) -> Result<(), MakeFault>
    requires { IsSequent store.old sequent.old }
    ensures { OnOk result (IsSequent store.new sequent.new) }
{
    let id = formula(store, letter)?;
    sequent.push_first(store, side, id)?;
    Ok(())
}

/// Adds the formulas of letters, from the last one on: consequents, and antecedents before a bar.
fn push_letters(store: &mut Store, sequent: &mut Sequent, letters: &str) -> Result<(), MakeFault>
    requires { IsSequent store.old sequent.old }
    ensures { OnOk result (IsSequent store.new sequent.new) }
{
    let mut side = Side::Consequents;
    let bytes = letters.as_bytes();
    for i in 0..bytes.len() {
        let letter = bytes[bytes.len() - 1 - i];
        if letter == b'|' {
            side = Side::Antecedents;
        } else {
            push_letter(store, sequent, side, letter)?;
        }
    }
    Ok(())
}

/// The sequent of letters: antecedents, a bar, and the consequents but the last one, which is given
/// apart, so that there is one. Its numbers are of the store. The error is that of [`formula`].
pub fn sequent_of(
    alloc: Global,
    store: &mut Store,
    letters: &str,
    last: u8,
) -> Result<Sequent, MakeFault>
    ensures { IfOk result (IsSequent store.new) }
{
    let id = formula(store, last)?;
    let mut sequent = Sequent::goal(alloc, store, id)?;
    push_letters(store, &mut sequent, letters)?;
    Ok(sequent)
}

/// Whether the formula of a number is that of a letter, or none for a bar.
fn is_letter(
    store: &mut Store,
    sequent: &Sequent,
    number: i64,
    letter: u8,
) -> Result<bool, MakeFault> {
    let found = sequent.formula(number);
    if letter == b'|' {
        return Ok(found.is_none());
    }
    Ok(found == Some(formula(store, letter)?))
}

/// The number after this one on its side, or that of the first consequent after a bar.
fn next_number(number: i64, letter: u8) -> i64 {
    if letter == b'|' {
        1
    } else if number < 0 {
        number.wrapping_sub(1)
    } else {
        number.wrapping_add(1)
    }
}

/// Whether a sequent has the formulas of these letters: antecedents, a bar and consequents. The
/// error is that of [`formula`].
pub fn is_written(store: &mut Store, sequent: &Sequent, letters: &str) -> Result<bool, MakeFault> {
    let mut number: i64 = -1;
    for letter in letters.as_bytes() {
        if !is_letter(store, sequent, number, *letter)? {
            return Ok(false);
        }
        number = next_number(number, *letter);
    }
    Ok(sequent.formula(number).is_none())
}
