//! Names that are declared again.

ghost use Rattle.std.specs.Prelude.{◌≡◌, ℕ, List, [], ◌∷◌, ◌++◌, IfOk, OnOk};
ghost use Rattle.pvs_syntax.specs.declared.unit.Decl as spec_decl;
ghost use Rattle.pvs_theory.specs.code.Index.{HasNames};
ghost use Rattle.pvs_syntax.specs.Words.{spelling};
ghost use Rattle.pvs_theory.specs.Theories.{constant_name, constant_names, declared_by, first_repeated, formula_name, formula_names, repeated, repeated_in};

use crate::index::{Index, add_name};
use crate::names::spelling_of;
use pvs_syntax::{Decl, Word};
use std::alloc::{AllocError, Global};

/// What a declaration declares a name for, as far as it is built.
#[derive(Clone, Copy, Debug, PartialEq, Eq)]
pub enum Declared {
    Constant(Word),
    Formula(Word),
    Other,
}

/// Adds the name of a word, and gives the word where the name was there.
fn add_word<'a>(
    names: &mut Index<'a, ()>,
    text: &'a [u8],
    word: Word,
) -> Result<Option<Word>, AllocError>
    ensures repeated { (seen : List (List ℕ)) → HasNames names.old seen → IfOk result (λ o. o ≡ repeated_in text.now seen word) }
    ensures names { OnOk result ((seen : List (List ℕ)) → HasNames names.old seen → HasNames names.new (seen ++ spelling text.now word ∷ [])) }
{
    if add_name(names, spelling_of(text, &word))? {
        Ok(None)
    } else {
        Ok(Some(word))
    }
}

/// What a declaration declares a name for, as far as it is built.
fn declared_by(decl: &Decl) -> Declared
    ensures { result ≡ declared_by decl.now }
{
    match decl {
        Decl::ConstDecl { name, .. } => Declared::Constant(*name),
        Decl::Formula { name, .. } => Declared::Formula(*name),
        _ => Declared::Other,
    }
}

/// Adds a name that is declared to those of its kind, and gives its word where the name was there.
fn add_declared<'a>(
    constants: &mut Index<'a, ()>,
    formulas: &mut Index<'a, ()>,
    text: &'a [u8],
    declared: Declared,
) -> Result<Option<Word>, AllocError>
    ensures repeated { (earlier : List spec_decl.Decl) → HasNames constants.old (constant_names text.now earlier) → HasNames formulas.old (formula_names text.now earlier) → IfOk result (λ o. o ≡ repeated text.now earlier declared) }
    ensures constants { OnOk result ((seen : List (List ℕ)) → HasNames constants.old seen → HasNames constants.new (seen ++ constant_name text.now declared)) }
    ensures formulas { OnOk result ((seen : List (List ℕ)) → HasNames formulas.old seen → HasNames formulas.new (seen ++ formula_name text.now declared)) }
{
    match declared {
        Declared::Constant(word) => add_word(constants, text, word),
        Declared::Formula(word) => add_word(formulas, text, word),
        Declared::Other => Ok(None),
    }
}

/// The name of the first declaration that repeats that of an earlier one of its kind: constants are
/// one kind, and formulas another.
pub fn first_repeated(
    alloc: Global,
    text: &[u8],
    decls: &[Decl],
) -> Result<Option<Word>, AllocError>
    ensures { IfOk result (λ o. o ≡ first_repeated text.now [] decls.now) }
{
    let mut constants = Index::new(alloc);
    let mut formulas = Index::new(alloc);
    for decl in decls {
        let found = add_declared(&mut constants, &mut formulas, text, declared_by(decl))?;
        if found.is_some() {
            return Ok(found);
        }
    }
    Ok(None)
}
