//! Laws of the grammar of the language.

ghost use Rattle.std.specs.Prelude.{◌≡◌, ◌++◌, ℕ, List};
ghost use Rattle.pvs_parser.specs.declared.terminal.Terminal.{Terminal as Token};
ghost use Rattle.pvs_syntax.specs.declared.expression.Expr.{Expr};
ghost use Rattle.pvs_syntax.specs.declared.expression.NameExpr.{NameExpr};
ghost use Rattle.pvs_syntax.specs.declared.expression.TypeExpr.{TypeExpr};
ghost use Rattle.pvs_syntax.specs.Places.{place_of, place_of_type, place_of_name};
ghost use Rattle.pvs_parser.specs.declared.nesting.Nesting.{Nesting as Levels};
ghost use Rattle.pvs_parser.specs.FirstTokens.{StartsAt};
ghost use Rattle.pvs_syntax.specs.declared.unit.Unit as tree;
ghost use Rattle.pvs_parser.specs.Faults.{Begins};
ghost use Rattle.pvs_parser.specs.Language.{Derives, Ending, Limit, ReadsExpr, language_limit, name, type_, whole};
ghost use Rattle.pvs_parser.specs.Text.{IsUnit};
ghost use Rattle.pvs_parser.specs.Units.{DerivesUnit};

/// A list of tokens is at most one expression.
pub fn one_expression()
    ensures { (ts : List Token) (x y : Expr) → ReadsExpr ts x → ReadsExpr ts y → x ≡ y }
{}

/// A list of tokens of a text is at most one unit.
pub fn one_unit()
    ensures { (text : List ℕ) (ts : List Token) (u v : tree.Unit) → DerivesUnit language_limit text ts u → DerivesUnit language_limit text ts v → u ≡ v }
{}

/// Each prefix of a list of tokens that is a unit begins one.
pub fn prefix_begins()
    ensures { (text : List ℕ) (us vs : List Token) → IsUnit text language_limit (us ++ vs) → Begins (IsUnit text) language_limit us }
{}

/// The tokens of an expression, a type or a name begin with a token at the place of its tree, which
/// is what `place`, `type_place` and `name_place` of `pvs_syntax` give.
pub fn first_tokens()
    ensures exprs { (limit : Limit) (e : Ending) (l m : Levels) (ts : List Token) (x : Expr) → Derives limit (whole e) l ts x m → StartsAt ts (place_of x) }
    ensures types { (limit : Limit) (l m : Levels) (ts : List Token) (a : TypeExpr) → Derives limit type_ l ts a m → StartsAt ts (place_of_type a) }
    ensures names { (limit : Limit) (l m : Levels) (ts : List Token) (n : NameExpr) → Derives limit name l ts n m → StartsAt ts (place_of_name n) }
{}
