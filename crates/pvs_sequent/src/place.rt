//! Where a formula of a sequent stands.

ghost use Rattle.std.specs.Prelude.{◌≡◌};
ghost use Rattle.pvs_sequent.specs.Sequents.{place_of, side_of};

/// Where a formula of a sequent stands, counted from 0.
#[derive(Clone, Copy, Debug, PartialEq, Eq)]
pub enum Place {
    Nowhere,
    Antecedent(usize),
    Consequent(usize),
}

/// A side of a sequent.
#[derive(Clone, Copy, Debug, PartialEq, Eq)]
pub enum Side {
    Antecedents,
    Consequents,
}

/// The place of the formula of a number: 1, 2, .. are consequents and -1, -2, .. antecedents.
pub fn place_of(number: i64) -> Place
    ensures { result ≡ place_of number }
{
    if number > 0 {
        Place::Consequent((number - 1) as usize)
    } else if number < 0 {
        Place::Antecedent((-(number + 1)) as usize)
    } else {
        Place::Nowhere
    }
}

/// The side of a place. That of no formula is the consequents.
pub fn side_of(place: Place) -> Side
    ensures { result ≡ side_of place }
{
    match place {
        Place::Antecedent(_) => Side::Antecedents,
        _ => Side::Consequents,
    }
}
