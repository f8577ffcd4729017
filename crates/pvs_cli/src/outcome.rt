//! What a proof comes to.

ghost use Rattle.std.specs.Prelude.{◌≡◌};
ghost use Rattle.pvs_terms.specs.Stored.{Stored};
ghost use Rattle.pvs_replay.specs.Numbers.{outcome_at};
ghost use Rattle.pvs_cli.specs.code.Shown.{summary};

use pvs_base::Fault;
use pvs_replay as replaying;

/// What a proof comes to, as far as a report says it.
#[derive(Clone, Copy, Debug, PartialEq, Eq)]
pub enum Outcome {
    /// It proves its formula.
    Proved,

    /// A sequent is left open.
    Open,

    /// Its first fault: of the name of its formula, of its script, or of the first step that is
    /// refused.
    Refused(Fault),
}

/// An outcome of replay without what a report does not say.
pub fn summary(outcome: replaying::Outcome) -> Outcome
    ensures { (s : Stored) → result ≡ summary (outcome_at s outcome) }
{
    match outcome {
        replaying::Outcome::Proved(_, _) => Outcome::Proved,
        replaying::Outcome::Open(_) => Outcome::Open,
        replaying::Outcome::Refused(fault) => Outcome::Refused(fault),
    }
}
