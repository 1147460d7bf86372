// What the trials give to the crates that they test: a system as these take it; and the two checks of evidence, which of them is for what a search gave,
// and what the walk over all states says beside it, which shares no code with them.
#![tactic(auto)]

ghost use Rattle.std.specs.Prelude.{◌≡◌};
ghost use Rattle.system.specs.System.{system_of};
ghost use Rattle.system.specs.Lent.{system_in};
ghost use Rattle.evidence.specs.Told.{checked_of};
ghost use Rattle.evidence.specs.Promise.{ExcludedChecked, PathChecked};
ghost use Rattle.checks.specs.Check.{check_of, number_of};
ghost use Rattle.checks.specs.declared.Check.TheVariants.{Excluded, Path};

use base::Refusal;
use call::Outcome;
use evidence::Checked;
use tables::{System, Table};

// The system of a trial as the tested crates take it.
pub fn system_of(s: System) -> system::System
    ensures { system_in result ≡ system_of s.entry.n s.entry.w s.entry.start.now s.entry.step.now s.entry.bad.now }
{
    system::System {
        n: s.n,
        w: s.w,
        start: s.start,
        step: s.step,
        bad: s.bad,
    }
}

// The check of excluded states, or of paths.
#[derive(Clone, Copy, Debug, PartialEq, Eq)]
pub enum Check {
    Excluded,
    Path,
}

// The three stores that a search was lent, as it left them.
#[derive(Clone, Copy, Debug)]
pub struct Stores<'a> {
    pub states: &'a [u64],
    pub levels: &'a [u32],
    pub path: &'a [u64],
}

impl Check {
    // The check of what a search gives as evidence; none, if it gives none.
    pub fn of(outcome: Outcome) -> Option<Check>
        ensures { result ≡ check_of outcome }
    {
        match outcome {
            Outcome::Safe(_, _) => Some(Check::Excluded),
            Outcome::Unsafe(_, _) => Some(Check::Path),
            Outcome::GaveUp(_, _) => None,
            Outcome::Refused(_) => None,
        }
    }

    // What a search says as a number, for a digest.
    pub fn number(said: Option<Check>) -> u64
        ensures { result ≡ number_of said }
    {
        match said {
            Some(Check::Excluded) => 0,
            Some(Check::Path) => 1,
            None => 2,
        }
    }

    // What the check says of a list.
    pub fn ask(self, s: System, list: &[u64]) -> Result<Checked, Refusal>
        ensures excluded { self ≡ Excluded →
            ExcludedChecked (system_of s.entry.n s.entry.w s.entry.start.now s.entry.step.now s.entry.bad.now) list.now (checked_of result) }
        ensures path { self ≡ Path →
            PathChecked (system_of s.entry.n s.entry.w s.entry.start.now s.entry.step.now s.entry.bad.now) list.now (checked_of result) }
    {
        match self {
            Check::Excluded => evidence::check_excluded(system_of(s), list),
            Check::Path => evidence::check_path(system_of(s), list),
        }
    }

    // Whether the walk accepts the list.
    pub fn holds(self, table: Table, list: &[u64]) -> bool {
        match self {
            Check::Excluded => small_systems::excludes(table, list),
            Check::Path => small_systems::is_path(table, list),
        }
    }
}
