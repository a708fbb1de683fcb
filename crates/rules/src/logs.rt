// Well-formed settings, states and logs.
ghost use Rattle.std.specs.Prelude.{◌≡◌};
ghost use Rattle.tally.specs.Limits.{today};
ghost use Rattle.contents.specs.Logs.{numbers_ok, round_ok, settings_ok, state_ok, log_ok};

use super::estimates;
use contents::{Log, Settings, State};
use tally::limits::Round;
use tally::{Engine, limits};

// n, a unit below it, and an entry.
pub fn numbers_ok(n: u8, unit: u8, entry: u16) -> bool
    ensures { result ≡ numbers_ok n unit entry }
{
    (limits::MIN_UNITS..=limits::MAX_UNITS).contains(&n)
        & (unit < n)
        & (limits::MIN_ENTRY..=limits::MAX_ENTRY).contains(&entry)
}

pub fn round_ok(round: Round) -> bool
    ensures { result ≡ round_ok today round }
{
    round <= limits::LAST_ROUND
}

pub fn settings_ok(s: Settings) -> bool
    ensures { result ≡ settings_ok s }
{
    numbers_ok(s.n, s.unit, s.entry)
}

#[tactic(auto, unfolding(contents::specs::Logs::state_ok))]
pub fn state_ok(engine: Engine, s: State) -> bool
    ensures { result ≡ state_ok today engine s }
{
    round_ok(s.round)
        & estimates::mileage_or_blank(s.proposal)
        & estimates::mileage_or_blank(s.first)
        & estimates::second_estimate_ok(engine, s.second)
}

#[tactic(auto, unfolding(contents::specs::Logs::log_ok))]
pub fn well_formed(log: Log) -> bool
    ensures { result ≡ log_ok today log }
{
    settings_ok(log.settings) & state_ok(log.settings.engine, log.state)
}
