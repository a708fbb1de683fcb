// Well-formed images, and images that fit their logs.
ghost use Rattle.std.specs.Prelude.{◌≡◌, ◌<◌, false, ◌&&◌};
ghost use Rattle.tally.specs.Limits.{today, senders};
ghost use Rattle.tally.specs.Tally.{estimate_at};
ghost use Rattle.tally.specs.declared.Tally.{Tally};
ghost use Rattle.contents.specs.Estimates.{is_b, is_blank};
ghost use Rattle.contents.specs.Images.{every, cell_ok, cells_ok, tally_ok, checks_allowed, same_settings, state_fits};

use super::estimates;
use contents::{Log, Settings, State};
use tally::{Engine, Estimate, limits};

// A tally where it stands: in an image's bytes, in a row's numbers. What is tested there is decoded there, and no tally is built of it.
pub trait StandingTally {
    // The tally that stands there.
    ghost tally: { Self → Tally };

    fn marks(&self) -> u16
        ensures { result ≡ (tally self.now).marks };

    // The sender's bound is asked for, as tally::is_marked says.
    fn estimate(&self, sender: u8) -> Estimate
        requires { sender < senders }
        ensures { result ≡ estimate_at (tally self.now) sender };

    // Are all sixteen cells blank? Each is looked at, so that no test has to wait for the one before.
    fn blanks(&self) -> bool
        ensures { result ≡ every senders (λ u. is_blank (estimate_at (tally self.now) u)) }
    {
        (0..limits::MAX_UNITS).fold(true, |ok, k| ok & estimates::is_blank(self.estimate(k)))
    }
}

// A sender's mark, and the estimate in its cell; `split` says whether a marked one may be split.
// A mark beside the estimate, and no Option of it: an unmarked cell has an estimate too, which is tested.
#[tactic(auto, unfolding(contents::specs::Images::cell_ok))]
pub fn cell_ok(split: bool, n: u8, sender: u8, marked: bool, e: Estimate) -> bool
    ensures { result ≡ cell_ok today split n sender marked e }
{
    if marked {
        (sender < n) & (estimates::is_mileage(e) | (split & estimates::is_split(e)))
    } else {
        estimates::is_blank(e)
    }
}

// A tally without marks is tested in one pass.
#[tactic(auto, unfolding(contents::specs::Images::every, contents::specs::Images::cells_ok))]
fn cells_ok<T: StandingTally>(t: &T, split: bool, n: u8) -> bool
    ensures { result ≡ cells_ok today split n (T.tally t.now) }
{
    let marks = t.marks();
    if marks == 0 {
        return t.blanks();
    }
    // By `fold` and not `all`, as in `blanks`: each cell is looked at.
    (0..limits::MAX_UNITS).fold(
        true,
        |ok, k| -> bool
            requires { k < senders }
        { ok & cell_ok(split, n, k, tally::is_marked(marks, k), t.estimate(k)) },
    )
}

#[tactic(auto, unfolding(contents::specs::Images::tally_ok))]
fn tally_ok<T: StandingTally>(t: &T, split: bool, engine: Engine, n: u8) -> bool
    ensures { result ≡ tally_ok today split engine n (T.tally t.now) }
{
    cells_ok(t, split, n) & (t.marks().count_ones() < tally::quorum(engine, n))
}

// In R, or when the second estimate is not blank, there are no CHECK marks.
#[tactic(auto, unfolding(contents::specs::Images::checks_allowed))]
pub fn checks_allowed(engine: Engine, second: Estimate, marks: u16) -> bool
    ensures { result ≡ checks_allowed engine second marks }
{
    (estimates::is_b(engine) & estimates::is_blank(second)) | (marks == 0)
}

#[tactic(auto, unfolding(contents::specs::Images::same_settings))]
pub fn same_settings(a: Settings, b: Settings) -> bool
    ensures { result ≡ same_settings a b }
{
    a == b
}

// The state of an image against that of its log.
#[tactic(auto, unfolding(contents::specs::Images::state_fits))]
pub fn state_fits(i: State, l: State) -> bool
    ensures { result ≡ state_fits i l }
{
    ((i.round == l.round) & (i.first == l.first) & (i.second == l.second))
        | ((l.round < i.round) & estimates::is_blank(i.first) & estimates::is_blank(i.second))
}

// Are the tallies, beside these first contents of an image, well formed, and does all of it fit the log?
pub fn tallies_fit<T: StandingTally>(front: Log, checks: &T, seconds: &T, log: Log) -> bool
    ensures { result ≡ (tally_ok today false front.settings.engine front.settings.n (T.tally checks.now)
        && tally_ok today (is_b front.settings.engine) front.settings.engine front.settings.n (T.tally seconds.now)
        && checks_allowed front.settings.engine front.state.second (T.tally checks.now).marks
        && same_settings front.settings log.settings
        && state_fits front.state log.state) }
{
    let engine = front.settings.engine;
    let n = front.settings.n;
    tally_ok(checks, false, engine, n)
        & tally_ok(seconds, estimates::is_b(engine), engine, n)
        & checks_allowed(engine, front.state.second, checks.marks())
        & same_settings(front.settings, log.settings)
        & state_fits(front.state, log.state)
}
