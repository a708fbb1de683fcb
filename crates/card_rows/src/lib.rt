// A card's row as numbers, read and written: its log, its image, and the row of a unit. Functions and no From: a trait of std may be implemented in the
// types' crates alone, contents and cards, which have no code.
#![tactic(auto)]

ghost use Rattle.std.specs.Prelude.{◌≡◌, ◌<◌, ◌^◌, ◌∷◌, Some, None, cond, length, replicate};
ghost use Rattle.std.specs.Bool.{Decides};
ghost use Rattle.tally.specs.Limits.{today, senders, blank_code};
ghost use Rattle.formats.specs.Formats.{from_numbers};
ghost use Rattle.formats.specs.Images.{tally_of};
ghost use Rattle.formats.specs.InnerImages.{fit_state};
ghost use Rattle.formats.specs.Logs.{log_format};
ghost use Rattle.consensus.specs.Units.{up_unit};
ghost use Rattle.cards.specs.Rows.{numbers_of, marks_fit, row_tally, row_image, log_fields_of, tally_fields_of, row_of};
ghost use Rattle.cards.specs.InnerSteps.{log_read_of, unmarked_row, tally_fields_over, row_over};

use cards::{CardRow, LogFields, TallyFields};
use consensus::Unit;
use contents::{Log, Settings, State};
use numbers::LogNumbers;
use rules::images::StandingTally;
use tally::{Estimate, Refusal, Tally, limits};

// ---- from a row
fn numbers_of(f: &LogFields) -> LogNumbers
    ensures { result ≡ numbers_of f.now }
{
    [
        f.engine, f.n, f.unit, f.entry, f.round, f.proposal, f.first, f.second,
    ]
}

// The log of eight numbers, where they are well formed.
pub fn read_log(f: &LogFields) -> Result<Log, Refusal>
    ensures { result ≡ log_read_of (from_numbers (log_format today) (numbers_of f.now)) }
{
    numbers::log_from(&numbers_of(f))
}

// A tally's marks, where there are none above the last sender's.
fn marks_of(f: &TallyFields) -> Option<u16>
    ensures { result ≡ cond (marks_fit f.now) (Some f.now.marks) None }
{
    u16::try_from(f.marks).ok()
}

// Are all sixteen estimates blank?
fn blanks(estimates: &[u32; limits::SENDERS]) -> bool
    ensures { Decides result (estimates.now ≡ replicate senders blank_code) }
{
    *estimates == [limits::BLANK; limits::SENDERS]
}

// A tally of a row, of marks that fit.
#[derive(Drop)]
struct RowTally<'a> {
    marks: u16,
    estimates: &'a [u32; limits::SENDERS],
    ghost sixteen: { length estimates.now ≡ senders },
}

impl RowTally<'_> {
    fn new(marks: u16, estimates: &[u32; limits::SENDERS]) -> RowTally<'_>
        ensures marks { result.marks ≡ marks }
        ensures estimates { result.estimates.now ≡ estimates.now }
    {
        RowTally { marks, estimates }
    }
}

impl StandingTally for RowTally<'_> {
    ghost tally = { λ t. tally_of (t.marks ∷ t.estimates.now) };

    fn marks(&self) -> u16 {
        self.marks
    }

    #[tactic(auto, using(cards::proofs::Steps::row_estimate))]
    fn estimate(&self, sender: u8) -> Estimate {
        codes::estimate_of(self.estimates[usize::from(sender)])
    }
}

// The state of a row's image that is well formed and fits the log.
#[tactic(auto, using(cards::proofs::Steps::row_state), unfolding(contents::specs::Images::fits))]
pub fn state_for(r: &CardRow, log: Log) -> Option<State>
    ensures { result ≡ fit_state (row_image today r.now) log }
{
    let front = read_log(&r.image).ok()?;
    let checks = RowTally::new(marks_of(&r.checks)?, &r.checks.estimates);
    let seconds = RowTally::new(marks_of(&r.seconds)?, &r.seconds.estimates);
    rules::images::tallies_fit(front, &checks, &seconds, log).then_some(front.state)
}

// Sixteen blanks are known in one pass. An array's `map` takes 1.4 times the instructions of the loop. It asks that the marks fit, which state_for has tested.
pub fn tally_of(f: &TallyFields) -> Tally
    requires { f.now.marks < 2 ^ senders }
    ensures same { result ≡ row_tally f.now }
    ensures sixteen { length result.cells ≡ senders }
{
    let mut tally = Tally {
        marks: f.marks as u16,
        cells: tally::NO_CELLS,
    };
    if blanks(&f.estimates) {
        return tally;
    }
    for (i, &x) in f.estimates.iter().enumerate() {
        tally.cells[i].estimate = codes::estimate_of(x);
    }
    tally
}

// ---- to a row
fn log_fields_of(l: Log) -> LogFields
    ensures { result ≡ log_fields_of l }
{
    let [engine, n, unit, entry, round, proposal, first, second] = numbers::log_numbers(l);
    LogFields {
        engine,
        n,
        unit,
        entry,
        round,
        proposal,
        first,
        second,
    }
}

// By a loop, as tally_of is. By value: with the cells by reference, in a function of their own, a call takes a tenth more instructions and 500 bytes more
// of stack.
fn tally_fields(t: Tally) -> TallyFields
    ensures { result ≡ tally_fields_of t }
{
    let mut estimates = [limits::BLANK; limits::SENDERS];
    for (i, cell) in t.cells.iter().enumerate() {
        estimates[i] = codes::code_of(cell.estimate);
    }
    TallyFields {
        marks: u32::from(t.marks),
        estimates,
    }
}

// Sixteen blanks and no marks.
const NO_TALLY: TallyFields = TallyFields {
    marks: 0,
    estimates: [limits::BLANK; limits::SENDERS],
};

// The row at a log's contents, without marks.
#[tactic(auto, unfolding(tally::specs::Tally::no_marks))]
pub fn unmarked(l: Log) -> CardRow
    ensures { result ≡ unmarked_row l }
{
    let fields = log_fields_of(l);
    CardRow {
        log: fields,
        image: fields,
        checks: NO_TALLY,
        seconds: NO_TALLY,
    }
}

// The row of a unit made anew, from the unit's parts, whatever row is there. `put_unit` stores this row where the unit is a step of the row's own.
pub fn row_of(
    settings: Settings,
    logged: State,
    current: State,
    checks: &Tally,
    seconds: &Tally,
) -> CardRow
    ensures { result ≡ row_of (up_unit (record { settings = settings; state = logged })
        (record { settings = settings; state = current; checks = checks.now; seconds = seconds.now })) }
{
    CardRow {
        log: log_fields_of(Log {
            settings,
            state: logged,
        }),
        image: log_fields_of(Log {
            settings,
            state: current,
        }),
        checks: tally_fields(*checks),
        seconds: tally_fields(*seconds),
    }
}

// Stores a tally, unless the round is the same and the row has its marks already; without marks it is sixteen blanks. Inlined with its caller: else the
// unit stands in memory once more, which takes 1,100 bytes more of stack and a quarter more instructions.
#[tactic(auto, unfolding(tally::specs::Tally::no_marks))]
#[inline(always)]
fn put_changed(t: &Tally, same: bool, f: &mut TallyFields)
    ensures { f.new ≡ tally_fields_over same t.now f.old }
{
    if same & (u32::from(t.marks) == f.marks) {
        return;
    }
    *f = if t.marks == 0 {
        NO_TALLY
    } else {
        tally_fields(*t)
    };
}

// Stores a unit in a row, and of its tallies those that the row does not have already.
#[inline(always)]
pub fn put_unit(u: &Unit, r: &mut CardRow)
    ensures { r.new ≡ row_over u.now r.old }
{
    let same = u32::from(u.current.round) == r.image.round;
    r.log = log_fields_of(u.log());
    r.image = log_fields_of(Log {
        settings: u.settings,
        state: u.current,
    });
    put_changed(&u.checks, same, &mut r.checks);
    put_changed(&u.seconds, same, &mut r.seconds);
}
