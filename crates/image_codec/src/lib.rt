// The 152 bytes of an image: those of a log, then two tallies. What is written goes to places beside the bytes, as in big_endian: the definitions speak of
// places in the whole image. An unmarked cell has an estimate too, so its mark goes beside it. Public functions take bytes of any length.
#![tactic(auto)]

ghost use Rattle.std.specs.Prelude.{◌≡◌, cond, ◌&&◌, map, ◌+◌, ◌<◌, ◌≤◌, length, replicate};
ghost use Rattle.tally.specs.Limits.{today, image_size, senders, blank_code};
ghost use Rattle.tally.specs.Tally.{no_marks, estimate_at};
ghost use Rattle.tally.specs.declared.Estimate.TheVariants.{Blank};
ghost use Rattle.contents.specs.Images.{image_ok, fits};
ghost use Rattle.formats.specs.Codes.{code_of};
ghost use Rattle.formats.specs.InnerNumbers.{pack_into, total};
ghost use Rattle.formats.specs.Images.{cell_code, cell_widths, tally_widths, tally_numbers, with_tallies, image_format, read_image};
ghost use Rattle.formats.specs.InnerImages.{tally_at, checks_at, seconds_at, fit_state, held_from, as_marked};
ghost use Rattle.formats.specs.InnerImages.{tally_from, state_over, tally_over, image_over, in_image};
ghost use Rattle.formats.specs.InnerFormats.{stored};

use big_endian::BigEndian;
use contents::{Log, State};
use rules::images::StandingTally;
use tally::{Cell, Estimate, Tally, limits};

// Where the tallies stand, and where a tally's estimates do.
const AT_CHECKS: usize = limits::LOG_SIZE;

const AT_CELLS: usize = 2;

const AT_SECONDS: usize = AT_CHECKS + AT_CELLS + 4 * limits::SENDERS;

// Sixteen blanks, by place: std does not say what a slice ends as whose chunks were lent to be written.
fn put_blanks(out: &mut [u8], at: usize)
    requires { at + total cell_widths ≤ length out.old }
    ensures { out.new ≡ pack_into out.old at cell_widths (replicate senders blank_code) }
{
    for k in 0..limits::SENDERS {
        limits::BLANK.put(out, at + 4 * k);
    }
}

// A tally without marks.
#[tactic(auto, unfolding(tally::specs::Tally::no_marks))]
fn put_no_marks(out: &mut [u8], at: usize)
    requires { at + total tally_widths ≤ length out.old }
    ensures { out.new ≡ pack_into out.old at tally_widths (tally_numbers no_marks) }
{
    0u16.put(out, at);
    put_blanks(out, at + AT_CELLS);
}

// Stores the image that a log gives, without marks; a buffer of another length keeps its bytes.
#[tactic(auto, unfolding(formats::specs::InnerFormats::stored))]
pub fn store_unmarked(log: Log, out: &mut [u8])
    ensures { out.new ≡ stored (image_format today) (with_tallies log no_marks no_marks) out.old }
{
    if out.len() == limits::IMAGE_SIZE {
        log_codec::put_log(log, out);
        put_no_marks(out, AT_CHECKS);
        put_no_marks(out, AT_SECONDS);
    }
}

// ---- the test, in place
// A tally at its place.
#[derive(Drop)]
struct TallyAt<'a> {
    bytes: &'a [u8],
    at: usize,
    ghost room: { at + total tally_widths ≤ length bytes.now },
}

impl StandingTally for TallyAt<'_> {
    ghost tally = { λ t. tally_at t.at t.bytes.now };

    fn marks(&self) -> u16 {
        u16::get(self.bytes, self.at)
    }

    #[tactic(auto, using(formats::proofs::Places::estimate_at_lem))]
    fn estimate(&self, sender: u8) -> Estimate {
        codes::estimate_of(u32::get(self.bytes, self.at + AT_CELLS + 4 * usize::from(sender)))
    }
}

// Are the tallies, after these first contents, well formed, and does all of it fit the log?
#[tactic(auto, unfolding(contents::specs::Images::image_ok, contents::specs::Images::fits))]
fn fits_at(s: &[u8], front: Log, log: Log) -> bool
    requires { length s.now ≡ image_size today }
    ensures { result ≡ (image_ok today (with_tallies front (tally_at checks_at s.now) (tally_at seconds_at s.now))
        && fits (with_tallies front (tally_at checks_at s.now) (tally_at seconds_at s.now)) log) }
{
    let checks = TallyAt {
        bytes: s,
        at: AT_CHECKS,
    };
    let seconds = TallyAt {
        bytes: s,
        at: AT_SECONDS,
    };
    rules::logs::well_formed(front) & rules::images::tallies_fit(front, &checks, &seconds, log)
}

// The state of an image that is well formed and fits the log.
#[tactic(auto, unfolding(formats::specs::Images::read_image, formats::specs::InnerImages::fit_state))]
pub fn state_for(s: &[u8], log: Log) -> Option<State>
    ensures { result ≡ fit_state (read_image today s.now) log }
{
    if s.len() != limits::IMAGE_SIZE {
        return None;
    }
    let front = log_codec::log_at(log_codec::engine_at(s)?, s);
    fits_at(s, front, log).then_some(front.state)
}

// ---- the tallies, read and written: an unmarked cell is blank, whatever stands there
impl TallyAt<'_> {
    fn held(&self, sender: u8, marked: bool) -> Estimate
        requires { sender < senders }
        ensures { result ≡ cond marked (estimate_at (tally_at self.now.at self.now.bytes.now) sender) Blank }
    {
        if marked {
            self.estimate(sender)
        } else {
            Estimate::Blank
        }
    }

    // By a loop: `array::from_fn` takes 10 % to 50 % more instructions.
    #[tactic(auto, unfolding(formats::specs::InnerImages::held_from))]
    fn cells(&self, marks: u16) -> [Cell; limits::SENDERS]
        ensures { result ≡ held_from (record { marks = marks; cells = (tally_at self.now.at self.now.bytes.now).cells }) 0 senders }
    {
        let mut cells = tally::NO_CELLS;
        for (k, cell) in cells.iter_mut().enumerate() {
            cell.estimate = self.held(k as u8, tally::is_marked(marks, k as u8));
        }
        cells
    }

    fn read(&self) -> Tally
        ensures { result ≡ as_marked (tally_at self.now.at self.now.bytes.now) }
    {
        let marks = self.marks();
        if marks == 0 {
            return Tally::empty();
        }
        Tally {
            marks,
            cells: self.cells(marks),
        }
    }
}

// The CHECKs and the SECONDs of an image; bytes of another length have none.
#[tactic(auto, unfolding(formats::specs::InnerImages::tally_from))]
pub fn tallies_of(s: &[u8]) -> (Tally, Tally)
    ensures checks { result.0 ≡ tally_from checks_at s.now }
    ensures seconds { result.1 ≡ tally_from seconds_at s.now }
{
    if s.len() == limits::IMAGE_SIZE {
        let checks = TallyAt {
            bytes: s,
            at: AT_CHECKS,
        };
        let seconds = TallyAt {
            bytes: s,
            at: AT_SECONDS,
        };
        (checks.read(), seconds.read())
    } else {
        (Tally::empty(), Tally::empty())
    }
}

fn held_code(marked: bool, e: Estimate) -> u32
    ensures { result ≡ code_of (cond marked e Blank) }
{
    if marked {
        codes::code_of(e)
    } else {
        limits::BLANK
    }
}

#[tactic(auto, unfolding(formats::specs::InnerImages::held_from))]
fn put_cells(t: &Tally, out: &mut [u8], at: usize)
    requires { at + total cell_widths ≤ length out.old }
    ensures { out.new ≡ pack_into out.old at cell_widths (map cell_code (held_from t.now 0 senders)) }
{
    for (k, cell) in t.cells.iter().enumerate() {
        held_code(tally::is_marked(t.marks, k as u8), cell.estimate).put(out, at + 4 * k);
    }
}

fn put_tally(t: &Tally, out: &mut [u8], at: usize)
    requires { at + total tally_widths ≤ length out.old }
    ensures { out.new ≡ pack_into out.old at tally_widths (tally_numbers (as_marked t.now)) }
{
    if t.marks == 0 {
        put_no_marks(out, at);
    } else {
        t.marks.put(out, at);
        put_cells(t, out, at + AT_CELLS);
    }
}

// Writes a tally, unless the round is the same (`same`) and the bytes have its marks already.
// card_rows stores a row so too: what both share is this one comparison, and a trait of both would have the rest as its members.
fn put_changed(t: &Tally, same: bool, out: &mut [u8], at: usize)
    requires { at + total tally_widths ≤ length out.old }
    ensures { out.new ≡ tally_over at same t.now out.old }
{
    if same & (t.marks == u16::get(out, at)) {
        return;
    }
    put_tally(t, out, at);
}

// Stores a state in an image; a buffer of another length keeps its bytes.
#[tactic(auto, unfolding(formats::specs::InnerImages::in_image))]
pub fn put_state(s: State, out: &mut [u8])
    ensures { out.new ≡ in_image (state_over s) out.old }
{
    if out.len() != limits::IMAGE_SIZE {
        return;
    }
    log_codec::put_state_at(s, out);
}

// Stores a state in an image, and of the tallies those that it does not have already; a buffer of another length keeps its bytes. By
// its parts, as Unit::up takes them: an image made of them would be a copy more.
#[tactic(auto, unfolding(formats::specs::InnerImages::in_image))]
pub fn put_image(s: State, checks: Tally, seconds: Tally, out: &mut [u8])
    ensures { out.new ≡ in_image (image_over s checks seconds) out.old }
{
    if out.len() == limits::IMAGE_SIZE {
        let same = s.round == log_codec::round_at(out);
        log_codec::put_state_at(s, out);
        put_changed(&checks, same, out, AT_CHECKS);
        put_changed(&seconds, same, out, AT_SECONDS);
    }
}
