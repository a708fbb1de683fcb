// The 20 bytes of a log. A wrong length is refused first, then malformed contents.
#![tactic(auto)]

ghost use Rattle.std.specs.Prelude.{◌≡◌, ◌≤◌, length};
ghost use Rattle.std.specs.Result.{result_err};
ghost use Rattle.tally.specs.Limits.{today, log_size};
ghost use Rattle.tally.specs.Refusal.{number_of};
ghost use Rattle.formats.specs.InnerNumbers.{pack_into, total};
ghost use Rattle.formats.specs.Formats.{with_zero, wrote};
ghost use Rattle.formats.specs.InnerLogs.{settings_widths, state_widths, state_numbers, round_at, log_numbers_in, engine_at};
ghost use Rattle.formats.specs.Logs.{log_widths, log_zero, log_of, log_numbers, log_format, log_reading, read_log, write_log};
ghost use Rattle.formats.specs.InnerFormats.{stored};

use big_endian::BigEndian;
use contents::{Log, Settings, State};
use tally::limits::Round;
use tally::{Engine, Refusal, limits};

// The bytes of a log, or the first 20 of an image: slices of at least 20, since an array of 20 would ask more of the caller. That these and
// message_codec's functions are no trait of both is said there.

// Where the fields stand, after the engine letter.
const AT_N: usize = 1;

const AT_UNIT: usize = 2;

const AT_ZERO: usize = 3;

const AT_ENTRY: usize = 4;

const AT_ROUND: usize = AT_ENTRY + 2;

const AT_PROPOSAL: usize = AT_ROUND + limits::ROUND_WIDTH;

const AT_FIRST: usize = AT_PROPOSAL + 4;

const AT_SECOND: usize = AT_FIRST + 4;

// The engine of a log or an image; unknown also where the zero byte is not 0.
pub fn engine_at(s: &[u8]) -> Option<Engine>
    requires { log_size today ≤ length s.now }
    ensures { result ≡ engine_at s.now }
{
    if u8::get(s, AT_ZERO) != 0 {
        return None;
    }
    codes::engine_of(u8::get(s, 0))
}

// The contents that the bytes hold, at an engine.
pub fn log_at(engine: Engine, s: &[u8]) -> Log
    requires { log_size today ≤ length s.now }
    ensures { result ≡ log_of engine (log_numbers_in today s.now) }
{
    Log {
        settings: Settings {
            engine,
            n: u8::get(s, AT_N),
            unit: u8::get(s, AT_UNIT),
            entry: u16::get(s, AT_ENTRY),
        },
        state: State {
            round: Round::get(s, AT_ROUND),
            proposal: codes::estimate_of(u32::get(s, AT_PROPOSAL)),
            first: codes::estimate_of(u32::get(s, AT_FIRST)),
            second: codes::estimate_of(u32::get(s, AT_SECOND)),
        },
    }
}

// Refuses a wrong length with 1, and malformed contents with 2.
#[tactic(auto, unfolding(formats::specs::Logs::read_log))]
pub fn read_log(s: &[u8]) -> Result<Log, Refusal>
    ensures { log_reading result ≡ read_log today s.now }
{
    if s.len() != limits::LOG_SIZE {
        return Err(Refusal::Length);
    }
    let engine = engine_at(s).ok_or(Refusal::Log)?;
    codes::checked_log(log_at(engine, s))
}

// The round of a log or an image.
pub fn round_at(s: &[u8]) -> Round
    requires { log_size today ≤ length s.now }
    ensures { result ≡ round_at s.now }
{
    Round::get(s, AT_ROUND)
}

// The state of a log or an image.
pub fn put_state_at(s: State, out: &mut [u8])
    requires { log_size today ≤ length out.old }
    ensures { out.new ≡ pack_into out.old (total settings_widths) (state_widths today) (state_numbers s) }
{
    s.round.put(out, AT_ROUND);
    codes::code_of(s.proposal).put(out, AT_PROPOSAL);
    codes::code_of(s.first).put(out, AT_FIRST);
    codes::code_of(s.second).put(out, AT_SECOND);
}

pub fn put_log(log: Log, out: &mut [u8])
    requires { log_size today ≤ length out.old }
    ensures { out.new ≡ pack_into out.old 0 (log_widths today) (with_zero log_zero (log_numbers log)) }
{
    big_endian::put_four(
        out,
        0,
        codes::letter_of(log.settings.engine),
        log.settings.n,
        log.settings.unit,
        0,
    );
    log.settings.entry.put(out, AT_ENTRY);
    put_state_at(log.state, out);
}

// Stores a log that is known to be well formed, with no test of it; a buffer of another length keeps its bytes.
#[tactic(auto, unfolding(formats::specs::InnerFormats::stored))]
pub fn store_log(log: Log, out: &mut [u8])
    ensures { out.new ≡ stored (log_format today) log out.old }
{
    if out.len() == limits::LOG_SIZE {
        put_log(log, out);
    }
}

// Refuses as reading would, and then leaves every byte.
#[tactic(auto, unfolding(formats::specs::Logs::write_log))]
pub fn write_log(log: Log, out: &mut [u8]) -> Result<(), Refusal>
    ensures { wrote (number_of (result_err result)) out.new ≡ write_log today log out.old }
{
    if out.len() != limits::LOG_SIZE {
        return Err(Refusal::Length);
    }
    put_log(codes::checked_log(log)?, out);
    Ok(())
}
