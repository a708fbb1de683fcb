// Logs and messages as plain numbers, as a caller sees them: 32 bits each. Functions and no From: a trait of std may be implemented in the types' crate
// alone, and contents has no code. Log and message are two by two alike, as message_codec says.
#![tactic(auto)]

ghost use Rattle.std.specs.Prelude.{◌≡◌, cond, None};
ghost use Rattle.tally.specs.Limits.{today};
ghost use Rattle.formats.specs.Codes.{engine_of};
ghost use Rattle.formats.specs.Formats.{from_numbers};
ghost use Rattle.formats.specs.Logs.{parse_log, log_numbers, log_format, log_reading};
ghost use Rattle.formats.specs.Messages.{parse_message, message_numbers, message_format, message_reading};
ghost use Rattle.calls.specs.InnerFields.{log_narrow, message_narrow};
ghost use Rattle.calls.specs.InnerCalls.{settings_narrow, settings_known, settings_from};

use contents::{Log, Message, Settings, State};
use tally::{Refusal, limits};

pub type LogNumbers = [u32; limits::LOG_FIELDS];

pub type MessageNumbers = [u32; limits::MESSAGE_FIELDS];

// The settings of numbers that fit their types, in range or not: numbers one by one, as the C entries have them. The engine is its letter's number.
#[tactic(auto, unfolding(calls::specs::InnerCalls::settings_narrow, calls::specs::InnerCalls::settings_known))]
fn narrow_settings(engine: u32, n: u32, unit: u32, entry: u32) -> Option<Settings>
    ensures { result ≡ cond (settings_narrow engine n unit entry) (settings_known (engine_of engine) n unit entry) None }
{
    Some(Settings {
        engine: codes::engine_of(u8::try_from(engine).ok()?)?,
        n: u8::try_from(n).ok()?,
        unit: u8::try_from(unit).ok()?,
        entry: u16::try_from(entry).ok()?,
    })
}

// The settings of a start's numbers, where they are in range.
pub fn settings_from(engine: u32, n: u32, unit: u32, entry: u32) -> Option<Settings>
    ensures { result ≡ settings_from engine n unit entry }
{
    narrow_settings(engine, n, unit, entry).filter(|s| rules::logs::settings_ok(*s))
}

// The log of eight numbers that fit their bytes, well formed or not.
#[tactic(auto, unfolding(calls::specs::InnerFields::log_narrow, calls::specs::InnerCalls::settings_narrow, calls::specs::InnerCalls::settings_known))]
pub fn narrow_log(f: &LogNumbers) -> Option<Log>
    ensures { result ≡ cond (log_narrow today f.now) (parse_log f.now) None }
{
    let [engine, n, unit, entry, round, proposal, first, second] = *f;
    Some(Log {
        settings: narrow_settings(engine, n, unit, entry)?,
        state: State {
            round: codes::round_of(round)?,
            proposal: codes::estimate_of(proposal),
            first: codes::estimate_of(first),
            second: codes::estimate_of(second),
        },
    })
}

// The log of eight numbers, where they are well formed.
pub fn log_from(f: &LogNumbers) -> Result<Log, Refusal>
    ensures { log_reading result ≡ from_numbers (log_format today) f.now }
{
    codes::checked_log(narrow_log(f).ok_or(Refusal::Log)?)
}

pub fn log_numbers(log: Log) -> LogNumbers
    ensures { result ≡ log_numbers log }
{
    [
        u32::from(codes::letter_of(log.settings.engine)),
        u32::from(log.settings.n),
        u32::from(log.settings.unit),
        u32::from(log.settings.entry),
        u32::from(log.state.round),
        codes::code_of(log.state.proposal),
        codes::code_of(log.state.first),
        codes::code_of(log.state.second),
    ]
}

// The message of nine numbers that fit their bytes, well formed or not.
#[tactic(auto, unfolding(calls::specs::InnerFields::message_narrow, formats::specs::Messages::letters_read))]
pub fn narrow_message(f: &MessageNumbers) -> Option<Message>
    ensures { result ≡ cond (message_narrow today f.now) (parse_message f.now) None }
{
    let [
        kind,
        engine,
        n,
        sender,
        receiver,
        entry,
        round,
        estimate,
        proposal,
    ] = *f;
    Some(Message {
        kind: codes::kind_of(u8::try_from(kind).ok()?)?,
        engine: codes::engine_of(u8::try_from(engine).ok()?)?,
        n: u8::try_from(n).ok()?,
        sender: u8::try_from(sender).ok()?,
        receiver: u8::try_from(receiver).ok()?,
        entry: u16::try_from(entry).ok()?,
        round: codes::round_of(round)?,
        estimate: codes::estimate_of(estimate),
        proposal: codes::estimate_of(proposal),
    })
}

// The message of nine numbers, where they are well formed.
pub fn message_from(f: &MessageNumbers) -> Result<Message, Refusal>
    ensures { message_reading result ≡ from_numbers (message_format today) f.now }
{
    codes::checked_message(narrow_message(f).ok_or(Refusal::Message)?)
}

pub fn message_numbers(m: Message) -> MessageNumbers
    ensures { result ≡ message_numbers m }
{
    [
        u32::from(codes::kind_letter(m.kind)),
        u32::from(codes::letter_of(m.engine)),
        u32::from(m.n),
        u32::from(m.sender),
        u32::from(m.receiver),
        u32::from(m.entry),
        u32::from(m.round),
        codes::code_of(m.estimate),
        codes::code_of(m.proposal),
    ]
}
