// Letters and estimates as numbers. These are functions and no `From` of the types: which number stands for a kind or an estimate is the formats'
// matter, of which the crates of the types know nothing; and a letter that stands for nothing is no error yet, a caller says which refusal it is.
#![tactic(auto)]

ghost use Rattle.std.specs.Prelude.{◌≡◌, ◌^◌, cond, ltb, Some, None};
ghost use Rattle.tally.specs.Limits.{today};
ghost use Rattle.formats.specs.Formats.{checked};
ghost use Rattle.formats.specs.Logs.{log_format, log_reading};
ghost use Rattle.formats.specs.Messages.{message_format, message_reading};
ghost use Rattle.formats.specs.Codes.{letter_of, engine_of, kind_letter, kind_of, code_of, estimate_of};

use contents::{Kind, Log, Message};
use tally::limits::Round;
use tally::{Engine, Estimate, Refusal, limits};

pub fn letter_of(e: Engine) -> u8
    ensures { result ≡ letter_of e }
{
    match e {
        Engine::B => b'B',
        Engine::R => b'R',
    }
}

pub fn engine_of(b: u8) -> Option<Engine>
    ensures { result ≡ engine_of b }
{
    match b {
        b'B' => Some(Engine::B),
        b'R' => Some(Engine::R),
        _ => None,
    }
}

pub fn kind_letter(k: Kind) -> u8
    ensures { result ≡ kind_letter k }
{
    match k {
        Kind::Empty => 0,
        Kind::First => b'F',
        Kind::Check => b'C',
        Kind::Second => b'S',
        Kind::Skip => b'K',
    }
}

pub fn kind_of(b: u8) -> Option<Kind>
    ensures { result ≡ kind_of b }
{
    match b {
        b'F' => Some(Kind::First),
        b'C' => Some(Kind::Check),
        b'S' => Some(Kind::Second),
        b'K' => Some(Kind::Skip),
        _ => None,
    }
}

pub fn code_of(e: Estimate) -> u32
    ensures { result ≡ code_of e }
{
    match e {
        Estimate::Blank => limits::BLANK,
        Estimate::Split => limits::SPLIT,
        Estimate::Mileage(m) => m,
    }
}

// Total: a number out of range is a mileage that the range test refuses.
pub fn estimate_of(x: u32) -> Estimate
    ensures { result ≡ estimate_of x }
{
    match x {
        limits::BLANK => Estimate::Blank,
        limits::SPLIT => Estimate::Split,
        _ => Estimate::Mileage(x),
    }
}

// The round, where it fits a round's bytes.
pub fn round_of(x: u32) -> Option<Round>
    ensures { result ≡ cond (ltb x (256 ^ today.round_width)) (Some x) None }
{
    Round::try_from(x).ok()
}

// A log that was read, where it is well formed. With the message's alike, and no generic: test, refusal and format are all that is in them.
pub fn checked_log(log: Log) -> Result<Log, Refusal>
    ensures { log_reading result ≡ checked (log_format today) (Some log) }
{
    if rules::logs::well_formed(log) {
        Ok(log)
    } else {
        Err(Refusal::Log)
    }
}

// A message that was read, where it is well formed.
pub fn checked_message(m: Message) -> Result<Message, Refusal>
    ensures { message_reading result ≡ checked (message_format today) (Some m) }
{
    if rules::messages::well_formed(m) {
        Ok(m)
    } else {
        Err(Refusal::Message)
    }
}
