// The event of a line.
ghost use Rattle.std.specs.Prelude.{◌≡◌};
ghost use Rattle.script.specs.Parts.{comma, parted};
ghost use Rattle.script.specs.Script.{one_of, two_of, unit_below, pair_below, by_letter, event_letter, event_of};

use super::{numbers, parts};
use script::ScriptEvent;

// The unit that the rest of a line says. A unit number of n or more is malformed.
fn one_below(n: u8, rest: &[u8]) -> Option<u32>
    ensures { result ≡ unit_below n (one_of (parted comma rest.now)) }
{
    numbers::one(rest).filter(|u| *u < u32::from(n))
}

// The unit, and a mileage or a message number.
fn two_below(n: u8, rest: &[u8]) -> Option<(u32, u32)>
    ensures { result ≡ pair_below n (two_of (parted comma rest.now)) }
{
    numbers::two(rest).filter(|p| p.0 < u32::from(n))
}

// The script letter decides the event.
#[tactic(auto, unfolding(script::specs::Script::by_letter))]
fn by_letter(n: u8, letter: u8, rest: &[u8]) -> ScriptEvent
    ensures { result ≡ by_letter n letter (parted comma rest.now) }
{
    let event = match letter {
        b'P' => two_below(n, rest).map(|(u, v)| ScriptEvent::Propose(u, v)),
        b'D' => two_below(n, rest).map(|(u, k)| ScriptEvent::Deliver(u, k)),
        b'W' => two_below(n, rest).map(|(u, k)| ScriptEvent::Cut(u, k)),
        b'K' => one_below(n, rest).map(ScriptEvent::KeyOff),
        b'U' => one_below(n, rest).map(ScriptEvent::KeyOn),
        _ => None,
    };
    event.unwrap_or(ScriptEvent::Malformed)
}

// The letter of an event, as a listing shows it: a function and no From, since crate script has types alone. Each letter stands here and in by_letter:
// constants would be five names more.
pub fn event_letter(e: ScriptEvent) -> u8
    ensures { result ≡ event_letter e }
{
    match e {
        ScriptEvent::Malformed => b'?',
        ScriptEvent::Propose(_, _) => b'P',
        ScriptEvent::Deliver(_, _) => b'D',
        ScriptEvent::Cut(_, _) => b'W',
        ScriptEvent::KeyOff(_) => b'K',
        ScriptEvent::KeyOn(_) => b'U',
    }
}

// A line's event, without its byte 10.
#[tactic(auto, using(script::proofs::EventLines::short_line), unfolding(script::specs::Script::event_of))]
pub fn event(n: u8, line: &[u8]) -> ScriptEvent
    ensures { result ≡ event_of n line.now }
{
    match parts::split_once(line, parts::COMMA) {
        Some(([letter], rest)) => by_letter(n, *letter, rest),
        _ => ScriptEvent::Malformed,
    }
}
