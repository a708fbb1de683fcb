// The bench at its start, and an event as a turn of its unit: what it takes of the bench goes in by value (one unit, one message, and how many
// messages there are), and what it makes of it comes back.
#![tactic(auto)]

ghost use Rattle.std.specs.Prelude.{◌≡◌, Some};
ghost use Rattle.tally.specs.Limits.{today, senders};
ghost use Rattle.script.specs.Script.{event_unit};
ghost use Rattle.consensus.specs.Step.{fresh};
ghost use Rattle.bench_play.specs.Bench.{header_settings, fresh_units, start, no_place_left};
ghost use Rattle.bench_play.specs.Play.{cut_short};
ghost use Rattle.bench_turns.specs.InnerTurns.{unit_of, place_or_first, event_place, turn_delivery, turn};
ghost use Rattle.bench_turns.specs.InnerTurns.{refused_outcome, accepted_outcome, send_outcome, outcome_of, is_accepted, is_sent};

use bench_play::Bench;
use consensus::{Answer, Unit, methods, step};
use contents::{Message, Settings};
use rules::messages;
use script::{Header, ScriptEvent};
use std::array;
use tally::{Estimate, Refusal, limits};

// ---- at the start

fn fresh_unit(h: Header, unit: u8) -> Unit
    ensures { result ≡ fresh (header_settings h unit) }
{
    Unit::fresh(Settings {
        engine: h.engine,
        n: h.n,
        unit,
        entry: h.entry,
    })
}

// The units, each with its own number.
fn fresh_units(h: Header) -> [Unit; limits::SENDERS]
    ensures { result ≡ fresh_units h senders }
{
    array::from_fn(|unit| fresh_unit(h, unit as u8))
}

#[tactic(auto, unfolding(bench_play::specs::Bench::start))]
pub fn start(h: Header) -> Bench
    ensures { result ≡ start h }
{
    Bench {
        units: fresh_units(h),
        messages: [step::EMPTY; limits::PLACES],
        kept: 0,
    }
}

// ---- what an event takes of the bench: the first where it takes nothing, so that each line reads a unit and a message; what it reads then plays no
// part. Crate script has types alone, so what is asked of an event is a match where it is asked. Places by `as`: std has no From between u32 and usize.

// The unit of an event that has one.
pub fn unit_of(e: ScriptEvent) -> Option<u32>
    ensures { result ≡ unit_of e }
{
    match e {
        ScriptEvent::Malformed => None,
        ScriptEvent::Propose(u, _)
        | ScriptEvent::Deliver(u, _)
        | ScriptEvent::Cut(u, _)
        | ScriptEvent::KeyOff(u)
        | ScriptEvent::KeyOn(u) => Some(u),
    }
}

#[tactic(auto, using(crate::proofs::Turns::unit_or_first))]
pub fn event_unit(e: ScriptEvent) -> usize
    ensures { result ≡ event_unit e }
{
    unit_of(e).unwrap_or(0) as usize
}

fn place_or_first(k: u32) -> usize
    ensures { result ≡ place_or_first k }
{
    let k = k as usize;
    if k < limits::PLACES { k } else { 0 }
}

// The place of the message that an event takes; the first where it takes none, or one that no place has.
pub fn event_place(e: ScriptEvent) -> usize
    ensures { result ≡ event_place e }
{
    match e {
        ScriptEvent::Deliver(_, k) | ScriptEvent::Cut(_, k) => place_or_first(k),
        _ => 0,
    }
}

// ---- what its unit answers

// A delivery of message number k, which is m if it was sent: 9 and 10 come before the unit's own numbers.
fn turn_delivery(unit: Unit, kept: u32, m: Message, k: u32) -> Answer
    ensures { result ≡ turn_delivery today unit kept m k }
{
    if !methods::is_up(unit.power) {
        return unit.refused(Some(Refusal::Power));
    }
    if kept <= k {
        return unit.refused(Some(Refusal::Unsent));
    }
    unit.deliver(m)
}

// The key goes off after the log write: nothing is sent or decided.
#[tactic(auto, using(tally::proofs::Refusals::refusal_number), unfolding(bench_play::specs::Play::cut_short))]
fn cut_short(a: Answer) -> Answer
    ensures { result ≡ cut_short a }
{
    if a.refusal.is_none() {
        a.unit.key_off()
    } else {
        a
    }
}

// What the unit of an event answers, with that many messages kept, of which m stands at the event's place.
#[tactic(auto, unfolding(crate::specs::InnerTurns::turn))]
pub fn turn(unit: Unit, kept: u32, m: Message, e: ScriptEvent) -> Answer
    ensures { result ≡ turn today unit kept m e }
{
    match e {
        ScriptEvent::Malformed => unit.refused(Some(Refusal::Line)),
        ScriptEvent::Propose(_, v) => unit.propose(v),
        ScriptEvent::Deliver(_, k) => turn_delivery(unit, kept, m, k),
        ScriptEvent::Cut(_, k) => cut_short(turn_delivery(unit, kept, m, k)),
        ScriptEvent::KeyOff(_) => unit.key_off(),
        ScriptEvent::KeyOn(_) => unit.key_on(),
    }
}

// ---- what comes of it

// What a line shows beside its event: why it is refused, if it is, the number of the message sent, and a mileage decided or blank. A refused line shows
// all three too.
#[derive(Clone, Copy, PartialEq, Eq)]
pub struct LineOutcome {
    pub refusal: Option<Refusal>,
    pub sent: Option<u32>,
    pub decision: Estimate,
}

pub fn refused_outcome(why: Refusal) -> LineOutcome
    ensures { result ≡ refused_outcome (Some why) }
{
    LineOutcome {
        refusal: Some(why),
        sent: None,
        decision: Estimate::Blank,
    }
}

fn accepted_outcome(sent: Option<u32>, decision: Estimate) -> LineOutcome
    ensures { result ≡ accepted_outcome sent decision }
{
    LineOutcome {
        refusal: None,
        sent,
        decision,
    }
}

#[tactic(auto, unfolding(bench_play::specs::Bench::no_place_left))]
fn no_place_left(kept: u32) -> bool
    ensures { result ≡ no_place_left kept }
{
    limits::PLACES as u32 <= kept
}

// Of an answer that sends, with that many messages kept: 11 is last, and refuses the whole event.
fn send_outcome(kept: u32, decision: Estimate) -> LineOutcome
    ensures { result ≡ send_outcome kept decision }
{
    if no_place_left(kept) {
        refused_outcome(Refusal::Full)
    } else {
        accepted_outcome(Some(kept), decision)
    }
}

// What comes of a unit's answer, with that many messages kept.
#[tactic(auto, unfolding(crate::specs::InnerTurns::outcome_of))]
pub fn outcome_of(kept: u32, a: Answer) -> LineOutcome
    ensures { result ≡ outcome_of kept a }
{
    if let Some(why) = a.refusal {
        return refused_outcome(why);
    }
    if messages::is_empty(a.message.kind) {
        accepted_outcome(None, a.decision)
    } else {
        send_outcome(kept, a.decision)
    }
}

#[tactic(auto, using(tally::proofs::Refusals::refusal_number))]
pub fn is_accepted(o: LineOutcome) -> bool
    ensures { result ≡ is_accepted o }
{
    o.refusal.is_none()
}

pub fn is_sent(o: LineOutcome) -> bool
    ensures { result ≡ is_sent o.sent }
{
    o.sent.is_some()
}
