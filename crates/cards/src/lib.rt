// A card: rows of plain numbers that a host lends, one for each entry. What a call makes of them is in specs/; crates card_rows and
// card_calls have the code.
#![tactic(auto)]

use contents::Message;
use tally::{Estimate, Refusal, limits};

// A log's eight numbers; the engine is its letter's number.
#[repr(C)]
#[derive(Clone, Copy, PartialEq, Eq)]
pub struct LogFields {
    pub engine: u32,
    pub n: u32,
    pub unit: u32,
    pub entry: u32,
    pub round: u32,
    pub proposal: u32,
    pub first: u32,
    pub second: u32,
}

// A tally's seventeen numbers: its marks, and sixteen estimates.
#[repr(C)]
#[derive(Clone, Copy, PartialEq, Eq)]
pub struct TallyFields {
    pub marks: u32,
    pub estimates: [u32; limits::SENDERS],
}

// A row of a card holds the log and image contents of its entry: fifty numbers.
#[repr(C)]
#[derive(Clone, Copy, PartialEq, Eq)]
pub struct CardRow {
    pub log: LogFields,
    pub image: LogFields,
    pub checks: TallyFields,
    pub seconds: TallyFields,
}

// What a call asks of its row's unit.
#[derive(Clone, Copy, PartialEq, Eq)]
pub enum UnitStep {
    Propose(u32),
    Deliver(Message),
}

// What a call asks of its row. One match on these few cases says as much as a closure for each.
#[derive(Clone, Copy, PartialEq, Eq)]
pub enum Act {
    Start,
    KeyOn,
    Step(UnitStep),
}

// A call on a card: the settings beside it, the row's number from 1, and what is asked. Numbers of 32 bits, as they are given: settings once in range.
#[derive(Clone, Copy, PartialEq, Eq)]
pub struct CardCall {
    pub engine: u32,
    pub n: u32,
    pub unit: u32,
    pub row: u32,
    pub act: Act,
}

// What a call tells its caller, of a refused call too: an empty message and no decision. So the refusal stands beside these. It is
// an answer but for the unit, which went into the row.
#[derive(Clone, Copy, PartialEq, Eq)]
pub struct Told {
    pub refusal: Option<Refusal>,
    pub message: Message,
    pub decision: Estimate,
}

// What a row answers: itself after the step, and what is told. Contracts alone speak of it.
#[derive(Clone, Copy, PartialEq, Eq)]
pub struct RowAnswer {
    pub row: CardRow,
    pub told: Told,
}
