// The bench: units and message places. What events make of it is in specs/; crate bench_turns has the code of one event.
#![tactic(auto)]

use consensus::Unit;
use contents::Message;
use tally::limits;

// The units, the message places, and how many of these are filled, from the front: the scope paper's form.
#[derive(Clone, Copy, PartialEq, Eq)]
pub struct Bench {
    pub units: [Unit; limits::SENDERS],
    pub messages: [Message; limits::PLACES],
    pub kept: u32,
}
