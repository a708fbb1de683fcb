// What logs, images and messages hold; which of them are well formed is in specs/, and as code in crate rules.
#![tactic(auto)]

use tally::limits::Round;
use tally::{Engine, Estimate, Tally};

// What a unit is started with: engine, number of units n, its own number, and the entry that it settles.
#[derive(Clone, Copy, PartialEq, Eq)]
pub struct Settings {
    pub engine: Engine,
    pub n: u8,
    pub unit: u8,
    pub entry: u16,
}

// Where a unit stands in its entry.
#[derive(Clone, Copy, PartialEq, Eq)]
pub struct State {
    pub round: Round,
    pub proposal: Estimate,
    pub first: Estimate,
    pub second: Estimate,
}

// A log: what a unit keeps over a key-off.
#[derive(Clone, Copy, PartialEq, Eq)]
pub struct Log {
    pub settings: Settings,
    pub state: State,
}

// An image (the scope paper's term): what a unit has while it is up, lost at key-off. Its current contents, and the
// CHECKs and SECONDs counted.
#[derive(Clone, Copy, PartialEq, Eq)]
pub struct Image {
    pub settings: Settings,
    pub state: State,
    pub checks: Tally,
    pub seconds: Tally,
}

// FIRST, CHECK, SECOND and SKIP, the scope paper's kinds; an empty message counts as no message. Empty is a case and no None: an empty message has bytes
// of its own, and is what a step that sends nothing gives.
#[derive(Clone, Copy, PartialEq, Eq)]
pub enum Kind {
    Empty,
    First,
    Check,
    Second,
    Skip,
}

// A message, with the sender's engine, n and entry. The receiver is a unit, or everyone: a unit's number or 255, as the bytes have it, since an enum of both
// would be made and taken apart for the same two comparisons.
#[derive(Clone, Copy, PartialEq, Eq)]
pub struct Message {
    pub kind: Kind,
    pub engine: Engine,
    pub n: u8,
    pub sender: u8,
    pub receiver: u8,
    pub entry: u16,
    pub round: Round,
    pub estimate: Estimate,
    pub proposal: Estimate,
}
