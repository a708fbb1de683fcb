// The script of the bench: its header, its events and their numbers. How they are written is in specs/; crate bench_script reads them.
#![tactic(auto)]

use tally::Engine;

// Engine, n and entry. A script names no unit, so these are no settings.
#[derive(Clone, Copy, PartialEq, Eq)]
pub struct Header {
    pub engine: Engine,
    pub n: u8,
    pub entry: u16,
}

// A line's event. Each is of one unit; a proposal gives a mileage, a delivery a message number. Cut, key-off and key-on are the scope paper's
// terms: a cut is its W, as a delivery, but the key goes off after the log write. Malformed is a case and no None: such a line is played too, and is
// refused with 8.
#[derive(Clone, Copy, PartialEq, Eq)]
pub enum ScriptEvent {
    Malformed,
    Propose(u32, u32),
    Deliver(u32, u32),
    Cut(u32, u32),
    KeyOff(u32),
    KeyOn(u32),
}
