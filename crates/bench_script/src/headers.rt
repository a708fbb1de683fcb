// The header of a script.
ghost use Rattle.std.specs.Prelude.{◌≡◌};
ghost use Rattle.script.specs.Script.{empty_engine, engine_field, in_ranges, header_of};

use super::{numbers, parts};
use script::Header;
use tally::{Engine, limits};

// An empty engine field means B. n is given for a later version, and has no part today.
fn empty_engine(n: u32) -> Engine
    ensures { result ≡ empty_engine n }
{
    Engine::B
}

fn engine_field(n: u32, f: &[u8]) -> Option<Engine>
    ensures { result ≡ engine_field n f.now }
{
    match f {
        [] => Some(empty_engine(n)),
        [letter] => codes::engine_of(*letter),
        _ => None,
    }
}

// At 32 bits, as a script gives them: rules::logs::numbers_ok is of narrowed numbers, and of a unit.
fn in_ranges(n: u32, entry: u32) -> bool
    ensures { result ≡ in_ranges n entry }
{
    (u32::from(limits::MIN_UNITS)..=u32::from(limits::MAX_UNITS)).contains(&n)
        && (u32::from(limits::MIN_ENTRY)..=u32::from(limits::MAX_ENTRY)).contains(&entry)
}

// The header's line, without its byte 10.
#[tactic(auto, unfolding(script::specs::Script::header_of))]
pub fn header(line: &[u8]) -> Option<Header>
    ensures { result ≡ header_of line.now }
{
    let (engine, others) = parts::split_once(line, parts::COMMA)?;
    let (n, entry) = numbers::two(others)?;
    if !in_ranges(n, entry) {
        return None;
    }
    Some(Header {
        engine: engine_field(n, engine)?,
        n: n as u8,
        entry: entry as u16,
    })
}
