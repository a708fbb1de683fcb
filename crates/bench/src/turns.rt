// A script's event lines, one after the other.
ghost use Rattle.std.specs.Prelude.{◌≤◌, ◌<◌, length};
ghost use Rattle.std.specs.Iterator.{YieldsFirst, item_count};
ghost use Rattle.tally.specs.Limits.{today, script_size, senders};
ghost use Rattle.bench_play.specs.Bench.{start};
ghost use Rattle.bench_text.specs.InnerText.{HasRoom, Appends};
ghost use Rattle.bench.specs.InnerLines.{events_in, rest_text};

use super::lines;
use bench_script::{events, parts};
use bench_text::Listing;
use script::{Header, ScriptEvent};

// The event lines of a script from one of them on. Bytes after the last byte 10 are a malformed line.
#[derive(Drop)]
pub struct EventLines<'a> {
    pub n: u8,
    pub rest: &'a [u8],
}

impl<'a> Iterator for EventLines<'a> {
    type Item = ScriptEvent;

    ghost next_gives = { YieldsFirst (λ lines. events_in lines.n lines.rest.now) };

    ghost remaining = { item_count (λ lines. events_in lines.n lines.rest.now) };

    #[tactic(auto, using(crate::proofs::LineEnds::none_left, crate::proofs::LineEnds::ended_events, crate::proofs::LineEnds::left_events))]
    fn next(&mut self) -> Option<ScriptEvent> {
        if self.rest.is_empty() {
            return None;
        }
        match parts::split_once(self.rest, parts::NEWLINE) {
            Some((line, rest)) => {
                self.rest = rest;
                Some(events::event(self.n, line))
            }
            None => {
                self.rest = &[];
                Some(ScriptEvent::Malformed)
            }
        }
    }
}

// The listing of the lines after the header, and the final line. The bench stays where it is: of it a line reads one unit and one message, and
// stores at most one of each. A place is made by `as`, as in bench_turns.
pub(crate) fn put_events(rest: &[u8], h: Header, out: &mut Listing)
    requires rest_len_bound { length rest.now ≤ script_size }
    requires n_nonzero { 0 < h.n }
    requires n_le_senders { h.n ≤ senders }
    requires room { HasRoom out.old (length (rest_text today (start h) 0 (events_in h.n rest.now))) }
    ensures { Appends out.old (rest_text today (start h) 0 (events_in h.n rest.now)) out.new }
{
    let mut b = bench_turns::start(h);
    let mut i: u32 = 0;
    let event_lines = EventLines { n: h.n, rest };
    // Counted by hand: the final line has the number of lines too, of which `enumerate` tells nothing once it has ended.
    for event in event_lines {
        let u = bench_turns::event_unit(event);
        let k = bench_turns::event_place(event);
        let answer = bench_turns::turn(b.units[u], b.kept, b.messages[k], event);
        let outcome = bench_turns::outcome_of(b.kept, answer);
        out.put_line(lines::listing_line(i + 1, event, outcome));
        if bench_turns::is_accepted(outcome) {
            b.units[u] = answer.unit;
            if bench_turns::is_sent(outcome) {
                b.messages[b.kept as usize] = answer.message;
                b.kept += 1;
            }
        }
        i += 1;
    }
    out.put_end(i, b.kept);
}
