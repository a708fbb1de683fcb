// An event's line. Functions, and no From of Shown: that a decision of split is a dash is this line's matter, and none of the types'.
ghost use Rattle.std.specs.Prelude.{◌≡◌};
ghost use Rattle.bench.specs.Listing.{sent_shown, decision_shown, line_with, malformed_line};

use bench_script::events;
use bench_text::{ListingLine, Shown};
use bench_turns::LineOutcome;
use script::ScriptEvent;
use tally::{Estimate, Refusal};

// A number, or a dash where there is none.
fn shown(n: Option<u32>) -> Shown
    ensures { result ≡ sent_shown n }
{
    n.map_or(Shown::Dash, Shown::Number)
}

fn decision_shown(d: Estimate) -> Shown
    ensures { result ≡ decision_shown d }
{
    match d {
        Estimate::Blank | Estimate::Split => Shown::Dash,
        Estimate::Mileage(v) => Shown::Number(v),
    }
}

// The line of an event and what came of it.
#[tactic(auto, using(crate::proofs::Rest::unit_shown_lem), unfolding(crate::specs::Listing::line_with))]
pub(crate) fn listing_line(index: u32, e: ScriptEvent, outcome: LineOutcome) -> ListingLine
    ensures { result ≡ line_with index e outcome.refusal outcome.sent outcome.decision }
{
    ListingLine {
        index,
        letter: events::event_letter(e),
        unit: shown(bench_turns::unit_of(e)),
        number: tally::number(outcome.refusal),
        sent: shown(outcome.sent),
        decision: decision_shown(outcome.decision),
    }
}

// The line of a malformed header.
#[tactic(auto, unfolding(crate::specs::Listing::line_with, crate::specs::Listing::malformed_line))]
pub(crate) fn malformed_line() -> ListingLine
    ensures { result ≡ malformed_line 0 }
{
    let refused = bench_turns::refused_outcome(Refusal::Line);
    listing_line(0, ScriptEvent::Malformed, refused)
}
