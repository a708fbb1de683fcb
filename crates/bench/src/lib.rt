// The bench program's work: from a script's bytes to its listing's.
#![tactic(auto)]

mod lines;
mod turns;

ghost use Rattle.std.specs.Prelude.{◌≤◌, ◌≡◌, true, ◌++◌, length};
ghost use Rattle.std.specs.Result.{result_err, result_unwrap_or};
ghost use Rattle.tally.specs.Limits.{today, script_size};
ghost use Rattle.tally.specs.Refusal.{number_of};
ghost use Rattle.bench_play.specs.Bench.{start};
ghost use Rattle.script.specs.Script.{in_ranges};
ghost use Rattle.bench_text.specs.InnerText.{HasRoom, Appends};
ghost use Rattle.bench.specs.Listing.{header_line, malformed_text, listing, printed, listing_call};
ghost use Rattle.bench.specs.InnerLines.{events_in, rest_text};
ghost use Rattle.bench.specs.Widths.{max_listing};

use bench_script::{headers, parts};
use bench_text::Listing;
use script::Header;
use tally::{Refusal, limits};

// The most bytes of a header, a malformed line and the final line, as specs/Widths.antt adds them up.
const HEADER_WIDTH: usize = 10;

const MALFORMED_WIDTH: usize = 16;

const END_WIDTH: usize = 14;

// No listing is longer: no line prints more than a malformed line for each of its bytes.
pub const MAX_LISTING: usize = HEADER_WIDTH + MALFORMED_WIDTH * limits::SCRIPT_SIZE + END_WIDTH;

// ---- what is printed. Room for any listing is asked of each function: it is there at the beginning alone, so it is no field of Listing.

// What a malformed header prints.
fn put_malformed(out: &mut Listing)
    requires { HasRoom out.old max_listing }
    ensures { Appends out.old malformed_text out.new }
{
    out.put_line(lines::malformed_line());
    out.put_end(0, 0);
}

// The header's line, and those of the lines after it.
fn put_played(rest: &[u8], h: Header, out: &mut Listing)
    requires rest_len_bound { length rest.now ≤ script_size }
    requires h_value { in_ranges h.n h.entry ≡ true }
    requires room { HasRoom out.old max_listing }
    ensures { Appends out.old (header_line h ++ rest_text today (start h) 0 (events_in h.n rest.now)) out.new }
{
    out.put_header(
        codes::letter_of(h.engine),
        u32::from(h.n),
        u32::from(h.entry),
    );
    turns::put_events(rest, h, out);
}

// The whole listing.
fn put_listing(script: &[u8], out: &mut Listing)
    requires { HasRoom out.old max_listing }
    ensures { Appends out.old (listing today script.now) out.new }
{
    if limits::SCRIPT_SIZE < script.len() {
        return put_malformed(out);
    }
    let Some((line, rest)) = parts::split_once(script, parts::NEWLINE) else {
        return put_malformed(out);
    };
    let Some(h) = headers::header(line) else {
        return put_malformed(out);
    };
    put_played(rest, h, out)
}

// Room for any listing. Its contract gives the length alone, so that a caller's proof does not compute the array.
pub fn page() -> [u8; MAX_LISTING]
    ensures { max_listing ≡ length result }
{
    [0; MAX_LISTING]
}

// The listing of a script, in a buffer that must have room for any listing: how many bytes it takes, and no slice, since the contract is of the whole buffer:
// the bytes past the listing stay.
#[tactic(auto, unfolding(crate::specs::Listing::listing_call))]
pub fn print(script: &[u8], out: &mut [u8]) -> Result<usize, Refusal>
    ensures { printed (number_of (result_err result)) (result_unwrap_or result 0) out.new ≡ listing_call today script.now out.old }
{
    if out.len() < MAX_LISTING {
        return Err(Refusal::Length);
    }
    let mut listing = Listing::new(out);
    put_listing(script, &mut listing);
    Ok(listing.len())
}
