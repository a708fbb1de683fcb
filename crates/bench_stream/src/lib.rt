// A script read from a reader, and its listing written to a writer.
#![tactic(auto)]

ghost use Rattle.std.specs.Prelude.{◌≡◌, ◌<◌, ◌≤◌, List, ℕ, length, take, OnOk};
ghost use Rattle.std.specs.Io.KnownBytes.{Appends, Consumes, IsAtEnd};
ghost use Rattle.tally.specs.Limits.{today, script_size};
ghost use Rattle.bench.specs.Listing.{listing_call};

use std::io;
use std::io::{Read, Write};
use tally::limits;

// One byte more than a script may have, so that too long is seen.
const READ_SIZE: usize = limits::SCRIPT_SIZE + 1;

// Reads until the buffer is full or the reader is at its end; a read that fails ends it too. Says how many bytes there are, which std's `read_exact` does
// not say where it fails; `read_to_end` allocates.
fn fill<R: Read>(from: &mut R, script: &mut [u8]) -> (usize, io::Result<()>)
    ensures within { result.0 ≤ length script.new }
    ensures read { Consumes (R.remaining from.old) (R.remaining from.new) (take result.0 script.new) }
    ensures end { OnOk result.1 (result.0 < length script.new → IsAtEnd (R.remaining from.new)) }
{
    let mut at = 0;
    while at < script.len() {
        match from.read(&mut script[at..]) {
            Ok(0) => return (at, Ok(())),
            Ok(n) => at += n,
            Err(e) => return (at, Err(e)),
        }
    }
    (at, Ok(()))
}

// The buffer holds the listing of what was read, where it has room for any listing (`bench::page`). Where no read failed, what was read is all that
// there was, or is too long for a script; where the write did not fail either, the listing is what was written.
pub fn play<R: Read, W: Write>(from: &mut R, to: &mut W, out: &mut [u8]) -> io::Result<()>
    ensures { (s : List ℕ) × (out.new ≡ (listing_call today s out.old).out)
        × Consumes (R.remaining from.old) (R.remaining from.new) s
        × OnOk result (length s ≤ script_size → IsAtEnd (R.remaining from.new))
        × OnOk result (Appends (W.contents to.old) (W.contents to.new) (take (listing_call today s out.old).written out.new)) }
{
    let mut script = [0u8; READ_SIZE];
    let (size, read) = fill(from, &mut script);
    let length = bench::print(&script[..size], out).unwrap_or(0);
    to.write_all(&out[..length])?;
    read
}
