// The four calls of a unit over the bytes of its log and image, each with its C entry's parameters.
// Propose and deliver each read their unit: by one function of both a delivery would use 2,040 bytes of stack where the gate lets 1,536 pass.
#![tactic(auto)]

mod buffers;

ghost use Rattle.std.specs.Prelude.{◌≡◌, []};
ghost use Rattle.std.specs.Result.{result_err};
ghost use Rattle.tally.specs.Limits.{today, blank_code};
ghost use Rattle.tally.specs.Refusal.{number_of};
ghost use Rattle.calls.specs.Calls.{called, start_call, key_on_call, propose_call, deliver_call};

use consensus::Unit;
use tally::{Refusal, limits};

// Starts a unit: writes its log and its image, and reads neither. The engine is its letter's number.
pub fn start(
    engine: u32,
    n: u32,
    unit: u32,
    entry: u32,
    log: &mut [u8],
    image: &mut [u8],
) -> Result<(), Refusal>
    ensures { called (number_of (result_err result)) log.new image.new [] blank_code
        ≡ start_call today engine n unit entry log.old image.old }
{
    if buffers::wrong_lengths(log, image) {
        return Err(Refusal::Length);
    }
    let settings = numbers::settings_from(engine, n, unit, entry).ok_or(Refusal::Log)?;
    let l = Unit::fresh(settings).log();
    log_codec::store_log(l, log);
    image_codec::store_unmarked(l, image);
    Ok(())
}

// Key-on: writes the image that the log gives, and does not read what it held.
pub fn key_on(log: &[u8], image: &mut [u8]) -> Result<(), Refusal>
    ensures { called (number_of (result_err result)) log.now image.new [] blank_code ≡ key_on_call today log.now image.old }
{
    if buffers::wrong_lengths(log, image) {
        return Err(Refusal::Length);
    }
    let l = log_codec::read_log(log)?;
    image_codec::store_unmarked(l, image);
    Ok(())
}

// Proposes a mileage: writes the image and a message, and no log.
#[tactic(auto, unfolding(calls::specs::Calls::propose_call, calls::specs::Calls::propose_call_conditions, consensus::specs::Conditions::first_refusal))]
pub fn propose(log: &[u8], image: &mut [u8], mileage: u32, out: &mut [u8]) -> Result<(), Refusal>
    ensures { called (number_of (result_err result)) log.now image.new out.new blank_code
        ≡ propose_call today log.now image.old mileage out.old }
{
    message_codec::clear(out);
    if buffers::wrong_lengths(log, image) | (out.len() != limits::MESSAGE_SIZE) {
        return Err(Refusal::Length);
    }
    let l = log_codec::read_log(log)?;
    let state = image_codec::state_for(image, l).ok_or(Refusal::Image)?;
    let (checks, seconds) = image_codec::tallies_of(image);
    let u = Unit::up(l, state, checks, seconds);
    buffers::put_proposal(u.propose(mileage), image, out)
}

// Delivers a message: where nothing is refused, writes log, image and message. The decision is always written.
#[tactic(auto, unfolding(calls::specs::Calls::deliver_call, calls::specs::Calls::deliver_call_conditions, consensus::specs::Conditions::first_refusal))]
pub fn deliver(
    log: &mut [u8],
    image: &mut [u8],
    message: &[u8],
    out: &mut [u8],
    decision: &mut u32,
) -> Result<(), Refusal>
    ensures { called (number_of (result_err result)) log.new image.new out.new decision.new
        ≡ deliver_call today log.old image.old message.now out.old }
{
    *decision = limits::BLANK;
    message_codec::clear(out);
    if buffers::wrong_lengths(log, image)
        | (message.len() != limits::MESSAGE_SIZE)
        | (out.len() != limits::MESSAGE_SIZE)
    {
        return Err(Refusal::Length);
    }
    let l = log_codec::read_log(log)?;
    let state = image_codec::state_for(image, l).ok_or(Refusal::Image)?;
    let m = message_codec::read_message(message)?;
    let (checks, seconds) = image_codec::tallies_of(image);
    let u = Unit::up(l, state, checks, seconds);
    buffers::put_answer(u.deliver(m), log, image, out, decision)
}
