// What the calls of a unit test before they read it, and how they store its answer.
ghost use Rattle.std.specs.Prelude.{[], ◌≡◌};
ghost use Rattle.std.specs.Result.{result_err};
ghost use Rattle.tally.specs.Limits.{today, blank_code};
ghost use Rattle.tally.specs.Refusal.{number_of};
ghost use Rattle.calls.specs.Calls.{called, unit_lengths};
ghost use Rattle.calls.specs.InnerCalls.{stored_message, stored_proposal, stored_answer};

use consensus::Answer;
use contents::Message;
use tally::{Refusal, limits};

// Is the length of a unit's log or image wrong?
#[tactic(auto, unfolding(calls::specs::Calls::unit_lengths))]
pub(crate) fn wrong_lengths(log: &[u8], image: &[u8]) -> bool
    ensures { result ≡ unit_lengths today log.now image.now }
{
    (log.len() != limits::LOG_SIZE) | (image.len() != limits::IMAGE_SIZE)
}

// Stores a message in a cleared buffer, which holds the empty message already.
#[tactic(auto, unfolding(calls::specs::InnerCalls::stored_message))]
fn put_message(m: Message, out: &mut [u8])
    ensures { out.new ≡ stored_message m out.old }
{
    if rules::messages::is_empty(m.kind) {
        return;
    }
    message_codec::store_message(m, out);
}

// Stores what a proposal answers, unless it refuses: no log, and of the image its state alone.
#[tactic(auto, using(tally::proofs::Refusals::refusal_number), unfolding(calls::specs::InnerCalls::stored_proposal))]
pub(crate) fn put_proposal(a: Answer, image: &mut [u8], out: &mut [u8]) -> Result<(), Refusal>
    ensures { called (number_of (result_err result)) [] image.new out.new blank_code
        ≡ stored_proposal a image.old out.old }
{
    if let Some(refusal) = a.refusal {
        return Err(refusal);
    }
    image_codec::put_state(a.unit.current, image);
    put_message(a.message, out);
    Ok(())
}

// Stores what a delivery answers, unless it refuses. It begins as a proposal's: a head of both would be the unit's answer once more.
#[tactic(auto, using(tally::proofs::Refusals::refusal_number), unfolding(calls::specs::InnerCalls::stored_answer))]
pub(crate) fn put_answer(
    a: Answer,
    log: &mut [u8],
    image: &mut [u8],
    out: &mut [u8],
    decision: &mut u32,
) -> Result<(), Refusal>
    ensures { called (number_of (result_err result)) log.new image.new out.new decision.new
        ≡ stored_answer a log.old image.old out.old decision.old }
{
    if let Some(refusal) = a.refusal {
        return Err(refusal);
    }
    *decision = codes::code_of(a.decision);
    put_message(a.message, out);
    log_codec::store_log(a.unit.log(), log);
    image_codec::put_image(a.unit.current, a.unit.checks, a.unit.seconds, image);
    Ok(())
}
