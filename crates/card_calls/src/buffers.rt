// What the calls on a card ask of a row, from the C entries' numbers and buffers, which go side by side as C has them, and how they store what is told: so an
// entry is calls alone, without a branch.
ghost use Rattle.std.specs.Prelude.{◌≡◌};
ghost use Rattle.tally.specs.Limits.{today};
ghost use Rattle.tally.specs.Refusal.{number_of};
ghost use Rattle.formats.specs.Codes.{code_of};
ghost use Rattle.cards.specs.InnerSteps.{card_call, propose_asks, deliver_asks, put_message};

use cards::{Act, CardCall, Told, UnitStep};
use contents::Message;
use tally::{Refusal, limits};

// ---- what is asked
pub fn card_call(engine: u32, n: u32, unit: u32, row: u32, act: Act) -> CardCall
    ensures { result ≡ card_call engine n unit row act }
{
    CardCall {
        engine,
        n,
        unit,
        row,
        act,
    }
}

// `size` is the length of the output buffer, which is written once the row has answered.
#[tactic(auto, unfolding(cards::specs::InnerSteps::propose_asks))]
pub fn propose_asks(
    engine: u32,
    n: u32,
    unit: u32,
    row: u32,
    mileage: u32,
    size: usize,
) -> Result<CardCall, Refusal>
    ensures { result ≡ propose_asks today engine n unit row mileage size }
{
    if size != limits::MESSAGE_SIZE {
        return Err(Refusal::Length);
    }
    let act = Act::Step(UnitStep::Propose(mileage));
    Ok(card_call(engine, n, unit, row, act))
}

#[tactic(auto, unfolding(cards::specs::InnerSteps::deliver_asks, calls::specs::Calls::bad_message))]
pub fn deliver_asks(
    engine: u32,
    n: u32,
    unit: u32,
    message: &[u8],
    size: usize,
) -> Result<CardCall, Refusal>
    ensures { result ≡ deliver_asks today engine n unit message.now size }
{
    if (message.len() != limits::MESSAGE_SIZE) | (size != limits::MESSAGE_SIZE) {
        return Err(Refusal::Length);
    }
    let m = message_codec::read_message(message).map_err(|_| Refusal::Message)?;
    let act = Act::Step(UnitStep::Deliver(m));
    Ok(card_call(engine, n, unit, u32::from(m.entry), act))
}

// ---- what is told: unit_calls has a put_message of its own, since its buffer is cleared before anything is read, and an empty message leaves it as it is
#[tactic(auto, unfolding(cards::specs::InnerSteps::put_message))]
pub fn put_message(m: Message, out: &mut [u8])
    ensures { out.new ≡ put_message today m out.old }
{
    if rules::messages::is_empty(m.kind) {
        message_codec::clear(out);
    } else {
        message_codec::store_message(m, out);
    }
}

// The message goes into the output buffer, and the decision beside it.
pub fn put_told(t: Told, out: &mut [u8], decision: &mut u32)
    ensures { (out.new ≡ put_message today t.message out.old) × (decision.new ≡ code_of t.decision) }
{
    *decision = codes::code_of(t.decision);
    put_message(t.message, out);
}

// What an entry does with what is told: the message goes into the output buffer, and the number to the caller.
pub fn tell_message(t: Told, out: &mut [u8]) -> u32
    ensures { (result ≡ number_of t.refusal) × (out.new ≡ put_message today t.message out.old) }
{
    put_message(t.message, out);
    tally::number(t.refusal)
}

// The decision too.
pub fn tell(t: Told, out: &mut [u8], decision: &mut u32) -> u32
    ensures { (result ≡ number_of t.refusal) × ((out.new ≡ put_message today t.message out.old)
        × (decision.new ≡ code_of t.decision)) }
{
    put_told(t, out, decision);
    tally::number(t.refusal)
}
