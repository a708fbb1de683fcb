// The 18 bytes of a message. A wrong length is refused first, then malformed contents. Reading, storing and writing are as log_codec's, and no trait of
// both: its members would say as much as these few lines.
#![tactic(auto)]

ghost use Rattle.std.specs.Prelude.{◌≡◌};
ghost use Rattle.std.specs.Result.{result_err};
ghost use Rattle.tally.specs.Limits.{today};
ghost use Rattle.tally.specs.Refusal.{number_of};
ghost use Rattle.formats.specs.Formats.{to_bytes, wrote};
ghost use Rattle.formats.specs.Messages.{message_of, message_format, message_reading, cleared, read_message, write_message};
ghost use Rattle.formats.specs.InnerMessages.{message_numbers_in};
ghost use Rattle.formats.specs.InnerFormats.{stored};

use big_endian::BigEndian;
use contents::{Kind, Message};
use tally::{Engine, Refusal, limits};

// Where the fields stand, after the letter of the kind.
const AT_ENGINE: usize = 1;

const AT_N: usize = 2;

const AT_SENDER: usize = 3;

const AT_RECEIVER: usize = 4;

const AT_ZERO: usize = 5;

const AT_ENTRY: usize = 6;

const AT_ROUND: usize = AT_ENTRY + 2;

const AT_ESTIMATE: usize = AT_ROUND + limits::ROUND_WIDTH;

const AT_PROPOSAL: usize = AT_ESTIMATE + 4;

type MessageBytes = [u8; limits::MESSAGE_SIZE];

// The contents that the bytes hold, at a kind and an engine. Inlined: else they are built in memory byte by byte, and read again in wider pieces, which
// takes a reader half as long again.
#[inline(always)]
fn message_at(kind: Kind, engine: Engine, s: &MessageBytes) -> Message
    ensures { result ≡ message_of kind engine (message_numbers_in today s.now) }
{
    Message {
        kind,
        engine,
        n: u8::get(s, AT_N),
        sender: u8::get(s, AT_SENDER),
        receiver: u8::get(s, AT_RECEIVER),
        entry: u16::get(s, AT_ENTRY),
        round: limits::Round::get(s, AT_ROUND),
        estimate: codes::estimate_of(u32::get(s, AT_ESTIMATE)),
        proposal: codes::estimate_of(u32::get(s, AT_PROPOSAL)),
    }
}

// Refuses a wrong length with 1, and malformed contents, the empty message among them, with 4.
#[tactic(auto, unfolding(formats::specs::Messages::read_message))]
pub fn read_message(s: &[u8]) -> Result<Message, Refusal>
    ensures { message_reading result ≡ read_message today s.now }
{
    let s: &MessageBytes = s.as_array().ok_or(Refusal::Length)?;
    if u8::get(s, AT_ZERO) != 0 {
        return Err(Refusal::Message);
    }
    let kind = codes::kind_of(u8::get(s, 0)).ok_or(Refusal::Message)?;
    let engine = codes::engine_of(u8::get(s, AT_ENGINE)).ok_or(Refusal::Message)?;
    codes::checked_message(message_at(kind, engine, s))
}

fn put_message(m: Message, out: &mut MessageBytes)
    ensures { out.new ≡ to_bytes (message_format today) m }
{
    big_endian::put_four(
        out,
        0,
        codes::kind_letter(m.kind),
        codes::letter_of(m.engine),
        m.n,
        m.sender,
    );
    m.receiver.put(out, AT_RECEIVER);
    0u8.put(out, AT_ZERO);
    big_endian::put_entry_round(out, AT_ENTRY, m.entry, m.round);
    codes::code_of(m.estimate).put(out, AT_ESTIMATE);
    codes::code_of(m.proposal).put(out, AT_PROPOSAL);
}

// Zeros an output buffer of the right length, and leaves another.
#[tactic(auto, unfolding(formats::specs::Messages::cleared))]
pub fn clear(out: &mut [u8])
    ensures { out.new ≡ cleared today out.old }
{
    if out.len() == limits::MESSAGE_SIZE {
        out.fill(0);
    }
}

// Stores a message that is known to be well formed, with no test of it; a buffer of another length keeps its bytes.
#[tactic(auto, unfolding(formats::specs::InnerFormats::stored))]
pub fn store_message(m: Message, out: &mut [u8])
    ensures { out.new ≡ stored (message_format today) m out.old }
{
    if let Some(out) = out.as_mut_array() {
        put_message(m, out);
    }
}

// Refuses as reading would, and then leaves an empty message in a buffer of its length; another keeps its bytes.
#[tactic(auto, unfolding(formats::specs::Messages::write_message))]
pub fn write_message(m: Message, out: &mut [u8]) -> Result<(), Refusal>
    ensures { wrote (number_of (result_err result)) out.new ≡ write_message today m out.old }
{
    clear(out);
    let out: &mut MessageBytes = out.as_mut_array().ok_or(Refusal::Length)?;
    put_message(codes::checked_message(m)?, out);
    Ok(())
}
