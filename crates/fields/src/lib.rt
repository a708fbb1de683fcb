// Logs and messages between plain numbers and bytes, for the C entries: two by two alike, in as few lines as a trait over both would take to name its
// members.
#![tactic(auto)]

ghost use Rattle.std.specs.Prelude.{◌≡◌};
ghost use Rattle.std.specs.Result.{result_err};
ghost use Rattle.tally.specs.Limits.{today};
ghost use Rattle.tally.specs.Refusal.{number_of};
ghost use Rattle.formats.specs.Formats.{wrote};
ghost use Rattle.calls.specs.Fields.{read_log_call, write_log_call, read_message_call, write_message_call};

use numbers::{LogNumbers, MessageNumbers};
use tally::{Refusal, limits};

// Reads a log's eight numbers: engine letter, n, unit, entry, round, proposal, first and second estimate.
#[tactic(auto, unfolding(formats::specs::Logs::read_log, calls::specs::Fields::read_log_call))]
pub fn read_log(log: &[u8], fields: &mut [u32]) -> Result<(), Refusal>
    ensures { wrote (number_of (result_err result)) fields.new ≡ read_log_call today log.now fields.old }
{
    let fields: &mut LogNumbers = fields.as_mut_array().ok_or(Refusal::Length)?;
    *fields = numbers::log_numbers(log_codec::read_log(log)?);
    Ok(())
}

// Writes a log of its eight numbers.
#[tactic(auto, unfolding(calls::specs::Fields::write_log_call))]
pub fn write_log(fields: &[u32], log: &mut [u8]) -> Result<(), Refusal>
    ensures { wrote (number_of (result_err result)) log.new ≡ write_log_call today fields.now log.old }
{
    let fields: &LogNumbers = fields.as_array().ok_or(Refusal::Length)?;
    if log.len() != limits::LOG_SIZE {
        return Err(Refusal::Length);
    }
    let l = numbers::narrow_log(fields).ok_or(Refusal::Log)?;
    log_codec::write_log(l, log)
}

// Reads a message's nine numbers: kind and engine letter, n, sender, receiver, entry, round, estimate, proposal.
#[tactic(auto, unfolding(formats::specs::Messages::read_message, calls::specs::Fields::read_message_call))]
pub fn read_message(message: &[u8], fields: &mut [u32]) -> Result<(), Refusal>
    ensures { wrote (number_of (result_err result)) fields.new ≡ read_message_call today message.now fields.old }
{
    let fields: &mut MessageNumbers = fields.as_mut_array().ok_or(Refusal::Length)?;
    *fields = numbers::message_numbers(message_codec::read_message(message)?);
    Ok(())
}

// Writes a message of its nine numbers. A refused write leaves an empty message in a buffer of its length; another keeps its bytes.
#[tactic(auto, unfolding(calls::specs::Fields::write_message_call))]
pub fn write_message(fields: &[u32], message: &mut [u8]) -> Result<(), Refusal>
    ensures { wrote (number_of (result_err result)) message.new ≡ write_message_call today fields.now message.old }
{
    message_codec::clear(message);
    let fields: &MessageNumbers = fields.as_array().ok_or(Refusal::Length)?;
    if message.len() != limits::MESSAGE_SIZE {
        return Err(Refusal::Length);
    }
    let m = numbers::narrow_message(fields).ok_or(Refusal::Message)?;
    message_codec::write_message(m, message)
}
