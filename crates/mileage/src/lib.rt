// What a C program links: the version, logs and messages as plain numbers and as bytes, the four calls of a unit, and those of a card.
// Each entry has the C function's parameters and gives a number, so that they are alike.
#![tactic(auto)]

ghost use Rattle.std.specs.Prelude.{◌≡◌, []};
ghost use Rattle.tally.specs.Limits.{today, blank_code};
ghost use Rattle.formats.specs.Formats.{wrote};
ghost use Rattle.calls.specs.Fields.{read_log_call, write_log_call, read_message_call, write_message_call};
ghost use Rattle.calls.specs.Calls.{called, start_call, key_on_call, propose_call, deliver_call};
ghost use Rattle.cards.specs.Calls.{card_called, beside, card_start_call, card_key_on_call, card_propose_call, card_deliver_call};
ghost use Rattle.mileage.specs.Version.{version};

use cards::{Act, CardRow};

// As specs/Version.antt has it, and the header.
const VERSION: u32 = 4;

// The version of this core: where it is not the header's, header and archive are not of one landing.
#[unsafe(no_mangle)]
pub extern "C" fn mileage_version() -> u32
    ensures { result ≡ version }
{
    VERSION
}

// Reads a log's eight numbers: engine letter, n, unit, entry, round, proposal, first and second estimate.
#[unsafe(no_mangle)]
pub extern "C" fn mileage_read_log(log: &[u8], fields: &mut [u32]) -> u32
    ensures { wrote result fields.new ≡ read_log_call today log.now fields.old }
{
    tally::number(fields::read_log(log, fields).err())
}

// Writes a log of its eight numbers.
#[unsafe(no_mangle)]
pub extern "C" fn mileage_write_log(fields: &[u32], log: &mut [u8]) -> u32
    ensures { wrote result log.new ≡ write_log_call today fields.now log.old }
{
    tally::number(fields::write_log(fields, log).err())
}

// Reads a message's nine numbers: kind and engine letter, n, sender, receiver, entry, round, estimate, proposal.
#[unsafe(no_mangle)]
pub extern "C" fn mileage_read_message(message: &[u8], fields: &mut [u32]) -> u32
    ensures { wrote result fields.new ≡ read_message_call today message.now fields.old }
{
    tally::number(fields::read_message(message, fields).err())
}

// Writes a message of its nine numbers.
#[unsafe(no_mangle)]
pub extern "C" fn mileage_write_message(fields: &[u32], message: &mut [u8]) -> u32
    ensures { wrote result message.new ≡ write_message_call today fields.now message.old }
{
    tally::number(fields::write_message(fields, message).err())
}

// Starts a unit: writes its log and its image, and reads neither. The engine is its letter's number.
#[unsafe(no_mangle)]
pub extern "C" fn mileage_start(
    engine: u32,
    n: u32,
    unit: u32,
    entry: u32,
    log: &mut [u8],
    image: &mut [u8],
) -> u32
    ensures { called result log.new image.new [] blank_code
        ≡ start_call today engine n unit entry log.old image.old }
{
    tally::number(unit_calls::start(engine, n, unit, entry, log, image).err())
}

// Key-on: writes the image that the log gives, and does not read what it held.
#[unsafe(no_mangle)]
pub extern "C" fn mileage_key_on(log: &[u8], image: &mut [u8]) -> u32
    ensures { called result log.now image.new [] blank_code ≡ key_on_call today log.now image.old }
{
    tally::number(unit_calls::key_on(log, image).err())
}

// Proposes a mileage: writes the image and a message, and no log.
#[unsafe(no_mangle)]
pub extern "C" fn mileage_propose(log: &[u8], image: &mut [u8], mileage: u32, out: &mut [u8]) -> u32
    ensures { called result log.now image.new out.new blank_code
        ≡ propose_call today log.now image.old mileage out.old }
{
    tally::number(unit_calls::propose(log, image, mileage, out).err())
}

// Delivers a message: where nothing is refused, writes log, image and message. The decision is always written.
#[unsafe(no_mangle)]
pub extern "C" fn mileage_deliver(
    log: &mut [u8],
    image: &mut [u8],
    message: &[u8],
    out: &mut [u8],
    decision: &mut u32,
) -> u32
    ensures { called result log.new image.new out.new decision.new
        ≡ deliver_call today log.old image.old message.now out.old }
{
    tally::number(unit_calls::deliver(log, image, message, out, decision).err())
}

// Starts a row of a card: what any row held has no part in it.
#[unsafe(no_mangle)]
pub extern "C" fn mileage_card_start(
    engine: u32,
    n: u32,
    unit: u32,
    rows: &mut [CardRow],
    row: u32,
) -> u32
    ensures { card_called result rows.new [] blank_code ≡ card_start_call today (beside engine n unit) rows.old row }
{
    let c = card_calls::buffers::card_call(engine, n, unit, row, Act::Start);
    tally::number(card_calls::on_row(Ok(c), rows).refusal)
}

// Key-on of a row of a card: of the row its log alone has a part in it.
#[unsafe(no_mangle)]
pub extern "C" fn mileage_card_key_on(
    engine: u32,
    n: u32,
    unit: u32,
    rows: &mut [CardRow],
    row: u32,
) -> u32
    ensures { card_called result rows.new [] blank_code ≡ card_key_on_call today (beside engine n unit) rows.old row }
{
    let c = card_calls::buffers::card_call(engine, n, unit, row, Act::KeyOn);
    tally::number(card_calls::on_row(Ok(c), rows).refusal)
}

// Proposes a mileage for a row of a card: writes the row's image and a message, and no log.
#[unsafe(no_mangle)]
pub extern "C" fn mileage_card_propose(
    engine: u32,
    n: u32,
    unit: u32,
    rows: &mut [CardRow],
    row: u32,
    mileage: u32,
    out: &mut [u8],
) -> u32
    ensures { card_called result rows.new out.new blank_code
        ≡ card_propose_call today (beside engine n unit) rows.old row mileage out.old }
{
    let asked = card_calls::buffers::propose_asks(engine, n, unit, row, mileage, out.len());
    let t = card_calls::on_row(asked, rows);
    card_calls::buffers::tell_message(t, out)
}

// Delivers a message to the row of its entry. The decision is always written.
#[unsafe(no_mangle)]
pub extern "C" fn mileage_card_deliver(
    engine: u32,
    n: u32,
    unit: u32,
    rows: &mut [CardRow],
    message: &[u8],
    out: &mut [u8],
    decision: &mut u32,
) -> u32
    ensures { card_called result rows.new out.new decision.new
        ≡ card_deliver_call today (beside engine n unit) rows.old message.now out.old }
{
    let asked = card_calls::buffers::deliver_asks(engine, n, unit, message, out.len());
    let t = card_calls::on_row(asked, rows);
    card_calls::buffers::tell(t, out, decision)
}
