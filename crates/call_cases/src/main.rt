// The scope paper's worked cases, by the functions that the C entries of `mileage` are one call of: its listing, the examples of the numbers 1 to
// 7, and the last rounds; and request 2's vote sent again. What is printed is held to the file `stdout`.
#![tactic(auto)]

mod show;

use show::{JUNK, LogBytes, MessageBytes, PrintedUnit};
use std::io;
use tally::limits;

// Letters and limits as numbers, by `as`: u32::from is no constant's.
const B: u32 = b'B' as u32;

const R: u32 = b'R' as u32;

const F: u32 = b'F' as u32;

const S: u32 = b'S' as u32;

const K: u32 = b'K' as u32;

const EVERYONE: u32 = limits::EVERYONE as u32;

const LAST: u32 = limits::LAST_ROUND as u32;

const BEFORE_LAST: u32 = LAST - 1;

// A log of a unit of 3 in B, entry 7, all blank.
fn blank_log(unit: u32, round: u32) -> LogBytes {
    let fields = [
        B,
        3,
        unit,
        7,
        round,
        limits::BLANK,
        limits::BLANK,
        limits::BLANK,
    ];
    let mut log = [JUNK; limits::LOG_SIZE];
    let _ = fields::write_log(&fields, &mut log);
    log
}

// The numbers of a message in B, n = 3, entry 7.
#[derive(Clone, Copy)]
struct MessageFields {
    kind: u32,
    sender: u32,
    receiver: u32,
    round: u32,
    estimate: u32,
    proposal: u32,
}

impl MessageFields {
    // Of unit 0, which proposes 5.
    fn first(round: u32) -> Self {
        MessageFields {
            kind: F,
            sender: 0,
            receiver: EVERYONE,
            round,
            estimate: 5,
            proposal: 5,
        }
    }

    // With mileage 5.
    fn second(sender: u32, round: u32) -> Self {
        MessageFields {
            kind: S,
            sender,
            receiver: EVERYONE,
            round,
            estimate: 5,
            proposal: limits::BLANK,
        }
    }

    // Of unit 0, for unit 1.
    fn skip(round: u32) -> Self {
        MessageFields {
            kind: K,
            sender: 0,
            receiver: 1,
            round,
            estimate: limits::BLANK,
            proposal: limits::BLANK,
        }
    }

    fn bytes(self) -> MessageBytes {
        let fields = [
            self.kind,
            B,
            3,
            self.sender,
            self.receiver,
            7,
            self.round,
            self.estimate,
            self.proposal,
        ];
        let mut message = [JUNK; limits::MESSAGE_SIZE];
        let _ = fields::write_message(&fields, &mut message);
        message
    }
}

// The listing's events at unit 1: unit 0's FIRST and CHECK come to it, then its own CHECK, which it answers with SECOND. Hands back its CHECK and
// this SECOND.
fn unit_1<P: Print>(
    rt: &P,
    first: &MessageBytes,
    check0: &MessageBytes,
) -> io::Result<(MessageBytes, MessageBytes)> {
    let mut unit = PrintedUnit::new(rt);
    unit.start("B,3,7 unit 1", B, 3, 1, 7)?;
    let check1 = unit.deliver("D,1,0", first)?;
    unit.deliver("D,1,1", check0)?;
    let second1 = unit.deliver("D,1,2", &check1)?;
    Ok((check1, second1))
}

// Its last events, at unit 2: the SECOND of unit 1 and the CHECKs of units 0 and 1 come to it, then its own SECOND.
fn unit_2<P: Print>(
    rt: &P,
    check0: &MessageBytes,
    check1: &MessageBytes,
    second1: &MessageBytes,
) -> io::Result<()> {
    let mut unit = PrintedUnit::new(rt);
    unit.start("B,3,7 unit 2", B, 3, 2, 7)?;
    unit.deliver("D,2,3", second1)?;
    unit.deliver("D,2,1", check0)?;
    let second2 = unit.deliver("D,2,2", check1)?;
    unit.deliver("D,2,4", &second2)?;
    Ok(())
}

// The listing, its events at unit 0 here. A cut delivery (W) is the call, and then the key goes off: its log stays, its image and message are
// lost.
fn listing<P: Print>(rt: &P) -> io::Result<()> {
    let mut unit = PrintedUnit::new(rt);
    unit.start("B,3,7 unit 0", B, 3, 0, 7)?;
    let first = unit.propose("P,0,412077", 412077)?;
    let check0 = unit.deliver("D,0,0", &first)?;
    let (check1, second1) = unit_1(rt, &first, &check0)?;
    unit.deliver("D,0,1", &check0)?;
    unit.deliver("W,0,2", &check1)?;
    unit.key_off();
    println!(rt; "D,0,3: the unit is down, there is no call")?;
    unit.key_on("U,0")?;
    unit_2(rt, &check0, &check1, &second1)
}

// The table's examples of 1, 2, 4 and 5.
fn examples<P: Print>(rt: &P) -> io::Result<()> {
    let mut unit = PrintedUnit::new(rt);
    unit.start("2: n = 2", B, 2, 0, 7)?;
    unit.start("unit 2 of 3", B, 3, 2, 7)?;
    let mut message = MessageFields::first(0).bytes();
    let short = &message[..limits::MESSAGE_SIZE - 1];
    unit.deliver("1: message of 17 bytes", short)?;
    message[0] = b'Z';
    unit.deliver("4: kind letter Z", &message)?;
    let skip = MessageFields::skip(4).bytes();
    unit.deliver("5: K for unit 1, handed to 2", &skip)?;
    Ok(())
}

// Of 6, and 99,999,999 beside it.
fn mileages<P: Print>(rt: &P) -> io::Result<()> {
    let mut unit = PrintedUnit::new(rt);
    unit.log = blank_log(2, 0);
    unit.key_on("unit 2 at round 0")?;
    unit.propose("6: 100,000,000", limits::MAX_MILEAGE + 1)?;
    unit.propose("99,999,999 is accepted", limits::MAX_MILEAGE)?;
    Ok(())
}

// Of 3.
fn image_behind<P: Print>(rt: &P) -> io::Result<()> {
    let mut unit = PrintedUnit::new(rt);
    unit.log = blank_log(2, 3);
    unit.key_on("unit 2 at round 3")?;
    unit.log = blank_log(2, 4);
    let first = MessageFields::first(4).bytes();
    unit.deliver("3: log at round 4, image at 3", &first)?;
    Ok(())
}

// Round 9,998 is closed, with a decision; round 9,999 is not: the example of 7.
fn last_rounds<P: Print>(rt: &P) -> io::Result<()> {
    let mut unit = PrintedUnit::new(rt);
    unit.log = blank_log(0, BEFORE_LAST);
    unit.key_on("unit 0 at round 9,998")?;
    let of_1 = MessageFields::second(1, BEFORE_LAST).bytes();
    let of_2 = MessageFields::second(2, BEFORE_LAST).bytes();
    unit.deliver("SECOND of unit 1 in 9,998", &of_1)?;
    unit.deliver("SECOND of unit 2 in 9,998", &of_2)?;
    let last_of_1 = MessageFields::second(1, LAST).bytes();
    let last_of_2 = MessageFields::second(2, LAST).bytes();
    unit.deliver("SECOND of unit 1 in 9,999", &last_of_1)?;
    unit.deliver("7: n = 3, B, one mark there, another comes", &last_of_2)?;
    unit.deliver("SECOND of unit 1 in 9,999 again", &last_of_1)?;
    Ok(())
}

// A bike of three with engine R, at unit 1: unit 0's FIRST comes to it. Hands back its SECOND.
fn unit_1_r<P: Print>(rt: &P, first: &MessageBytes) -> io::Result<MessageBytes> {
    let mut unit = PrintedUnit::new(rt);
    unit.start("R,3,7 unit 1", R, 3, 1, 7)?;
    let second1 = unit.deliver("D,1,0", first)?;
    Ok(second1)
}

// At unit 2: the key goes off between its log write and its SECOND. The same FIRST makes it send that SECOND again, and its log and image stay as
// they were. Hands back this SECOND.
fn unit_2_r<P: Print>(rt: &P, first: &MessageBytes) -> io::Result<MessageBytes> {
    let mut unit = PrintedUnit::new(rt);
    unit.start("R,3,7 unit 2", R, 3, 2, 7)?;
    unit.deliver("W,2,0", first)?;
    unit.key_off();
    println!(rt; "D,2,0: the unit is down, there is no call")?;
    unit.key_on("U,2")?;
    let second2 = unit.deliver("D,2,0", first)?;
    Ok(second2)
}

// The events at unit 0: of the three SECONDs that it needs two come, and then the one sent again.
fn vote_sent_again<P: Print>(rt: &P) -> io::Result<()> {
    let mut unit = PrintedUnit::new(rt);
    unit.start("R,3,7 unit 0", R, 3, 0, 7)?;
    let first = unit.propose("P,0,412077", 412077)?;
    let second0 = unit.deliver("D,0,0", &first)?;
    let second1 = unit_1_r(rt, &first)?;
    unit.deliver("D,0,1", &second0)?;
    unit.deliver("D,0,2", &second1)?;
    let second2 = unit_2_r(rt, &first)?;
    unit.deliver("D,0,3", &second2)?;
    Ok(())
}

fn main(rt: HostRuntime) -> io::Result<()> {
    listing(&rt)?;
    examples(&rt)?;
    mileages(&rt)?;
    image_behind(&rt)?;
    last_rounds(&rt)?;
    vote_sent_again(&rt)
}
