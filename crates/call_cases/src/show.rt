// Calls on a unit's log and image, each printed with what it answers and what every buffer holds afterwards.
use std::{fmt, io};
use tally::{Refusal, limits};

// What a buffer holds before it is written.
pub(crate) const JUNK: u8 = 170;

// Where the CHECKs and the SECONDs of an image begin.
const CHECKS: usize = limits::LOG_SIZE;

const SECONDS: usize = CHECKS + 2 + 4 * limits::SENDERS;

pub(crate) type LogBytes = [u8; limits::LOG_SIZE];

pub(crate) type MessageBytes = [u8; limits::MESSAGE_SIZE];

// Bytes that are printed in hexadecimal.
#[derive(Clone, Copy)]
struct Hex<'a>(&'a [u8]);

impl fmt::Display for Hex<'_> {
    fn fmt<W: fmt::Write>(&self, f: &mut fmt::Formatter<W>) -> fmt::Result {
        for b in self.0 {
            write!(f, "{b:02x}")?;
        }
        Ok(())
    }
}

// A unit's log and image, and where the calls on them are printed.
#[derive(Drop)]
pub(crate) struct PrintedUnit<'a, P> {
    rt: &'a P,
    pub(crate) log: LogBytes,
    image: [u8; limits::IMAGE_SIZE],
}

impl<'a, P: Print> PrintedUnit<'a, P> {
    // A unit before its first call.
    pub(crate) fn new(rt: &'a P) -> Self {
        PrintedUnit {
            rt,
            log: [JUNK; limits::LOG_SIZE],
            image: [JUNK; limits::IMAGE_SIZE],
        }
    }

    // With the C entry's numbers one by one, of which some are to be refused.
    pub(crate) fn start(
        &mut self,
        name: &str,
        engine: u32,
        n: u32,
        unit: u32,
        entry: u32,
    ) -> io::Result<()> {
        let answer = unit_calls::start(engine, n, unit, entry, &mut self.log, &mut self.image);
        self.print_answer(name, answer)?;
        self.print_buffers()
    }

    // The key goes off: the image is lost.
    pub(crate) fn key_off(&mut self) {
        self.image = [JUNK; limits::IMAGE_SIZE];
    }

    pub(crate) fn key_on(&mut self, name: &str) -> io::Result<()> {
        let answer = unit_calls::key_on(&self.log, &mut self.image);
        self.print_answer(name, answer)?;
        self.print_buffers()
    }

    // Hands back the message.
    pub(crate) fn propose(&mut self, name: &str, mileage: u32) -> io::Result<MessageBytes> {
        let mut out = [JUNK; limits::MESSAGE_SIZE];
        let answer = unit_calls::propose(&self.log, &mut self.image, mileage, &mut out);
        self.print_answer(name, answer)?;
        self.print_buffers()?;
        self.print_line("out", &Hex(&out))?;
        Ok(out)
    }

    // Hands back the message that answers it.
    pub(crate) fn deliver(&mut self, name: &str, message: &[u8]) -> io::Result<MessageBytes> {
        let mut out = [JUNK; limits::MESSAGE_SIZE];
        let mut decision = 0;
        let answer = unit_calls::deliver(
            &mut self.log,
            &mut self.image,
            message,
            &mut out,
            &mut decision,
        );
        self.print_answer(name, answer)?;
        self.print_line("decision", &decision)?;
        self.print_buffers()?;
        self.print_line("out", &Hex(&out))?;
        self.print_line("message", &Hex(message))?;
        Ok(out)
    }

    // The call's name, and the number that it answers.
    fn print_answer(&self, name: &str, answer: Result<(), Refusal>) -> io::Result<()> {
        println!(self.rt; "{name}")?;
        self.print_line("number", &tally::number(answer.err()))
    }

    // Log and image. An image has bytes laid out as a log, the CHECKs and the SECONDs.
    fn print_buffers(&self) -> io::Result<()> {
        self.print_line("log", &Hex(&self.log))?;
        self.print_line("image", &Hex(&self.image[..CHECKS]))?;
        self.print_line("checks", &Hex(&self.image[CHECKS..SECONDS]))?;
        self.print_line("seconds", &Hex(&self.image[SECONDS..]))
    }

    fn print_line(&self, label: &str, shown: &impl fmt::Display) -> io::Result<()> {
        println!(self.rt; "  {label:<8} {shown}")
    }
}
