// The base of the core: limits, refusals, engines, estimates, quorums, and tallies of estimates by sender.
#![tactic(auto)]

pub mod limits;

ghost use Rattle.std.specs.Prelude.{◌≡◌, ◌<◌, ◌≤◌, ◌-◌, ◌^◌, ◌&&◌};
ghost use Rattle.std.specs.Int.Bits.{bit_or};
ghost use Rattle.std.specs.Int.Count.{ones};
ghost use Rattle.tally.specs.Limits.{senders};
ghost use Rattle.tally.specs.Refusal.{number_of};
ghost use Rattle.tally.specs.Quorum.{quorum_of, majority_of};
ghost use Rattle.tally.specs.Tally.{is_marked, estimate_at, no_marks, mark, gathered, gathered_from};
ghost use Rattle.tally.specs.Gathered.{any_mileage, has_value, holders, common, lowest, leads, first_passing, majority};
ghost use Rattle.tally.specs.InnerGathered.{sent_by};

// The engines of the scope paper: B after B*-Consensus, R after R*-Consensus.
#[derive(Clone, Copy, PartialEq, Eq)]
pub enum Engine {
    B,
    R,
}

// A proposal or an estimate. Blank is the scope paper's term for the source's ⊥, split for its ⊤. Blank is a case and no None: it is sent and stored
// as the others are, and the scope paper names this enum.
#[derive(Clone, Copy, PartialEq, Eq)]
pub enum Estimate {
    Blank,
    Split,
    Mileage(u32),
}

// Why a call is turned down: the rows of the scope paper's table, in its order and with its numbers, and then those of the change requests.
#[derive(Clone, Copy, PartialEq, Eq)]
pub enum Refusal {
    Length = 1,
    Log = 2,
    Image = 3,
    Message = 4,
    Addressee = 5,
    Mileage = 6,
    LastRound = 7,
    Line = 8,
    Power = 9,
    Unsent = 10,
    Full = 11,
    Row = 12,
}

// The number that a caller is told: 0 where nothing is refused.
pub fn number(refusal: Option<Refusal>) -> u32
    ensures { result ≡ number_of refusal }
{
    refusal.map_or(0, |refusal| refusal as u32)
}

// One of the sixteen estimates of a tally.
#[derive(Clone, Copy, PartialEq, Eq)]
pub struct Cell {
    pub estimate: Estimate,
}

// The senders that have been counted, and what each of them sent. Sender marks (the scope paper's term) are
// bits, of value 2 to the power of the unit.
#[derive(Clone, Copy, PartialEq, Eq)]
pub struct Tally {
    pub marks: u16,
    pub cells: [Cell; limits::SENDERS],
}

// How many CHECKs or SECONDs are a quorum.
pub fn quorum(engine: Engine, n: u8) -> u32
    ensures { result ≡ quorum_of engine n }
{
    let k = u32::from(n);
    match engine {
        Engine::B => (k + 2) / 2,
        Engine::R => (2 * k + 3) / 3,
    }
}

// How many of R's quorum are a majority.
pub fn majority_size(n: u8) -> u32
    ensures { result ≡ majority_of n }
{
    quorum(Engine::R, n) / 2 + 1
}

// Has this sender a mark? A sender is a plain number, as a message and a loop have it, so its bound is asked for, here and below. The step has the bound
// from `Checked`, a message that was found well formed.
pub fn is_marked(marks: u16, sender: u8) -> bool
    requires { sender < senders }
    ensures { result ≡ is_marked marks sender }
{
    (marks >> sender) % 2 == 1
}

// The marks with this sender's.
fn with_mark(marks: u16, sender: u8) -> u16
    requires { sender < senders }
    ensures { result ≡ bit_or marks (2 ^ sender) }
{
    marks | (1 << sender)
}

// Is it a mileage, whichever?
fn any_mileage(e: Estimate) -> bool
    ensures { result ≡ any_mileage e }
{
    matches!(e, Estimate::Mileage(_))
}

// Is it this mileage?
pub fn has_value(e: Estimate, v: u32) -> bool
    ensures { result ≡ has_value v e }
{
    e == Estimate::Mileage(v)
}

// Sixteen blanks.
pub const NO_CELLS: [Cell; limits::SENDERS] = [Cell {
    estimate: Estimate::Blank,
}; limits::SENDERS];

impl Tally {
    #[tactic(auto, unfolding(crate::specs::Tally::no_marks))]
    pub fn empty() -> Tally
        ensures { result ≡ no_marks }
    {
        Tally {
            marks: 0,
            cells: NO_CELLS,
        }
    }

    #[tactic(auto, unfolding(crate::specs::Tally::mark))]
    pub fn mark(mut self, sender: u8, estimate: Estimate) -> Tally
        requires { sender < senders }
        ensures { result ≡ mark self sender estimate }
    {
        self.marks = with_mark(self.marks, sender);
        self.cells[usize::from(sender)] = Cell { estimate };
        self
    }

    // How many senders are marked.
    pub fn count(&self) -> u32
        ensures { result ≡ ones self.now.marks }
    {
        self.marks.count_ones()
    }

    // What a marked sender sent.
    fn sent_by(&self, sender: u8) -> Option<Estimate>
        requires { sender < senders }
        ensures { result ≡ sent_by self.now sender }
    {
        is_marked(self.marks, sender).then_some(self.cells[usize::from(sender)].estimate)
    }

    // Is a sender marked with the mileage v? Both are looked at, with no branch between.
    fn holds(&self, sender: u8, v: u32) -> bool
        requires { sender < senders }
        ensures { result ≡ (is_marked self.now.marks sender && has_value v (estimate_at self.now sender)) }
    {
        is_marked(self.marks, sender) & has_value(self.cells[usize::from(sender)].estimate, v)
    }

    // How many of the marked hold the mileage v.
    fn holders(&self, v: u32) -> u32
        ensures { result ≡ holders v (gathered self.now) }
    {
        (0..limits::MAX_UNITS)
            .map(|s| u32::from(self.holds(s, v)))
            .sum()
    }

    // The mileage of the lowest marked sender that has one; blank where none has.
    pub fn lowest(&self) -> Estimate
        ensures { result ≡ lowest (gathered self.now) }
    {
        (0..limits::MAX_UNITS)
            .filter_map(|s| self.sent_by(s))
            .find(|e| any_mileage(*e))
            .unwrap_or(Estimate::Blank)
    }

    // The mileage that all the marked hold; split where they differ.
    pub fn common(&self) -> Estimate
        ensures { result ≡ common (gathered self.now) }
    {
        let mut marked = (0..limits::MAX_UNITS).filter_map(|s| self.sent_by(s));
        match marked.next() {
            None => Estimate::Split,
            Some(Estimate::Mileage(v)) if marked.all(|e| has_value(e, v)) => Estimate::Mileage(v),
            Some(_) => Estimate::Split,
        }
    }

    // Is it a mileage that at least `need` of the marked hold?
    #[tactic(auto, unfolding(crate::specs::Gathered::leads))]
    fn leads(&self, need: u32, e: Estimate) -> bool
        ensures { result ≡ leads need (gathered self.now) e }
    {
        matches!(e, Estimate::Mileage(v) if need <= self.holders(v))
    }

    // The mileage that at least `need` of the marked hold; blank where there is none.
    #[tactic(auto, unfolding(crate::specs::Gathered::majority, crate::specs::Tally::gathered))]
    pub fn majority(&self, need: u32) -> Estimate
        ensures { result ≡ majority need (gathered self.now) }
    {
        leader_from(self, need, 0)
    }
}

// The first estimate, from a unit number on, that leads: a recursion over unit numbers, which is the scope paper's form.
fn leader_from(t: &Tally, need: u32, sender: u8) -> Estimate
    requires { sender ≤ senders }
    ensures { result ≡ first_passing (leads need (gathered t.now)) (gathered_from t.now sender (senders - sender)) }
{
    if sender == limits::MAX_UNITS {
        return Estimate::Blank;
    }
    match t.sent_by(sender) {
        Some(e) if t.leads(need, e) => e,
        _ => leader_from(t, need, sender + 1),
    }
}
