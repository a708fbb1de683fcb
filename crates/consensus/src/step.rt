// The step of both engines, after B*-Consensus and R*-Consensus: specs/Step has it with the source's line numbers. A step of CHECKs and one of SECONDs may
// look alike: each is after its own lines of the source.
ghost use Rattle.std.specs.Prelude.{◌≡◌, ◌<◌, ◌≤◌, leb, is_some, IfSome};
ghost use Rattle.std.specs.Int.Count.{ones};
ghost use Rattle.tally.specs.Limits.{today, senders};
ghost use Rattle.tally.specs.Quorum.{quorum_of};
ghost use Rattle.contents.specs.Messages.{message_ok};
ghost use Rattle.tally.specs.Tally.{mark};
ghost use Rattle.consensus.specs.Step.{gives, quiet, says, sends, log_write, clean, at_round, fresh, recovered};
ghost use Rattle.consensus.specs.Step.{or_if_blank, send_first, proposed, vote_kind, vote_proposal, vote_first, take_first, on_first};
ghost use Rattle.consensus.specs.Step.{vote_second, take_second, count_check, mark_check, on_check};
ghost use Rattle.consensus.specs.Step.{decided, next_proposal, close, count_second, on_second, on_kind, skip, caught_up, received};

use super::{Answer, Power, Unit};
use contents::{Kind, Message, Settings, State};
use rules::{estimates, messages};
use tally::limits::Round;
use tally::{Engine, Estimate, Tally, limits};

// An empty message is what a step that sends nothing gives.
pub const EMPTY: Message = Message {
    kind: Kind::Empty,
    engine: Engine::B,
    n: 0,
    sender: 0,
    receiver: 0,
    entry: 0,
    round: 0,
    estimate: Estimate::Blank,
    proposal: Estimate::Blank,
};

// A message that was found well formed. Of this the step needs that its sender has a place in a tally, and that its round is no higher than the last.
#[derive(Clone, Copy)]
pub(crate) struct Checked {
    pub(crate) message: Message,
    ghost placed: { message.sender < senders },
    ghost in_rounds: { message.round ≤ today.last_round },
}

impl Checked {
    // The message, where it is well formed.
    pub(crate) fn of(message: Message) -> Option<Checked>
        ensures well_formed { message_ok today message ≡ is_some result }
        ensures same { IfSome result (λ checked. checked.message ≡ message) }
    {
        if messages::well_formed(message) {
            Some(Checked { message })
        } else {
            None
        }
    }
}

// What a step tells beside the unit: the message to send, and a mileage decided, or blank, which a delivery reports where nothing is decided.
#[derive(Clone, Copy, PartialEq, Eq)]
pub(crate) struct Said {
    pub(crate) message: Message,
    pub(crate) decision: Estimate,
}

// Nothing is sent, nothing decided.
pub(crate) const NOTHING: Said = Said {
    message: EMPTY,
    decision: Estimate::Blank,
};

// The state at the beginning of a round.
fn clean(round: Round, proposal: Estimate) -> State
    ensures { result ≡ clean round proposal }
{
    State {
        round,
        proposal,
        first: Estimate::Blank,
        second: Estimate::Blank,
    }
}

// The first where it is not blank, else the second.
fn or_if_blank(a: Estimate, b: Estimate) -> Estimate
    ensures { result ≡ or_if_blank a b }
{
    if estimates::is_blank(a) { b } else { a }
}

// A first estimate goes out as CHECK in B and as SECOND in R.
fn vote_kind(engine: Engine) -> Kind
    ensures { result ≡ vote_kind engine }
{
    match engine {
        Engine::B => Kind::Check,
        Engine::R => Kind::Second,
    }
}

fn vote_proposal(engine: Engine, e: Estimate, own: Estimate) -> Estimate
    ensures { result ≡ vote_proposal engine e own }
{
    match engine {
        Engine::B => e,
        Engine::R => own,
    }
}

// A mileage that all hold is decided.
fn decided(e: Estimate) -> Estimate
    ensures { result ≡ decided e }
{
    match e {
        Estimate::Mileage(_) => e,
        _ => Estimate::Blank,
    }
}

// The proposal of the next round, of the SECONDs gathered.
#[tactic(auto, unfolding(crate::specs::Step::next_proposal))]
fn next_proposal(s: Settings, t: &Tally, own: Estimate) -> Estimate
    ensures { result ≡ next_proposal s.engine s.n t.now own }
{
    match s.engine {
        Engine::B => or_if_blank(t.lowest(), own),
        Engine::R => t.majority(tally::majority_size(s.n)),
    }
}

// Is the quorum there?
pub(crate) fn is_full(s: Settings, t: &Tally) -> bool
    ensures { result ≡ leb (quorum_of s.engine s.n) (ones t.now.marks) }
{
    tally::quorum(s.engine, s.n) <= t.count()
}

// A tally with a message's sender marked, and its estimate.
pub(crate) fn marked(t: &Tally, m: Checked) -> Tally
    ensures { result ≡ mark t.now m.message.sender m.message.estimate }
{
    t.mark(m.message.sender, m.message.estimate)
}

impl Unit {
    // ---- answers: a step changes the unit where it stands, and its answer is given once
    fn gives(self, said: Said) -> Answer
        ensures { result ≡ gives self said.message said.decision }
    {
        Answer {
            refusal: None,
            unit: self,
            message: said.message,
            decision: said.decision,
        }
    }

    // Nothing is sent, nothing decided.
    pub(crate) fn quiet(self) -> Answer
        ensures { result ≡ quiet self }
    {
        self.gives(NOTHING)
    }

    // A message of this unit, with its round.
    #[tactic(auto, unfolding(crate::specs::Step::says))]
    fn says(&self, kind: Kind, receiver: u8, estimate: Estimate, proposal: Estimate) -> Message
        ensures { result ≡ says self.now kind receiver estimate proposal }
    {
        Message {
            kind,
            engine: self.settings.engine,
            n: self.settings.n,
            sender: self.settings.unit,
            receiver,
            entry: self.settings.entry,
            round: self.current.round,
            estimate,
            proposal,
        }
    }

    fn sends(&self, kind: Kind, receiver: u8, estimate: Estimate, proposal: Estimate) -> Said
        ensures { gives self.now result.message result.decision ≡ sends self.now kind receiver estimate proposal }
    {
        Said {
            message: self.says(kind, receiver, estimate, proposal),
            decision: Estimate::Blank,
        }
    }

    // ---- the unit with one thing replaced
    // A log write stores the whole record.
    #[tactic(auto, unfolding(crate::specs::Step::log_write))]
    fn log_write(&mut self, state: State)
        ensures { self.new ≡ log_write self.old state }
    {
        self.logged = state;
        self.current = state;
    }

    // The unit takes a round and a proposal, and blanks both estimates and all marks.
    #[tactic(auto, unfolding(crate::specs::Step::at_round))]
    fn at_round(&mut self, round: Round, proposal: Estimate)
        ensures { self.new ≡ at_round self.old round proposal }
    {
        self.current = clean(round, proposal);
        self.checks = Tally::empty();
        self.seconds = Tally::empty();
    }

    // ---- starting, and key-on
    // A fresh unit has round 0 and all blank.
    #[tactic(auto, unfolding(crate::specs::Step::fresh))]
    pub fn fresh(settings: Settings) -> Unit
        ensures { result ≡ fresh settings }
    {
        Unit::at_log(Power::Up, settings, clean(0, Estimate::Blank))
    }

    // The image of the log, without marks.
    #[tactic(auto, unfolding(crate::specs::Step::recovered))]
    pub(crate) fn recovered(self) -> Unit
        ensures { result ≡ recovered self }
    {
        Unit::at_log(Power::Up, self.settings, self.logged)
    }

    // ---- to propose
    // FIRST goes out with round and proposal.
    #[tactic(auto, unfolding(crate::specs::Step::send_first))]
    fn send_first(&mut self, p: Estimate) -> Said
        ensures { gives self.new result.message result.decision ≡ send_first self.old p }
    {
        self.current.proposal = p;
        self.sends(Kind::First, limits::EVERYONE, p, p)
    }

    // If the proposal is blank it becomes the mileage given.
    #[tactic(auto, unfolding(crate::specs::Step::proposed))]
    pub(crate) fn proposed(mut self, mileage: u32) -> Answer
        ensures { result ≡ proposed self mileage }
    {
        let proposal = or_if_blank(self.current.proposal, Estimate::Mileage(mileage));
        let said = self.send_first(proposal);
        self.gives(said)
    }

    // ---- FIRST
    // The vote of the first estimate goes out: B sends CHECK, R sends SECOND with the proposal that the unit now holds.
    #[tactic(auto, unfolding(crate::specs::Step::vote_first))]
    fn vote_first(&self) -> Said
        ensures { gives self.now result.message result.decision ≡ vote_first self.now }
    {
        let engine = self.settings.engine;
        let e = self.current.first;
        self.sends(
            vote_kind(engine),
            limits::EVERYONE,
            e,
            vote_proposal(engine, e, self.current.proposal),
        )
    }

    // The first estimate becomes the proposal received; log; the vote goes out.
    #[tactic(auto, unfolding(crate::specs::Step::take_first))]
    fn take_first(&mut self, e: Estimate) -> Said
        ensures { gives self.new result.message result.decision ≡ take_first self.old e }
    {
        self.log_write(State {
            first: e,
            ..self.current
        });
        self.vote_first()
    }

    // Where a first estimate is there its vote goes out again.
    #[tactic(auto, unfolding(crate::specs::Step::on_first))]
    fn on_first(&mut self, m: Message) -> Said
        ensures { gives self.new result.message result.decision ≡ on_first self.old m }
    {
        if estimates::is_blank(self.current.first) {
            self.take_first(m.proposal)
        } else {
            self.vote_first()
        }
    }

    // ---- CHECK
    // The vote of the second estimate goes out: SECOND, with the proposal that the unit now holds.
    #[tactic(auto, unfolding(crate::specs::Step::vote_second))]
    fn vote_second(&self) -> Said
        ensures { gives self.now result.message result.decision ≡ vote_second self.now }
    {
        self.sends(
            Kind::Second,
            limits::EVERYONE,
            self.current.second,
            self.current.proposal,
        )
    }

    // The second estimate is set; log; CHECK marks are cleared; the vote goes out.
    #[tactic(auto, unfolding(crate::specs::Step::take_second))]
    fn take_second(&mut self, e: Estimate) -> Said
        ensures { gives self.new result.message result.decision ≡ take_second self.old e }
    {
        self.log_write(State {
            second: e,
            ..self.current
        });
        self.checks = Tally::empty();
        self.vote_second()
    }

    #[tactic(auto, unfolding(crate::specs::Step::count_check, crate::specs::Step::is_full))]
    fn count_check(&mut self, t: &Tally) -> Said
        ensures { gives self.new result.message result.decision ≡ count_check self.old t.now }
    {
        if is_full(self.settings, t) {
            return self.take_second(t.common());
        }
        self.checks = *t;
        NOTHING
    }

    #[tactic(auto, unfolding(crate::specs::Step::mark_check, crate::specs::Step::checks_with))]
    fn mark_check(&mut self, m: Checked) -> Said
        ensures { gives self.new result.message result.decision ≡ mark_check self.old m.message }
    {
        if tally::is_marked(self.checks.marks, m.message.sender) {
            return NOTHING;
        }
        let t = marked(&self.checks, m);
        self.count_check(&t)
    }

    // Where a second estimate is there its vote goes out again.
    #[tactic(auto, unfolding(crate::specs::Step::on_check))]
    fn on_check(&mut self, m: Checked) -> Said
        ensures { gives self.new result.message result.decision ≡ on_check self.old m.message }
    {
        if estimates::is_blank(self.current.second) {
            self.mark_check(m)
        } else {
            self.vote_second()
        }
    }

    // ---- SECOND
    // A mileage that all gathered hold is decided; the round rises by 1, estimates and marks are blanked. That its round is no higher than the last is asked:
    // of a unit this is known once it has caught up, and no sooner, so it is no field of a type.
    #[tactic(auto, unfolding(crate::specs::Step::close))]
    fn close(&mut self, t: &Tally) -> Said
        requires { self.old.current.round ≤ today.last_round }
        ensures { gives self.new result.message result.decision ≡ close self.old t.now }
    {
        let own = self.current.proposal;
        self.at_round(self.current.round + 1, next_proposal(self.settings, t, own));
        Said {
            message: EMPTY,
            decision: decided(t.common()),
        }
    }

    #[tactic(auto, unfolding(crate::specs::Step::count_second, crate::specs::Step::is_full))]
    fn count_second(&mut self, t: &Tally) -> Said
        requires { self.old.current.round ≤ today.last_round }
        ensures { gives self.new result.message result.decision ≡ count_second self.old t.now }
    {
        if is_full(self.settings, t) {
            return self.close(t);
        }
        self.seconds = *t;
        NOTHING
    }

    #[tactic(auto, unfolding(crate::specs::Step::on_second, crate::specs::Step::seconds_with))]
    fn on_second(&mut self, m: Checked) -> Said
        requires { self.old.current.round ≤ today.last_round }
        ensures { gives self.new result.message result.decision ≡ on_second self.old m.message }
    {
        if tally::is_marked(self.seconds.marks, m.message.sender) {
            return NOTHING;
        }
        let t = marked(&self.seconds, m);
        self.count_second(&t)
    }

    // ---- any message: one match of the kinds, as the definition has it
    #[tactic(auto, unfolding(crate::specs::Step::on_kind))]
    fn on_kind(&mut self, m: Checked) -> Said
        requires { self.old.current.round ≤ today.last_round }
        ensures { gives self.new result.message result.decision ≡ on_kind m.message.kind self.old m.message }
    {
        match m.message.kind {
            Kind::Empty => NOTHING,
            Kind::First => self.on_first(m.message),
            Kind::Check => self.on_check(m),
            Kind::Second => self.on_second(m),
            Kind::Skip => NOTHING,
        }
    }

    // SKIP goes to the sender of a message below the unit's round.
    #[tactic(auto, unfolding(crate::specs::Step::skip))]
    fn skip(&self, receiver: u8) -> Said
        ensures { gives self.now result.message result.decision ≡ skip self.now receiver }
    {
        self.sends(Kind::Skip, receiver, Estimate::Blank, self.current.proposal)
    }

    // A message above the unit's round raises it.
    #[tactic(auto, unfolding(crate::specs::Step::caught_up))]
    fn caught_up(&mut self, m: Message)
        ensures { self.new ≡ caught_up self.old m }
    {
        if self.current.round < m.round {
            self.at_round(m.round, m.proposal);
        }
    }

    #[tactic(auto, unfolding(crate::specs::Step::received))]
    pub(crate) fn received(&mut self, m: Checked) -> Said
        ensures { gives self.new result.message result.decision ≡ received self.old m.message }
    {
        if m.message.round < self.current.round {
            return self.skip(m.message.sender);
        }
        self.caught_up(m.message);
        self.on_kind(m)
    }
}
