// The methods of a unit: what is refused first, and else the step. The public ones hand back the unit after it.
ghost use Rattle.std.specs.Prelude.{◌≡◌};
ghost use Rattle.tally.specs.Limits.{today};
ghost use Rattle.consensus.specs.Methods.{is_up, for_other, out_of_range, is_second, closes_last, refuses, propose, deliver, key_off, key_on};
ghost use Rattle.consensus.specs.InnerMethods.{taken, deliver_read};

use super::step::{Checked, NOTHING, Said};
use super::{Answer, Power, Unit, step};
use contents::{Kind, Message, Settings};
use rules::estimates;
use tally::{Estimate, Refusal, limits};

pub fn is_up(power: Power) -> bool
    ensures { result ≡ is_up power }
{
    power == Power::Up
}

// Another engine, n, entry or receiver?
#[tactic(auto, unfolding(crate::specs::Methods::for_other))]
fn for_other(s: Settings, m: Message) -> bool
    ensures { result ≡ for_other s m }
{
    !((s.engine == m.engine)
        & (s.n == m.n)
        & (s.entry == m.entry)
        & ((m.receiver == limits::EVERYONE) | (m.receiver == s.unit)))
}

#[tactic(auto, unfolding(crate::specs::Methods::out_of_range))]
fn out_of_range(mileage: u32) -> bool
    ensures { result ≡ out_of_range today mileage }
{
    !estimates::in_range(mileage)
}

fn is_second(kind: Kind) -> bool
    ensures { result ≡ is_second kind }
{
    kind == Kind::Second
}

impl Unit {
    // Would this SECOND close the last round?
    #[tactic(auto, unfolding(crate::specs::Methods::closes_last, crate::specs::Step::is_full, crate::specs::Step::seconds_with))]
    fn closes_last(&self, m: Checked) -> bool
        ensures { result ≡ closes_last today self.now m.message }
    {
        if is_second(m.message.kind)
            & (m.message.round == limits::LAST_ROUND)
            & (self.current.round == limits::LAST_ROUND)
        {
            !tally::is_marked(self.seconds.marks, m.message.sender)
                & step::is_full(self.settings, &step::marked(&self.seconds, m))
        } else {
            false
        }
    }

    // A refusal changes nothing, sends nothing and decides nothing. It takes an Option: a narrower type would ask more of callers.
    pub fn refused(self, refusal: Option<Refusal>) -> Answer
        ensures { result ≡ refuses self refusal }
    {
        Answer {
            refusal,
            unit: self,
            message: step::EMPTY,
            decision: Estimate::Blank,
        }
    }

    // A delivery of a well-formed message that is for this unit, which is up: 7 is the one refusal left.
    #[tactic(auto, unfolding(crate::specs::InnerMethods::deliver_read, crate::specs::Methods::unless, crate::specs::Conditions::first_refusal))]
    #[inline(always)]
    fn deliver_read(&mut self, m: Checked) -> Result<Said, Refusal>
        ensures { taken self.new result ≡ deliver_read today self.old m.message }
    {
        if self.closes_last(m) {
            return Err(Refusal::LastRound);
        }
        Ok(self.received(m))
    }

    // A delivery, in place.
    #[inline(always)]
    fn take(&mut self, m: Message) -> Result<Said, Refusal>
        ensures { taken self.new result ≡ deliver today self.old m }
    {
        let checked = Checked::of(m).ok_or(Refusal::Message)?;
        if !is_up(self.power) {
            return Err(Refusal::Power);
        }
        if for_other(self.settings, m) {
            return Err(Refusal::Addressee);
        }
        self.deliver_read(checked)
    }

    // Proposes a mileage.
    pub fn propose(self, mileage: u32) -> Answer
        ensures { result ≡ propose today self mileage }
    {
        if !is_up(self.power) {
            return self.refused(Some(Refusal::Power));
        }
        if out_of_range(mileage) {
            return self.refused(Some(Refusal::Mileage));
        }
        self.proposed(mileage)
    }

    // Takes a message. The answer is made once: in two branches the unit is copied once more.
    #[inline(always)]
    pub fn deliver(mut self, m: Message) -> Answer
        ensures { result ≡ deliver today self m }
    {
        let (refusal, said) = match self.take(m) {
            Ok(said) => (None, said),
            Err(why) => (Some(why), NOTHING),
        };
        Answer {
            refusal,
            unit: self,
            message: said.message,
            decision: said.decision,
        }
    }

    // The unit goes down, and its image is lost.
    #[tactic(auto, unfolding(crate::specs::Methods::key_off, crate::specs::Methods::unless, crate::specs::Conditions::first_refusal))]
    pub fn key_off(self) -> Answer
        ensures { result ≡ key_off self }
    {
        if is_up(self.power) {
            Unit::down(self.log()).quiet()
        } else {
            self.refused(Some(Refusal::Power))
        }
    }

    // The unit comes up at its log.
    #[tactic(auto, unfolding(crate::specs::Methods::key_on, crate::specs::Methods::unless, crate::specs::Conditions::first_refusal))]
    pub fn key_on(self) -> Answer
        ensures { result ≡ key_on self }
    {
        if is_up(self.power) {
            self.refused(Some(Refusal::Power))
        } else {
            self.recovered().quiet()
        }
    }
}
