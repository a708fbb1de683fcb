// The unit, and what a step answers. The step is in `step`, the methods in `methods`; both are equal to their definitions in specs/.
#![tactic(auto)]

pub mod methods;
pub mod step;

ghost use Rattle.std.specs.Prelude.{◌≡◌};
ghost use Rattle.consensus.specs.Units.{unit_log, at_log, down_unit, up_unit};

use contents::{Log, Message, Settings, State};
use tally::{Estimate, Refusal, Tally};

// A unit is down, or up with estimates.
#[derive(Clone, Copy, PartialEq, Eq)]
pub enum Power {
    Down,
    Up,
}

// A unit: what its log holds, and its current contents, which are lost at key-off. A down unit has its log's contents as the
// current ones and no marks, so that nothing of a lost image is left to read.
#[derive(Clone, Copy, PartialEq, Eq)]
pub struct Unit {
    pub power: Power,
    pub settings: Settings,
    pub logged: State,
    pub current: State,
    pub checks: Tally,
    pub seconds: Tally,
}

// What a step answers: why it is refused, if it is, the unit after it, the message to send (kind Empty for none), and a mileage decided or blank.
// A refused method hands the unit back too, so the refusal stands beside it.
#[derive(Clone, Copy, PartialEq, Eq)]
pub struct Answer {
    pub refusal: Option<Refusal>,
    pub unit: Unit,
    pub message: Message,
    pub decision: Estimate,
}

impl Unit {
    pub fn log(self) -> Log
        ensures { result ≡ unit_log self }
    {
        Log {
            settings: self.settings,
            state: self.logged,
        }
    }

    // The up unit of a log and of what an image that fits it holds, by its parts, as they are read: nothing reads an image whole.
    pub fn up(log: Log, current: State, checks: Tally, seconds: Tally) -> Unit
        ensures { result ≡ up_unit log (record { settings = log.settings; state = current; checks = checks; seconds = seconds }) }
    {
        Unit {
            power: Power::Up,
            settings: log.settings,
            logged: log.state,
            current,
            checks,
            seconds,
        }
    }

    // A unit at its log's contents, without marks.
    #[tactic(auto, unfolding(crate::specs::Units::at_log))]
    pub(crate) fn at_log(power: Power, settings: Settings, logged: State) -> Unit
        ensures { result ≡ at_log power settings logged }
    {
        Unit {
            power,
            settings,
            logged,
            current: logged,
            checks: Tally::empty(),
            seconds: Tally::empty(),
        }
    }

    // The down unit of a log.
    #[tactic(auto, unfolding(crate::specs::Units::down_unit))]
    pub(crate) fn down(log: Log) -> Unit
        ensures { result ≡ down_unit log }
    {
        Unit::at_log(Power::Down, log.settings, log.state)
    }
}
