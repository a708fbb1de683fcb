// A call on a card: which row, the step of that row, and the one function that copies a row out and stores it back.
#![tactic(auto)]

pub mod buffers;

ghost use Rattle.std.specs.Prelude.{◌≡◌, ◌<◌, ◌+◌, true, IfOk, IfErr, Some, None, Ok};
ghost use Rattle.std.specs.Result.{result_err};
ghost use Rattle.tally.specs.Limits.{today};
ghost use Rattle.contents.specs.Logs.{log_ok};
ghost use Rattle.cards.specs.Calls.{wrong_count, names_no_row};
ghost use Rattle.cards.specs.InnerSteps.{settings_read, own_log, tells, row_answer, row_stored, takes, with_log, act_of, step_of, front, card_told, card_rows};

use cards::{Act, CardCall, CardRow, Told, UnitStep};
use consensus::{Answer, Unit, step};
use contents::{Log, Settings};
use tally::{Estimate, Refusal, limits};

// ---- which row
#[tactic(auto, unfolding(cards::specs::Calls::wrong_count))]
fn wrong_count(count: usize) -> bool
    ensures { result ≡ wrong_count count }
{
    !(limits::MIN_ROWS..=limits::MAX_ROWS).contains(&count)
}

// By `as`: std has no From of a u32 for usize.
fn wide(x: u32) -> usize
    ensures { result ≡ x }
{
    x as usize
}

#[tactic(auto, unfolding(cards::specs::Calls::names_no_row))]
fn names_no_row(count: usize, k: u32) -> bool
    ensures { result ≡ names_no_row count k }
{
    !(1..=count).contains(&wide(k))
}

// What is asked, and where its row stands, or why it has none. The number of rows is enough: on_row alone has the rows.
#[tactic(auto, unfolding(cards::specs::InnerSteps::front, cards::specs::InnerSteps::front_conditions, consensus::specs::Conditions::first_refusal))]
fn place(asked: Result<CardCall, Refusal>, count: usize) -> Result<(CardCall, usize), Refusal>
    ensures row { IfOk result (λ p. (asked ≡ Ok p.0) × (front asked count ≡ None) × (p.1 + 1 ≡ p.0.row) × (p.1 < count)) }
    ensures none { IfErr result (λ why. front asked count ≡ Some why) }
{
    if wrong_count(count) {
        return Err(Refusal::Length);
    }
    let c = asked?;
    if names_no_row(count, c.row) {
        return Err(Refusal::Row);
    }
    Ok((c, wide(c.row) - 1))
}

fn tells(refusal: Option<Refusal>) -> Told
    ensures { result ≡ tells refusal }
{
    Told {
        refusal,
        message: step::EMPTY,
        decision: Estimate::Blank,
    }
}

// ---- the step of a row: functions of the call and its row, and no methods, since both types are of crate cards, which has no code
// The settings beside the card, with the row's number as the entry.
fn settings_read(c: &CardCall) -> Option<Settings>
    ensures { result ≡ settings_read c.now }
{
    numbers::settings_from(c.engine, c.n, c.unit, c.row)
}

// The log of a row, of these settings.
#[tactic(auto, unfolding(cards::specs::Calls::bad_row_log, cards::specs::Rows::row_log, cards::specs::Calls::other_row))]
fn own_log(c: &CardCall, r: &CardRow) -> Result<Log, Refusal>
    ensures { result ≡ own_log today c.now r.now }
{
    let settings = settings_read(c).ok_or(Refusal::Log)?;
    let l = card_rows::read_log(&r.log)?;
    if rules::images::same_settings(l.settings, settings) {
        Ok(l)
    } else {
        Err(Refusal::Image)
    }
}

// An accepted answer is stored in the row.
#[inline(always)]
fn answered(row: &mut CardRow, a: &Answer) -> Told
    ensures { row_answer row.new result ≡ row_stored row.old a.now }
{
    if a.refusal.is_some() {
        return tells(a.refusal);
    }
    card_rows::put_unit(&a.unit, row);
    Told {
        refusal: None,
        message: a.message,
        decision: a.decision,
    }
}

#[tactic(auto, unfolding(cards::specs::InnerSteps::step_conditions, cards::specs::InnerSteps::unless_row, consensus::specs::Conditions::first_refusal))]
fn start(c: &CardCall, r: &mut CardRow) -> Result<(), Refusal>
    ensures { row_answer r.new (tells (result_err result)) ≡ act_of today Act.Start c.now r.old }
{
    let settings = settings_read(c).ok_or(Refusal::Log)?;
    *r = card_rows::unmarked(Unit::fresh(settings).log());
    Ok(())
}

#[tactic(auto, using(cards::proofs::Steps::key_on_step))]
fn key_on(c: &CardCall, r: &mut CardRow) -> Result<(), Refusal>
    ensures { row_answer r.new (tells (result_err result)) ≡ act_of today Act.KeyOn c.now r.old }
{
    let l = own_log(c, r)?;
    *r = card_rows::unmarked(l);
    Ok(())
}

// The unit's method. Inline, so that the unit is not copied once more.
#[tactic(auto, unfolding(cards::specs::InnerSteps::takes))]
#[inline(always)]
fn taken(u: Unit, s: UnitStep) -> Answer
    ensures { result ≡ takes today s u }
{
    match s {
        UnitStep::Propose(v) => u.propose(v),
        UnitStep::Deliver(m) => u.deliver(m),
    }
}

// A step of the unit that a well-formed log and a row's image make. What it stores is the unit's row since the log is well formed, so that is asked.
#[tactic(auto, using(cards::proofs::Steps::row_unfit, cards::proofs::Steps::row_fit))]
fn with_log(l: Log, r: &mut CardRow, s: UnitStep) -> Told
    requires { log_ok today l ≡ true }
    ensures { row_answer r.new result ≡ with_log today s l r.old }
{
    let Some(state) = card_rows::state_for(r, l) else {
        return tells(Some(Refusal::Image));
    };
    let u = Unit::up(
        l,
        state,
        card_rows::tally_of(&r.checks),
        card_rows::tally_of(&r.seconds),
    );
    answered(r, &taken(u, s))
}

// A step of the row's unit, whose own refusal stands in what is told. A match: with a Result and `?`, of this and `with_log` in one, a proposal used 2,112
// bytes of stack where the gate lets 2,048 pass.
#[tactic(auto, using(cards::proofs::Steps::unit_step, cards::proofs::Stored::own_log_ok))]
fn on_unit(c: &CardCall, r: &mut CardRow, s: UnitStep) -> Told
    ensures { row_answer r.new result ≡ act_of today (Act.Step s) c.now r.old }
{
    match own_log(c, r) {
        Ok(l) => with_log(l, r, s),
        Err(why) => tells(Some(why)),
    }
}

// The step on a row, which stays where it is refused.
#[tactic(auto, unfolding(cards::specs::InnerSteps::step_of))]
fn step_row(c: &CardCall, r: &mut CardRow) -> Told
    ensures { row_answer r.new result ≡ step_of today c.now r.old }
{
    match c.act {
        Act::Start => tells(start(c, r).err()),
        Act::KeyOn => tells(key_on(c, r).err()),
        Act::Step(s) => on_unit(c, r, s),
    }
}

// ---- on the card
// The row is copied out, the step taken, and the row stored back.
pub fn on_row(asked: Result<CardCall, Refusal>, rows: &mut [CardRow]) -> Told
    ensures { (result ≡ card_told today asked rows.old) × (rows.new ≡ card_rows today asked rows.old) }
{
    match place(asked, rows.len()) {
        Err(why) => tells(Some(why)),
        Ok((c, k)) => {
            let mut r = rows[k];
            let told = step_row(&c, &mut r);
            rows[k] = r;
            told
        }
    }
}
