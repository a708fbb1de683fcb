// Well-formed messages: each kind has its rule.
ghost use Rattle.std.specs.Prelude.{◌≡◌};
ghost use Rattle.tally.specs.Limits.{today};
ghost use Rattle.contents.specs.Messages.{is_empty, first_ok, check_ok, second_ok, skip_ok, kind_ok, message_ok};

use super::{estimates, logs};
use contents::{Kind, Message};
use tally::limits;

// An empty message counts as no message.
pub fn is_empty(kind: Kind) -> bool
    ensures { result ≡ is_empty kind }
{
    kind == Kind::Empty
}

#[tactic(auto, unfolding(contents::specs::Messages::first_ok))]
pub fn first_ok(m: Message) -> bool
    ensures { result ≡ first_ok today m }
{
    (m.receiver == limits::EVERYONE) & estimates::same_mileage(m.estimate, m.proposal)
}

#[tactic(auto, unfolding(contents::specs::Messages::check_ok))]
pub fn check_ok(m: Message) -> bool
    ensures { result ≡ check_ok today m }
{
    estimates::is_b(m.engine) & first_ok(m)
}

#[tactic(auto, unfolding(contents::specs::Messages::second_ok))]
pub fn second_ok(m: Message) -> bool
    ensures { result ≡ second_ok today m }
{
    (m.receiver == limits::EVERYONE)
        & estimates::mileage_or_split(m.engine, m.estimate)
        & estimates::mileage_or_blank(m.proposal)
}

#[tactic(auto, unfolding(contents::specs::Messages::skip_ok))]
pub fn skip_ok(m: Message) -> bool
    ensures { result ≡ skip_ok today m }
{
    (m.receiver < m.n) & estimates::is_blank(m.estimate) & estimates::mileage_or_blank(m.proposal)
}

#[tactic(auto, unfolding(contents::specs::Messages::kind_ok))]
pub fn kind_ok(kind: Kind, m: Message) -> bool
    ensures { result ≡ kind_ok today kind m }
{
    match kind {
        Kind::Empty => false,
        Kind::First => first_ok(m),
        Kind::Check => check_ok(m),
        Kind::Second => second_ok(m),
        Kind::Skip => skip_ok(m),
    }
}

#[tactic(auto, unfolding(contents::specs::Messages::message_ok))]
pub fn well_formed(m: Message) -> bool
    ensures { result ≡ message_ok today m }
{
    logs::numbers_ok(m.n, m.sender, m.entry) & logs::round_ok(m.round) & kind_ok(m.kind, m)
}
