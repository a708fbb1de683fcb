// Tests of engines and of single estimates.
ghost use Rattle.std.specs.Prelude.{◌≡◌};
ghost use Rattle.tally.specs.Limits.{today};
ghost use Rattle.contents.specs.Estimates.{in_range, is_b, is_blank, is_split, is_mileage, mileage_or_blank, mileage_or_split};
ghost use Rattle.contents.specs.Estimates.{second_estimate_ok, same_mileage};

use tally::{Engine, Estimate, limits};

pub fn is_b(e: Engine) -> bool
    ensures { result ≡ is_b e }
{
    e == Engine::B
}

pub fn in_range(m: u32) -> bool
    ensures { result ≡ in_range today m }
{
    m <= limits::MAX_MILEAGE
}

pub fn is_blank(e: Estimate) -> bool
    ensures { result ≡ is_blank e }
{
    e == Estimate::Blank
}

pub fn is_split(e: Estimate) -> bool
    ensures { result ≡ is_split e }
{
    e == Estimate::Split
}

pub fn is_mileage(e: Estimate) -> bool
    ensures { result ≡ is_mileage today e }
{
    matches!(e, Estimate::Mileage(m) if in_range(m))
}

#[tactic(auto, unfolding(contents::specs::Estimates::mileage_or_blank))]
pub fn mileage_or_blank(e: Estimate) -> bool
    ensures { result ≡ mileage_or_blank today e }
{
    is_mileage(e) | is_blank(e)
}

// A mileage or, in B, split.
#[tactic(auto, unfolding(contents::specs::Estimates::mileage_or_split))]
pub fn mileage_or_split(engine: Engine, e: Estimate) -> bool
    ensures { result ≡ mileage_or_split today engine e }
{
    is_mileage(e) | (is_b(engine) & is_split(e))
}

// What a log's second estimate can be.
#[tactic(auto, unfolding(contents::specs::Estimates::second_estimate_ok))]
pub fn second_estimate_ok(engine: Engine, e: Estimate) -> bool
    ensures { result ≡ second_estimate_ok today engine e }
{
    is_blank(e) | (is_b(engine) & (is_mileage(e) | is_split(e)))
}

// The same mileage twice.
#[tactic(auto, unfolding(contents::specs::Estimates::same_mileage))]
pub fn same_mileage(a: Estimate, b: Estimate) -> bool
    ensures { result ≡ same_mileage today a b }
{
    is_mileage(a) & (a == b)
}
