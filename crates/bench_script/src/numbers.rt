// The numbers of a script.
ghost use Rattle.std.specs.Prelude.{◌≡◌};
ghost use Rattle.script.specs.Numbers.{all_digits, leading_zero, read_number};
ghost use Rattle.script.specs.Parts.{comma, parted};
ghost use Rattle.script.specs.Script.{one_of, two_of};

use super::parts;

pub const MAX_DIGITS: usize = 10;

fn all_digits(s: &[u8]) -> bool
    ensures { result ≡ all_digits s.now }
{
    s.iter().all(u8::is_ascii_digit)
}

// 0 by itself is fine.
fn leading_zero(s: &[u8]) -> bool
    ensures { result ≡ leading_zero s.now }
{
    matches!(s, [b'0', _, ..])
}

// A number of a script: 1 to 10 digits, no leading zero, at most 4,294,967,295.
#[tactic(auto, unfolding(script::specs::Numbers::is_number, script::specs::Numbers::read_number))]
pub fn read_number(s: &[u8]) -> Option<u32>
    ensures { result ≡ read_number s.now }
{
    if s.is_empty() || MAX_DIGITS < s.len() || !all_digits(s) || leading_zero(s) {
        return None;
    }
    str::from_utf8(s).ok()?.parse().ok()
}

// One field that is a number: a comma is no digit.
#[tactic(auto, using(script::proofs::Fields::one_number))]
pub fn one(s: &[u8]) -> Option<u32>
    ensures { result ≡ one_of (parted comma s.now) }
{
    read_number(s)
}

// Two fields that are numbers.
#[tactic(auto, using(script::proofs::Fields::two_numbers))]
pub fn two(s: &[u8]) -> Option<(u32, u32)>
    ensures { result ≡ two_of (parted comma s.now) }
{
    let (first, second) = parts::split_once(s, parts::COMMA)?;
    Some((read_number(first)?, read_number(second)?))
}
