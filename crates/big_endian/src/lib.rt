// Numbers in bytes, the highest byte first.
#![tactic(auto, unfolding(formats::specs::Numbers::num_at, formats::specs::Numbers::bytes_of))]

ghost use Rattle.std.specs.Prelude.{◌≡◌, ℕ, ◌+◌, ◌≤◌, [], ◌∷◌, length};
ghost use Rattle.std.proofs.lemmas.List.Edits.{sets};
ghost use Rattle.tally.specs.Limits.{today};
ghost use Rattle.formats.specs.Numbers.{num_at, bytes_of};
ghost use Rattle.formats.specs.InnerNumbers.{pack_into};

use tally::limits::Round;

// A number that stands in bytes. The place goes beside the bytes, and no subslice in their stead: the formats speak of places in the whole.
pub trait BigEndian: Copy {
    // How many bytes it takes.
    ghost width: { ℕ };

    // Which number it is.
    ghost number: { Self → ℕ };

    fn get(s: &[u8], at: usize) -> Self
        requires { at + width ≤ length s.now }
        ensures { number result ≡ num_at s.now at width };

    fn put(self, s: &mut [u8], at: usize)
        requires { at + width ≤ length s.old }
        ensures { s.new ≡ sets s.old at (bytes_of width (number self)) };
}

impl BigEndian for u8 {
    ghost width = { 1 };

    ghost number = { λ x. x };

    fn get(s: &[u8], at: usize) -> u8 {
        s[at]
    }

    fn put(self, s: &mut [u8], at: usize) {
        s[at] = self;
    }
}

impl BigEndian for u16 {
    ghost width = { 2 };

    ghost number = { λ x. x };

    fn get(s: &[u8], at: usize) -> u16 {
        u16::from_be_bytes([s[at], s[at + 1]])
    }

    fn put(self, s: &mut [u8], at: usize) {
        s[at..at + 2].copy_from_slice(&self.to_be_bytes());
    }
}

impl BigEndian for u32 {
    ghost width = { 4 };

    ghost number = { λ x. x };

    fn get(s: &[u8], at: usize) -> u32 {
        u32::from_be_bytes([s[at], s[at + 1], s[at + 2], s[at + 3]])
    }

    #[tactic(auto, using(crate::proofs::Stored::stored_four))]
    fn put(self, s: &mut [u8], at: usize) {
        s[at..at + 4].copy_from_slice(&self.to_be_bytes());
    }
}

// Four bytes, one after the other; the places add up as the widths do.
pub fn put_four(out: &mut [u8], at: usize, a: u8, b: u8, c: u8, d: u8)
    requires { at + 4 ≤ length out.old }
    ensures { out.new ≡ pack_into out.old at (1 ∷ 1 ∷ 1 ∷ 1 ∷ []) (a ∷ b ∷ c ∷ d ∷ []) }
{
    a.put(out, at);
    b.put(out, at + 1);
    c.put(out, at + 1 + 1);
    d.put(out, at + 1 + 1 + 1);
}

// An entry and a round.
pub fn put_entry_round(out: &mut [u8], at: usize, entry: u16, round: Round)
    requires { at + 2 + today.round_width ≤ length out.old }
    ensures { out.new ≡ pack_into out.old at (2 ∷ today.round_width ∷ []) (entry ∷ round ∷ []) }
{
    entry.put(out, at);
    round.put(out, at + 2);
}
