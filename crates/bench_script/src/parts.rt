// Bytes in parts.
ghost use Rattle.std.specs.Prelude.{◌≡◌, ◌+◌, ◌∷◌, [], length, MatchOption, IfSome};
ghost use Rattle.script.specs.Parts.{parted};

pub const NEWLINE: u8 = 10;

pub const COMMA: u8 = b',';

// What stands before and after the first stop, if there is one.
pub fn split_once(s: &[u8], stop: u8) -> Option<(&[u8], &[u8])>
    ensures parts { MatchOption result (parted stop s.now ≡ s.now ∷ []) (λ p. parted stop s.now ≡ p.0.now ∷ parted stop p.1.now) }
    ensures lengths { IfSome result (λ p. length p.0.now + 1 + length p.1.now ≡ length s.now) }
{
    let k = s.iter().position(|b| *b == stop)?;
    Some((&s[..k], &s[k + 1..]))
}
