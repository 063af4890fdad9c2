//! Numbers in decimal digits, without a leading 0.
ghost use Rattle.std.specs.Prelude.{◌≡◌, ℕ, ◌^◌, ◌<◌, ◌≤◌, length, decimal, MatchOption, ◌≢◌};

use crate::spelling::Spelling;
use itoa::Buffer;

/// The most digits that are read.
const DIGITS: usize = 19;

/// The number that a word writes, if it has at most 19 digits.
#[tactic(auto, using(crate::proofs::Numbers::reading))]
pub fn natural(word: &[u8]) -> Option<u64>
    ensures { MatchOption result ((n : ℕ) → n < 10 ^ 19 → decimal n ≢ word.now) (λ n. (n < 10 ^ 19) × (decimal n ≡ word.now)) }
{
    if word.is_empty() || word.len() > DIGITS {
        return None;
    }
    if word[0] == b'0' && word.len() > 1 {
        return None;
    }
    // no `parse`: it wants a `&str`, and takes a plus and leading zeros, which are refused here
    let mut n = 0;
    for b in word {
        if !b.is_ascii_digit() {
            return None;
        }
        n = n * 10 + u64::from(b - b'0');
    }
    Some(n)
}

/// A number below 10 ^ 12, in decimal digits.
pub(crate) fn written(n: u64) -> Spelling
    requires { n < 10 ^ 12 }
    ensures word { result ≡ decimal n }
    ensures short { length result ≤ 12 }
{
    let mut buffer = Buffer::new();
    Spelling::copied(buffer.format(n).as_bytes())
}
