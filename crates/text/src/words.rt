//! Words of a text: where they end, and which weight one writes.
ghost use Rattle.std.specs.Prelude.{◌≡◌, ℕ, ◌<◌, ◌∷◌, ◌++◌, decimal, MatchOption, ◌≢◌};
ghost use Rattle.std.specs.Fmt.{signed_decimal};
ghost use Rattle.keys.specs.Words.{Lacks};
ghost use Rattle.text.specs.Lines.{Short, NoWeight};

use keys::digits::natural;

/// The greatest size of a weight that is read.
const LARGEST: u64 = 9_999_999;

/// What stands before the first `byte`, and what stands after it.
pub(crate) fn cut<'t>(s: &'t [u8], byte: u8) -> Option<(&'t [u8], &'t [u8])>
    ensures { MatchOption result (Lacks byte s.now) (λ p. (s.now ≡ p.0.now ++ byte ∷ p.1.now) × Lacks byte p.0.now) }
{
    let n = s.iter().position(|x| *x == byte)?;
    Some((&s[..n], &s[n + 1..]))
}

/// The number of at most seven digits that a word writes.
fn size(word: &[u8]) -> Option<u32>
    ensures { MatchOption result ((n : ℕ) → n < 10000000 → decimal n ≢ word.now) (λ n. (n < 10000000) × (decimal n ≡ word.now)) }
{
    let n = natural(word)?;
    if n > LARGEST {
        return None;
    }
    // `as` is proved to lose nothing; `try_from` would test the limit again
    Some(n as u32)
}

/// The weight that a word writes.
pub(crate) fn weight(word: &[u8]) -> Option<i32>
    ensures { MatchOption result (NoWeight word.now) (λ z. Short z × (signed_decimal z ≡ word.now)) }
{
    // `as` is proved to lose nothing; `try_from` would test the limit again
    match word.strip_prefix(b"-") {
        Some(digits) => match size(digits)? {
            0 => None, // 0 has no sign
            n => Some(-(n as i32)),
        },
        None => Some(size(word)? as i32),
    }
}
