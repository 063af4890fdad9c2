//! Keys that are numbers from 1 to 999,999,999.
ghost use Rattle.std.specs.Prelude.{◌≡◌, ◌≤◌, is_ok, decimal, MatchResult, ◌==◌};
ghost use Rattle.keys.specs.Forms.{is_number};
ghost use Rattle.keys.specs.Keys.{ReadAs};
ghost use Rattle.keys.specs.declared.kinds.KeyRefusal.TheVariants.{Malformed};
ghost use Rattle.std.proofs.Common.{rules};

use crate::digits::{natural, written};
use crate::kinds::{Key, KeyRefusal, Spelled};
use crate::spelling::Spelling;

/// The greatest number that is a key.
const LAST: u64 = 999_999_999;

/// A number that stands for a net.
#[derive(Clone, Copy, PartialEq, Eq, Debug)]
pub struct NumberKey {
    value: u32,
    ghost low: { 1 ≤ value },
    ghost high: { value ≤ 999999999 },
}

impl TryFrom<u64> for NumberKey {
    type Error = KeyRefusal;

    ghost try_from_gives = { λ n r. MatchResult r (λ k. k.value ≡ n) (λ e. (e ≡ Malformed) × (1 ≤ n → n ≤ 999999999 → ⊥)) };

    /// The key of a number from 1 to 999,999,999.
    fn try_from(n: u64) -> Result<NumberKey, KeyRefusal> {
        if !(1..=LAST).contains(&n) {
            return Err(KeyRefusal::Malformed);
        }
        // `as` is proved to lose nothing; `try_from` would test the limit again
        Ok(NumberKey { value: n as u32 })
    }
}

impl Key for NumberKey {
    ghost same = { λ a b. a.value == b.value };

    ghost home = { λ a. a.value };

    ghost reflexive = { Prim.search rules };

    ghost symmetric = { Prim.search rules };

    ghost transitive = { Prim.search rules };

    ghost homes = { Prim.search rules };

    fn is_same(&self, other: &NumberKey) -> bool {
        self == other
    }

    fn home(&self) -> u64 {
        u64::from(self.value)
    }
}

impl Spelled for NumberKey {
    ghost use Rattle.keys.specs.Laws.{number_word, same_number};

    ghost spelled = { λ k. decimal k.value };

    ghost word = { number_word };

    ghost apart = { same_number };

    #[tactic(auto, using(crate::proofs::Spelt::number_told, crate::proofs::Spelt::number_read))]
    fn read(word: &[u8]) -> Result<NumberKey, KeyRefusal>
        ensures key { ReadAs (λ k. decimal k.value) word.now result }
        ensures form { is_ok result ≡ is_number word.now }
    {
        let n = natural(word).ok_or(KeyRefusal::Malformed)?;
        NumberKey::try_from(n)
    }

    fn spelling(&self) -> Spelling {
        written(self.value.into())
    }
}
