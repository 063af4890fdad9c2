//! Keys that are names of 1 to 12 letters, digits or underscores, kept as first spelled.
ghost use Rattle.std.specs.Prelude.{◌≡◌, true, map, is_ok};
ghost use Rattle.std.specs.Char.{to_ascii_lowercase};
ghost use Rattle.std.specs.List.{list_all};
ghost use Rattle.std.specs.Str.{bytes_eq};
ghost use Rattle.keys.specs.Keys.{ReadAs};
ghost use Rattle.keys.specs.Forms.{is_name, name_byte, name_home};
ghost use Rattle.std.proofs.Common.{rules};

use crate::kinds::{Key, KeyRefusal, Spelled};
use crate::spelling::Spelling;

/// A name that stands for a net.
#[derive(Clone, Copy)]
pub struct NameKey {
    text: Spelling,
    ghost named: { is_name text ≡ true },
}

fn is_name_byte(b: u8) -> bool
    ensures { result ≡ name_byte b }
{
    b.is_ascii_alphanumeric() || b == b'_'
}

fn all_name(word: &[u8]) -> bool
    ensures { result ≡ list_all name_byte word.now }
{
    word.iter().all(|&b| is_name_byte(b))
}

fn home_of(word: &[u8]) -> u64
    ensures { result ≡ name_home word.now }
{
    word.iter()
        .map(u8::to_ascii_lowercase)
        .fold(0_u64, |home, b| {
            home.wrapping_mul(31).wrapping_add(b.into())
        })
}

impl Key for NameKey {
    ghost same = { λ a b. bytes_eq (map to_ascii_lowercase a.text) (map to_ascii_lowercase b.text) };

    ghost home = { λ a. name_home a.text };

    ghost reflexive = { Prim.search rules };

    ghost symmetric = { Prim.search rules };

    ghost transitive = { Prim.search rules };

    ghost homes = { Prim.search rules };

    fn is_same(&self, other: &NameKey) -> bool {
        self.text.bytes().eq_ignore_ascii_case(other.text.bytes())
    }

    fn home(&self) -> u64 {
        home_of(self.text.bytes())
    }
}

impl Spelled for NameKey {
    ghost use Rattle.keys.specs.Laws.{name_word, same_name};

    ghost spelled = { λ k. k.text };

    ghost word = { name_word };

    ghost apart = { same_name };

    fn read(word: &[u8]) -> Result<NameKey, KeyRefusal>
        ensures key { ReadAs (λ k. k.text) word.now result }
        ensures form { is_ok result ≡ is_name word.now }
    {
        if word.is_empty() || !all_name(word) {
            return Err(KeyRefusal::Malformed);
        }
        let text = Spelling::try_from(word)?;
        Ok(NameKey { text })
    }

    fn spelling(&self) -> Spelling {
        self.text
    }
}
