//! What a kind of key is: when two keys are the same net, where the search for a key begins, and how a key is written.
ghost use Rattle.std.specs.Prelude.{◌≡◌, ℕ, ◌≤◌, Bool, true, List, length, Ok};
ghost use Rattle.keys.specs.Keys.{key_number, ReadAs};
ghost use Rattle.keys.specs.Words.{Word};

use crate::spelling::Spelling;

/// A kind of key: any type that says when two keys are the same net.
pub trait Key: Copy {
    /// Two keys are the same net.
    ghost same: { Self → Self → Bool };

    /// The number at which the search for a key begins; it says nothing of how many keys may share it.
    ghost home: { Self → ℕ };

    /// Whether two keys are the same net.
    // no `PartialEq`: keys of one net need not be equal, as names in other letters are not
    fn is_same(&self, other: &Self) -> bool
        ensures { result ≡ same self.now other.now };

    /// The key's home number.
    fn home(&self) -> u64
        ensures { result ≡ home self.now };

    ghost reflexive: { (a : Self) → same a a ≡ true };

    ghost symmetric: { (a b : Self) → same a b ≡ true → same b a ≡ true };

    ghost transitive: { (a b c : Self) → same a b ≡ true → same b c ≡ true → same a c ≡ true };

    ghost homes: { (a b : Self) → same a b ≡ true → home a ≡ home b };
}

/// A kind of key that is written as a word.
pub trait Spelled: Copy {
    /// How a key is written.
    ghost spelled: { Self → List ℕ };

    /// The key that a word spells.
    fn read(word: &[u8]) -> Result<Self, KeyRefusal>
        ensures { ReadAs spelled word.now result };

    /// The word that spells the key.
    fn spelling(&self) -> Spelling
        ensures word { result ≡ spelled self.now }
        ensures short { length result ≤ 12 };

    ghost word: { (k : Self) → Word (spelled k) };

    ghost apart: { (a b : Self) → spelled a ≡ spelled b → a ≡ b };
}

/// Why no key is made.
#[derive(Clone, Copy, PartialEq, Eq, Debug)]
pub enum KeyRefusal {
    Malformed,
}

impl KeyRefusal {
    /// The number by which the refusal is known.
    // no `From`: `u8::from` would not say that it is the number of the refusal
    pub fn number(self) -> u8
        ensures { result ≡ key_number self }
    {
        match self {
            KeyRefusal::Malformed => 12,
        }
    }
}

/// A key, written and read again, is itself.
pub fn reread<K: Spelled>(key: &K) -> Result<K, KeyRefusal>
    ensures { result ≡ Ok key.now }
{
    K::read(key.spelling().bytes())
}
