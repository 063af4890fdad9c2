//! The word that spells a key: at most 12 bytes, held in place.
ghost use Rattle.std.specs.Prelude.{◌≡◌, ◌≤◌, length, OkIff};

use crate::kinds::KeyRefusal;
use std::marker::Model;

/// The longest word that spells a key.
pub const ROOM: usize = 12;

/// At most 12 bytes; what lies past them is 0, so that equal words are equal values.
#[derive(Clone, Copy, PartialEq, Eq, Debug)]
pub struct Spelling {
    // no `Vec`, and no `ArrayVec`, which is not `Copy`: a key is copied, and asks for no memory
    bytes: [u8; ROOM],
    len: u8,
}

impl Model for Spelling {
    ghost use Rattle.std.specs.Prelude.{◌≡◌, ℕ, ◌-◌, ◌≤◌, List, ◌++◌, length, take, drop, replicate};
    ghost use Rattle.std.proofs.Common.{arith, take-append-drop, length-take-le};

    ghost Value = { List ℕ };

    ghost view = { λ s. take s.len s.bytes };

    ghost invariant = { λ s. record {
      fits : s.len ≤ 12;
      room : length s.bytes ≡ 12;
      padded : drop s.len s.bytes ≡ replicate (12 - s.len) 0;
    } };

    ghost inverse = { λ word. record { bytes = word ++ replicate (12 - length word) 0; len = length word } };

    ghost inverse_ok = { λ s h.
        let len : length (take s.len s.bytes) ≡ s.len = length-take-le s.len s.bytes (omega (arith, h.fits, h.room)) in
        let bytes : take s.len s.bytes ++ replicate (12 - length (take s.len s.bytes)) 0 ≡ s.bytes = rw (len, ← h.padded) (take-append-drop s.len s.bytes) in
        λ i. record { bytes = bytes i; len = len i } };
}

impl TryFrom<&[u8]> for Spelling {
    type Error = KeyRefusal;

    ghost try_from_gives = { λ word r. OkIff r (length word.now ≤ 12) word.now };

    /// The word, unless it is longer than 12 bytes.
    fn try_from(word: &[u8]) -> Result<Spelling, KeyRefusal> {
        if word.len() > ROOM {
            return Err(KeyRefusal::Malformed);
        }
        Ok(Spelling::copied(word))
    }
}

impl Spelling {
    /// The word, which has at most 12 bytes.
    pub(crate) fn copied(word: &[u8]) -> Spelling
        requires { length word.now ≤ 12 }
        ensures { result ≡ word.now }
    {
        let mut bytes = [0; ROOM];
        bytes[..word.len()].copy_from_slice(word);
        Spelling {
            bytes,
            // `as` is proved to lose nothing; `try_from` would add a refusal that cannot come
            len: word.len() as u8,
        }
    }

    /// The bytes of the word.
    pub fn bytes(&self) -> &[u8]
        ensures word { result.now ≡ self.now }
        ensures short { length result.now ≤ 12 }
    {
        &self.bytes[..usize::from(self.len)]
    }
}
