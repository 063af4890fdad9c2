//! The first line of a board, by its kind of key.
ghost use Rattle.std.specs.Prelude.{codes, refl};

use crate::takers::Headed;
use keys::name::NameKey;
use keys::number::NumberKey;

impl Headed for NameKey {
    ghost header = { codes "board names" };

    ghost single = { refl };

    fn header() -> &'static [u8] {
        b"board names"
    }
}

impl Headed for NumberKey {
    ghost header = { codes "board numbers" };

    ghost single = { refl };

    fn header() -> &'static [u8] {
        b"board numbers"
    }
}
