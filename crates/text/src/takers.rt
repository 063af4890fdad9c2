//! Joins, and what takes them.
ghost use Rattle.std.specs.Prelude.{◌≡◌, ℕ, true, List, Option};
ghost use Rattle.text.specs.Joins.{Answers, Grows};
ghost use Rattle.text.specs.Lines.{lacks};
ghost use Rattle.text.specs.declared.takers.Join.{Join};

pub use faults::JobRefusal;
use keys::Spelled;

/// Two nets by their keys, and the weight between them.
#[derive(Clone, Copy)]
pub struct Join<K> {
    pub first: K,
    pub second: K,
    pub weight: i32,
}

/// A kind of key that a board can have, with the first line of such a board.
pub trait Headed {
    ghost header: { List ℕ };

    /// The first line, without its end.
    fn header() -> &'static [u8]
        ensures { result.now ≡ header };

    /// It is one line.
    ghost single: { lacks 10 header ≡ true };
}

/// What takes joins one after the other, and may refuse one.
pub trait Taker {
    type Key: Spelled + Headed;

    type Refusal: JobRefusal + Drop;

    /// The joins that were taken, in order: a list, or those lists that the taker cannot tell apart.
    ghost taken: { Self → List (Join Self.Key) → Type 0 };

    /// Why the next join is refused after those, if it is.
    ghost rule: { List (Join Self.Key) → Join Self.Key → Option Self.Refusal };

    /// Takes the join, or refuses it and has taken what it had.
    fn take(&mut self, join: Join<Self::Key>) -> Result<(), Self::Refusal>
        ensures answers { Answers (taken self.old) rule join result }
        ensures grows { Grows (taken self.old) (taken self.new) join result };
}
