//! The simplest taker: it counts joins and adds up the sizes of their weights.
ghost use Rattle.std.specs.Prelude.{◌≡◌, None};
ghost use Rattle.text.specs.Joins.{Answers, Grows};
ghost use Rattle.survey.specs.Census.{Counted, never_number};
ghost use Rattle.std.proofs.Common.{rules};

use faults::JobRefusal;
use keys::Spelled;
use std::marker::PhantomData;
use text::takers::{Headed, Join, Taker};

/// How many joins were taken, and the sum of their weights' sizes; each stops at 2^64 − 1.
#[derive(Drop)]
pub struct Census<K> {
    pub joins: u64,
    pub sizes: u64,
    keys: PhantomData<K>,
}

/// The refusal of a taker that always has room: no call answers it.
#[derive(Drop)]
pub enum Never {
    Full,
}

impl JobRefusal for Never {
    ghost numbered = { never_number };

    ghost within = { Prim.search rules };

    fn number(&self) -> u8 {
        match self {
            Never::Full => 24,
        }
    }
}

impl<K> Census<K> {
    /// No joins yet.
    pub fn new() -> Census<K>
        ensures joins { result.joins ≡ 0 }
        ensures sizes { result.sizes ≡ 0 }
    {
        Census {
            joins: 0,
            sizes: 0,
            keys: PhantomData,
        }
    }
}

impl<K: Spelled + Headed> Taker for Census<K> {
    type Key = K;

    type Refusal = Never;

    ghost taken = { λ s js. Counted s.joins s.sizes js };

    ghost rule = { λ _ _. None };

    fn take(&mut self, join: Join<K>) -> Result<(), Never>
        ensures accepts { result ≡ Ok tt }
        ensures answers { Answers {J = Join K} (Counted self.old.joins self.old.sizes) (λ _ _. None) join result }
        ensures grows { Grows {J = Join K} (Counted self.old.joins self.old.sizes) (Counted self.new.joins self.new.sizes) join result }
    {
        self.joins = self.joins.saturating_add(1);
        self.sizes = self
            .sizes
            .saturating_add(u64::from(join.weight.unsigned_abs()));
        Ok(())
    }
}
