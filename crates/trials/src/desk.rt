//! A taker that refuses: it takes two joins at most, and none of a net with itself.
ghost use Rattle.std.specs.Prelude.{◌≤◌};
ghost use Rattle.text.specs.Joins.{Answers, Grows};
ghost use Rattle.trials.specs.Desk.{reason_number, Holds, ruled};
ghost use Rattle.std.proofs.Common.{rules};

use faults::JobRefusal;
use keys::Key;
use keys::name::NameKey;
use text::takers::{Join, Taker};

/// The most joins that are taken.
const ROOM: u8 = 2;

#[derive(Drop)]
pub(crate) enum Reason {
    SameNet,
    Full,
}

impl JobRefusal for Reason {
    ghost numbered = { reason_number };

    ghost within = { Prim.search rules };

    fn number(&self) -> u8 {
        match self {
            Reason::SameNet => 22,
            Reason::Full => 24,
        }
    }
}

#[derive(Drop)]
pub(crate) struct Desk {
    pub joins: u8,
    ghost room: { joins ≤ 2 },
}

impl Taker for Desk {
    type Key = NameKey;

    type Refusal = Reason;

    ghost taken = { λ s js. Holds s.joins js };

    ghost rule = { ruled };

    fn take(&mut self, join: Join<NameKey>) -> Result<(), Reason>
        ensures answers { Answers (Holds self.old.joins) ruled join result }
        ensures grows { Grows (Holds self.old.joins) (Holds self.new.joins) join result }
    {
        if join.first.is_same(&join.second) {
            return Err(Reason::SameNet);
        }
        if self.joins >= ROOM {
            return Err(Reason::Full);
        }
        self.joins += 1;
        Ok(())
    }
}
