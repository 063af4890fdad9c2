//! The refusals of a board text and of the joins in it, each of which becomes one fault.
ghost use Rattle.std.specs.Prelude.{◌≡◌, ℕ, ◌≤◌};
ghost use Rattle.faults.specs.Faults.{of_size, of_line, of_word, of_join};

use crate::places::{Fault, Layer, Place};
use keys::KeyRefusal;

/// A text that is not read.
#[derive(Clone, Copy, PartialEq, Eq, Debug)]
pub enum SizeFault {
    TooLong,
}

/// A line that is not of its form.
#[derive(Clone, Copy, PartialEq, Eq, Debug)]
pub enum LineFault {
    Misformed(Place),
}

/// A word that spells no key, or writes no weight.
#[derive(Clone, Copy, PartialEq, Eq, Debug)]
pub enum WordFault {
    Key(KeyRefusal, Place),
    Weight(Place),
}

/// A refusal of the job, which is known by its number.
pub trait JobRefusal {
    ghost numbered: { Self → ℕ };

    /// The number.
    // no `From`: `u8::from` would not say that it is the number of the refusal
    fn number(&self) -> u8
        ensures { result ≡ numbered self.now };

    ghost within: { (e : Self) → (21 ≤ numbered e) × (numbered e ≤ 26) };
}

/// A join that was not taken, by the number of its refusal, and its line.
// with the refusal itself it would be `Copy` only where that is, and have no number but 21 to 26
#[derive(Clone, Copy, PartialEq, Eq, Debug)]
pub struct JoinFault {
    pub number: u8,
    pub place: Place,
}

impl From<SizeFault> for Fault {
    ghost from_gives = { λ e f. f ≡ of_size e };

    fn from(e: SizeFault) -> Fault {
        match e {
            SizeFault::TooLong => Fault::of_text(14, Place::default()),
        }
    }
}

impl From<LineFault> for Fault {
    ghost from_gives = { λ e f. f ≡ of_line e };

    fn from(e: LineFault) -> Fault {
        match e {
            LineFault::Misformed(place) => Fault::of_text(11, place),
        }
    }
}

impl From<WordFault> for Fault {
    ghost from_gives = { λ e f. f ≡ of_word e };

    fn from(e: WordFault) -> Fault {
        match e {
            WordFault::Key(refusal, place) => Fault::of_text(refusal.number(), place),
            WordFault::Weight(place) => Fault::of_text(13, place),
        }
    }
}

impl From<JoinFault> for Fault {
    ghost from_gives = { λ e f. f ≡ of_join e };

    fn from(e: JoinFault) -> Fault {
        Fault {
            layer: Layer::Job,
            number: e.number,
            place: e.place,
        }
    }
}
