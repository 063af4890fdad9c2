//! A fault: its layer, its number and its place, and the line that shows it.
ghost use Rattle.std.specs.Prelude.{◌≡◌, Some};
ghost use Rattle.faults.specs.Faults.{spot, fault, layer_word, fault_text};
ghost use Rattle.faults.specs.declared.places.Layer.TheVariants.{Text};

use std::fmt;

/// Who refuses: the board text, the job that takes its joins, or the step file.
#[derive(Clone, Copy, PartialEq, Eq, Debug)]
pub enum Layer {
    Text,
    Job,
    Steps,
}

/// The line or record, from 1, and the bytes of it that are meant; all 0 where a whole file is.
#[derive(Clone, Copy, PartialEq, Eq, Debug, Default)]
pub struct Place {
    pub line: usize,
    pub offset: usize,
    pub length: usize,
}

impl Place {
    /// The place of a piece that begins at an offset.
    pub fn of(line: usize, offset: usize, piece: &[u8]) -> Place
        ensures { result ≡ spot line offset piece.now }
    {
        Place {
            line,
            offset,
            length: piece.len(),
        }
    }
}

/// A refusal by number, with its layer and its place.
#[derive(Clone, Copy, PartialEq, Eq, Debug)]
pub struct Fault {
    pub layer: Layer,
    // a number and no enum: refusals of takers and of steps are types of their own, of which only this is known here
    pub number: u8,
    pub place: Place,
}

impl Fault {
    /// A refusal of the board text.
    pub(crate) fn of_text(number: u8, place: Place) -> Fault
        ensures { result ≡ fault Text number place }
    {
        Fault {
            layer: Layer::Text,
            number,
            place,
        }
    }
}

impl fmt::Display for Layer {
    ghost output = { λ l. Some (layer_word l) };

    fn fmt<W: fmt::Write>(&self, f: &mut fmt::Formatter<W>) -> fmt::Result {
        match self {
            Layer::Text => write!(f, "text"),
            Layer::Job => write!(f, "job"),
            Layer::Steps => write!(f, "steps"),
        }
    }
}

impl fmt::Display for Fault {
    ghost output = { λ e. Some (fault_text e) };

    fn fmt<W: fmt::Write>(&self, f: &mut fmt::Formatter<W>) -> fmt::Result {
        let layer = self.layer;
        let number = self.number;
        let Place {
            line,
            offset,
            length,
        } = self.place;
        write!(f, "fault {layer} {number} {line} {offset} {length}")
    }
}
