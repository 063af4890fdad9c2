//! The piece of a file that a fault names.
ghost use Rattle.std.specs.Prelude.{◌≡◌, take, drop};
ghost use Rattle.faults.specs.Faults.{piece_of};

use crate::places::{Fault, Layer};

/// The part of a file from an offset on, as far as the file goes.
fn part(file: &[u8], offset: usize, length: usize) -> &[u8]
    ensures { result.now ≡ take length (drop offset file.now) }
{
    let rest = &file[offset.min(file.len())..];
    &rest[..length.min(rest.len())]
}

/// The piece that a fault names, as a part of the board text or of the step file.
pub fn piece<'a>(fault: &Fault, board: &'a [u8], steps: &'a [u8]) -> &'a [u8]
    ensures { result.now ≡ piece_of fault.now board.now steps.now }
{
    let place = fault.place;
    match fault.layer {
        Layer::Steps => part(steps, place.offset, place.length),
        Layer::Text | Layer::Job => part(board, place.offset, place.length),
    }
}
