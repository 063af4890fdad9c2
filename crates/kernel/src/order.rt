//! Nets in number order.
ghost use Rattle.std.specs.Prelude.{◌≤◌};

use grid::Net;
use grid::nets::NETS;

/// The standing nets of a board, in number order.
// a row and a count: an `ArrayVec` is not `Copy`
#[derive(Clone, Copy)]
pub struct Standing {
    pub(crate) row: [Net; NETS],
    pub(crate) count: usize,
    ghost few: { count ≤ 120 },
}
