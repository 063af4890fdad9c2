//! The board in memory.
ghost use Rattle.std.specs.Prelude.{◌≡◌, ◌≤◌, length, pos, ◌≤ℤ◌};
ghost use Rattle.cuts.specs.Boards.{Sound};
ghost use Rattle.kernel.specs.Arrays.{board_in, Counted};

use grid::Matrix;
use grid::nets::NETS;

/// The largest sum of sizes that a board may have.
pub const LIMIT: i64 = 100_000_000;

/// A board of at most 120 nets: which of them stand, the weight of each pair, and the sum of the weights' sizes.
// no `Model`: its view has functions, and the checker takes no function in a model's value
#[derive(Clone, Copy, PartialEq, Eq)]
pub struct Kernel {
    pub(crate) nets: usize,
    // no `Vec`, and no `ArrayVec`, which is not `Copy`: a board is copied, and asks for no memory as it grows
    pub(crate) standing: [bool; NETS],
    pub(crate) weights: Matrix,
    pub(crate) sizes: i64,
    ghost room: { length standing ≡ 120 },
    ghost few: { nets ≤ 120 },
    ghost sound: { Sound (board_in nets standing weights) },
    ghost counted: { Counted nets standing weights sizes },
    ghost light: { sizes ≤ℤ pos 100000000 },
}
