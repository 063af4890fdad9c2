//! The value of a split.
ghost use Rattle.std.specs.Prelude.{◌≡◌, ℕ, ◌<◌, false, pos, ◌≤ℤ◌, slice_index_or};
ghost use Rattle.cuts.specs.Boards.{value, cut, size, sizes};
ghost use Rattle.cuts.specs.Sums.{∑};
ghost use Rattle.kernel.specs.Views.{view};

use crate::board::Kernel;
use grid::nets::NETS;
use grid::sums::sum_of;
use grid::{Net, Split};

/// What a pair of this weight counts, with its nets on these sides.
fn cut_of(first: bool, second: bool, weight: i32) -> i64
    ensures value { result ≡ cut first second weight }
    ensures small { size result ≤ℤ pos 2147483648 }
{
    if first != second {
        i64::from(weight)
    } else {
        0
    }
}

impl Kernel {
    /// Whether each net of the board is on B.
    // asked at each pair, a value took several times as long
    fn sides<S: Split>(&self, split: &S) -> [bool; NETS]
        ensures { (i : ℕ) → i < (view self.now).nets → slice_index_or result i false ≡ S.sides split.now i }
    {
        let mut sides = [false; NETS];
        for (index, side) in sides[..self.nets].iter_mut().enumerate() {
            *side = split.on_b(Net { index });
        }
        sides
    }

    /// The sum of the weights of a net with those before it that are on the other side.
    fn value_at(&self, sides: &[bool; NETS], v: Net) -> i64
        ensures value { result ≡ ∑ v.index (λ u. cut (slice_index_or sides.now u false) (slice_index_or sides.now v.index false) ((view self.now).weight u v.index)) }
        ensures small { size result ≤ℤ pos 257698037760 }
    {
        let side = sides[v.index];
        sum_of(v.index, |u| cut_of(sides[u.index], side, self.weight(v, u)))
    }

    /// The sum of the weights of the pairs on different sides.
    pub fn value<S: Split>(&self, split: &S) -> i64
        ensures value { result ≡ value (view self.now) (S.sides split.now) }
        ensures bounded { size result ≤ℤ sizes (view self.now) }
    {
        let sides = self.sides(split);
        sum_of(self.nets, |v| self.value_at(&sides, v))
    }
}
