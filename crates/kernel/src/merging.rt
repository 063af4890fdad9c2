//! Merging one net into another, joined or opposed.
ghost use Rattle.std.specs.Prelude.{◌≡◌, ℕ, pos, ◌+ℤ◌, ◌≤ℤ◌, slice_index_or};
ghost use Rattle.cuts.specs.Boards.{size, sizes_at};
ghost use Rattle.cuts.specs.Merging.{grown, shift};
ghost use Rattle.kernel.specs.Changes.{merge_answer, after_merging, MergesExactly};
ghost use Rattle.kernel.specs.Views.{view};

use crate::board::Kernel;
use cuts::Tie;
use grid::Net;
use grid::nets::NETS;

// v, u and tie stay apart: a struct of the three would be taken to pieces again by every definition that a clause names
impl Kernel {
    /// The weight of `u` and `other` once `v` has been merged into `u`.
    fn grown_weight(&self, v: Net, u: Net, other: Net, tie: Tie) -> i32
        ensures { result ≡ grown tie v.index u.index (view self.now).weight other.index }
    {
        if other == u {
            return 0;
        }
        let kept = self.weight(u, other);
        let passed = self.weight(v, other);
        match tie {
            Tie::Joined => kept + passed,
            Tie::Opposed => kept - passed,
        }
    }

    /// The weights at `u` once `v` has been merged into it.
    fn grown_row(&self, v: Net, u: Net, tie: Tie) -> [i32; NETS]
        ensures { (j : ℕ) → slice_index_or result j (pos 0) ≡ grown tie v.index u.index (view self.now).weight j }
    {
        let mut row = [0; NETS];
        for (index, weight) in row.iter_mut().enumerate() {
            *weight = self.grown_weight(v, u, Net { index }, tie);
        }
        row
    }

    /// The sum of the sizes of the weights at either of two nets.
    fn sizes_at_two(&self, v: Net, u: Net) -> i64
        ensures sum { result +ℤ size ((view self.now).weight v.index u.index) ≡ sizes_at (view self.now) v.index +ℤ sizes_at (view self.now) u.index }
        ensures small { size result ≤ℤ pos 1000000000000 }
    {
        self.weights.row_sizes(v) + self.weights.row_sizes(u) - self.weights.size(v, u)
    }

    /// By how much merging `v` into another net lowers the value of each split.
    fn shift(&self, v: Net, tie: Tie) -> i64
        ensures { result ≡ shift tie v.index (view self.now) }
    {
        match tie {
            Tie::Joined => 0,
            Tie::Opposed => self.weights.row_sum(v),
        }
    }

    /// Merges `v` into `u`, and tells the shift, unless these are not two nets that stand: `v` goes and has the side
    /// of `u`, or the opposite one, for good; its weights are added to those of `u`, or taken from them.
    pub fn merge(&mut self, v: Net, u: Net, tie: Tie) -> Option<i64>
        ensures answer { result ≡ merge_answer tie v.index u.index (view self.old) }
        ensures board { view self.new ≡ after_merging tie v.index u.index (view self.old) }
        ensures exact { MergesExactly tie v.index u.index (view self.old) (view self.new) }
    {
        if !self.are_two(v, u) {
            return None;
        }
        let shift = self.shift(v, tie);
        let before = self.sizes_at_two(v, u);
        let row = self.grown_row(v, u, tie);
        self.weights.put_row(u, &row);
        self.weights.put_row(v, &[0; NETS]);
        self.sizes = self.sizes - before + self.weights.row_sizes(u);
        self.standing[v.index] = false;
        Some(shift)
    }
}
