//! What is counted and summed up on a board.
ghost use Rattle.std.specs.Prelude.{◌≡◌};
ghost use Rattle.cuts.specs.Boards.{size, connections, standing};
ghost use Rattle.cuts.specs.Sums.{∑};
ghost use Rattle.kernel.specs.Views.{view, besides, indices, nets_of};

use crate::board::Kernel;
use crate::order::Standing;
use grid::Net;
use grid::nets::NETS;
use grid::sums::sum_of;

impl Kernel {
    /// The sum of the sizes of a net's weights, but for those with the nets that are spared.
    pub fn sizes_at(&self, v: Net, spared: &[Net]) -> i64
        ensures { result ≡ ∑ (view self.now).nets (besides spared.now (λ u. size ((view self.now).weight v.index u))) }
    {
        sum_of(self.nets, |u| {
            if spared.contains(&u) {
                0
            } else {
                self.weights.size(v, u)
            }
        })
    }

    /// How many nets a net is connected to.
    pub fn connections(&self, v: Net) -> usize
        ensures { result ≡ connections (view self.now) v.index }
    {
        // `as` is proved to lose nothing; `filter` and `count` of the row took more than twice as long
        sum_of(self.nets, |u| i64::from(self.weights.connects(v, u))) as usize
    }

    /// The standing nets, in number order.
    pub fn standing(&self) -> Standing
        ensures { indices (nets_of result) ≡ standing (view self.now) }
    {
        let mut row = [Net::default(); NETS];
        let mut count = 0;
        for (index, stands) in self.standing[..self.nets].iter().enumerate() {
            if *stands {
                row[count] = Net { index };
                count += 1;
            }
        }
        Standing { row, count }
    }
}

impl Standing {
    /// The nets.
    pub fn nets(&self) -> &[Net]
        ensures { result.now ≡ nets_of self.now }
    {
        &self.row[..self.count]
    }
}
