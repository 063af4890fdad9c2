//! How a board changes.
ghost use Rattle.std.specs.Prelude.{◌≡◌, true, false, pos, MatchOption};
ghost use Rattle.cuts.specs.Boards.{sizes};
ghost use Rattle.cuts.specs.Building.{empty, weighed};
ghost use Rattle.cuts.specs.Merging.{two};
ghost use Rattle.cuts.specs.Reductions.{Reduces};
ghost use Rattle.cuts.specs.Sums.{put};
ghost use Rattle.kernel.specs.Changes.{roomy, after_adding, set_answer, after_setting, removable, after_removing};
ghost use Rattle.kernel.specs.Views.{view};

use crate::board::{Kernel, LIMIT};
use grid::matrix::weight_size;
use grid::nets::NETS;
use grid::{Matrix, Net};

/// Why a weight is not set.
#[derive(Clone, Copy, PartialEq, Eq, Debug)]
pub enum SetRefusal {
    /// These are not two nets that stand.
    NotTwo,
    /// The sum of sizes would be over 100,000,000.
    TooHeavy,
}

impl Kernel {
    /// A board without nets.
    pub fn new() -> Kernel
        ensures { view result ≡ empty }
    {
        Kernel {
            nets: 0,
            standing: [false; NETS],
            weights: Matrix::new(),
            sizes: 0,
        }
    }

    /// One net more, which has no connections yet, unless there are 120.
    pub fn add(&mut self) -> Option<Net>
        ensures answer { MatchOption result (roomy (view self.old) ≡ false) (λ v. (roomy (view self.old) ≡ true) × (v.index ≡ (view self.old).nets)) }
        ensures board { view self.new ≡ after_adding (view self.old) }
    {
        let index = self.nets;
        if index >= NETS {
            return None;
        }
        self.standing[index] = true;
        self.nets = index + 1;
        Some(Net { index })
    }

    /// The sum of sizes once the weight of a pair is replaced.
    fn resized(&self, v: Net, u: Net, weight: i32) -> i64
        requires { two (view self.now) v.index u.index ≡ true }
        ensures { result ≡ sizes (weighed v.index u.index weight (view self.now)) }
    {
        self.sizes - self.weights.size(v, u) + weight_size(weight)
    }

    /// Sets the weight of a pair.
    pub fn set(&mut self, v: Net, u: Net, weight: i32) -> Result<(), SetRefusal>
        ensures answer { result ≡ set_answer v.index u.index weight (view self.old) }
        ensures board { view self.new ≡ after_setting v.index u.index weight (view self.old) }
    {
        if !self.are_two(v, u) {
            return Err(SetRefusal::NotTwo);
        }
        let sizes = self.resized(v, u, weight);
        if sizes > LIMIT {
            return Err(SetRefusal::TooHeavy);
        }
        self.weights.set(v, u, weight);
        self.sizes = sizes;
        Ok(())
    }

    /// Removes a net that has no connections, and tells whether it was one.
    // a `bool`, as of a set's `remove`: an error would be one case that says no more
    pub fn remove(&mut self, v: Net) -> bool
        ensures answer { result ≡ removable v.index (view self.old) }
        ensures board { view self.new ≡ after_removing v.index (view self.old) }
        ensures reduces { result ≡ true → Reduces (view self.old) (view self.new) (put v.index false) (pos 0) }
    {
        if !self.stands(v) || self.connections(v) != 0 {
            return false;
        }
        self.standing[v.index] = false;
        true
    }
}
