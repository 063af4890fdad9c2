//! What a board keeps.
ghost use Rattle.std.specs.Prelude.{◌≡◌, Decides};
ghost use Rattle.cuts.specs.Boards.{sizes};
ghost use Rattle.cuts.specs.Merging.{two};
ghost use Rattle.kernel.specs.Views.{view, Faithful};

use crate::board::Kernel;
use grid::Net;

impl Kernel {
    /// How many nets the board has, those that are gone too.
    pub fn nets(&self) -> usize
        ensures { result ≡ (view self.now).nets }
    {
        self.nets
    }

    /// Whether a net stands.
    pub fn stands(&self, v: Net) -> bool
        ensures { result ≡ (view self.now).stands v.index }
    {
        self.standing[v.index]
    }

    /// Whether these are two nets that stand.
    pub fn are_two(&self, v: Net, u: Net) -> bool
        ensures { result ≡ two (view self.now) v.index u.index }
    {
        v != u && self.stands(v) && self.stands(u)
    }

    /// The weight of a pair.
    pub fn weight(&self, v: Net, u: Net) -> i32
        ensures { result ≡ (view self.now).weight v.index u.index }
    {
        self.weights.get(v, u)
    }

    /// The sum of the sizes of all weights.
    pub fn sizes(&self) -> i64
        ensures { result ≡ sizes (view self.now) }
    {
        self.sizes
    }

    /// Whether two boards are the same, which is that all they hold in memory is.
    pub fn is_same(&self, other: &Kernel) -> bool
        ensures same { Decides result (view self.now ≡ view other.now) }
        ensures faithful { Faithful }
    {
        self == other
    }
}
