//! Sums over nets.
ghost use Rattle.std.specs.Prelude.{◌≡◌, ℕ, ◌*◌, ◌≤◌, ℤ, pos, ◌≤ℤ◌};
ghost use Rattle.cuts.specs.Boards.{size};
ghost use Rattle.cuts.specs.Sums.{∑};
ghost use Rattle.grid.specs.declared.nets.Net.{Net};

use crate::nets::Net;

/// The sum of a term for each of the first `count` nets.
pub fn sum_of<F: Fn(Net) -> i64>(count: usize, term: F) -> i64
    requires few { count ≤ 120 }
    requires callable { F.IsAlwaysCallable term }
    requires small { (v : Net) (z : ℤ) → F.post term v z → size z ≤ℤ pos 1125899906842624 }
    ensures sum { (f : ℕ → ℤ) → ((v : Net) (z : ℤ) → F.post term v z → z ≡ f v.index) → result ≡ ∑ count f }
    ensures bound { (m : ℕ) → ((v : Net) (z : ℤ) → F.post term v z → size z ≤ℤ pos m) → size result ≤ℤ pos (m * count) }
{
    let mut total = 0;
    // tried as `map` and `sum`: no proof was found that the signed sum of a chain fits
    for index in 0..count {
        total += term(Net { index });
    }
    total
}
