//! The weights of the pairs of a board.
ghost use Rattle.std.specs.Prelude.{◌≡◌, ℕ, length, pos, ◌≤ℤ◌, slice_index_or};
ghost use Rattle.cuts.specs.Boards.{size, connected};
ghost use Rattle.cuts.specs.Building.{paired};
ghost use Rattle.cuts.specs.Merging.{placed};
ghost use Rattle.cuts.specs.Sums.{∑};
ghost use Rattle.grid.specs.Rows.{Wide};

use crate::nets::{NETS, Net};
use crate::sums::sum_of;

/// The size of a weight.
pub fn weight_size(weight: i32) -> i64
    ensures size { result ≡ size weight }
    ensures small { result ≤ℤ pos 2147483648 }
{
    i64::from(weight).abs()
}

/// The weight of each pair, in a row for each of its nets.
// no `Model`: what clauses see of it is a function, and the checker takes no function as a model's value
#[derive(Clone, Copy, PartialEq, Eq)]
pub struct Matrix {
    rows: [[i32; NETS]; NETS],
    ghost long: { length rows ≡ 120 },
    ghost wide: { Wide rows },
}

// v and u stay apart: every definition that a clause names takes the two by themselves
impl Matrix {
    ghost use Rattle.grid.specs.Matrices.{weight_in};

    /// No pair has a weight.
    pub fn new() -> Matrix
        ensures { weight_in result ≡ λ v u. pos 0 }
    {
        Matrix {
            rows: [[0; NETS]; NETS],
        }
    }

    /// The weights at a net.
    pub fn row(&self, v: Net) -> &[i32; NETS]
        ensures long { length result.now ≡ 120 }
        ensures weights { (u : ℕ) → slice_index_or result.now u (pos 0) ≡ weight_in self.now v.index u }
    {
        &self.rows[v.index]
    }

    /// The weight of a pair.
    pub fn get(&self, v: Net, u: Net) -> i32
        ensures { result ≡ weight_in self.now v.index u.index }
    {
        self.row(v)[u.index]
    }

    /// The size of a pair's weight.
    pub fn size(&self, v: Net, u: Net) -> i64
        ensures size { result ≡ size (weight_in self.now v.index u.index) }
        ensures small { result ≤ℤ pos 2147483648 }
    {
        weight_size(self.get(v, u))
    }

    /// Whether a pair is connected.
    pub fn connects(&self, v: Net, u: Net) -> bool
        ensures { result ≡ connected (weight_in self.now v.index u.index) }
    {
        self.get(v, u) != 0
    }

    /// The sum of the sizes of the weights at a net: 120 numbers of 31 bits.
    pub fn row_sizes(&self, v: Net) -> i64
        ensures sum { result ≡ ∑ 120 (λ u. size (weight_in self.now v.index u)) }
        ensures small { size result ≤ℤ pos 257698037760 }
    {
        sum_of(NETS, |u| self.size(v, u))
    }

    /// The sum of the weights at a net.
    pub fn row_sum(&self, v: Net) -> i64
        ensures { result ≡ ∑ 120 (weight_in self.now v.index) }
    {
        sum_of(NETS, |u| i64::from(self.get(v, u)))
    }

    /// Sets the weight of a pair, in the rows of both nets.
    pub fn set(&mut self, v: Net, u: Net, weight: i32)
        ensures { weight_in self.new ≡ paired v.index u.index weight (weight_in self.old) }
    {
        self.rows[u.index][v.index] = weight;
        self.rows[v.index][u.index] = weight;
    }

    /// Replaces the weights at a net, in its row and in its column.
    pub fn put_row(&mut self, v: Net, row: &[i32; NETS])
        ensures { weight_in self.new ≡ placed v.index (λ u. slice_index_or row.now u (pos 0)) (weight_in self.old) }
    {
        for (index, weight) in row.iter().enumerate() {
            self.set(v, Net { index }, *weight);
        }
    }
}
