//! Splits: which side each net is on.
ghost use Rattle.std.specs.Prelude.{◌≡◌, ℕ, Bool};
ghost use Rattle.grid.specs.Splits.{mask_sides, byte_sides};

use crate::nets::Net;

/// Anything that puts each net on side A or side B.
pub trait Split {
    /// Whether the net of this index is on B.
    ghost sides: { Self → ℕ → Bool };

    /// Whether the net is on B.
    fn on_b(&self, v: Net) -> bool
        ensures { result ≡ sides self.now v.index };
}

/// Sides in the bits of a number: net v is on B if bit v - 1 is set.
#[derive(Clone, Copy)]
pub struct Mask {
    pub bits: u128,
}

impl Split for Mask {
    ghost sides = { λ m. mask_sides m.bits };

    fn on_b(&self, v: Net) -> bool {
        (self.bits >> v.index) % 2 == 1
    }
}

/// Sides in bytes: net v is on B if byte v - 1 is 1; a net without a byte is on A.
#[derive(Clone, Copy)]
pub struct Sheet<'a> {
    pub bytes: &'a [u8],
}

impl<'a> Split for Sheet<'a> {
    ghost sides = { λ s. byte_sides s.bytes.now };

    fn on_b(&self, v: Net) -> bool {
        self.bytes.get(v.index) == Some(&1)
    }
}
