//! Nets by their numbers.
ghost use Rattle.std.specs.Prelude.{◌≡◌, ◌+◌, ◌<◌};

/// The most nets that a board may have.
pub const NETS: usize = 120;

/// The number of a net, 1 to 120; what is kept is the number less 1.
#[derive(Clone, Copy, PartialEq, Eq, Debug)]
pub struct Net {
    pub index: usize,
    ghost within: { index < 120 },
}

/// The first net.
// by hand: the language derives no `Default` for a struct with a ghost field
impl Default for Net {
    ghost is_default = { λ v. v.index ≡ 0 };

    fn default() -> Net {
        Net { index: 0 }
    }
}

/// A number that is none of a net.
#[derive(Clone, Copy, PartialEq, Eq, Debug)]
pub struct NoNet(pub u8);

impl TryFrom<u8> for Net {
    ghost use Rattle.grid.specs.Nets.{Numbers};

    type Error = NoNet;

    ghost try_from_gives = { Numbers };

    fn try_from(number: u8) -> Result<Net, NoNet> {
        if number == 0 || usize::from(number) > NETS {
            return Err(NoNet(number));
        }
        Ok(Net {
            index: usize::from(number) - 1,
        })
    }
}

impl From<Net> for u8 {
    ghost from_gives = { λ v number. number ≡ v.index + 1 };

    fn from(v: Net) -> u8 {
        // `as` is proved to lose nothing; `try_from` would add a refusal that cannot come
        v.index as u8 + 1
    }
}
