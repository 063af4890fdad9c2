//! Small boards: their splits' values by hand, and how joining and opposing change them.
use cuts::Tie;
use grid::nets::NETS;
use grid::{Mask, Net, Split};
use kernel::{Kernel, SetRefusal};

/// The pairs of a board: two net numbers and a weight.
pub type Pairs = &'static [(u8, u8, i32)];

const TRIANGLE: Pairs = &[(1, 2, 1), (1, 3, 1), (2, 3, 1)];

pub const FOUR: Pairs = &[(1, 2, 3), (2, 3, 2), (3, 1, 2), (3, 4, 1)];

/// Nets, pairs, a side for each net, and the value of that split.
pub const VALUES: [(u8, Pairs, &str, i64); 24] = [
    (0, &[], "", 0),
    (1, &[], "B", 0),
    (2, &[], "AB", 0),
    (2, &[(1, 2, 7)], "AA", 0),
    (2, &[(1, 2, 7)], "AB", 7),
    (2, &[(1, 2, 7)], "BA", 7),
    (2, &[(1, 2, -7)], "BA", -7),
    (2, &[(1, 2, 7), (2, 1, -4)], "AB", -4),
    (3, TRIANGLE, "AAA", 0),
    (3, TRIANGLE, "AAB", 2),
    (3, TRIANGLE, "ABA", 2),
    (3, TRIANGLE, "BAA", 2),
    (3, TRIANGLE, "BBA", 2),
    (3, TRIANGLE, "BBB", 0),
    (3, &[(1, 2, 10), (1, 3, 1), (2, 3, 1)], "ABA", 11),
    (3, &[(1, 2, 10), (1, 3, 1), (2, 3, 1)], "AAB", 2),
    (3, &[(1, 2, -3), (2, 3, 4), (1, 3, -5)], "ABA", 1),
    (3, &[(1, 2, -3), (2, 3, 4), (1, 3, -5)], "BAA", -8),
    (3, &[(1, 2, -3), (2, 3, 4), (1, 3, -5)], "AAB", -1),
    (4, FOUR, "ABAB", 6),
    (4, FOUR, "ABBA", 6),
    (4, FOUR, "AAAB", 1),
    (
        4,
        &[(1, 2, 50_000_000), (3, 4, -50_000_000)],
        "ABAA",
        50_000_000,
    ),
    (4, &[(1, 2, 50_000_000), (3, 4, -50_000_000)], "ABAB", 0),
];

/// Boards of which every two nets are joined and opposed: nets and pairs.
pub const MERGED: [(u8, Pairs); 5] = [
    (2, &[(1, 2, 5)]),
    (3, TRIANGLE),
    (3, &[(1, 2, -3), (2, 3, 4), (1, 3, -5)]),
    (4, FOUR),
    (
        5,
        &[
            (1, 2, 9),
            (1, 3, -8),
            (2, 4, 7),
            (2, 5, -1),
            (3, 4, 2),
            (3, 5, 6),
            (4, 5, -30_000_000),
        ],
    ),
];

/// Weights set one after another on a board of three nets: two net numbers, a weight, the answer, and the sum of sizes then.
pub const SETTINGS: [(u8, u8, i32, Result<(), SetRefusal>, i64); 9] = [
    (1, 2, 99_999_999, Ok(()), 99_999_999),
    (1, 3, 1, Ok(()), 100_000_000),
    (2, 3, 1, Err(SetRefusal::TooHeavy), 100_000_000),
    (3, 1, -2, Err(SetRefusal::TooHeavy), 100_000_000),
    (3, 1, -1, Ok(()), 100_000_000),
    (2, 2, 0, Err(SetRefusal::NotTwo), 100_000_000),
    (1, 4, 0, Err(SetRefusal::NotTwo), 100_000_000),
    (2, 1, 0, Ok(()), 1),
    (1, 2, i32::MIN, Err(SetRefusal::TooHeavy), 1),
];

/// The four nets of a board: number, connections, sum of sizes, and the same without nets 1 and 3.
pub const READINGS: [(u8, usize, i64, i64); 4] = [
    (1, 2, 5, 3),
    (2, 2, 5, 0),
    (3, 3, 5, 3),
    (4, 1, 1, 0),
];

/// Every second net of 120 on B.
pub const ALTERNATE: u128 = 0xAAAA_AAAA_AAAA_AAAA_AAAA_AAAA_AAAA_AA;

/// The net of this number, unless no board has one.
fn net(number: u8) -> Option<Net> {
    Net::try_from(number).ok()
}

/// The board of these pairs, unless one of them cannot be set.
pub(crate) fn built(nets: u8, pairs: &[(u8, u8, i32)]) -> Option<Kernel> {
    let mut kernel = Kernel::new();
    for _ in 0..nets {
        kernel.add()?;
    }
    for (v, u, weight) in pairs {
        kernel.set(net(*v)?, net(*u)?, *weight).ok()?;
    }
    Some(kernel)
}

/// Whether each net is on B in a split that is written as a side for each net.
fn sides_on_b(sides: &str) -> [bool; NETS] {
    let mut on_b = [false; NETS];
    for (place, side) in on_b.iter_mut().zip(sides.as_bytes()) {
        *place = *side == b'B';
    }
    on_b
}

/// The same in bits.
pub(crate) fn masked(sides: &str) -> Mask {
    let mut bits: u128 = 0;
    for (index, on_b) in sides_on_b(sides).iter().enumerate() {
        bits |= u128::from(*on_b) << index;
    }
    Mask { bits }
}

/// The same in bytes.
pub(crate) fn sheet(sides: &str) -> [u8; NETS] {
    sides_on_b(sides).map(u8::from)
}

/// Whether two nets are on different sides.
fn differ(split: Mask, v: u8, u: u8) -> Option<bool> {
    let first = net(v)?;
    let second = net(u)?;
    Some(split.on_b(first) != split.on_b(second))
}

/// The value of a split by the definition: the weights of the pairs whose sides differ.
fn defined(pairs: &[(u8, u8, i32)], split: Mask) -> i64 {
    let mut total: i64 = 0;
    for (v, u, weight) in pairs {
        if differ(split, *v, *u) == Some(true) {
            total = total.wrapping_add(i64::from(*weight));
        }
    }
    total
}

/// The split with one net on the side of another, or on the other side.
fn lifted(split: Mask, v: Net, u: Net, tie: Tie) -> Mask {
    let bit = 1 << v.index;
    let on_b = match tie {
        Tie::Joined => split.on_b(u),
        Tie::Opposed => !split.on_b(u),
    };
    if on_b {
        Mask {
            bits: split.bits | bit,
        }
    } else {
        Mask {
            bits: split.bits & !bit,
        }
    }
}

/// Whether each split of five nets afterwards, lifted, is worth the shift more before.
fn exact(pairs: &[(u8, u8, i32)], kernel: &Kernel, v: Net, u: Net, tie: Tie) -> bool {
    let mut after = *kernel;
    let Some(shift) = after.merge(v, u, tie) else {
        return false;
    };
    for bits in 0..32_u8 {
        let split = Mask {
            bits: u128::from(bits),
        };
        if defined(pairs, lifted(split, v, u, tie)) != after.value(&split).wrapping_add(shift) {
            return false;
        }
    }
    !after.stands(v) && after.stands(u) && after.sizes() <= kernel.sizes()
}

/// Whether that holds for every two nets, joined and opposed, and no net merges with itself.
// by number, so that what is tried does not rest on what `standing` tells
pub(crate) fn all_exact(nets: u8, pairs: &[(u8, u8, i32)]) -> Option<bool> {
    let kernel = built(nets, pairs)?;
    for i in 1..=nets {
        let v = net(i)?;
        for j in 1..=nets {
            let u = net(j)?;
            let apart = i != j;
            if exact(pairs, &kernel, v, u, Tie::Joined) != apart
                || exact(pairs, &kernel, v, u, Tie::Opposed) != apart
            {
                return Some(false);
            }
        }
    }
    Some(true)
}

/// A ring of nets, each connected to the next by this weight.
// by number, as above
pub(crate) fn ring(nets: u8, weight: i32) -> Option<Kernel> {
    let mut kernel = built(nets, &[])?;
    let mut last = net(nets)?;
    for number in 1..=nets {
        let next = net(number)?;
        kernel.set(last, next, weight).ok()?;
        last = next;
    }
    Some(kernel)
}

/// Whether just these nets stand.
pub(crate) fn stand(kernel: &Kernel, numbers: &[u8]) -> bool {
    let standing = kernel.standing();
    let nets = standing.nets();
    nets.len() == numbers.len()
        && nets
            .iter()
            .zip(numbers)
            .all(|(net, number)| u8::from(*net) == *number)
}

/// Sets a weight, unless a number is none of a net.
pub(crate) fn set(
    kernel: &mut Kernel,
    v: u8,
    u: u8,
    weight: i32,
) -> Option<Result<(), SetRefusal>> {
    let first = net(v)?;
    let second = net(u)?;
    Some(kernel.set(first, second, weight))
}

/// A net's connections, its sum of sizes, and that without nets 1 and 3.
pub(crate) fn read_off(kernel: &Kernel, number: u8) -> Option<(usize, i64, i64)> {
    let v = net(number)?;
    let spared = [net(1)?, net(3)?];
    Some((
        kernel.connections(v),
        kernel.sizes_at(v, &[]),
        kernel.sizes_at(v, &spared),
    ))
}

/// Four nets, of which 1 and 2 are connected: what removing 1, 4 and 4 again answers, then joining 4 to 1, and whether the others stand.
pub(crate) fn without_fourth() -> Option<(bool, bool, bool, Option<i64>, bool)> {
    let mut kernel = built(4, &[(1, 2, 3)])?;
    let first = net(1)?;
    let fourth = net(4)?;
    let connected = kernel.remove(first);
    let lone = kernel.remove(fourth);
    let gone = kernel.remove(fourth);
    let joined = kernel.merge(fourth, first, Tie::Joined);
    Some((connected, lone, gone, joined, stand(&kernel, &[1, 2, 3])))
}
