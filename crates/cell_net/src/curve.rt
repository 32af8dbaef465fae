//! When a point has its turn: rounds of doubling size, each along Hilbert's curve.

use point_order::Point;

// A number of 64 bits in which every bit depends on all bits of the key. (The last steps of SplitMix64.)
fn mixed(key: u64) -> u64 {
    let a = (key ^ (key >> 30)).wrapping_mul(0xBF58476D1CE4E5B9);
    let b = (a ^ (a >> 27)).wrapping_mul(0x94D049BB133111EB);
    b ^ (b >> 31)
}

// How many rounds before the last one a point has its turn: a further one for an eighth of them each.
fn rounds_before(key: u64) -> u64 {
    let bits = mixed(key).leading_zeros() as u64;
    bits / 3
}

// The place of a point on Hilbert's curve through the cube of 2^14 points a side. (Skilling, Programming the Hilbert
// curve: the axes are turned from the highest bit down.)
fn place_on_curve(x: u64, y: u64, z: u64) -> u64 {
    let (mut x, mut y, mut z) = (x, y, z);
    for number in 1..14 {
        let at = 14u32.wrapping_sub(number);
        let low = (1u64 << at).wrapping_sub(1);
        x ^= bit_at(x, at) & low;
        let (one, other) = turned_or_swapped(x, y, bit_at(y, at), low);
        (x, y) = (one, other);
        let (one, other) = turned_or_swapped(x, z, bit_at(z, at), low);
        (x, z) = (one, other);
    }
    y ^= x;
    z ^= y;
    let turned = turned_by(z);
    spread(x ^ turned) << 2 | spread(y ^ turned) << 1 | spread(z ^ turned)
}

// All bits where a bit of the number is set, else none.
fn bit_at(x: u64, at: u32) -> u64 {
    0u64.wrapping_sub((x >> (at & 63)) & 1)
}

// The low bits of x are turned where they are to be, and else those of the two are swapped. No branch is taken that a
// processor would have to guess.
fn turned_or_swapped(x: u64, y: u64, turn: u64, low: u64) -> (u64, u64) {
    let swapped = (x ^ y) & low & !turn;
    (x ^ swapped ^ (low & turn), y ^ swapped)
}

// All bits below a bit that is set are turned.
fn turned_by(z: u64) -> u64 {
    let mut turned = 0;
    let mut bit: u64 = 8192;
    for _ in 0..13 {
        if z & bit != 0 {
            turned ^= bit.wrapping_sub(1);
        }
        bit >>= 1;
    }
    turned
}

// The lowest 16 bits, each three places from the next.
fn spread(x: u64) -> u64 {
    let x = x & 0xFFFF;
    let x = (x | x << 16) & 0xFF00_00FF;
    let x = (x | x << 8) & 0x00F0_0F00_F00F;
    let x = (x | x << 4) & 0x0C30_C30C_30C3;
    (x | x << 2) & 0x2492_4924_9249
}

/// Points have their turns by this number.
pub fn turn_of(p: Point) -> u64 {
    let round = 63u64.saturating_sub(rounds_before(p.key()));
    let place = place_on_curve(p.x() as u64, p.y() as u64, p.z() as u64);
    round << 48 | place
}

/// The level of a point where there are blocks: the last has half of the points, the one before a quarter, and so on.
pub fn level_of(p: Point) -> u64 {
    let before = mixed(p.key()).leading_zeros() as u64;
    31u64.saturating_sub(before)
}

/// The place of a point on the curve.
pub fn place_of(p: Point) -> u64 {
    place_on_curve(p.x() as u64, p.y() as u64, p.z() as u64)
}
