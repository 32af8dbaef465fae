//! Points with whole coordinates.

ghost use Rattle.std.specs.Prelude.{◌≡◌, ℕ, ◌+◌, ◌*◌, ◌^◌, ◌<◌, ◌≤◌, pos, IfOk, IfErr, ◌≤ℤ◌, ◌<ℤ◌, ◌↔◌, IsErr};
ghost use Rattle.point_order.specs.Coordinates.{x_of, y_of, z_of, IsKey, IsCoordinate, IsFirstOutside};
ghost use Rattle.point_order.specs.Heights.{square_of};

use std::fmt;
use std::marker::Model;
use thiserror::Error;

/// A point whose three coordinates are whole numbers from 0 to 16383.
///
/// It is one packed word, its key `x * 2^28 + y * 2^14 + z`, and points are ordered by their keys.
#[derive(Clone, Copy, Debug, PartialEq, Eq, PartialOrd, Ord, Hash)]
pub struct Point {
    packed: u64,
}

impl Model for Point {
    ghost use Rattle.std.specs.Prelude.{ℕ, ◌<◌, ◌^◌};

    ghost Value = { ℕ };

    ghost view = { λ p. p.packed };

    ghost invariant = { λ p. p.packed < 2 ^ 42 };

    ghost inverse = { λ key. record { packed = key } };
}

/// A coordinate that no point has: which of the three it is (0, 1 or 2 for x, y or z), and its value.
#[derive(Clone, Copy, Debug, PartialEq, Eq, Error)]
#[error("coordinate {axis} is {value}, and not 0 to 16383")]
pub struct OutOfRange {
    pub axis: u8,
    pub value: i64,
}

impl fmt::Display for Point {
    ghost use Rattle.point_order.specs.Texts.{point_text};
    ghost use Rattle.std.specs.Prelude.{Some};

    ghost output = { λ p. Some (point_text p) };

    /// Writes the three coordinates, as `(0, 0, 2)`.
    fn fmt<W: fmt::Write>(&self, f: &mut fmt::Formatter<W>) -> fmt::Result {
        write!(f, "({}, {}, {})", self.x(), self.y(), self.z())
    }
}

impl Point {
    /// The point with these coordinates, each of which is to be 0 to 16383.
    ///
    /// # Errors
    /// Where one is not, the first such, by its axis and value.
    pub fn new(x: i64, y: i64, z: i64) -> Result<Point, OutOfRange>
        ensures made { IfOk result (λ p. (pos (x_of p) ≡ x) × (pos (y_of p) ≡ y) × (pos (z_of p) ≡ z)) }
        ensures key { IfOk result (λ p. IsKey p) }
        ensures refused { IfErr result (λ e. IsFirstOutside x y z e) }
    {
        if x < 0 || x > 16383 {
            return Err(OutOfRange { axis: 0, value: x });
        }
        if y < 0 || y > 16383 {
            return Err(OutOfRange { axis: 1, value: y });
        }
        if z < 0 || z > 16383 {
            return Err(OutOfRange { axis: 2, value: z });
        }
        Ok(Point {
            packed: (x as u64) * 268435456 + (y as u64) * 16384 + z as u64,
        })
    }

    /// The number `x * 2^28 + y * 2^14 + z` by which points are ordered, below 2^42.
    pub fn key(&self) -> u64
        ensures value { result ≡ self.now }
        ensures bound { IsKey self.now }
    {
        self.packed
    }

    /// The first coordinate, 0 to 16383.
    pub fn x(&self) -> i64
        ensures value { result ≡ pos (x_of self.now) }
        ensures bound { x_of self.now < 16384 }
    {
        (self.packed >> 28) as i64
    }

    /// The second coordinate, 0 to 16383.
    pub fn y(&self) -> i64
        ensures value { result ≡ pos (y_of self.now) }
        ensures bound { y_of self.now < 16384 }
    {
        (self.packed >> 14 & 16383) as i64
    }

    /// The third coordinate, 0 to 16383.
    pub fn z(&self) -> i64
        ensures value { result ≡ pos (z_of self.now) }
        ensures bound { z_of self.now < 16384 }
    {
        (self.packed & 16383) as i64
    }
}
