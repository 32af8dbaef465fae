//! The grid of cubes.

ghost use Rattle.std.specs.Prelude.{◌≡◌, ℕ, ◌*◌, ◌<◌, true, false, IfOk, OnErr, is_ok, IsTrue};
ghost use Rattle.bucket_grid.specs.Grids.{is_grid_size, bucket_of as number_of};

use point_order::Point;
use std::marker::Model;
use thiserror::Error;

/// A grid that divides the range of coordinates into as many equal parts along each axis: 1, 2, 4, 8 or 16.
///
/// Contracts see it as this number.
#[derive(Clone, Copy, Debug, PartialEq, Eq)]
pub struct Grid {
    size: u32,
}

impl Model for Grid {
    ghost use Rattle.std.specs.Prelude.{ℕ, ◌≡◌, true};
    ghost use Rattle.bucket_grid.specs.Grids.{is_grid_size};

    ghost Value = { ℕ };

    ghost view = { λ g. g.size };

    ghost invariant = { λ g. is_grid_size g.size ≡ true };

    ghost inverse = { λ g. record { size = g } };
}

/// The number is none of the five sizes of a grid.
#[derive(Clone, Copy, Debug, PartialEq, Eq, Error)]
#[error("a grid has 1, 2, 4, 8 or 16 buckets along each axis")]
pub struct BadGrid;

impl Grid {
    /// The grid with so many parts along each axis.
    ///
    /// # Errors
    /// Exactly for numbers other than 1, 2, 4, 8 and 16.
    pub fn new(size: u32) -> Result<Grid, BadGrid>
        ensures accepted { is_ok result ≡ is_grid_size size }
        ensures made { IfOk result (λ g. g ≡ size) }
    {
        match size {
            1 | 2 | 4 | 8 | 16 => Ok(Grid { size }),
            _ => Err(BadGrid),
        }
    }

    /// The number of parts along each axis.
    pub fn size(self) -> u32
        ensures value { result ≡ self }
        ensures size { is_grid_size self ≡ true }
    {
        self.size
    }

    /// How many buckets there are, the cube of the size.
    pub fn count(&self) -> u32
        ensures value { result ≡ self.now * self.now * self.now }
        ensures size { is_grid_size self.now ≡ true }
    {
        self.size * self.size * self.size
    }

    /// The number of the bucket in which the point lies: the cubes along x, y and z, counted from 0, are its digits.
    pub fn bucket_of(&self, p: Point) -> u32
        ensures number { result ≡ number_of self.now p }
        ensures below { number_of self.now p < self.now * self.now * self.now }
    {
        if self.size == 1 {
            return 0;
        }
        let x = (p.key() / 268435456 % 16384) as u32 * self.size / 16384;
        let y = (p.key() / 16384 % 16384) as u32 * self.size / 16384;
        let z = (p.key() % 16384) as u32 * self.size / 16384;
        x * self.size * self.size + y * self.size + z
    }
}
