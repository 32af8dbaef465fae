//! A cell and its likely place.

ghost use Rattle.std.specs.Prelude.{◌≡◌};

use crate::corners::Corners;
use std::marker::Model;

/// A cell at hand, and where it is likely to stand. Contracts see it as the cell.
#[derive(Drop)]
pub struct Spot {
    cell: Corners,
    place: usize,
}

impl Model for Spot {
    ghost use Rattle.point_order.specs.declared.cell.Cell.{Cell};

    ghost Value = { Cell };

    ghost view = { λ s. s.cell };
}

impl Spot {
    /// The cell, which is likely to stand in the slot.
    pub fn new(cell: Corners, place: usize) -> Spot
        ensures { result ≡ cell }
    {
        Spot { cell, place }
    }

    /// The cell.
    pub fn cell(&self) -> &Corners
        ensures { result.now ≡ self.now }
    {
        &self.cell
    }

    /// Where it is likely to stand.
    pub fn place(&self) -> usize {
        self.place
    }

    /// The same once more.
    pub fn copied(&self) -> Spot
        ensures { result ≡ self.now }
    {
        Spot {
            cell: self.cell,
            place: self.place,
        }
    }
}

impl Default for Spot {
    // The cell of the first four keys, as a blank.
    fn default() -> Spot {
        Spot {
            cell: Corners {
                a: 0,
                b: 1,
                c: 2,
                d: 3,
            },
            place: 0,
        }
    }
}
