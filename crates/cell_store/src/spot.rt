//! Cells at hand.

ghost use Rattle.std.specs.Prelude.{◌≡◌};

use point_order::Cell;
use std::marker::Model;

/// A cell at hand: beside it stands where it is likely to be found, so that what lies across its facets is found
/// without a search.
///
/// Contracts see it as the cell. It may outlive changes of the hold, since what stands at a place is looked at before
/// it is believed.
#[derive(Debug, Drop)]
pub struct Spot {
    cell: Cell,
    bucket: u32,
    place: u32,
}

impl Model for Spot {
    ghost use Rattle.point_order.specs.declared.cell.Cell.{Cell};

    ghost Value = { Cell };

    ghost view = { λ s. s.cell };
}

/// What lies across a facet of a cell at hand.
#[derive(Debug, Drop)]
pub enum SpotAcross {
    /// The other cell on the facet, at hand too.
    Spot(Spot),
    /// No bucket of the facet's finite points is in hand. This is the number of the bucket of the least.
    Need(u32),
}

impl Spot {
    /// The cell, which is likely to stand in the bucket with the number, at the place.
    pub fn new(cell: Cell, bucket: u32, place: u32) -> Spot
        ensures { result ≡ cell }
    {
        Spot {
            cell,
            bucket,
            place,
        }
    }

    /// The cell.
    pub fn cell(&self) -> &Cell
        ensures { result.now ≡ self.now }
    {
        &self.cell
    }

    /// The same cell at hand once more.
    pub fn copied(&self) -> Spot
        ensures { result ≡ self.now }
    {
        Spot {
            cell: self.cell,
            bucket: self.bucket,
            place: self.place,
        }
    }

    // The bucket in which it is likely to stand.
    pub(crate) fn bucket(&self) -> u32 {
        self.bucket
    }

    // The place at which it is likely to stand there.
    pub(crate) fn place(&self) -> u32 {
        self.place
    }
}
