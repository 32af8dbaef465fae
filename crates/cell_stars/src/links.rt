//! Where the cells beside a cell are likely to stand: all in here are hints that carry no promise, and what stands at a
//! place is looked at before it is believed.

use point_order::{Cell, Facet};
use std::mem::swap;

/// In place of a place, where there is none.
pub(crate) const NONE: u32 = u32::MAX;

/// The places across the facets of a cell, in the order of its facets: across the one without its first point comes
/// first.
pub(crate) type Around4 = [u32; 4];

/// The places across the facets of a cell.
#[derive(Clone, Copy, Debug)]
pub(crate) struct Links {
    pub(crate) around: Around4,
}

impl Links {
    /// No places.
    pub(crate) const NOWHERE: Links = Links { around: [NONE; 4] };

    /// The place across a facet.
    pub(crate) fn across(self, side: usize) -> u32 {
        let [a, b, c, d] = self.around;
        match side {
            0 => a,
            1 => b,
            2 => c,
            _ => d,
        }
    }

    /// Exchanges the place across a facet.
    pub(crate) fn turn_side(&mut self, side: usize, other: &mut u32) {
        if side < 4 {
            swap(&mut self.around[side], other);
        }
    }
}

/// Which facet of the cell this one is, if it is one, counted from 0.
pub(crate) fn side_of(cell: &Cell, facet: &Facet) -> usize {
    match (cell, facet) {
        (Cell::Full(quad), Facet::Three(tri)) => {
            let (a, b, c, _) = quad.corners();
            let (x, y, z) = tri.corners();
            side_without(a == x, b == y, c == z)
        }
        (Cell::Open(tri), Facet::Two(pair)) => {
            let (a, b, _) = tri.corners();
            let (x, y) = pair.corners();
            side_without(a == x, b == y, false)
        }
        _ => 3,
    }
}

// The side without the first point that does not stand where it stands in the cell.
fn side_without(has_first: bool, has_second: bool, has_third: bool) -> usize {
    if !has_first {
        0
    } else if !has_second {
        1
    } else if !has_third {
        2
    } else {
        3
    }
}
