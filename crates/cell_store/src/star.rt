//! The cell across a facet.

ghost use Rattle.std.specs.Prelude.{MatchOption};
ghost use Rattle.cell_stars.specs.Stars.{cells_around};
ghost use Rattle.hole_laws.specs.Others.{IsOtherOf, HaveNoOther};

use cell_stars::StarCells;
use point_order::{Cell, Facet};

/// What lies across a facet.
#[derive(Clone, Copy, Debug)]
pub enum Across<'a> {
    /// The other cell on the facet.
    Cell(&'a Cell),
    /// No bucket of the facet's finite points is in hand. This is the number of the bucket of the least.
    Need(u32),
}

// A cell on a facet, and the place at which it stands in its bucket.
#[derive(Clone, Copy)]
pub(crate) struct Other<'a> {
    pub(crate) cell: &'a Cell,
    pub(crate) place: u32,
}

// A cell on the facet other than the given one, if there is one among these.
pub(crate) fn other_among<'a>(
    mut around: StarCells<'a>,
    cell: &Cell,
    facet: &Facet,
) -> Option<Other<'a>>
    ensures { MatchOption result (HaveNoOther (cells_around around.entry) cell.now facet.now)
        (λ o. IsOtherOf (cells_around around.entry) cell.now facet.now o.cell.now) }
{
    while let Some(c) = around.next() {
        if c.is_on(facet) && !c.is_same(cell) {
            return Some(Other {
                cell: c,
                place: around.place(),
            });
        }
    }
    None
}
