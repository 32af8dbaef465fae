//! What a check of lists comes to.

use point_order::{Cell, Facet, Point, Tri};

/// What is wrong with lists that are to be the complex of a set of points.
#[derive(Clone, Copy, Debug, PartialEq, Eq)]
pub enum Flaw {
    /// Both lists are empty.
    Empty,
    /// The points of the cell are in one plane, or those of a triple on one line.
    FlatCell(Cell),
    /// The two points lie strictly on opposite sides of the triple.
    Sides { tri: Tri, e: Point, f: Point },
    /// The point is not outside the cell.
    Inside { cell: Cell, point: Point },
    /// The facet is not one of exactly two cells.
    OpenFacet(Facet),
}

/// What a check of lists comes to.
#[derive(Clone, Copy, Debug, PartialEq, Eq)]
pub enum Verdict {
    /// They are the complex.
    Good,
    /// They are not, and this is the first flaw.
    Bad(Flaw),
}
