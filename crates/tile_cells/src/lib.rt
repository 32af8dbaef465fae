//! Cells of a tile, a part of a cloud, that are cells of the whole cloud.
//!
//! Each function here does nothing, and its contract is a law. A tile has all points of the cloud that lie in a box. A
//! Full cell of the tile's complex whose sphere lies strictly inside the box is a cell of the complex of the cloud;
//! `small_spheres::sphere_inside` tells whether it does.
#![tactic(auto)]

ghost use Rattle.tile_cells.specs.Tiles.{InsideBoxIsWhole, ListedInsideBoxIsWhole, AboveIsWhole};
ghost use Rattle.tile_cells.specs.Left.{FoundOrLeft, OnlyOneLeft};

/// A Full cell of a tile whose sphere lies strictly inside the tile's box is one of the whole cloud.
pub fn cells_of_a_tile()
    ensures inside { InsideBoxIsWhole }
    ensures listed { ListedInsideBoxIsWhole }
{}

/// An Open cell of a tile, above whose plane all boxes of other tiles lie, is one of the whole cloud.
pub fn open_cells_of_a_tile()
    ensures { AboveIsWhole }
{}

/// A cell of the whole cloud that no tile has found is a cell of the points that are left, those with a facet in one
/// found cell alone, or in no found cell. On the far side of such a facet it is the only Full cell of these points.
pub fn cells_that_are_left()
    ensures left { FoundOrLeft }
    ensures only { OnlyOneLeft }
{}
