//! Points and cells in order, each once, and cells found in lists.

ghost use Rattle.std.specs.Prelude.{◌≡◌, ◌↔◌, IsTrue};
ghost use Rattle.std.specs.List.Sorted.{IsStrictlySortedBy};
ghost use Rattle.point_order.specs.CellOrder.{cell_cmp, AreSameCells};
ghost use Rattle.point_order.specs.Sets.{IsAscending, IsIn, AreSamePoints};

use crate::cell::Cell;
use crate::point::Point;

/// The points, ascending, each once. It takes no memory.
pub fn points_in_order(mut points: Vec<Point>) -> Vec<Point>
    ensures order { IsAscending result.items }
    ensures points { AreSamePoints points.items result.items }
{
    points.sort_unstable();
    points.dedup();
    points
}

/// The cells in their order, each once. It takes no memory.
pub fn cells_in_order(mut cells: Vec<Cell>) -> Vec<Cell>
    ensures order { IsStrictlySortedBy cell_cmp result.items }
    ensures cells { AreSameCells cells.items result.items }
{
    cells.sort_unstable();
    cells.dedup();
    cells
}

/// Whether the cell is one of the list, in whatever order that is. Each is looked at in turn.
pub fn has_cell(cells: &[Cell], cell: &Cell) -> bool
    ensures { IsTrue result ↔ IsIn cell.now cells.now }
{
    for other in cells {
        if other.is_same(cell) {
            return true;
        }
    }
    false
}
