//! The cells of four points, with which the list begins.

ghost use Rattle.std.specs.Prelude.{◌≡◌, ◌<◌, ◌∷◌, [], false, true, length, slice_index, IfOk, ℕ};
ghost use Rattle.point_order.specs.Orientation.{is_flat};
ghost use Rattle.point_order.specs.Sets.{IsAscending, IsIn};
ghost use Rattle.point_order.specs.Solid.{is_solid};
ghost use Rattle.cell_slots.specs.Clouds.{AreCellsOf};
ghost use Rattle.hole_laws.specs.FiveCells.{five_cells};

use edit_history::find_four;
use point_order::{Cell, Point};
use std::alloc::{AllocError, Global};

// The point at a place.
fn point_at(points: &[Point], i: usize) -> Point
    requires { i < length points.now }
    ensures { result ≡ slice_index points.now i }
{
    points[i]
}

/// Four independent points of a solid list that ascends, in order.
pub fn four_of(points: &[Point]) -> (Point, Point, Point, Point)
    requires ascending { IsAscending points.now }
    requires solid { is_solid points.now ≡ true }
    ensures first { result.0 < result.1 }
    ensures second { result.1 < result.2 }
    ensures third { result.2 < result.3 }
    ensures independent { is_flat result.0 result.1 result.2 result.3 ≡ false }
    ensures among { (q : ℕ) → IsIn q (result.0 ∷ result.1 ∷ result.2 ∷ result.3 ∷ []) → IsIn q points.now }
{
    match find_four(points) {
        Ok(four) => (
            point_at(points, four[0]),
            point_at(points, four[1]),
            point_at(points, four[2]),
            point_at(points, four[3]),
        ),
        Err(_) => unreachable!(),
    }
}

// The cells of four points that ascend: the Full cell, and the Open cell on each of its facets.
fn five_of(a: Point, b: Point, c: Point, d: Point) -> [Cell; 5]
    requires first { a < b }
    requires second { b < c }
    requires third { c < d }
    ensures { result ≡ five_cells a b c d }
{
    [
        Cell::full(a, b, c, d),
        Cell::hull(a, b, c),
        Cell::hull(a, b, d),
        Cell::hull(a, c, d),
        Cell::hull(b, c, d),
    ]
}

/// The list of these cells, of four independent points.
pub fn cells_of_four(
    alloc: Global,
    a: Point,
    b: Point,
    c: Point,
    d: Point,
) -> Result<Vec<Cell>, AllocError>
    requires first { a < b }
    requires second { b < c }
    requires third { c < d }
    requires independent { is_flat a b c d ≡ false }
    ensures { IfOk result (λ cells. AreCellsOf (a ∷ b ∷ c ∷ d ∷ []) cells.items) }
{
    let _ = (a.key(), b.key(), c.key(), d.key());
    let five = five_of(a, b, c, d);
    let cells = Vec::from_slice(alloc, &five)?;
    Ok(cells)
}
