//! The vertices of cells, most of them once.

ghost use Rattle.std.specs.Prelude.{◌≡◌, ◌↔◌, ◌⊎◌, ◌<◌, ℕ, OnOk, IsTrue};
ghost use Rattle.point_order.specs.declared.cell.Cell.{Cell};
ghost use Rattle.point_order.specs.Facets.{points_of};
ghost use Rattle.point_order.specs.Sets.{IsIn};
ghost use Rattle.cell_stars.specs.Places.{at_slot};
ghost use Rattle.list_laws.specs.Lists.{Gathers};
ghost use Rattle.cell_stars.specs.Gathering.{FromCell};

use point_order::{Cell, Point};
use std::alloc::AllocError;

// A number of 32 bits for the point that depends on all of its bits.
pub(crate) fn hash_of(p: Point) -> u64 {
    p.key().wrapping_mul(0x9E37_79B9_7F4A_7C15) >> 32
}

// For each rest of a division, where in a list of points the last one with this rest is likely to be.
pub(crate) type Seen = [u16; 512];

// The rest of the point.
pub(crate) fn rest_of(p: Point) -> usize
    ensures { result < 512 }
{
    (hash_of(p) % 512) as usize
}

// Whether the point is where the last one with its rest was put.
fn is_seen(list: &[Point], seen: &Seen, p: Point) -> bool
    ensures { IsTrue result → IsIn p list.now }
{
    let at = usize::from(seen[rest_of(p)]);
    if at >= list.len() {
        return false;
    }
    list[at] == p
}

// Adds the point, where it is not seen.
fn add_point(list: &mut Vec<Point>, seen: &mut Seen, p: Point) -> Result<(), AllocError>
    ensures { OnOk result ((q : ℕ) → IsIn q list.new.items ↔ (IsIn q list.old.items ⊎ (p ≡ q))) }
{
    if !is_seen(list, seen, p) {
        seen[rest_of(p)] = u16::try_from(list.len()).unwrap_or(u16::MAX);
        list.push(p)?;
    }
    Ok(())
}

// Adds the vertices of the cell.
fn add_points(list: &mut Vec<Point>, seen: &mut Seen, cell: &Cell) -> Result<(), AllocError>
    ensures { OnOk result ((p : ℕ) → IsIn p list.new.items ↔ (IsIn p list.old.items ⊎ IsIn p (points_of cell.now))) }
{
    for p in cell.points() {
        add_point(list, seen, *p)?;
    }
    Ok(())
}

// Adds those of the cells.
pub(crate) fn add_vertices(
    list: &mut Vec<Point>,
    seen: &mut Seen,
    cells: &[Cell],
) -> Result<(), AllocError>
    ensures { OnOk result (Gathers FromCell cells.now list.old.items list.new.items) }
{
    for cell in cells {
        add_points(list, seen, cell)?;
    }
    Ok(())
}
