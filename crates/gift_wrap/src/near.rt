//! What is near a point that is taken: the cells at it and around it, each once, and their points.

ghost use Rattle.std.specs.Prelude.{◌≡◌, ◌<◌, ◌↔◌, ◌⊎◌, ℕ, IfOk, OnOk, IsTrue};
ghost use Rattle.std.specs.List.{flat_map};
ghost use Rattle.list_laws.specs.Lists.{AreDistinct};
ghost use Rattle.point_order.specs.CellOrder.{AreSameCells};
ghost use Rattle.point_order.specs.Facets.{points_of};
ghost use Rattle.point_order.specs.Sets.{IsIn, AreSamePoints};
ghost use Rattle.gift_wrap.specs.Near.{ArePointsBut};

use point_order::{Cell, Point, cells_in_order, has_cell, points_in_order};
use std::alloc::{AllocError, Global};

// As many cells as a point mostly has at the most: room for them is made at once.
const USUAL: usize = 40;

// Whether no cell stands twice in the list.
fn do_differ(cells: &[Cell]) -> bool
    ensures { IsTrue result → AreDistinct cells.now }
{
    for k in (0..cells.len()).rev() {
        if has_cell(&cells[k + 1..], &cells[k]) {
            return false;
        }
    }
    true
}

/// The cells, each once, in any order. Mostly they are so.
pub fn cells_once(cells: Vec<Cell>) -> Vec<Cell>
    ensures once { AreDistinct result.items }
    ensures cells { AreSameCells cells.items result.items }
{
    if cells.len() <= USUAL && do_differ(&cells) {
        cells
    } else {
        cells_in_order(cells)
    }
}

// The points of all these cells.
fn all_points(alloc: Global, cells: &[Cell]) -> Result<Vec<Point>, AllocError>
    ensures { IfOk result (λ points. points.items ≡ flat_map points_of cells.now) }
{
    let mut points = Vec::with_capacity(alloc, cells.len().saturating_mul(4))?;
    for cell in cells {
        points.extend_from_slice(cell.points())?;
    }
    Ok(points)
}

// For each rest of a division, where in a list of points the last one with this rest is likely to be.
type Seen = [u16; 256];

// The rest of the point.
fn rest_of(p: Point) -> usize
    ensures { result < 256 }
{
    ((p.key().wrapping_mul(0x9E37_79B9_7F4A_7C15) >> 32) % 256) as usize
}

// Whether the point is where the last one with its rest was put.
fn is_seen(points: &[Point], seen: &Seen, p: Point) -> bool
    ensures { IsTrue result → IsIn p points.now }
{
    let at = usize::from(seen[rest_of(p)]);
    if at >= points.len() {
        return false;
    }
    points[at] == p
}

// Adds the point, where it is not seen.
fn add_point(points: &mut Vec<Point>, seen: &mut Seen, p: Point) -> Result<(), AllocError>
    ensures { OnOk result ((q : ℕ) → IsIn q points.new.items ↔ (IsIn q points.old.items ⊎ (p ≡ q))) }
{
    if !is_seen(points, seen, p) {
        seen[rest_of(p)] = u16::try_from(points.len()).unwrap_or(u16::MAX);
        points.push(p)?;
    }
    Ok(())
}

// The same points, most of them once.
fn fewer_points(alloc: Global, points: &[Point]) -> Result<Vec<Point>, AllocError>
    ensures { IfOk result (λ fewer. AreSamePoints points.now fewer.items) }
{
    let mut fewer = Vec::with_capacity(alloc, USUAL)?;
    let mut seen = [0; 256];
    for p in points {
        add_point(&mut fewer, &mut seen, *p)?;
    }
    Ok(fewer)
}

/// The points of the cells other than v, ascending.
///
/// # Errors
/// Want of memory.
pub fn points_but(alloc: Global, cells: &[Cell], v: Point) -> Result<Vec<Point>, AllocError>
    ensures { IfOk result (λ points. ArePointsBut cells.now v points.items) }
{
    let mut points = all_points(alloc, cells)?;
    points.retain(|p| *p != v);
    let fewer = fewer_points(alloc, &points)?;
    Ok(points_in_order(fewer))
}
