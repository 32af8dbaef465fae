//! Points by their numbers, and cells by those of their points.

ghost use Rattle.std.specs.Prelude.{◌≡◌, ◌∷◌, [], ◌<◌, true, IfOk};
ghost use Rattle.cell_lists.specs.Rows.{AreMore, HasNumber, IsRow, corners_of};

use point_order::{Cell, Point, Quad};
use std::alloc::AllocError;

/// Where the four points of a cell are likely to be known, in their order. It is looked at before it is believed.
#[derive(Clone, Copy, Debug)]
pub struct Places {
    pub a: u64,
    pub b: u64,
    pub c: u64,
    pub d: u64,
}

// Where the point is likely to be among ascending ones.
fn place_among(points: &[Point], p: Point) -> u64 {
    match points.binary_search(&p) {
        Ok(place) | Err(place) => place as u64,
    }
}

impl Places {
    // Where the points of the cell are likely to be among these ascending ones.
    pub(crate) fn among(points: &[Point], quad: Quad) -> Places {
        let (a, b, c, d) = quad.corners();
        Places {
            a: place_among(points, a),
            b: place_among(points, b),
            c: place_among(points, c),
            d: place_among(points, d),
        }
    }
}

// A cell by the numbers of its points.
#[derive(Clone, Copy, Debug)]
pub(crate) struct Row {
    a: u32,
    b: u32,
    c: u32,
    d: u32,
}

// Whether the point has the number.
fn is_number(points: &[Point], p: Point, number: u32) -> bool
    ensures { result ≡ true → HasNumber points.now number p }
{
    let place = number as usize;
    place < points.len() && points[place] == p
}

// Puts a point behind the others, and answers its number.
fn add(points: &mut Vec<Point>, p: Point) -> Result<u32, AllocError>
    ensures more { AreMore points.old.items points.new.items }
    ensures number { IfOk result (λ i. HasNumber points.new.items i p) }
{
    let Ok(number) = u32::try_from(points.len()) else {
        return Err(AllocError);
    };
    points.push(p)?;
    Ok(number)
}

// The number of a point, which is likely to be this one. Where it is not, the point is put behind the others.
fn number_in(points: &mut Vec<Point>, p: Point, likely: u64) -> Result<u32, AllocError>
    ensures more { AreMore points.old.items points.new.items }
    ensures number { IfOk result (λ i. HasNumber points.new.items i p) }
{
    let number = u32::try_from(likely).unwrap_or(u32::MAX);
    if is_number(points, p, number) {
        return Ok(number);
    }
    add(points, p)
}

// The row of a cell, the points of which are known then.
pub(crate) fn row_in(points: &mut Vec<Point>, quad: Quad, places: Places) -> Result<Row, AllocError>
    ensures more { AreMore points.old.items points.new.items }
    ensures row { IfOk result (λ r. IsRow points.new.items r × (corners_of points.new.items r ≡ quad)) }
{
    let (a, b, c, d) = quad.corners();
    let a = number_in(points, a, places.a)?;
    let b = number_in(points, b, places.b)?;
    let c = number_in(points, c, places.c)?;
    let d = number_in(points, d, places.d)?;
    Ok(Row { a, b, c, d })
}

// The cell of four ascending points.
fn quad_of(a: Point, b: Point, c: Point, d: Point) -> Quad
    requires first { a < b }
    requires second { b < c }
    requires third { c < d }
    ensures { result ≡ a ∷ b ∷ c ∷ d ∷ [] }
{
    match Cell::full(a, b, c, d) {
        Cell::Full(quad) => quad,
        Cell::Open(_) => unreachable!(),
    }
}

// The cell of a row.
pub(crate) fn quad_in(points: &[Point], row: Row) -> Quad
    requires { IsRow points.now row }
    ensures { result ≡ corners_of points.now row }
{
    quad_of(
        points[row.a as usize],
        points[row.b as usize],
        points[row.c as usize],
        points[row.d as usize],
    )
}
