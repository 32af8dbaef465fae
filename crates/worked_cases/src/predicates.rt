//! Orientations, spheres and conflicts.

ghost use Rattle.std.specs.Prelude.{◌≡◌};
ghost use Rattle.point_order.specs.Orientation.{is_flat};

use crate::reading::{Word, are_four, at, list_at};
use crate::telling::Answer;
use exact_orient::{collinear, orient};
use exact_sphere::sphere;
use point_order::{Cell, Point};
use sphere_ties::{conflict, outside};

/// Answers a case of the orientation of four points or of the sphere of five.
pub(crate) fn number(answer: &mut Answer, words: &str) -> Option<()> {
    match *answer.all::<Point>(words) {
        [a, b, c, d] => answer.put(orient(a, b, c, d)),
        [a, b, c, d, e] => answer.put(sphere(a, b, c, d, e)),
        _ => return None,
    }
    Some(())
}

// The four lie in one plane.
fn is_flat_four(a: Point, b: Point, c: Point, d: Point) -> bool
    ensures { result ≡ is_flat a b c d }
{
    orient(a, b, c, d) == 0
}

// Whether the last is outside, where the four are independent and it is none of them.
fn judged(a: Point, b: Point, c: Point, d: Point, e: Point) -> Option<bool> {
    if is_flat_four(a, b, c, d) || !are_four(a, b, c, d) {
        None
    } else if e == a || e == b || e == c || e == d {
        None
    } else {
        Some(outside(a, b, c, d, e))
    }
}

/// Answers a case of three points in a line or of a point outside the sphere of four others.
pub(crate) fn truth(answer: &mut Answer, words: &str) -> Option<()> {
    match *answer.all::<Point>(words) {
        [a, b, c] => answer.put(collinear(a, b, c)),
        [a, b, c, d, e] => answer.put(judged(a, b, c, d, e)?),
        _ => return None,
    }
    Some(())
}

// Whether the point is in conflict with the cell, as the mate sees it, where that can be judged.
fn conflict_judged(cell: &Cell, mate: Point, p: Point) -> Option<bool> {
    if cell.has(p) {
        return None;
    }
    match *cell {
        Cell::Full(quad) => {
            let (a, b, c, d) = quad.corners();
            if is_flat_four(a, b, c, d) {
                None
            } else {
                Some(conflict(cell, mate, p))
            }
        }
        Cell::Open(tri) => {
            let (a, b, c) = tri.corners();
            if is_flat_four(a, b, c, mate) || mate == p {
                None
            } else {
                Some(conflict(cell, mate, p))
            }
        }
    }
}

/// Answers a case of a conflict.
pub(crate) fn in_conflict(answer: &mut Answer, lists: &str) -> Option<()> {
    let cell = Cell::of(list_at(lists, 0))?;
    let last = list_at(lists, 1);
    answer.put(conflict_judged(&cell, at(last, 0)?, at(last, 1)?)?);
    Some(())
}
