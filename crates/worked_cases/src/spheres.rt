//! Smallest spheres of edges, triangles and cells.

use crate::reading::{at, list_at};
use crate::telling::Answer;
use point_order::Point;
use small_spheres::{
    cell_least, cell_within, edge_least, edge_within, inside_edge, inside_triangle, sphere_inside,
    triangle_least, triangle_within,
};

/// Answers whether a point is inside the smallest sphere of an edge or a triangle.
pub(crate) fn inside(answer: &mut Answer, lists: &str) -> Option<()> {
    let e = at(list_at(lists, 1), 0)?;
    match *answer.all::<Point>(list_at(lists, 0)) {
        [a, b] => answer.put(inside_edge(a, b, e)),
        [a, b, c] => answer.put(inside_triangle(a, b, c, e)),
        _ => return None,
    }
    Some(())
}

/// Answers whether the sphere of a cell is strictly inside a box, which has two corners.
pub(crate) fn boxed(answer: &mut Answer, lists: &str) -> Option<()> {
    let low = at(list_at(lists, 1), 0)?;
    let high = at(list_at(lists, 1), 1)?;
    match *answer.all::<Point>(list_at(lists, 0)) {
        [a, b, c, d] => answer.put(sphere_inside(a, b, c, d, low, high)),
        _ => return None,
    }
    Some(())
}

// Whether the smallest sphere of the edge, triangle or cell is within alpha, for a cell one below 2^34, and the least
// alpha of which it is.
fn within_of(points: &[Point], alpha: u64) -> Option<(bool, u64)> {
    match *points {
        [a, b] => Some((edge_within(a, b, alpha), edge_least(a, b))),
        [a, b, c] => Some((triangle_within(a, b, c, alpha), triangle_least(a, b, c))),
        [a, b, c, d] if alpha < 1 << 34 => {
            Some((cell_within(a, b, c, d, alpha), cell_least(a, b, c, d)))
        }
        _ => None,
    }
}

/// Answers a case of an alpha.
pub(crate) fn within(answer: &mut Answer, lists: &str) -> Option<()> {
    let alpha = at(list_at(lists, 1), 0)?;
    let points = answer.all::<Point>(list_at(lists, 0));
    let (truth, least) = within_of(&points, alpha)?;
    write!(answer, "{truth}, least {least}");
    Some(())
}
