//! The nearest point to a place, where all points of a set are looked at.

ghost use Rattle.std.specs.Prelude.{◌∷◌, true, ◌≡◌};
ghost use Rattle.point_order.specs.Solid.{is_solid};
ghost use Rattle.nearest_points.specs.Points.{IsFirstOf, IsNearest};

use nearest_points::first_among;
use point_order::Point;
use std::collections::BTreeSet;

// The first, as seen from q, of a point and all points of a set.
fn first_of_all(points: &BTreeSet<Point>, q: Point, p: Point) -> Point
    ensures { IsFirstOf q (p ∷ points.now.keys) result }
{
    let mut first = p;
    for x in points {
        first = first_among(q, first, &[*x]);
    }
    first
}

// The nearest point of a set, where all are looked at.
pub(crate) fn nearest_of_all(points: &BTreeSet<Point>, q: Point) -> Point
    requires { is_solid points.now.keys ≡ true }
    ensures { IsNearest points.now.keys q result }
{
    match points.first() {
        Some(p) => first_of_all(points, q, *p),
        None => unreachable!(),
    }
}
