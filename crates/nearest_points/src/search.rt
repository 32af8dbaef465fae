//! The first of some points, as seen from a place.

ghost use Rattle.std.specs.Prelude.{◌≡◌, ℕ, ◌∷◌};
ghost use Rattle.whole_ring.specs.Bounds.{IsWithin};
ghost use Rattle.point_order.specs.Orientation.{distance};
ghost use Rattle.point_order.specs.Sizes.{greatest_square};
ghost use Rattle.del_laws.specs.Nearest.{comes_before as is_first};
ghost use Rattle.nearest_points.specs.Points.{IsFirstOf};

use point_order::{Point, Step};

/// The square of the distance of a point from `q`, below 2^30.
pub fn square_from(q: Point, a: Point) -> i64
    ensures value { result ≡ distance q a }
    ensures bound { IsWithin greatest_square result }
{
    Step::between(q, a).square()
}

// Whether a comes before b, as seen from a place from which the squares of their distances are these: it is nearer, or
// as near with the lesser key.
fn comes_before(near: i64, a: Point, far: i64, b: Point) -> bool
    requires near_bound { IsWithin greatest_square near }
    requires far_bound { IsWithin greatest_square far }
    ensures { (q : ℕ) → near ≡ distance q a → far ≡ distance q b → result ≡ is_first q a b }
{
    near < far || (!(far < near) && a < b)
}

/// The first, as seen from q, of a point and the points of a list: the nearest, and among those as near the one with
/// the least key. It takes no memory.
pub fn first_among(q: Point, p: Point, points: &[Point]) -> Point
    ensures { IsFirstOf q (p ∷ points.now) result }
{
    let mut first = p;
    let mut least = square_from(q, p);
    for x in points {
        let square = square_from(q, *x);
        if comes_before(square, *x, least, first) {
            first = *x;
            least = square;
        }
    }
    first
}
