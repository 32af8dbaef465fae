//! The answer to a query.

ghost use Rattle.std.specs.Prelude.{◌≡◌, pos};
ghost use Rattle.point_order.specs.Orientation.{distance};

use crate::search::square_from;
use point_order::Point;

/// The answer to a query: the nearest point, and how far it is.
#[derive(Clone, Copy, Debug)]
pub struct Near {
    /// The nearest point, among those as near the one with the least key.
    pub point: Point,
    /// The square of its distance, below 2^30.
    pub square: u64,
}

// The square of the distance of a point from q.
fn square_of(q: Point, p: Point) -> u64
    ensures { pos result ≡ distance q p }
{
    square_from(q, p).unsigned_abs()
}

impl Near {
    /// The answer to the query `q` whose nearest point is already known.
    pub fn at(q: Point, point: Point) -> Near
        ensures point { result.point ≡ point }
        ensures square { pos result.square ≡ distance q point }
    {
        let square = square_of(q, point);
        Near { point, square }
    }
}
