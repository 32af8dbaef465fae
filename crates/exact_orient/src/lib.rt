//! The orientation of four points, exactly.
//!
//! ```
//! let flat = orient(a, b, c, d) == 0;  // six times the signed volume, below 2^45
//! ```
#![tactic(auto)]

ghost use Rattle.std.specs.Prelude.{◌≡◌, ◌&&◌, ◌<◌, ◌^◌, unsigned_abs};
ghost use Rattle.point_order.specs.Orientation.{orientation, is_collinear, is_zero};

use point_order::{Point, Step};

/// `(b - a) . ((c - a) x (d - a))`: six times the signed volume of the four points, 0 where they lie in one plane.
#[inline]
pub fn orient(a: Point, b: Point, c: Point, d: Point) -> i64
    ensures value { result ≡ orientation a b c d }
    ensures bound { unsigned_abs result < 2 ^ 45 }
{
    Step::between(a, b).triple(Step::between(a, c), Step::between(a, d))
}

/// Whether the three points lie on one line: the normal `(b - a) x (c - a)` is 0.
#[inline]
pub fn collinear(a: Point, b: Point, c: Point) -> bool
    ensures { result ≡ is_collinear a b c }
{
    let normal = Step::between(a, b).cross(Step::between(a, c));
    are_zero(normal.x, normal.y, normal.z)
}

// All three are 0.
#[inline]
fn are_zero(x: i64, y: i64, z: i64) -> bool
    ensures { result ≡ (is_zero x && is_zero y && is_zero z) }
{
    x == 0 && y == 0 && z == 0
}
