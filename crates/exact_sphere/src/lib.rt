//! The in-sphere polynomial of five points, exactly.
//!
//! ```
//! let value = sphere(a, b, c, d, e);  // positive where e is outside, for `orient(a, b, c, d)` above 0; below 2^77
//! ```
#![tactic(auto)]

ghost use Rattle.std.specs.Prelude.{◌≡◌, ◌<◌, ◌^◌, ◌*ℤ◌, ◌+ℤ◌, ◌-ℤ◌, unsigned_abs};
ghost use Rattle.whole_ring.specs.Bounds.{IsWithin};
ghost use Rattle.point_order.specs.Heights.{sphere_polynomial};
ghost use Rattle.point_order.specs.Sizes.{greatest_orientation, greatest_square};
ghost use Rattle.exact_sphere.specs.Sizes.{greatest_sphere, greatest_term};

use point_order::{Point, Step};

// A term of the polynomial: an orientation times a square.
#[inline]
fn term(orientation: i64, square: i64) -> i128
    requires orientation { IsWithin greatest_orientation orientation }
    requires square { IsWithin greatest_square square }
    ensures value { result ≡ orientation *ℤ square }
    ensures bound { IsWithin greatest_term result }
{
    orientation as i128 * square as i128
}

// p - q + r - s
#[inline]
fn alternating(p: i128, q: i128, r: i128, s: i128) -> i128
    requires p { IsWithin greatest_term p }
    requires q { IsWithin greatest_term q }
    requires r { IsWithin greatest_term r }
    requires s { IsWithin greatest_term s }
    ensures value { result ≡ p -ℤ q +ℤ r -ℤ s }
    ensures bound { IsWithin greatest_sphere result }
{
    p - q + r - s
}

/// The in-sphere polynomial: the determinant of five points lifted to the paraboloid of squares.
///
/// Where `a`, `b`, `c`, `d` have a positive orientation it is positive where `e` lies outside their sphere, negative
/// where it lies inside, and 0 where it lies on it. It is computed from the steps from `a`, with their squares and two
/// of their cross products.
#[inline]
pub fn sphere(a: Point, b: Point, c: Point, d: Point, e: Point) -> i128
    ensures value { result ≡ sphere_polynomial a b c d e }
    ensures bound { unsigned_abs result < 2 ^ 77 }
{
    let u = Step::between(a, b);
    let v = Step::between(a, c);
    let w = Step::between(a, d);
    let t = Step::between(a, e);
    alternating(
        term(w.triple(u, v), t.square()),
        term(t.triple(u, v), w.square()),
        term(u.triple(w, t), v.square()),
        term(v.triple(w, t), u.square()),
    )
}
