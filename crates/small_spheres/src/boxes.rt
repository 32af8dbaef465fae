//! Whether the circumscribing sphere of a cell lies strictly inside a box.

ghost use Rattle.std.specs.Prelude.{◌≡◌, ℕ, pos, ◌==◌, ◌&&◌, ◌||◌};
ghost use Rattle.whole_ring.specs.Bounds.{IsWithin};
ghost use Rattle.point_order.specs.Sizes.{greatest_difference, greatest_orientation};
ghost use Rattle.small_spheres.specs.Boxes.{low_gap, high_gap, is_clear, is_inside_box};
ghost use Rattle.small_spheres.specs.Sizes.{greatest_gap, greatest_scalar};

use crate::products::product_of;
use crate::radii::{centre_of, square_of};
use point_order::{Point, Step};

// `n - 2 o (s - 1)`, below 2^61
fn gap_low(o: i64, n: i64, s: i64) -> i64
    requires o { IsWithin greatest_orientation o }
    requires n { IsWithin greatest_scalar n }
    requires s { IsWithin greatest_difference s }
    ensures value { result ≡ low_gap o n s }
{
    n - 2 * o * (s - 1)
}

// `2 o (s + 1) - n`, below 2^61
fn gap_high(o: i64, n: i64, s: i64) -> i64
    requires o { IsWithin greatest_orientation o }
    requires n { IsWithin greatest_scalar n }
    requires s { IsWithin greatest_difference s }
    ensures value { result ≡ high_gap o n s }
{
    2 * o * (s + 1) - n
}

// whether a plane at this gap is beyond the sphere
fn clear(o: i64, square: i128, gap: i64) -> bool
    ensures { result ≡ is_clear o square gap }
{
    product_of(o, gap) > 0 && square < product_of(gap, gap)
}

// whether it is at the low end of the box along an axis, which may be free
fn low_end(free: bool, o: i64, square: i128, n: i64, s: i64) -> bool
    requires o { IsWithin greatest_orientation o }
    requires n { IsWithin greatest_scalar n }
    requires s { IsWithin greatest_difference s }
    ensures { result ≡ (free || is_clear o square (low_gap o n s)) }
{
    free || clear(o, square, gap_low(o, n, s))
}

// and at the high end
fn high_end(free: bool, o: i64, square: i128, n: i64, s: i64) -> bool
    requires o { IsWithin greatest_orientation o }
    requires n { IsWithin greatest_scalar n }
    requires s { IsWithin greatest_difference s }
    ensures { result ≡ (free || is_clear o square (high_gap o n s)) }
{
    free || clear(o, square, gap_high(o, n, s))
}

// a coordinate is 0, or the greatest
fn is_first(coordinate: i64) -> bool
    ensures { (k : ℕ) → coordinate ≡ pos k → result ≡ (k == 0) }
{
    coordinate == 0
}

fn is_last(coordinate: i64) -> bool
    ensures { (k : ℕ) → coordinate ≡ pos k → result ≡ (k == 16383) }
{
    coordinate == 16383
}

// all six
fn all_of(k: bool, l: bool, m: bool, n: bool, p: bool, q: bool) -> bool
    ensures { result ≡ ((k && l) && (m && n) && (p && q)) }
{
    k && l && m && n && p && q
}

/// Whether the circumscribing sphere of the cell lies strictly inside a box: then no point outside the box lies in the
/// sphere or on it. The box has the points from the corner `low` to the corner `high`, both its own. Along an axis it
/// is open to 0 and to 16383, as no point lies beyond.
///
/// With `O` and `N` as for `cell_within`, and `X` the first plane of points outside along an axis, it is the test that
/// `g = 2 O (X - a) - N` has the sign of `O` where `X` is above, the other where it is below, and that `g^2 > |N|^2`.
pub fn sphere_inside(a: Point, b: Point, c: Point, d: Point, low: Point, high: Point) -> bool
    ensures { result ≡ is_inside_box a b c d low high }
{
    let o = Step::between(a, b).triple(Step::between(a, c), Step::between(a, d));
    let n = centre_of(a, b, c, d);
    let square = square_of(n);
    let s = Step::between(a, low);
    let t = Step::between(a, high);
    all_of(
        low_end(is_first(low.x()), o, square, n.x, s.x),
        high_end(is_last(high.x()), o, square, n.x, t.x),
        low_end(is_first(low.y()), o, square, n.y, s.y),
        high_end(is_last(high.y()), o, square, n.y, t.y),
        low_end(is_first(low.z()), o, square, n.z, s.z),
        high_end(is_last(high.z()), o, square, n.z, t.z),
    )
}
