//! The opening four: the points that a mesh begins with.

ghost use Rattle.std.specs.Prelude.{◌≡◌, ◌∷◌, true, ◌↔◌, ◌+◌, ◌<◌, Bool, false, not, ◌==◌, ◌&&◌, Option, None, Some};
ghost use Rattle.std.specs.Prelude.{length, slice_index, is_some, IfOk, IfSome, IsErr};
ghost use Rattle.std.specs.Option.{option_map};
ghost use Rattle.std.specs.List.{position_from};
ghost use Rattle.point_order.specs.Coordinates.{IsKey};
ghost use Rattle.point_order.specs.Orientation.{is_flat as is_flat_of, is_collinear as is_collinear_of};
ghost use Rattle.point_order.specs.Orientation.{is_zero as is_zero_of};
ghost use Rattle.point_order.specs.Solid.{is_solid};
ghost use Rattle.edit_history.specs.Opening.{opening_four};
ghost use Rattle.edit_history.specs.OneThread.{places};
ghost use Rattle.edit_history.specs.PassedOver.{is_kept as is_kept_of, kept, four_but as four_but_of};

use point_order::{Point, Step};
use thiserror::Error;

/// No four of the points are independent: they lie in one plane.
#[derive(Clone, Copy, Debug, PartialEq, Eq, Error)]
#[error("no four independent points")]
pub struct NotSolid;

/// The places of the four points that a mesh begins with: the first point; the first after it that differs from it;
/// the first after that off the line of the two; the first after that off the plane of the three.
///
/// It takes no memory.
///
/// # Errors
/// `NotSolid` where no four of the points are independent.
pub fn find_four(points: &[Point]) -> Result<[usize; 4], NotSolid>
    ensures found { IfOk result (λ four. option_map places (opening_four points.now) ≡ Some four) }
    ensures none { IsErr result ↔ (opening_four points.now ≡ None) }
    ensures refused { IsErr result ↔ (is_solid points.now ≡ false) }
{
    four_but(None, points).ok_or(NotSolid)
}

// The places of the opening four of the points other than the absent one.
pub(crate) fn four_but(absent: Option<Point>, points: &[Point]) -> Option<[usize; 4]>
    ensures four { result ≡ option_map places (four_but_of absent points.now) }
    ensures solid { is_some result ≡ is_solid (kept absent points.now) }
{
    let i = first_kept(absent, points)?;
    let a = point_at(points, i);
    let j = i + 1 + first_distinct(absent, &points[i + 1..], a)?;
    let b = point_at(points, j);
    let k = j + 1 + first_off_line(absent, &points[j + 1..], a, b)?;
    let c = point_at(points, k);
    let l = k + 1 + first_off_plane(absent, &points[k + 1..], a, b, c)?;
    Some([i, j, k, l])
}

// Whether the point b and the points other than the absent one, which is not b, are solid.
pub(crate) fn is_solid_with(b: Point, absent: Option<Point>, points: &[Point]) -> bool
    requires { is_kept_of absent b ≡ true }
    ensures { result ≡ is_solid (b ∷ kept absent points.now) }
{
    three_beside(b, absent, points).is_some()
}

// The place of a point off the plane of b and the two points that the search finds before it.
fn three_beside(b: Point, absent: Option<Point>, points: &[Point]) -> Option<usize>
    requires { is_kept_of absent b ≡ true }
    ensures { is_some result ≡ is_solid (b ∷ kept absent points.now) }
{
    // Nothing is read: the call promises that b is a key.
    let _ = b.key();
    let i = first_distinct(absent, points, b)?;
    let c = point_at(points, i);
    let j = i + 1 + first_off_line(absent, &points[i + 1..], b, c)?;
    let d = point_at(points, j);
    first_off_plane(absent, &points[j + 1..], b, c, d)
}

// The point of an index.
fn point_at(points: &[Point], index: usize) -> Point
    requires { index < length points.now }
    ensures point { result ≡ slice_index points.now index }
    ensures key { IsKey (slice_index points.now index) }
{
    let p = points[index];
    // Nothing is read: the call promises that the point is a key.
    let _ = p.key();
    p
}

// Whether the point is not the absent one.
fn is_kept(absent: Option<Point>, q: Point) -> bool
    ensures { result ≡ is_kept_of absent q }
{
    match absent {
        None => true,
        Some(p) => q != p,
    }
}

// The place of the first point that is not absent.
fn first_kept(absent: Option<Point>, points: &[Point]) -> Option<usize>
    ensures place { result ≡ position_from (is_kept_of absent) 0 points.now }
    ensures within { IfSome result (λ n. n < length points.now) }
{
    points.iter().position(|q| is_kept(absent, *q))
}

// The place of the first point that differs from a.
fn first_distinct(absent: Option<Point>, points: &[Point], a: Point) -> Option<usize>
    ensures place { result ≡ position_from (λ b. is_kept_of absent b && not (b == a)) 0 points.now }
    ensures within { IfSome result (λ n. n < length points.now) }
{
    points.iter().position(|b| is_kept(absent, *b) && *b != a)
}

// The place of the first point that is not on the line of a and b.
fn first_off_line(absent: Option<Point>, points: &[Point], a: Point, b: Point) -> Option<usize>
    ensures place { result ≡ position_from (λ c. is_kept_of absent c && not (is_collinear_of a b c)) 0 points.now }
    ensures within { IfSome result (λ n. n < length points.now) }
{
    points
        .iter()
        .position(|c| is_kept(absent, *c) && !is_collinear(a, b, *c))
}

// The place of the first point that is not in the plane of a, b and c.
fn first_off_plane(
    absent: Option<Point>,
    points: &[Point],
    a: Point,
    b: Point,
    c: Point,
) -> Option<usize>
    ensures place { result ≡ position_from (λ d. is_kept_of absent d && not (is_flat_of a b c d)) 0 points.now }
    ensures within { IfSome result (λ n. n < length points.now) }
{
    points
        .iter()
        .position(|d| is_kept(absent, *d) && !is_flat(a, b, c, *d))
}

// Whether the three points lie on one line: each part of their normal is 0.
fn is_collinear(a: Point, b: Point, c: Point) -> bool
    ensures { result ≡ is_collinear_of a b c }
{
    let u = Step::between(a, b);
    let v = Step::between(a, c);
    let x = Step { x: 1, y: 0, z: 0 }.triple(u, v);
    let y = Step { x: 0, y: 1, z: 0 }.triple(u, v);
    let z = Step { x: 0, y: 0, z: 1 }.triple(u, v);
    are_zero(x, y, z)
}

// Whether the four points lie in one plane.
fn is_flat(a: Point, b: Point, c: Point, d: Point) -> bool
    ensures { result ≡ is_flat_of a b c d }
{
    let u = Step::between(a, b);
    let v = Step::between(a, c);
    let w = Step::between(a, d);
    u.triple(v, w) == 0
}

// Whether all three numbers are 0.
fn are_zero(x: i64, y: i64, z: i64) -> bool
    ensures { result ≡ (is_zero_of x && is_zero_of y && is_zero_of z) }
{
    x == 0 && y == 0 && z == 0
}
