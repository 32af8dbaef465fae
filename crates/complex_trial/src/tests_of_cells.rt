//! Whether points of a set are a cell of its complex, by the definition.

ghost use Rattle.std.specs.Prelude.{◌≡◌, ◌<◌, [], ◌∷◌, ◌||◌, not, false, true, pos, ◌<ℤ◌};
ghost use Rattle.std.specs.List.{list_all, find};
ghost use Rattle.std.specs.Int.Signed.{lt_z, le_z};
ghost use Rattle.point_order.specs.Orientation.{orientation, is_flat};
ghost use Rattle.point_order.specs.Heights.{out};
ghost use Rattle.point_order.specs.Sets.{AreThree, AreFour, is_among};
ghost use Rattle.point_order.specs.Spheres.{is_outside};
ghost use Rattle.point_order.specs.Complex.{is_full, is_open, is_open_from, is_empty_in_plane};

use exact_orient::{collinear, orient};
use point_order::Point;
use sphere_ties::outside;

// e is one of the four, or outside their perturbed sphere.
fn leaves_sphere(a: Point, b: Point, c: Point, d: Point, e: Point) -> bool
    requires independent { is_flat a b c d ≡ false }
    requires distinct { AreFour a b c d }
    ensures { result ≡ (is_among e (a ∷ b ∷ c ∷ d ∷ []) || is_outside a b c d e) }
{
    e == a || e == b || e == c || e == d || outside(a, b, c, d, e)
}

// Every point is one of the four, or outside their perturbed sphere.
fn all_leave_sphere(points: &[Point], a: Point, b: Point, c: Point, d: Point) -> bool
    requires independent { is_flat a b c d ≡ false }
    requires distinct { AreFour a b c d }
    ensures { result ≡ list_all (λ e. is_among e (a ∷ b ∷ c ∷ d ∷ []) || is_outside a b c d e) points.now }
{
    for e in points {
        if !leaves_sphere(a, b, c, d, *e) {
            return false;
        }
    }
    true
}

// The four lie in one plane.
fn flat(a: Point, b: Point, c: Point, d: Point) -> bool
    ensures { result ≡ is_flat a b c d }
{
    orient(a, b, c, d) == 0
}

/// Whether four of the points, all different, are a Full cell.
pub(crate) fn is_full_cell(points: &[Point], a: Point, b: Point, c: Point, d: Point) -> bool
    requires { AreFour a b c d }
    ensures { result ≡ is_full points.now (a ∷ b ∷ c ∷ d ∷ []) }
{
    !flat(a, b, c, d) && all_leave_sphere(points, a, b, c, d)
}

// No point lies below the plane of the three, seen in their order.
fn none_below(points: &[Point], a: Point, b: Point, c: Point) -> bool
    ensures { result ≡ list_all (λ e. le_z (pos 0) (orientation a b c e)) points.now }
{
    for e in points {
        if orient(a, b, c, *e) < 0 {
            return false;
        }
    }
    true
}

// The first point above the plane of the three, seen in their order.
fn first_above(points: &[Point], a: Point, b: Point, c: Point) -> Option<Point>
    ensures { result ≡ find (λ f. lt_z (pos 0) (orientation a b c f)) points.now }
{
    for f in points {
        if orient(a, b, c, *f) > 0 {
            return Some(*f);
        }
    }
    None
}

// e is one of the three.
fn is_corner(a: Point, b: Point, c: Point, e: Point) -> bool
    ensures { result ≡ is_among e (a ∷ b ∷ c ∷ []) }
{
    e == a || e == b || e == c
}

// e is one of the three, or off their plane, or outside the perturbed sphere of the three and the mate above them.
fn leaves_plane(a: Point, b: Point, c: Point, mate: Point, e: Point) -> bool
    requires above { pos 0 <ℤ orientation a b c mate }
    requires distinct { AreThree a b c }
    ensures { result ≡ (is_among e (a ∷ b ∷ c ∷ []) || not (is_flat a b c e) || lt_z (pos 0) (out a b c mate e)) }
{
    if is_corner(a, b, c, e) {
        true
    } else if !flat(a, b, c, e) {
        true
    } else {
        outside(a, b, c, mate, e)
    }
}

// Every point is one of the three, or off their plane, or outside the perturbed sphere of the three and the mate.
fn all_leave_plane(points: &[Point], a: Point, b: Point, c: Point, mate: Point) -> bool
    requires above { pos 0 <ℤ orientation a b c mate }
    requires distinct { AreThree a b c }
    ensures { result ≡ list_all
        (λ e. is_among e (a ∷ b ∷ c ∷ []) || not (is_flat a b c e) || lt_z (pos 0) (out a b c mate e)) points.now }
{
    for e in points {
        if !leaves_plane(a, b, c, mate, *e) {
            return false;
        }
    }
    true
}

// The three are an Open cell, seen in their order.
fn is_open_seen_from(points: &[Point], a: Point, b: Point, c: Point) -> bool
    requires { AreThree a b c }
    ensures { result ≡ is_open_from points.now a b c }
{
    if !none_below(points, a, b, c) {
        return false;
    }
    match first_above(points, a, b, c) {
        None => false,
        Some(mate) => all_leave_plane(points, a, b, c, mate),
    }
}

/// Whether three of the points, all different, are an Open cell.
pub(crate) fn is_open_cell(points: &[Point], a: Point, b: Point, c: Point) -> bool
    requires { AreThree a b c }
    ensures { result ≡ is_open points.now (a ∷ b ∷ c ∷ []) }
{
    !collinear(a, b, c)
        && (is_open_seen_from(points, a, b, c) || is_open_seen_from(points, a, c, b))
}
