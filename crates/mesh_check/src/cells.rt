//! The first flaw of a cell.

ghost use Rattle.std.specs.Prelude.{◌≡◌, ◌&&◌, ◌||◌, not, true, false, [], ◌∷◌, ◌++◌, map, None, Some};
ghost use Rattle.std.specs.List.{find};
ghost use Rattle.point_order.specs.Conflicts.{are_opposite};
ghost use Rattle.point_order.specs.Orientation.{is_flat};
ghost use Rattle.point_order.specs.Sets.{AreThree, AreFour, is_among};
ghost use Rattle.point_order.specs.Spheres.{is_outside};
ghost use Rattle.point_order.specs.declared.cell.Cell.TheVariants.{Full, Open};
ghost use Rattle.mesh_check.specs.Flaws.{first_flaw as flaw_in, flaw_of, is_inside_with, as_cells};
ghost use Rattle.mesh_check.specs.Laws.{AreSound};

use crate::flaw::Flaw;
use crate::matching::is_marked;
use cell_lists::QuadList;
use cloud_cells::Known;
use exact_orient::{collinear, orient};
use point_order::{Cell, Point, Quad, Tri};
use sphere_ties::outside;

// The four lie in one plane.
fn flat(a: Point, b: Point, c: Point, d: Point) -> bool
    ensures { result ≡ is_flat a b c d }
{
    orient(a, b, c, d) == 0
}

// p is none of the four, and not outside their perturbed sphere.
fn stays_in_sphere(a: Point, b: Point, c: Point, d: Point, p: Point) -> bool
    requires independent { is_flat a b c d ≡ false }
    requires distinct { AreFour a b c d }
    ensures { result ≡ not (is_among p (a ∷ b ∷ c ∷ d ∷ []) || is_outside a b c d p) }
{
    !(p == a || p == b || p == c || p == d || outside(a, b, c, d, p))
}

// The first of the points that is none of the four, and not outside their perturbed sphere.
fn first_in_sphere(points: &[Point], a: Point, b: Point, c: Point, d: Point) -> Option<Point>
    requires independent { is_flat a b c d ≡ false }
    requires distinct { AreFour a b c d }
    ensures { result ≡ find (λ p. not (is_among p (a ∷ b ∷ c ∷ d ∷ []) || is_outside a b c d p)) points.now }
{
    for p in points {
        if stays_in_sphere(a, b, c, d, *p) {
            return Some(*p);
        }
    }
    None
}

// The first flaw of a Full cell.
fn flaw_of_full(points: &[Point], quad: Quad) -> Option<Flaw>
    ensures { result ≡ flaw_of points.now (Full quad) }
{
    let (a, b, c, d) = quad.corners();
    let cell = Cell::Full(quad);
    if flat(a, b, c, d) {
        return Some(Flaw::FlatCell(cell));
    }
    match first_in_sphere(points, a, b, c, d) {
        Some(point) => Some(Flaw::Inside { cell, point }),
        None => None,
    }
}

// The first of the points off the plane of the three.
fn first_off(points: &[Point], a: Point, b: Point, c: Point) -> Option<Point>
    ensures { result ≡ find (λ f. not (is_flat a b c f)) points.now }
{
    for f in points {
        if !flat(a, b, c, *f) {
            return Some(*f);
        }
    }
    None
}

// Whether two points lie strictly on opposite sides of the plane of the three.
fn lie_opposite(a: Point, b: Point, c: Point, e: Point, f: Point) -> bool
    ensures { result ≡ are_opposite a b c e f }
{
    let near = orient(a, b, c, e);
    let far = orient(a, b, c, f);
    (near > 0 && far < 0) || (near < 0 && far > 0)
}

// The first of the points that lies strictly on the other side of the plane of the three than e.
fn first_opposite(points: &[Point], a: Point, b: Point, c: Point, e: Point) -> Option<Point>
    ensures { result ≡ find (λ f. are_opposite a b c e f) points.now }
{
    for f in points {
        if lie_opposite(a, b, c, e, *f) {
            return Some(*f);
        }
    }
    None
}

// p is one of the three.
fn is_corner(a: Point, b: Point, c: Point, p: Point) -> bool
    ensures { result ≡ is_among p (a ∷ b ∷ c ∷ []) }
{
    p == a || p == b || p == c
}

// p is in the plane of the three, none of them, and not outside their perturbed sphere with f, a point off the plane.
fn stays_in_plane(a: Point, b: Point, c: Point, f: Point, p: Point) -> bool
    requires off { is_flat a b c f ≡ false }
    requires distinct { AreThree a b c }
    ensures { result ≡ is_inside_with a b c p (Some f) }
{
    if is_corner(a, b, c, p) {
        false
    } else if !flat(a, b, c, p) {
        false
    } else {
        !outside(a, b, c, f, p)
    }
}

// The first of the points that does.
fn first_in_plane(points: &[Point], a: Point, b: Point, c: Point, f: Point) -> Option<Point>
    requires off { is_flat a b c f ≡ false }
    requires distinct { AreThree a b c }
    ensures { result ≡ find (λ p. is_inside_with a b c p (Some f)) points.now }
{
    for p in points {
        if stays_in_plane(a, b, c, f, *p) {
            return Some(*p);
        }
    }
    None
}

// The first flaw of a triple.
fn flaw_of_open(points: &[Point], tri: Tri) -> Option<Flaw>
    ensures { result ≡ flaw_of points.now (Open tri) }
{
    let (a, b, c) = tri.corners();
    let cell = Cell::Open(tri);
    if collinear(a, b, c) {
        return Some(Flaw::FlatCell(cell));
    }
    let e = match first_off(points, a, b, c) {
        Some(e) => e,
        None => return None,
    };
    if let Some(f) = first_opposite(points, a, b, c, e) {
        return Some(Flaw::Sides { tri, e, f });
    }
    match first_in_plane(points, a, b, c, e) {
        Some(point) => Some(Flaw::Inside { cell, point }),
        None => None,
    }
}

// The same, where a cell that is known to be one of the complex has none.
fn flaw_of_triple(points: &[Point], known: bool, tri: Tri) -> Option<Flaw>
    requires { known ≡ true → flaw_of points.now (Open tri) ≡ None }
    ensures { result ≡ flaw_of points.now (Open tri) }
{
    if known {
        None
    } else {
        flaw_of_open(points, tri)
    }
}

fn flaw_of_quad(points: &[Point], known: bool, quad: Quad) -> Option<Flaw>
    requires { known ≡ true → flaw_of points.now (Full quad) ≡ None }
    ensures { result ≡ flaw_of points.now (Full quad) }
{
    if known {
        None
    } else {
        flaw_of_full(points, quad)
    }
}

// The first flaw of the triples.
fn flaw_of_triples(points: &[Point], known: &[bool], hull: &[Tri]) -> Option<Flaw>
    requires { AreSound points.now Open hull.now known.now }
    ensures { result ≡ flaw_in points.now (map Open hull.now) }
{
    for place in 0..hull.len() {
        if let Some(flaw) = flaw_of_triple(points, is_marked(known, place), hull[place]) {
            return Some(flaw);
        }
    }
    None
}

// The first flaw of the cells, those of four points first. Cells of the complex are passed over: they have none.
pub(crate) fn first_flaw(
    points: &[Point],
    known: &Known,
    cells: &QuadList,
    hull: &[Tri],
) -> Option<Flaw>
    requires cells { AreSound points.now Full cells.now known.now.cells.items }
    requires hull { AreSound points.now Open hull.now known.now.hull.items }
    ensures { result ≡ flaw_in points.now (as_cells cells.now hull.now) }
{
    for place in 0..cells.len() {
        if let Some(flaw) = flaw_of_quad(points, is_marked(&known.cells, place), cells.at(place)) {
            return Some(flaw);
        }
    }
    flaw_of_triples(points, &known.hull, hull)
}
