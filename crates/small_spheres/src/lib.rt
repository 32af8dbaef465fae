//! The smallest circumscribing spheres of edges, triangles and cells: whether a point lies strictly inside,
//! whether the squared radius is at most alpha, and the least whole alpha of which it is.
//!
//! These are the two questions of an alpha complex (Edelsbrunner and Mücke, Three-dimensional alpha shapes;
//! `Alpha_shape_3` of CGAL): a face is Gabriel where no point lies strictly inside its smallest circumscribing sphere,
//! and alpha is a squared radius, counted in sixteenths. All of it is whole numbers: fractions are compared by
//! multiplying out.
//!
//! ```
//! let gabriel = points.iter().all(|e| !inside_edge(a, b, *e));
//! let small = triangle_within(a, b, c, alpha);  // alpha is a squared radius in sixteenths, below 2^34
//! ```
#![tactic(auto)]

ghost use Rattle.std.specs.Prelude.{◌≡◌, ◌<◌, ◌^◌, ℕ, nat_le};
ghost use Rattle.small_spheres.specs.Inside.{is_inside_edge, is_inside_triangle};
ghost use Rattle.small_spheres.specs.Within.{is_edge_within, is_triangle_within, is_cell_within};

mod boxes;
pub mod laws;
mod least;
mod powers;
mod products;
mod radii;

pub use boxes::sphere_inside;
use least::least_factor;
use point_order::{Point, Step};
use powers::{power_of_edge, power_of_triangle};
use products::{
    four_times_centre, four_times_sides, four_times_square, normal_times, orientation_times,
    square_of_orientation,
};
use radii::{centre_square, normal_square, product_of_sides};

/// Whether `e` lies strictly inside the smallest circumscribing sphere of the edge `a`, `b`, which has it as a
/// diameter: `(a - e) . (b - e)` is negative.
pub fn inside_edge(a: Point, b: Point, e: Point) -> bool
    ensures { result ≡ is_inside_edge a b e }
{
    power_of_edge(a, b, e) < 0
}

/// Whether `e` lies strictly inside the smallest circumscribing sphere of the triangle `a`, `b`, `c`, whose centre is
/// that of the circle through the three.
///
/// With `n = (b - a) x (c - a)` and `V = |c - a|^2 (n x (b - a)) + |b - a|^2 ((c - a) x n)` it is the test
/// `|e - a|^2 |n|^2 < (e - a) . V`. No point is inside where the three lie on one line.
pub fn inside_triangle(a: Point, b: Point, c: Point, e: Point) -> bool
    ensures { result ≡ is_inside_triangle a b c e }
{
    power_of_triangle(a, b, c, e) < 0
}

/// Whether the squared radius of the smallest circumscribing sphere of the edge is at most `alpha` sixteenths:
/// `4 |a - b|^2 <= alpha`.
pub fn edge_within(a: Point, b: Point, alpha: u64) -> bool
    ensures { result ≡ is_edge_within a b alpha }
{
    four_times_square(Step::between(a, b).square()) <= alpha
}

/// Whether the squared radius of the smallest circumscribing sphere of the triangle is at most `alpha` sixteenths:
/// `4 |a - b|^2 |a - c|^2 |b - c|^2 <= |n|^2 alpha`, with `n = (b - a) x (c - a)`.
pub fn triangle_within(a: Point, b: Point, c: Point, alpha: u64) -> bool
    ensures { result ≡ is_triangle_within a b c alpha }
{
    four_times_sides(product_of_sides(a, b, c)) <= normal_times(normal_square(a, b, c), alpha)
}

/// Whether the squared radius of the circumscribing sphere of the cell is at most `alpha` sixteenths, below 2^34.
///
/// With `u`, `v`, `w` the steps from `a`, `O = u . (v x w)` and `N = |u|^2 (v x w) + |v|^2 (w x u) + |w|^2 (u x v)`
/// it is the test `4 |N|^2 <= O^2 alpha`.
pub fn cell_within(a: Point, b: Point, c: Point, d: Point, alpha: u64) -> bool
    requires { alpha < 2 ^ 34 }
    ensures { result ≡ is_cell_within a b c d alpha }
{
    let u = Step::between(a, b);
    let v = Step::between(a, c);
    let w = Step::between(a, d);
    let square = square_of_orientation(u.triple(v, w));
    four_times_centre(centre_square(a, b, c, d)) <= orientation_times(square, alpha)
}

/// The least alpha of which the smallest circumscribing sphere of the edge is within: four times its square, below
/// 2^32.
pub fn edge_least(a: Point, b: Point) -> u64
    ensures { (alpha : ℕ) → is_edge_within a b alpha ≡ nat_le result alpha }
{
    four_times_square(Step::between(a, b).square())
}

/// The least alpha below 2^34 of which the smallest circumscribing sphere of the triangle is within, its squared radius
/// in sixteenths rounded up; 2^34 where there is none, as for three different points on one line.
pub fn triangle_least(a: Point, b: Point, c: Point) -> u64
    ensures { (alpha : ℕ) → alpha < 2 ^ 34 → is_triangle_within a b c alpha ≡ nat_le result alpha }
{
    least_factor(
        four_times_sides(product_of_sides(a, b, c)),
        normal_square(a, b, c) as i128,
    )
}

/// The least alpha below 2^34 of which the circumscribing sphere of the cell is within, its squared
/// radius in sixteenths rounded up; 2^34 where there is none.
pub fn cell_least(a: Point, b: Point, c: Point, d: Point) -> u64
    ensures { (alpha : ℕ) → alpha < 2 ^ 34 → is_cell_within a b c d alpha ≡ nat_le result alpha }
{
    let u = Step::between(a, b);
    let v = Step::between(a, c);
    let w = Step::between(a, d);
    let square = square_of_orientation(u.triple(v, w));
    least_factor(four_times_centre(centre_square(a, b, c, d)), square)
}
