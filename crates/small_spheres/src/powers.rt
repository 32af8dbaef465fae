//! The powers of a point to the smallest circumscribing spheres of an edge and a triangle.

ghost use Rattle.std.specs.Prelude.{◌≡◌};
ghost use Rattle.whole_ring.specs.Bounds.{IsWithin};
ghost use Rattle.small_spheres.specs.Inside.{dot, edge_power, triangle_power};
ghost use Rattle.small_spheres.specs.Sizes.{greatest_scalar};

use crate::products::{difference, sum_of_products, term};
use point_order::{Normal, Point, Step};

/// `(a - e) . (b - e)`
pub(crate) fn power_of_edge(a: Point, b: Point, e: Point) -> i64
    ensures { result ≡ edge_power a b e }
{
    let u = Step::between(e, a);
    let v = Step::between(e, b);
    sum_of_products(u.x, u.y, u.z, v.x, v.y, v.z)
}

/// `n . m`
pub(crate) fn dot_of_normals(n: Normal, m: Normal) -> i64
    ensures value { result ≡ dot n.x n.y n.z m.x m.y m.z }
    ensures bound { IsWithin greatest_scalar result }
{
    sum_of_products(n.x, n.y, n.z, m.x, m.y, m.z)
}

/// The power of `e` times `|n|^2`, with `n` the normal of the triangle.
///
/// It is `|e - a|^2 |n|^2 - (e - a) . V`, and `(n x u) . t = n . (u x t)`: so each term is the square of a step times
/// a scalar product of two normals.
pub(crate) fn power_of_triangle(a: Point, b: Point, c: Point, e: Point) -> i128
    ensures { result ≡ triangle_power a b c e }
{
    let u = Step::between(a, b);
    let v = Step::between(a, c);
    let t = Step::between(a, e);
    let n = u.cross(v);
    difference(
        term(t.square(), dot_of_normals(n, n)),
        term(v.square(), dot_of_normals(n, u.cross(t))),
        term(u.square(), dot_of_normals(n, t.cross(v))),
    )
}
