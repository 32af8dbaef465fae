//! The numbers of which the squared radii are fractions.

ghost use Rattle.std.specs.Prelude.{◌≡◌, ◌*ℤ◌};
ghost use Rattle.whole_ring.specs.Bounds.{IsWithin};
ghost use Rattle.point_order.specs.Orientation.{distance, square_of_step};
ghost use Rattle.point_order.specs.Sizes.{greatest_square};
ghost use Rattle.small_spheres.specs.Inside.{square_of_normal};
ghost use Rattle.small_spheres.specs.Within.{cell_centre_x, cell_centre_y, cell_centre_z, square_of_centre};
ghost use Rattle.small_spheres.specs.Sizes.{greatest_product_of_sides, greatest_product_of_squares, greatest_scalar};
ghost use Rattle.small_spheres.specs.Sizes.{greatest_square_of_centre};

use crate::powers::dot_of_normals;
use crate::products::{product, square, sum, sum_of_products};
use point_order::{Point, Step};

/// `|n|^2`, with `n = (b - a) x (c - a)`
pub(crate) fn normal_square(a: Point, b: Point, c: Point) -> i64
    ensures value { result ≡ square_of_normal a b c }
    ensures bound { IsWithin greatest_scalar result }
{
    let n = Step::between(a, b).cross(Step::between(a, c));
    dot_of_normals(n, n)
}

/// `|a - b|^2 |a - c|^2 |b - c|^2`, below 2^89.
pub(crate) fn product_of_sides(a: Point, b: Point, c: Point) -> i128
    ensures value { result ≡ distance a b *ℤ distance a c *ℤ distance b c }
    ensures bound { IsWithin greatest_product_of_sides result }
{
    let ab = Step::between(a, b).square();
    let ac = Step::between(a, c).square();
    let bc = Step::between(b, c).square();
    product(product_of_squares(ab, ac), bc)
}

// p * q
fn product_of_squares(p: i64, q: i64) -> i64
    requires p { IsWithin greatest_square p }
    requires q { IsWithin greatest_square q }
    ensures value { result ≡ p *ℤ q }
    ensures bound { IsWithin greatest_product_of_squares result }
{
    p * q
}

/// The coordinates of `N`, which is `2 O` times the step from a cell's first point to its centre.
#[derive(Clone, Copy)]
pub(crate) struct Centre {
    pub x: i64,
    pub y: i64,
    pub z: i64,
    pub ghost x_within: { IsWithin greatest_scalar x },
    pub ghost y_within: { IsWithin greatest_scalar y },
    pub ghost z_within: { IsWithin greatest_scalar z },
}

/// `N = |u|^2 (v x w) + |v|^2 (w x u) + |w|^2 (u x v)`, for the steps `u`, `v`, `w` from `a`.
pub(crate) fn centre_of(a: Point, b: Point, c: Point, d: Point) -> Centre
    ensures x { result.x ≡ cell_centre_x a b c d }
    ensures y { result.y ≡ cell_centre_y a b c d }
    ensures z { result.z ≡ cell_centre_z a b c d }
{
    let u = Step::between(a, b);
    let v = Step::between(a, c);
    let w = Step::between(a, d);
    let (p, q, r) = (u.square(), v.square(), w.square());
    let (k, l, m) = (v.cross(w), w.cross(u), u.cross(v));
    Centre {
        x: sum_of_products(p, q, r, k.x, l.x, m.x),
        y: sum_of_products(p, q, r, k.y, l.y, m.y),
        z: sum_of_products(p, q, r, k.z, l.z, m.z),
    }
}

/// `|N|^2`, below 2^122.
pub(crate) fn square_of(n: Centre) -> i128
    ensures value { result ≡ square_of_step n.x n.y n.z }
    ensures bound { IsWithin greatest_square_of_centre result }
{
    sum(square(n.x), square(n.y), square(n.z))
}

/// `|N|^2` of a cell.
pub(crate) fn centre_square(a: Point, b: Point, c: Point, d: Point) -> i128
    ensures value { result ≡ square_of_centre a b c d }
    ensures bound { IsWithin greatest_square_of_centre result }
{
    square_of(centre_of(a, b, c, d))
}
