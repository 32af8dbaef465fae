//! Sums and products of numbers of known size, in 64 bits where they fit and else in 128.

ghost use Rattle.std.specs.Prelude.{◌≡◌, ◌<◌, ◌^◌, pos, ◌+ℤ◌, ◌*ℤ◌, ◌-ℤ◌, ◌≤ℤ◌};
ghost use Rattle.whole_ring.specs.Bounds.{IsWithin};
ghost use Rattle.point_order.specs.Sizes.{greatest_minor, greatest_orientation, greatest_square};
ghost use Rattle.small_spheres.specs.Inside.{dot};
ghost use Rattle.small_spheres.specs.Sizes.{greatest_power_term, greatest_product_of_sides};
ghost use Rattle.small_spheres.specs.Sizes.{greatest_product_of_squares, greatest_scalar, greatest_square_of_centre};
ghost use Rattle.small_spheres.specs.Sizes.{greatest_square_of_orientation, greatest_square_of_scalar};

/// `u . v`, below 2^61.
pub(crate) fn sum_of_products(ux: i64, uy: i64, uz: i64, vx: i64, vy: i64, vz: i64) -> i64
    requires ux { IsWithin greatest_square ux }
    requires uy { IsWithin greatest_square uy }
    requires uz { IsWithin greatest_square uz }
    requires vx { IsWithin greatest_minor vx }
    requires vy { IsWithin greatest_minor vy }
    requires vz { IsWithin greatest_minor vz }
    ensures value { result ≡ dot ux uy uz vx vy vz }
    ensures bound { IsWithin greatest_scalar result }
{
    ux * vx + uy * vy + uz * vz
}

// `x * y`, for which 128 bits are enough.
pub(crate) fn product_of(x: i64, y: i64) -> i128
    ensures { result ≡ x *ℤ y }
{
    x as i128 * y as i128
}

/// `x * x`, below 2^121.
pub(crate) fn square(x: i64) -> i128
    requires { IsWithin greatest_scalar x }
    ensures value { result ≡ x *ℤ x }
    ensures bound { IsWithin greatest_square_of_scalar result }
{
    product_of(x, x)
}

/// `p + q + r`, below 2^122.
pub(crate) fn sum(p: i128, q: i128, r: i128) -> i128
    requires p { IsWithin greatest_square_of_scalar p }
    requires q { IsWithin greatest_square_of_scalar q }
    requires r { IsWithin greatest_square_of_scalar r }
    ensures value { result ≡ p +ℤ q +ℤ r }
    ensures bound { IsWithin greatest_square_of_centre result }
{
    p + q + r
}

/// The product of a product of two squares of distances and a third such square, below 2^89.
pub(crate) fn product(p: i64, q: i64) -> i128
    requires p { IsWithin greatest_product_of_squares p }
    requires q { IsWithin greatest_square q }
    ensures value { result ≡ p *ℤ q }
    ensures bound { IsWithin greatest_product_of_sides result }
{
    product_of(p, q)
}

/// A square of a distance times a scalar product, below 2^90.
pub(crate) fn term(square: i64, scalar: i64) -> i128
    requires square { IsWithin greatest_square square }
    requires scalar { IsWithin greatest_scalar scalar }
    ensures value { result ≡ square *ℤ scalar }
    ensures bound { IsWithin greatest_power_term result }
{
    product_of(square, scalar)
}

/// `p - q - r`, below 2^92.
pub(crate) fn difference(p: i128, q: i128, r: i128) -> i128
    requires p { IsWithin greatest_power_term p }
    requires q { IsWithin greatest_power_term q }
    requires r { IsWithin greatest_power_term r }
    ensures { result ≡ p -ℤ q -ℤ r }
{
    p - q - r
}

/// Four times the square of a distance, below 2^32.
pub(crate) fn four_times_square(square: i64) -> u64
    requires bound { IsWithin greatest_square square }
    requires sign { pos 0 ≤ℤ square }
    ensures { pos result ≡ pos 4 *ℤ square }
{
    4 * square as u64
}

/// Four times a product of squared sides, below 2^91.
pub(crate) fn four_times_sides(product: i128) -> i128
    requires { IsWithin greatest_product_of_sides product }
    ensures { result ≡ pos 4 *ℤ product }
{
    4 * product
}

/// Four times the square of an `N`, below 2^124.
pub(crate) fn four_times_centre(square: i128) -> i128
    requires { IsWithin greatest_square_of_centre square }
    ensures { result ≡ pos 4 *ℤ square }
{
    4 * square
}

/// `|n|^2 alpha`, below 2^125, and below 2^94 where alpha is below 2^34 and `n` is the normal of three points.
pub(crate) fn normal_times(square: i64, alpha: u64) -> i128
    requires { IsWithin greatest_scalar square }
    ensures { result ≡ square *ℤ pos alpha }
{
    square as i128 * alpha as i128
}

/// The square of an orientation, below 2^90.
pub(crate) fn square_of_orientation(orientation: i64) -> i128
    requires { IsWithin greatest_orientation orientation }
    ensures value { result ≡ orientation *ℤ orientation }
    ensures bound { IsWithin greatest_square_of_orientation result }
{
    product_of(orientation, orientation)
}

/// `O^2 alpha`, where `O^2` is the square of an orientation, below 2^124.
pub(crate) fn orientation_times(square: i128, alpha: u64) -> i128
    requires square { IsWithin greatest_square_of_orientation square }
    requires alpha { alpha < 2 ^ 34 }
    ensures { result ≡ square *ℤ pos alpha }
{
    square * alpha as i128
}
