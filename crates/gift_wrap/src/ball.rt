//! The sphere of a triple and a point above it, kept so that of many points it is soon told whether they are outside.

ghost use Rattle.std.specs.Prelude.{◌≡◌, pos, ◌<ℤ◌, ◌*ℤ◌, ◌+ℤ◌, ◌-ℤ◌};
ghost use Rattle.whole_ring.specs.Bounds.{IsWithin};
ghost use Rattle.point_order.specs.Heights.{sphere_polynomial};
ghost use Rattle.point_order.specs.Orientation.{orientation};
ghost use Rattle.point_order.specs.Sets.{AreFive};
ghost use Rattle.point_order.specs.Sizes.{greatest_minor, greatest_square};
ghost use Rattle.point_order.specs.Spheres.{is_outside};
ghost use Rattle.gift_wrap.specs.Balls.{IsBallOf, greatest_mixed, greatest_ball_term};

use point_order::{Point, Step};
use sphere_ties::outside;

// The sphere of a triple and a last point: of another point the in-sphere polynomial is the height times the square of
// the step to it from the first point, less the product of that step and (x, y, z).
#[derive(Clone, Copy)]
pub(crate) struct Ball {
    pub(crate) last: Point,
    height: i64,
    x: i64,
    y: i64,
    z: i64,
}

// p * k - q * l + r * m, of minors and squares
fn mixed(p: i64, k: i64, q: i64, l: i64, r: i64, m: i64) -> i64
    requires p { IsWithin greatest_minor p }
    requires q { IsWithin greatest_minor q }
    requires r { IsWithin greatest_minor r }
    requires k { IsWithin greatest_square k }
    requires l { IsWithin greatest_square l }
    requires m { IsWithin greatest_square m }
    ensures value { result ≡ p *ℤ k -ℤ q *ℤ l +ℤ r *ℤ m }
    ensures bound { IsWithin greatest_mixed result }
{
    p * k - q * l + r * m
}

// p * q
fn term(p: i64, q: i64) -> i128
    requires p { IsWithin greatest_mixed p }
    requires q { IsWithin greatest_square q }
    ensures value { result ≡ p *ℤ q }
    ensures bound { IsWithin greatest_ball_term result }
{
    p as i128 * q as i128
}

// p - q - r - s
fn less_three(p: i128, q: i128, r: i128, s: i128) -> i128
    requires p { IsWithin greatest_ball_term p }
    requires q { IsWithin greatest_ball_term q }
    requires r { IsWithin greatest_ball_term r }
    requires s { IsWithin greatest_ball_term s }
    ensures { result ≡ p -ℤ q -ℤ r -ℤ s }
{
    p - q - r - s
}

impl Ball {
    // The sphere of a triple and a point above it.
    pub(crate) fn through(a: Point, b: Point, c: Point, d: Point) -> Ball
        requires { pos 0 <ℤ orientation a b c d }
        ensures last { result.last ≡ d }
        ensures ball { IsBallOf a b c result }
    {
        let u = Step::between(a, b);
        let v = Step::between(a, c);
        let w = Step::between(a, d);
        let (uv, uw, vw) = (u.cross(v), u.cross(w), v.cross(w));
        let (k, l, m) = (w.square(), v.square(), u.square());
        Ball {
            last: d,
            height: u.triple(v, w),
            x: mixed(uv.x, k, uw.x, l, vw.x, m),
            y: mixed(uv.y, k, uw.y, l, vw.y, m),
            z: mixed(uv.z, k, uw.z, l, vw.z, m),
        }
    }

    // The in-sphere polynomial of the triple, the last point and another one.
    fn at(&self, a: Point, b: Point, c: Point, e: Point) -> i128
        requires { IsBallOf a b c self.now }
        ensures { result ≡ sphere_polynomial a b c self.now.last e }
    {
        let t = Step::between(a, e);
        less_three(
            term(self.height, t.square()),
            term(self.x, t.x),
            term(self.y, t.y),
            term(self.z, t.z),
        )
    }

    // Whether the point is outside of the perturbed sphere.
    pub(crate) fn has_outside(&self, a: Point, b: Point, c: Point, e: Point) -> bool
        requires ball { IsBallOf a b c self.now }
        requires distinct { AreFive a b c self.now.last e }
        ensures { result ≡ is_outside a b c self.now.last e }
    {
        let _keys = (a.key(), b.key(), c.key(), self.last.key(), e.key());
        let value = self.at(a, b, c, e);
        if value != 0 {
            value > 0
        } else {
            outside(a, b, c, self.last, e)
        }
    }
}
