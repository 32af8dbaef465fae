//! The way from one point to another, in whole numbers.

ghost use Rattle.std.specs.Prelude.{◌≡◌, ◌+ℤ◌, ◌*ℤ◌};
ghost use Rattle.whole_ring.specs.Bounds.{IsWithin};
ghost use Rattle.point_order.specs.Orientation.{minor, triple, square_of_step, x_from, y_from, z_from};
ghost use Rattle.point_order.specs.Sizes.{greatest_difference, greatest_minor, greatest_orientation, greatest_square};

use crate::Point;

/// A difference of two points.
#[derive(Clone, Copy, Debug, PartialEq, Eq)]
pub struct Step {
    pub x: i64,
    pub y: i64,
    pub z: i64,
    ghost x_within: { IsWithin greatest_difference x },
    ghost y_within: { IsWithin greatest_difference y },
    ghost z_within: { IsWithin greatest_difference z },
}

/// The normal of a plane, the cross product of two steps in it.
#[derive(Clone, Copy, Debug, PartialEq, Eq)]
pub struct Normal {
    pub x: i64,
    pub y: i64,
    pub z: i64,
    ghost x_within: { IsWithin greatest_minor x },
    ghost y_within: { IsWithin greatest_minor y },
    ghost z_within: { IsWithin greatest_minor z },
}

impl Step {
    /// The step from `a` to `b`.
    pub fn between(a: Point, b: Point) -> Step
        ensures x { result.x ≡ x_from a b }
        ensures y { result.y ≡ y_from a b }
        ensures z { result.z ≡ z_from a b }
    {
        Step {
            x: b.x() - a.x(),
            y: b.y() - a.y(),
            z: b.z() - a.z(),
        }
    }

    /// `self . (v x w)`
    pub fn triple(self, v: Step, w: Step) -> i64
        ensures value { result ≡ triple self.x self.y self.z v.x v.y v.z w.x w.y w.z }
        ensures bound { IsWithin greatest_orientation result }
    {
        let normal = v.cross(w);
        dot(self.x, self.y, self.z, normal.x, normal.y, normal.z)
    }

    /// `self x v`, which is 0 where the two steps lie on one line.
    pub fn cross(self, v: Step) -> Normal
        ensures x { result.x ≡ minor self.y self.z v.y v.z }
        ensures y { result.y ≡ minor self.z self.x v.z v.x }
        ensures z { result.z ≡ minor self.x self.y v.x v.y }
    {
        Normal {
            x: minor_of(self.y, self.z, v.y, v.z),
            y: minor_of(self.z, self.x, v.z, v.x),
            z: minor_of(self.x, self.y, v.x, v.y),
        }
    }

    /// The square of the step's length.
    pub fn square(self) -> i64
        ensures value { result ≡ square_of_step self.x self.y self.z }
        ensures bound { IsWithin greatest_square result }
    {
        norm(self.x, self.y, self.z)
    }
}

// x * x + y * y + z * z
fn norm(x: i64, y: i64, z: i64) -> i64
    requires x_bound { IsWithin greatest_difference x }
    requires y_bound { IsWithin greatest_difference y }
    requires z_bound { IsWithin greatest_difference z }
    ensures value { result ≡ square_of_step x y z }
    ensures bound { IsWithin greatest_square result }
{
    x * x + y * y + z * z
}

// p * s - q * r
fn minor_of(p: i64, q: i64, r: i64, s: i64) -> i64
    requires first { IsWithin greatest_difference p }
    requires second { IsWithin greatest_difference q }
    requires third { IsWithin greatest_difference r }
    requires fourth { IsWithin greatest_difference s }
    ensures value { result ≡ minor p q r s }
    ensures bound { IsWithin greatest_minor result }
{
    p * s - q * r
}

// u * x + v * y + w * z
fn dot(u: i64, v: i64, w: i64, x: i64, y: i64, z: i64) -> i64
    requires u_bound { IsWithin greatest_difference u }
    requires v_bound { IsWithin greatest_difference v }
    requires w_bound { IsWithin greatest_difference w }
    requires x_bound { IsWithin greatest_minor x }
    requires y_bound { IsWithin greatest_minor y }
    requires z_bound { IsWithin greatest_minor z }
    ensures value { result ≡ u *ℤ x +ℤ v *ℤ y +ℤ w *ℤ z }
    ensures bound { IsWithin greatest_orientation result }
{
    u * x + v * y + w * z
}
