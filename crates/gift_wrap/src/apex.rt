//! The fourth point of the cell over a triple.

ghost use Rattle.std.specs.Prelude.{◌≡◌, ◌≢◌, pos, ◌<ℤ◌, ◌↔◌, IfSome, IsTrue};
ghost use Rattle.point_order.specs.Orientation.{orientation};
ghost use Rattle.point_order.specs.Sets.{IsAscending};
ghost use Rattle.gift_wrap.specs.Balls.{IsBallOf, last_of_ball};
ghost use Rattle.gift_wrap.specs.Wraps.{leader_of, IsApex};

use crate::ball::Ball;
use exact_orient::orient;
use point_order::Point;

// Whether the point lies above the plane of the three: their orientation is positive. The steps to the second and the
// third come last, so that what they make is computed once for many points.
#[inline]
pub(crate) fn is_over(a: Point, b: Point, c: Point, p: Point) -> bool
    ensures { IsTrue result ↔ (pos 0 <ℤ orientation a b c p) }
{
    orient(a, p, b, c) > 0
}

// Of the one that leads so far and the next, both above the plane of the three, the one that leads then.
fn leader(a: Point, b: Point, c: Point, best: Option<Ball>, next: Point) -> Ball
    requires above { pos 0 <ℤ orientation a b c next }
    requires best { IfSome best (λ ball. IsBallOf a b c ball × (ball.last ≢ next)) }
    ensures leads { result.last ≡ leader_of a b c (last_of_ball best) next }
    ensures ball { IsBallOf a b c result }
{
    match best {
        Some(ball) if ball.has_outside(a, b, c, next) => ball,
        _ => Ball::through(a, b, c, next),
    }
}

// Of the points above the plane of the three the one that makes a cell with them: the
// one outside of whose sphere the others lie.
pub(crate) fn apex_over(points: &[Point], a: Point, b: Point, c: Point) -> Option<Point>
    requires { IsAscending points.now }
    ensures { IfSome result (λ d. IsApex points.now points.now a b c d) }
{
    let mut best = None;
    for p in points {
        if is_over(a, b, c, *p) {
            best = Some(leader(a, b, c, best, *p));
        }
    }
    match best {
        Some(ball) => Some(ball.last),
        None => None,
    }
}
