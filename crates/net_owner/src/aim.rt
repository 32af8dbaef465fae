//! A point at which a walk to a place stands, and whether others come before it.

ghost use Rattle.std.specs.Prelude.{◌≡◌, ◌⊎◌, IsTrue, false, true, ℕ};
ghost use Rattle.whole_ring.specs.Bounds.{IsWithin};
ghost use Rattle.point_order.specs.Facets.{facets_of, points_of, points_on};
ghost use Rattle.point_order.specs.Orientation.{distance};
ghost use Rattle.point_order.specs.Sets.{IsIn};
ghost use Rattle.point_order.specs.Sizes.{greatest_square};
ghost use Rattle.del_laws.specs.Nearest.{comes_before};
ghost use Rattle.net_owner.specs.Nearest.{HasNoneBefore};

use cell_slots::{Corners, Face, INFINITE, point_of};
use point_order::{Point, Step};

/// A place, a point at which the walk to it stands, and the square of their distance.
#[derive(Clone, Copy)]
pub struct Aim {
    pub place: Point,
    pub point: Point,
    square: i64,
    ghost is_square: { square ≡ distance place point },
    ghost bound: { IsWithin greatest_square square },
}

// The square of the distance of a point from a place.
fn square_from(place: Point, point: Point) -> i64
    ensures value { result ≡ distance place point }
    ensures bound { IsWithin greatest_square result }
{
    Step::between(place, point).square()
}

// The nearer one of two points.
fn nearer(place: Point, a: Point, b: Point) -> Point
    ensures { (result ≡ a) ⊎ (result ≡ b) }
{
    if square_from(place, b) < square_from(place, a) {
        b
    } else {
        a
    }
}

// The point of a cell that is likely the nearest to a place, the first of those as near.
fn near_point(cell: &Corners, place: Point) -> Point
    ensures { IsIn result (points_of cell.now) }
{
    let two = nearer(place, point_of(cell.a), point_of(cell.b));
    let three = nearer(place, two, point_of(cell.c));
    if cell.d == INFINITE {
        three
    } else {
        nearer(place, three, point_of(cell.d))
    }
}

impl Aim {
    /// The walk stands at a point of a cell, likely the nearest.
    pub fn at(place: Point, cell: &Corners) -> Aim
        ensures place { result.place ≡ place }
        ensures point { IsIn result.point (points_of cell.now) }
    {
        let point = near_point(cell, place);
        Aim {
            place,
            point,
            square: square_from(place, point),
        }
    }

    /// Whether a point comes before that of the walk: it is nearer, or as near with the lesser key.
    pub fn is_behind(&self, x: Point) -> bool
        ensures { comes_before self.now.place x self.now.point ≡ true → IsTrue result }
    {
        let square = square_from(self.place, x);
        square < self.square || (!(self.square < square) && x < self.point)
    }

    /// Whether a point of a cell does.
    pub fn is_behind_one(&self, cell: &Corners) -> bool
        ensures { result ≡ false → HasNoneBefore self.now.place self.now.point cell.now }
    {
        if self.is_behind(point_of(cell.a))
            || self.is_behind(point_of(cell.b))
            || self.is_behind(point_of(cell.c))
        {
            return true;
        }
        cell.d != INFINITE && self.is_behind(point_of(cell.d))
    }

    /// Whether the point across from a facet of a cell does.
    pub fn is_behind_across(&self, cell: &Corners, facet: &Face) -> bool
        requires { IsIn facet.now (facets_of cell.now) }
        ensures { result ≡ false → (y : ℕ) → IsIn y (points_of cell.now) →
            IsIn y (points_on facet.now) ⊎ (comes_before self.now.place y self.now.point ≡ false) }
    {
        match cell.point_beyond(facet) {
            Some(x) => self.is_behind(x),
            None => false,
        }
    }
}
