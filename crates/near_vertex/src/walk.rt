//! Walks to the nearest point.

ghost use Rattle.std.specs.Prelude.{◌≡◌, ℕ, List};
ghost use Rattle.cell_store.specs.Meshes.{IsWhole};
ghost use Rattle.cell_store.specs.Shares.{Shows, ShowsSome};
ghost use Rattle.nearest_points.specs.Points.{IsNearest};
ghost use Rattle.near_vertex.specs.Turns.{ShowsNearWalk, IsNearWalkIn, NearStartGives, NearTurnGives};

use crate::search::{first_around, first_missing, lowest_point, some_point};
use cell_store::Hold;
use point_order::Point;
use std::marker::Model;

/// A walk to the point of a set that is nearest to a place: where it stands.
///
/// Contracts see it as a plain record: the place and the point.
#[derive(Debug, Drop)]
pub struct NearWalk {
    place: Point,
    point: Point,
}

impl Model for NearWalk {
    ghost use Rattle.near_vertex.specs.Around.{Nearing};

    ghost Value = { Nearing };

    ghost view = { λ w. record { place = w.place; point = w.point } };
}

/// What the start of a walk comes to.
#[derive(Debug, Drop)]
pub enum NearStart {
    /// The walk, at its first point.
    At(NearWalk),
    /// No bucket in hand has a point, and the bucket with this number is not in hand.
    Need(u32),
}

/// What a step of a walk comes to.
#[derive(Clone, Copy, Debug)]
pub enum NearTurn {
    /// This is the nearest point, where the walk stands.
    Here(Point),
    /// The walk stands at a point that comes before.
    Moved,
    /// The bucket with this number, that of the point where the walk stands, is not in hand.
    Need(u32),
}

impl NearWalk {
    /// The walk to a place from the least point of the lowest bucket in hand that has one. Where none has, the first
    /// bucket that is not in hand, from that of the place on and round.
    ///
    /// The hold is to show some set. It takes no memory.
    pub fn start(hold: &Hold, q: Point) -> NearStart
        requires { ShowsSome hold.now }
        ensures { NearStartGives hold.now q result }
    {
        match lowest_point(hold) {
            Some(p) => NearStart::At(NearWalk { place: q, point: p }),
            None => NearStart::Need(first_missing(hold, q)),
        }
    }

    /// Goes on to the first of the points that share a cell with that where the walk stands, by distance and then
    /// key, where it comes before it.
    ///
    /// The hold is to show some set of which the walk's point is one; the answer is right for each such set. It takes
    /// no memory.
    pub fn step(&mut self, hold: &Hold) -> NearTurn
        requires { ShowsNearWalk hold.now self.old }
        ensures { (s : List ℕ) → Shows hold.now s → IsNearWalkIn s self.old →
            NearTurnGives hold.now s self.old self.new result }
    {
        let b = hold.grid().bucket_of(self.point);
        if !hold.has(b) {
            return NearTurn::Need(b);
        }
        let first = first_around(hold, self.place, self.point);
        if first == self.point {
            return NearTurn::Here(first);
        }
        self.point = first;
        NearTurn::Moved
    }
}

/// The nearest point to a place, among those as near the one with the least key. Every bucket is to be in hand.
///
/// It begins at a point that lies near, in the bucket of the place or the next one that has any; that only makes the
/// walk short. It takes no memory.
pub fn nearest(hold: &Hold, q: Point) -> Point
    requires shown { ShowsSome hold.now }
    requires whole { IsWhole hold.now }
    ensures { (s : List ℕ) → Shows hold.now s → IsNearest s q result }
{
    let mut walk = NearWalk {
        place: q,
        point: some_point(hold, q),
    };
    loop {
        match walk.step(hold) {
            NearTurn::Here(p) => return p,
            NearTurn::Moved => {}
            NearTurn::Need(_) => unreachable!(),
        }
    }
}
