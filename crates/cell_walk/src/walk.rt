//! Walks.

ghost use Rattle.std.specs.Prelude.{◌≡◌, ◌&&◌, ◌||◌, ℕ, List, [], IsSome, IfSome, pos};
ghost use Rattle.point_order.specs.Conflicts.{are_opposite as lie_opposite};
ghost use Rattle.cell_store.specs.Shares.{Shows, ShowsSome};
ghost use Rattle.cell_store.specs.Buckets.{bucket_at, points_at};
ghost use Rattle.cell_walk.specs.Paths.{ShowsWalk, IsWalkIn, WalksFor, facet_towards as towards};
ghost use Rattle.cell_walk.specs.Turns.{StartGives, WalkGives};

use crate::search::{first_missing, least_cell, near_point};
use cell_conflict::is_in_conflict;
use cell_store::{Hold, Spot, SpotAcross};
use exact_orient::orient;
use point_order::{Cell, Facet, Point};
use std::marker::Model;

/// A walk to a new point: where it stands.
///
/// Contracts see it as a plain record: its point and its cell.
#[derive(Debug, Drop)]
pub struct Walk {
    point: Point,
    cell: Spot,
}

impl Model for Walk {
    ghost use Rattle.cell_walk.specs.Paths.{Walking};

    ghost Value = { Walking };

    ghost view = { λ w. record { point = w.point; cell = w.cell } };
}

/// What the start of a walk comes to.
#[derive(Debug, Drop)]
pub enum Start {
    /// The walk, in its first cell.
    At(Walk),
    /// No bucket in hand has a cell, and the bucket with this number is not in hand.
    Need(u32),
}

/// What a step of a walk comes to.
#[derive(Clone, Copy, Debug)]
pub enum WalkTurn {
    /// The new point takes this cell away, where the walk stands.
    Here(Cell),
    /// The walk stands in a nearer cell.
    Moved,
    /// The bucket with this number is not in hand, and has a point of the facet that is to be crossed.
    Need(u32),
}

// Whether the two points lie strictly on opposite sides of the plane of the first three.
fn are_opposite(a: Point, b: Point, c: Point, m: Point, p: Point) -> bool
    ensures { result ≡ lie_opposite a b c m p }
{
    let inner = orient(a, b, c, m);
    let side = orient(a, b, c, p);
    (inner > 0 && side < 0) || (inner < 0 && side > 0)
}

// The first facet of the cell behind which the point lies strictly; of an Open cell the triple.
fn facet_towards(cell: &Cell, p: Point) -> Option<Facet>
    ensures { result ≡ towards cell.now p }
{
    let [first, second, third, last] = cell.facets();
    match cell {
        Cell::Full(quad) => {
            let (a, b, c, d) = quad.corners();
            if are_opposite(b, c, d, a, p) {
                Some(first)
            } else if are_opposite(a, c, d, b, p) {
                Some(second)
            } else if are_opposite(a, b, d, c, p) {
                Some(third)
            } else if are_opposite(a, b, c, d, p) {
                Some(last)
            } else {
                None
            }
        }
        Cell::Open(tri) => {
            let _ = tri.corners();
            Some(last)
        }
    }
}

impl Walk {
    /// The walk to the point from the least Full cell whose points all lie in buckets in hand, or where there is
    /// none from the least cell of these buckets. Where they have no cell, the first bucket that is not in hand,
    /// from that of the point on and round.
    ///
    /// The hold is to show some set. It takes no memory.
    pub fn start(hold: &Hold, p: Point) -> Start
        requires { ShowsSome hold.now }
        ensures { StartGives hold.now p result }
    {
        if let Some(cell) = least_cell(hold, true) {
            return Start::At(Walk {
                point: p,
                cell: hold.spot_of(&cell),
            });
        }
        if let Some(cell) = least_cell(hold, false) {
            return Start::At(Walk {
                point: p,
                cell: hold.spot_of(&cell),
            });
        }
        Start::Need(first_missing(hold, p))
    }

    /// A walk to a new point from a cell at a point of the bucket with the number that lies near. The bucket is to be
    /// in hand. Where the hold shows some set and the bucket has a point, there is such a walk.
    ///
    /// Which points are looked at is not promised. It takes no memory.
    pub fn near(hold: &Hold, b: u32, p: Point) -> Option<Walk>
        requires { IsSome (bucket_at hold.now.places b) }
        ensures point { IfSome result (λ w. w.point ≡ p) }
        ensures walks { IfSome result (WalksFor hold.now p) }
        ensures some { ShowsSome hold.now → (points_at hold.now.places b ≡ [] → ⊥) → IsSome result }
    {
        let q = near_point(hold.bucket(b).points(), p)?;
        if !hold.has(hold.grid().bucket_of(q)) {
            return None;
        }
        let mut around = hold.cells_around(q);
        let cell = around.next()?;
        let place = around.place();
        Some(Walk {
            cell: Spot::new(*cell, b, place),
            point: p,
        })
    }

    /// Goes on by one cell, where the new point does not take away the cell in which the walk stands.
    ///
    /// The hold is to show some set in whose complex this is a walk; the answer is right for each such set. It
    /// takes no memory.
    pub fn step(&mut self, hold: &Hold) -> WalkTurn
        requires { ShowsWalk hold.now self.old }
        ensures { (s : List ℕ) → Shows hold.now s → IsWalkIn hold.now s self.old →
            WalkGives hold.now s self.old self.new result }
    {
        let cell = self.cell.cell();
        if is_in_conflict(hold, cell, self.point) {
            return WalkTurn::Here(*cell);
        }
        let facet = match facet_towards(cell, self.point) {
            Some(facet) => facet,
            None => unreachable!(),
        };
        match hold.across_spot(&self.cell, &facet) {
            SpotAcross::Spot(other) => {
                self.cell = other;
                WalkTurn::Moved
            }
            SpotAcross::Need(b) => WalkTurn::Need(b),
        }
    }
}
