//! Which cells of a complex a new point takes away, judged from the buckets in hand.

ghost use Rattle.std.specs.Prelude.{◌≡◌, List, MatchBool, not, ℕ};
ghost use Rattle.std.specs.List.{find};
ghost use Rattle.point_order.specs.Complex.{complex};
ghost use Rattle.point_order.specs.Facets.{points_of};
ghost use Rattle.point_order.specs.Sets.{IsIn, is_among};
ghost use Rattle.point_order.specs.declared.cell.Cell.TheVariants.{Open};
ghost use Rattle.hole_laws.specs.Edits.{IsNew, IsMate, GoesFrom, StaysFrom};
ghost use Rattle.cell_store.specs.Shares.{Shows, ShowsWith, NoneInHand};
ghost use Rattle.cell_conflict.specs.Judging.{ShowsWithNew};

use cell_store::{Hold, Spot};
use point_order::{Cell, Facet, Point, Tri};
use sphere_ties::conflict;

// The first point of a cell that another does not have, if there is one.
fn point_against(cell: &Cell, other: &Cell) -> Option<Point>
    ensures { result ≡ find (λ p. not (is_among p (points_of other.now))) (points_of cell.now) }
{
    cell.points().iter().copied().find(|p| !other.has(*p))
}

// The mate of an Open cell at hand with a point in hand: the point against its triple in the Full cell behind it.
fn mate_of_triple(hold: &Hold, spot: &Spot, tri: &Tri) -> Point
    requires triple { spot.now ≡ Open tri.now }
    requires shown { ShowsWith hold.now (Open tri.now) }
    requires held { ¬ (NoneInHand hold.now tri.now) }
    ensures { (s : List ℕ) → Shows hold.now s → IsIn (Open tri.now) (complex s) → IsMate s (Open tri.now) result }
{
    let facet = Facet::Three(*tri);
    let behind = hold.spot_across(spot, &facet);
    match point_against(behind.cell(), spot.cell()) {
        Some(mate) => mate,
        None => unreachable!(),
    }
}

// A mate of the cell. Of a Full cell it is not looked at.
fn mate_of(hold: &Hold, spot: &Spot, p: Point) -> Point
    requires shown { ShowsWith hold.now spot.now }
    requires held { ¬ (NoneInHand hold.now (points_of spot.now)) }
    ensures { (s : List ℕ) → Shows hold.now s → IsIn spot.now (complex s) → IsMate s spot.now result }
{
    match spot.cell() {
        Cell::Full(_) => p,
        Cell::Open(tri) => mate_of_triple(hold, spot, tri),
    }
}

/// Whether the new point takes the cell at hand away, of which some point's bucket is in hand. The hold is to show a
/// set of whose complex the cell is one, and for which the point is new; the answer is right for each such set.
pub fn is_spot_in_conflict(hold: &Hold, spot: &Spot, p: Point) -> bool
    requires shown { ShowsWithNew hold.now spot.now p }
    requires held { ¬ (NoneInHand hold.now (points_of spot.now)) }
    ensures { (s : List ℕ) → Shows hold.now s → IsNew s p → IsIn spot.now (complex s) →
        MatchBool result (GoesFrom s p spot.now) (StaysFrom s p spot.now) }
{
    let mate = mate_of(hold, spot, p);
    conflict(spot.cell(), mate, p)
}

/// Whether the new point takes the cell away, of which some point's bucket is in hand. The hold is to show a set
/// of whose complex the cell is one, and for which the point is new; the answer is right for each such set.
pub fn is_in_conflict(hold: &Hold, cell: &Cell, p: Point) -> bool
    requires shown { ShowsWithNew hold.now cell.now p }
    requires held { ¬ (NoneInHand hold.now (points_of cell.now)) }
    ensures { (s : List ℕ) → Shows hold.now s → IsNew s p → IsIn cell.now (complex s) →
        MatchBool result (GoesFrom s p cell.now) (StaysFrom s p cell.now) }
{
    is_spot_in_conflict(hold, &Spot::new(*cell, 0, 0), p)
}
