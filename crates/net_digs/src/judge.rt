//! Which of the cells a new point takes away.

ghost use Rattle.std.specs.Prelude.{◌≡◌, ◌++◌, List, MatchBool, MatchOption, not, ℕ};
ghost use Rattle.std.specs.List.{find};
ghost use Rattle.point_order.specs.Facets.{points_of};
ghost use Rattle.point_order.specs.Sets.{IsIn, is_among as is_among_of};
ghost use Rattle.point_order.specs.declared.cell.Cell.{Cell as CellOf};
ghost use Rattle.point_order.specs.declared.cell.Cell.TheVariants.{Open};
ghost use Rattle.hole_laws.specs.Edits.{IsMate, GoesFrom, StaysFrom};
ghost use Rattle.cell_slots.specs.Clouds.{AreCellsOf};
ghost use Rattle.cell_slots.specs.Marked.{GoesAt, StaysAt};
ghost use Rattle.cell_slots.specs.Nets.{cells_of_slots};
ghost use Rattle.cell_slots.specs.Parts.{AreWithin, AreWithinNew, InEach};
ghost use Rattle.cell_slots.specs.declared.reach.Reach.TheVariants.{Part, Whole};

use cell_net::Net;
use cell_slots::{Corners, Face, Reach, Spot};
use point_order::{Cell, Facet, Point, Tri};

// The first point of a cell that is none of a triple, if there is one.
fn point_against(cell: &Cell, tri: &Tri) -> Option<Point>
    ensures { result ≡ find (λ p. not (is_among_of p tri.now)) (points_of cell.now) }
{
    cell.points()
        .iter()
        .copied()
        .find(|p| !tri.points().contains(p))
}

// The mate of an Open cell: the point against its triple in the Full cell behind it. In a part that may be foreign.
fn mate_of_triple(net: &Net, place: usize, tri: &Tri, reach: Reach) -> Option<Point>
    requires cells { AreWithin reach (cells_of_slots net.now) }
    requires among { IsIn (Open tri.now) (cells_of_slots net.now) }
    ensures { MatchOption result (reach ≡ Part) (λ mate. (others : List CellOf) (s : List ℕ) →
        AreCellsOf s (cells_of_slots net.now ++ others) → IsMate s (Open tri.now) mate) }
{
    let facet = Face::of(&Facet::Three(*tri));
    let here = Spot::new(Corners::of(&Cell::Open(*tri)), place);
    let half_facet = net.across(&here, &facet, 3, reach)?;
    let behind = net.cell_in(half_facet.place);
    match point_against(&behind.to_cell(), tri) {
        Some(mate) => Some(mate),
        None => unreachable!(),
    }
}

// A mate of the cell. Of a Full cell it is not looked at.
#[inline(always)]
fn mate_of(net: &Net, spot: &Spot, p: Point, reach: Reach) -> Option<Point>
    requires cells { AreWithin reach (cells_of_slots net.now) }
    requires among { IsIn spot.now (cells_of_slots net.now) }
    ensures { MatchOption result (reach ≡ Part) (λ mate. (others : List CellOf) (s : List ℕ) →
        AreCellsOf s (cells_of_slots net.now ++ others) → IsMate s spot.now mate) }
{
    match spot.cell().triple() {
        Some(tri) => mate_of_triple(net, spot.place(), &tri, reach),
        None => Some(p),
    }
}

/// Whether the new point takes the cell away. In a part it may not be known.
#[inline(always)]
pub fn is_in_conflict(net: &Net, spot: &Spot, p: Point, reach: Reach) -> Option<bool>
    requires cells { AreWithinNew reach p (cells_of_slots net.now) }
    requires among { IsIn spot.now (cells_of_slots net.now) }
    ensures { MatchOption result (reach ≡ Part) (λ goes. InEach p (cells_of_slots net.now) (λ s.
        MatchBool goes (GoesFrom s p spot.now) (StaysFrom s p spot.now))) }
{
    let mate = mate_of(net, spot, p, reach)?;
    Some(spot.cell().is_taken(mate, p))
}

// Whether the new point is known to take the cell of a slot away.
fn goes_at(net: &Net, place: usize, p: Point, reach: Reach) -> bool
    requires { AreWithinNew reach p (cells_of_slots net.now) }
    ensures { MatchBool result (GoesAt p net.now place) (reach ≡ Whole → StaysAt p net.now place) }
{
    match net.spot_in(place) {
        Some(spot) => match is_in_conflict(net, &spot, p, reach) {
            Some(goes) => goes,
            None => false,
        },
        None => false,
    }
}

// The slot of a cell that the new point takes away, where all are looked at.
fn first_of_all(net: &Net, p: Point) -> usize
    requires { AreWithinNew Whole p (cells_of_slots net.now) }
    ensures { GoesAt p net.now result }
{
    for place in 0..net.len() {
        if goes_at(net, place, p, Reach::Whole) {
            return place;
        }
    }
    unreachable!()
}

/// The slot of a cell that the new point takes away. It is likely that of the hint, and in a part no other is looked
/// at.
pub fn first_in_conflict(net: &Net, p: Point, hint: usize, reach: Reach) -> Option<usize>
    requires { AreWithinNew reach p (cells_of_slots net.now) }
    ensures { MatchOption result (reach ≡ Part) (GoesAt p net.now) }
{
    if goes_at(net, hint, p, reach) {
        return Some(hint);
    }
    match reach {
        Reach::Whole => Some(first_of_all(net, p)),
        Reach::Part => None,
    }
}
