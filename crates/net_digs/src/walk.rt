//! The walk to a cell in conflict. What it finds is a hint: it is judged before it is believed.

ghost use Rattle.cell_slots.specs.Nets.{cells_of_slots};
ghost use Rattle.cell_slots.specs.Parts.{AreWithinNew};

use crate::judge::is_in_conflict;
use cell_net::Net;
use cell_slots::{Corners, Reach};
use exact_orient::orient;
use point_order::Point;

// Whether a point with this orientation lies strictly behind the facet, where the cell's own is positive or not.
fn is_behind(side: i64, is_positive: bool) -> bool {
    if is_positive { side < 0 } else { side > 0 }
}

// Whether a way leads to a slot that is at hand, and not back.
fn is_way(next: usize, from: usize) -> bool {
    next != from && next != usize::MAX
}

// The slot across a facet with the point strictly behind it, if there is such a facet. The walk does not turn back.
fn exit_of(net: &Net, place: usize, cell: &Corners, from: usize, p: Point) -> Option<usize> {
    let (a, b, c, d) = cell.points();
    let is_positive = orient(a, b, c, d) > 0;
    let next = net.link(place, 0);
    if is_way(next, from) && is_behind(orient(p, b, c, d), is_positive) {
        return Some(next);
    }
    let next = net.link(place, 1);
    if is_way(next, from) && is_behind(orient(a, p, c, d), is_positive) {
        return Some(next);
    }
    let next = net.link(place, 2);
    if is_way(next, from) && is_behind(orient(a, b, p, d), is_positive) {
        return Some(next);
    }
    let next = net.link(place, 3);
    if is_way(next, from) && is_behind(orient(a, b, c, p), is_positive) {
        return Some(next);
    }
    None
}

// The next slot of the walk, if it goes on: it ends in an Open cell in conflict, in a Full cell that has the point,
// and in a part before a foreign cell.
fn step(net: &Net, place: usize, from: usize, p: Point, reach: Reach) -> Option<usize>
    requires { AreWithinNew reach p (cells_of_slots net.now) }
{
    let spot = net.spot_in(place)?;
    if !spot.cell().is_open() {
        return exit_of(net, place, spot.cell(), from, p);
    }
    let goes = is_in_conflict(net, &spot, p, reach)?;
    if goes {
        return None;
    }
    Some(net.link(place, 3))
}

/// The slot of a cell that is likely to be in conflict with the point, by a walk from that of a slot.
pub fn walked_from(net: &Net, p: Point, reach: Reach, start: usize) -> usize
    requires { AreWithinNew reach p (cells_of_slots net.now) }
{
    let mut place = start;
    let mut from = usize::MAX;
    for _ in 0..net.len() {
        match step(net, place, from, p, reach) {
            Some(next) => {
                from = place;
                place = next;
            }
            None => return place,
        }
    }
    place
}

// The next slot of the walk to a point of the set, if it goes on.
fn step_to(net: &Net, place: usize, from: usize, v: Point) -> Option<usize> {
    let spot = net.spot_in(place)?;
    if spot.cell().has(v) {
        return None;
    }
    if spot.cell().is_open() {
        return Some(net.link(place, 3));
    }
    exit_of(net, place, spot.cell(), from, v)
}

/// The slot of a cell that is likely to have a point of the set, by a walk from that of a slot.
pub fn walked_to(net: &Net, v: Point, start: usize) -> usize {
    let mut place = start;
    let mut from = usize::MAX;
    for _ in 0..net.len() {
        match step_to(net, place, from, v) {
            Some(next) => {
                from = place;
                place = next;
            }
            None => return place,
        }
    }
    place
}
