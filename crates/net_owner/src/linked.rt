//! The star of a point of the set is opened, and closed with other cells.

ghost use Rattle.std.specs.Prelude.{◌≡◌, ◌+◌, ◌-◌, ◌≤◌, ◌++◌, length, MatchBool, OnErr, OnOk};
ghost use Rattle.net_digs.specs.Linked.{AreCellsWith, IsSlotOf, NoneHasAt};
ghost use Rattle.cell_slots.specs.Nets.{AreMoved, AreWithAll, cells_of_slots};
ghost use Rattle.cell_slots.specs.Stars.{HaveRoom};

use cell_net::Net;
use cell_slots::Edges;
use net_digs::{Hole, fill, give_back, make_room};
use point_order::{Cell, Point};
use std::alloc::AllocError;

/// Whether a slot has a cell with the point.
pub fn has_point_at(net: &Net, i: usize, v: Point) -> bool
    ensures { MatchBool result (IsSlotOf v net.now i) (NoneHasAt v net.now i) }
{
    match net.spot_in(i) {
        Some(spot) => spot.cell().has(v),
        None => false,
    }
}

/// The slot of a cell with a point of the set, which is likely to be the hint.
pub fn with_point(net: &Net, v: Point, hint: usize) -> usize
    requires { AreCellsWith v (cells_of_slots net.now) }
    ensures { IsSlotOf v net.now result }
{
    if has_point_at(net, hint, v) {
        return hint;
    }
    for i in 0..net.len() {
        if has_point_at(net, i, v) {
            return i;
        }
    }
    unreachable!()
}

/// Makes what is needed to put so many cells into the net, where so many slots are known to be free.
pub fn made_ready(
    net: &mut Net,
    edges: &mut Edges,
    spare: usize,
    rim: usize,
    cells: usize,
) -> Result<(), AllocError>
    requires { HaveRoom net.old spare }
    ensures cells { cells_of_slots net.new ≡ cells_of_slots net.old }
    ensures less { length net.old ≤ length net.new }
    ensures room { OnOk result (HaveRoom net.new cells) }
{
    edges.make_room(cells.saturating_mul(2).saturating_add(rim))?;
    make_room(net, cells.saturating_sub(spare))?;
    Ok(())
}

/// Closes a star with cells in place of those that were taken out. On want of memory these are put back.
pub fn closed(
    net: &mut Net,
    edges: &mut Edges,
    spare: usize,
    star: &Hole,
    cells: &[Cell],
) -> Result<(), AllocError>
    requires room { HaveRoom net.old spare }
    requires among { length star.now.gone.items ≤ spare }
    ensures filled { OnOk result (AreWithAll (cells_of_slots net.old) cells.now (cells_of_slots net.new)) }
    ensures room { OnOk result (HaveRoom net.new (spare - length cells.now)) }
    ensures refused { OnErr result (AreMoved (cells_of_slots net.old ++ star.now.gone.items)
        (cells_of_slots net.new)) }
    ensures room_back { OnErr result (HaveRoom net.new (spare - length star.now.gone.items)) }
{
    match made_ready(net, edges, spare, star.rim.len(), cells.len()) {
        Ok(()) => {
            fill(net, edges, &star.rim, cells);
            Ok(())
        }
        Err(e) => {
            give_back(net, &star.gone, 0);
            Err(e)
        }
    }
}
