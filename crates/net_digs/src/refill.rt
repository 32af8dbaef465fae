//! Cells that come are put into free slots, and linked with one another and with those around them.

ghost use Rattle.std.specs.Prelude.{◌≡◌, ◌+◌, ◌≤◌, length, OnOk};
ghost use Rattle.cell_slots.specs.Nets.{AreWithAll, cells_of_slots};
ghost use Rattle.cell_slots.specs.Stars.{HaveRoom};

use crate::dig::Side;
use cell_net::Net;
use cell_slots::{Corners, Edges, Face, HalfFacet, whole_facet};
use point_order::Cell;
use std::alloc::AllocError;

/// Makes so many free slots more.
pub fn make_room(net: &mut Net, more: usize) -> Result<(), AllocError>
    ensures cells { cells_of_slots net.new ≡ cells_of_slots net.old }
    ensures less { length net.old ≤ length net.new }
    ensures size { OnOk result (length net.new ≡ length net.old + more) }
{
    for _ in 0..more {
        net.grow()?;
    }
    Ok(())
}

// Notes which cell has the half-facet, once another was met on it.
fn join(net: &mut Net, edges: &mut Edges, facet: &Face, half_facet: HalfFacet)
    ensures { net.new ≡ net.old }
{
    let edge = whole_facet(facet, half_facet.number);
    let other = edges.meet(&edge, half_facet.place);
    net.link_two(half_facet, other);
}

// The same of the facets of the rim.
fn join_rim(net: &mut Net, edges: &mut Edges, rim: &[Side])
    ensures { net.new ≡ net.old }
{
    for side in rim {
        join(net, edges, side.facet(), side.behind());
    }
}

// The same of the four facets of a cell in a slot.
fn join_cell(net: &mut Net, edges: &mut Edges, cell: &Corners, place: usize)
    ensures { net.new ≡ net.old }
{
    let facets = cell.facets();
    let mut number = 0;
    for facet in &facets {
        join(net, edges, facet, HalfFacet { place, number });
        number += 1;
    }
}

/// Puts cells into free slots, and links them with one another and with those behind the rim.
pub fn fill(net: &mut Net, edges: &mut Edges, rim: &[Side], cells: &[Cell])
    requires { HaveRoom net.old (length cells.now) }
    ensures cells { AreWithAll (cells_of_slots net.old) cells.now (cells_of_slots net.new) }
    ensures size { length net.new ≡ length net.old }
    ensures count { length (cells_of_slots net.new) ≡ length (cells_of_slots net.old) + length cells.now }
{
    join_rim(net, edges, rim);
    for cell in cells {
        let hint = net.free_hint();
        let corners = Corners::of(cell);
        let place = net.refill(&corners, hint);
        join_cell(net, edges, &corners, place);
    }
}
