//! A new point comes to cells that one owner changes: its hole is dug, and filled. Where memory is wanting, nothing was
//! taken out yet.

ghost use Rattle.std.specs.Prelude.{◌≡◌, ◌+◌, ◌-◌, ◌≤◌, ◌++◌, length, map, IfOk, List, OnErr, OnOk, ℕ};
ghost use Rattle.list_laws.specs.Lists.{AreDistinct};
ghost use Rattle.point_order.specs.Sets.{with_point};
ghost use Rattle.hole_laws.specs.Digs.{AreFacetsApart};
ghost use Rattle.hole_laws.specs.Edits.{IsNew};
ghost use Rattle.hole_laws.specs.Lists.{cell_over};
ghost use Rattle.cell_slots.specs.Clouds.{AreCellsOf};
ghost use Rattle.net_digs.specs.Linked.{AreAllAmong, HasArrived, HasArrivedInSome};
ghost use Rattle.cell_slots.specs.Marked.{ArePicked};
ghost use Rattle.cell_slots.specs.Nets.{TakeThePlace, AreMoved, AreWithAll, cells_of_slots};
ghost use Rattle.cell_slots.specs.Parts.{AreWithinNew};
ghost use Rattle.cell_slots.specs.Stars.{HaveRoom};
ghost use Rattle.cell_slots.specs.declared.reach.Reach.TheVariants.{Whole};

use crate::dig::{Hole, Side, hole_of};
use crate::grow::{link, slot_for, take_all};
use crate::marking::Marks;
use crate::refill::make_room;
use crate::star::give_back;
use cell_net::Net;
use cell_slots::{Corners, Edges, Reach, Spot};
use point_order::Point;
use std::alloc::{AllocError, Global};

// Puts the cells of p and the facets of the rim into free slots, first in the place of those that went.
fn fill_over(net: &mut Net, edges: &mut Edges, gone: &[Spot], rim: &[Side], p: Point)
    requires apart { AreFacetsApart rim.now p }
    requires room { HaveRoom net.old (length rim.now) }
    ensures cells { AreWithAll (cells_of_slots net.old) (map (λ f. cell_over f p) rim.now) (cells_of_slots net.new) }
    ensures size { length net.new ≡ length net.old }
    ensures count { length (cells_of_slots net.new) ≡ length (cells_of_slots net.old) + length rim.now }
{
    let mut number: usize = 0;
    for side in rim {
        let hint = slot_for(net, gone, number);
        let place = net.refill(&Corners::over(side.facet(), p), hint);
        link(net, edges, side, p.key(), place);
        number = number.wrapping_add(1);
    }
}

/// The cells of p and the rim come in the place of those that go, where so many slots are known to be free. On want of
/// memory the net has its cells still.
pub fn filled_hole(
    net: &mut Net,
    edges: &mut Edges,
    spare: usize,
    hole: &Hole,
    p: Point,
) -> Result<(), AllocError>
    requires apart { AreFacetsApart hole.now.rim.items p }
    requires once { AreDistinct (cells_of_slots net.old) }
    requires picked { ArePicked (cells_of_slots net.old) hole.now.gone.items }
    requires room { HaveRoom net.old spare }
    ensures filled { OnOk result (TakeThePlace (cells_of_slots net.old) hole.now.gone.items
        (map (λ f. cell_over f p) hole.now.rim.items) (cells_of_slots net.new)) }
    ensures room { OnOk result (HaveRoom net.new
        (spare + length hole.now.gone.items - length hole.now.rim.items)) }
    ensures refused { OnErr result (cells_of_slots net.new ≡ cells_of_slots net.old) }
    ensures room_back { OnErr result (HaveRoom net.new spare) }
{
    let more = hole.rim.len().saturating_sub(hole.gone.len());
    edges.make_room(hole.rim.len())?;
    make_room(net, more.saturating_sub(spare))?;
    take_all(net, &hole.gone, hole.rim.len());
    fill_over(net, edges, &hole.gone, &hole.rim, p);
    Ok(())
}

/// A new point comes to the net, in which so many slots are known to be free. On want of memory the net has its cells
/// still.
pub fn arrived(
    alloc: Global,
    net: &mut Net,
    edges: &mut Edges,
    marks: &mut Marks,
    spare: usize,
    p: Point,
    start: usize,
) -> Result<Hole, AllocError>
    requires new { AreWithinNew Whole p (cells_of_slots net.old) }
    requires room { HaveRoom net.old spare }
    ensures apart { IfOk result (λ hole. AreFacetsApart hole.rim.items p) }
    ensures arrived { IfOk result (λ hole. (s : List ℕ) → AreCellsOf s (cells_of_slots net.old) → IsNew s p →
        HasArrived s p hole.gone.items (map (λ f. cell_over f p) hole.rim.items)) }
    ensures added { OnOk result ((s : List ℕ) → AreCellsOf s (cells_of_slots net.old) → IsNew s p →
        AreCellsOf (with_point p s) (cells_of_slots net.new)) }
    ensures room { IfOk result (λ hole.
        HaveRoom net.new (spare + length hole.gone.items - length hole.rim.items)) }
    ensures refused { OnErr result (AreMoved (cells_of_slots net.old) (cells_of_slots net.new)) }
    ensures room_back { OnErr result (HaveRoom net.new spare) }
{
    let mut hole = Hole::new(alloc);
    let could = hole_of(net, marks, &mut hole, p, start, Reach::Whole)?;
    if !could {
        unreachable!();
    }
    filled_hole(net, edges, spare, &hole, p)?;
    Ok(hole)
}

// Where the cell of the new point and the facet of a side is likely to stand.
fn place_over(net: &Net, side: &Side) -> usize {
    let half_facet = side.behind();
    net.link(half_facet.place, half_facet.number)
}

// Takes the cells of p and the facets of the rim out of the net, and notes that the slots of all but so many are free.
fn clear_over(net: &mut Net, rim: &[Side], p: Point, kept: usize)
    requires apart { AreFacetsApart rim.now p }
    requires listed { AreAllAmong (map (λ f. cell_over f p) rim.now) (cells_of_slots net.old) }
    requires once { AreDistinct (map (λ f. cell_over f p) rim.now) }
    ensures cells { AreMoved (cells_of_slots net.old) (cells_of_slots net.new ++ map (λ f. cell_over f p) rim.now) }
    ensures size { length net.new ≡ length net.old }
{
    let mut number: usize = 0;
    for side in rim {
        let cell = Corners::over(side.facet(), p);
        let place = place_over(net, side);
        net.clear(&cell, place, 0);
        net.note_free(place, number >= kept);
        number = number.wrapping_add(1);
    }
}

/// Takes p out of the net again, and puts the cells that it took away back.
pub fn taken_back(net: &mut Net, hole: &Hole, p: Point)
    requires apart { AreFacetsApart hole.now.rim.items p }
    requires arrived { HasArrivedInSome p hole.now.gone.items (map (λ f. cell_over f p) hole.now.rim.items)
        (cells_of_slots net.old) }
    requires room { length (cells_of_slots net.old) + length hole.now.gone.items
        ≤ length net.old + length hole.now.rim.items }
    ensures cells { (s : List ℕ) → HasArrived s p hole.now.gone.items (map (λ f. cell_over f p) hole.now.rim.items) →
        AreCellsOf (with_point p s) (cells_of_slots net.old) → AreCellsOf s (cells_of_slots net.new) }
    ensures size { length net.new ≡ length net.old }
    ensures count { length (cells_of_slots net.new) + length hole.now.rim.items
        ≤ length (cells_of_slots net.old) + length hole.now.gone.items }
{
    clear_over(net, &hole.rim, p, hole.gone.len());
    give_back(net, &hole.gone, hole.rim.len());
}
