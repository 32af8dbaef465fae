//! Linked cells as a part of a complex, whose other cells stand elsewhere: what would need one of those is given up,
//! and leaves the cells as they were.

ghost use Rattle.std.specs.Prelude.{◌≡◌, ◌+◌, ◌-◌, ◌≤◌, ◌++◌, length, map, IfOk, IfSome, IsTrue, MatchOption, OnErr};
ghost use Rattle.point_order.specs.Facets.{facets_of};
ghost use Rattle.point_order.specs.Sets.{IsIn};
ghost use Rattle.hole_laws.specs.Digs.{AreFacetsApart};
ghost use Rattle.hole_laws.specs.Lists.{cell_over};
ghost use Rattle.net_digs.specs.Linked.{ArePartLacking, ArePartWith, HasComeTo, IsOpened, IsSlotOf};
ghost use Rattle.cell_slots.specs.Nets.{AreMoved, cells_of_slots};
ghost use Rattle.cell_slots.specs.Parts.{InEachSet};
ghost use Rattle.cell_slots.specs.Stars.{AreBehind, AreBehindAll, HaveRoom};
ghost use Rattle.hole_laws.specs.Others.{IsOtherOf};

use crate::added::Arrival;
use crate::linked::has_point_at;
use crate::owned::{LinkedCells, OpenStar};
use cell_net::Net;
use cell_slots::{Corners, Edges, Face, Reach, Spot};
use net_digs::{Hole, Marks, cells_of, filled_hole, hole_of, star_of, take_all, walked_to};
use point_order::{Cell, Point};
use std::alloc::{AllocError, Global};

// The slot of a cell with a point, where it is that of the hint.
fn slot_here(net: &Net, v: Point, hint: usize) -> Option<usize>
    ensures { IfSome result (λ i. IsSlotOf v net.now i) }
{
    if has_point_at(net, hint, v) {
        return Some(hint);
    }
    None
}

// Opens the star of a point of the set, where all of it is here. Else, and on want of memory, nothing changed.
fn opened(
    alloc: Global,
    net: &mut Net,
    marks: &mut Marks,
    v: Point,
    start: usize,
) -> Result<Option<OpenStar>, AllocError>
    requires { ArePartWith v (cells_of_slots net.old) }
    ensures opened { IfOk result (λ found. MatchOption found (net.new ≡ net.old)
        (λ star. IsOpened v (cells_of_slots net.old) (cells_of_slots net.new) star)) }
    ensures refused { OnErr result (net.new ≡ net.old) }
    ensures size { length net.new ≡ length net.old }
{
    let hint = walked_to(net, v, start);
    let first = match slot_here(net, v, hint) {
        Some(first) => first,
        None => return Ok(None),
    };
    let found = star_of(alloc, net, marks, v, first, Reach::Part)?;
    let star = match found {
        Some(star) => star,
        None => return Ok(None),
    };
    let cells = cells_of(alloc, &star.gone)?;
    take_all(net, &star.gone, 0);
    Ok(Some(OpenStar { star, cells }))
}

// Adds the cells behind the facets of a cell that was taken out, where all of them are here.
fn push_behind_here(
    net: &Net,
    gone: &[Spot],
    spot: &Spot,
    cells: &mut Vec<Cell>,
) -> Result<bool, AllocError>
    requires { IsIn spot.now gone.now }
    ensures { IfOk result (λ could. IsTrue could → InEachSet (cells_of_slots net.now ++ gone.now) (λ s.
        AreBehind s spot.now (facets_of spot.now) cells.old.items cells.new.items)) }
{
    let facets = spot.cell().facets();
    let mut k = 0;
    for facet in &facets {
        let other = match net.behind_here(gone, spot, facet, k) {
            Some(other) => other,
            None => return Ok(false),
        };
        cells.push(other.to_cell())?;
        k += 1;
    }
    Ok(true)
}

// The cells that were taken out, and those behind their facets, some more than once, where all of them are here.
fn cells_behind_here(
    alloc: Global,
    net: &Net,
    gone: &[Spot],
    star: &[Cell],
) -> Result<Option<Vec<Cell>>, AllocError>
    ensures { IfOk result (λ found. IfSome found (λ cells. InEachSet (cells_of_slots net.now ++ gone.now) (λ s.
        AreBehindAll s gone.now star.now cells.items))) }
{
    let mut cells = Vec::from_slice(alloc, star)?;
    for spot in gone {
        let could = push_behind_here(net, gone, spot, &mut cells)?;
        if !could {
            return Ok(None);
        }
    }
    Ok(Some(cells))
}

// A new point comes to the net, in which so many slots are known to be free, where all that it changes is here. On want
// of memory the net has its cells still.
fn arrived_here(
    alloc: Global,
    net: &mut Net,
    edges: &mut Edges,
    marks: &mut Marks,
    spare: usize,
    p: Point,
    start: usize,
) -> Result<Option<Hole>, AllocError>
    requires new { ArePartLacking p (cells_of_slots net.old) }
    requires room { HaveRoom net.old spare }
    ensures apart { IfOk result (λ found. IfSome found (λ hole. AreFacetsApart hole.rim.items p)) }
    ensures arrived { IfOk result (λ found. MatchOption found (net.new ≡ net.old)
        (λ hole. HasComeTo p (cells_of_slots net.old) hole.gone.items (map (λ f. cell_over f p) hole.rim.items)
        (cells_of_slots net.new))) }
    ensures room { IfOk result (λ found. IfSome found (λ hole.
        HaveRoom net.new (spare + length hole.gone.items - length hole.rim.items))) }
    ensures refused { OnErr result (cells_of_slots net.new ≡ cells_of_slots net.old) }
    ensures room_back { OnErr result (HaveRoom net.new spare) }
{
    let mut hole = Hole::new(alloc);
    let could = hole_of(net, marks, &mut hole, p, start, Reach::Part)?;
    if !could {
        return Ok(None);
    }
    filled_hole(net, edges, spare, &hole, p)?;
    Ok(Some(hole))
}

impl LinkedCells {
    /// Takes the cells at a point of the set out, where all of them are here. Else nothing changed.
    ///
    /// # Errors
    /// Want of memory. Nothing changed then.
    pub fn open_star_here(
        &mut self,
        alloc: Global,
        v: Point,
    ) -> Result<Option<OpenStar>, AllocError>
        requires { ArePartWith v self.old.cells }
        ensures opened { IfOk result (λ found. MatchOption found (self.new.cells ≡ self.old.cells)
            (λ star. IsOpened v self.old.cells self.new.cells star)) }
        ensures room { IfOk result (λ found. MatchOption found (self.new.room ≡ self.old.room)
            (λ star. self.old.room + length star ≤ self.new.room)) }
        ensures refused { OnErr result (self.new.cells ≡ self.old.cells) }
        ensures kept { OnErr result (self.new.room ≡ self.old.room) }
    {
        let start = self.hints.start(&self.net, v);
        let found = opened(alloc, &mut self.net, &mut self.marks, v, start)?;
        match found {
            Some(star) => {
                let _ = self.net.len();
                self.spare = self.spare.saturating_add(star.cells.len());
                Ok(Some(star))
            }
            None => Ok(None),
        }
    }

    /// The cells of an open star, and those behind their facets, some more than once, where all of them are here.
    ///
    /// # Errors
    /// Want of memory.
    pub fn around_here(
        &self,
        alloc: Global,
        star: &OpenStar,
    ) -> Result<Option<Vec<Cell>>, AllocError>
        ensures { IfOk result (λ found. IfSome found (λ cells. InEachSet (self.now.cells ++ star.now) (λ s.
            AreBehindAll s star.now star.now cells.items))) }
    {
        cells_behind_here(alloc, &self.net, &star.star.gone, &star.cells)
    }

    /// Adds a point that is none of the set, where all that it changes is here. Else nothing changed.
    ///
    /// # Errors
    /// Want of memory. The cells are then as before.
    pub fn add_point_here(&mut self, alloc: Global, p: Point) -> Result<Option<Arrival>, AllocError>
        requires { ArePartLacking p self.old.cells }
        ensures point { IfOk result (λ found. IfSome found (λ arrival. arrival.point ≡ p)) }
        ensures arrived { IfOk result (λ found. MatchOption found (self.new.cells ≡ self.old.cells)
            (λ arrival. HasComeTo p self.old.cells arrival.gone arrival.fresh self.new.cells)) }
        ensures room { IfOk result (λ found. IfSome found (λ arrival.
            length arrival.gone ≤ self.new.room + length arrival.fresh)) }
        ensures refused { OnErr result (self.new.cells ≡ self.old.cells) }
    {
        let start = self.hints.start(&self.net, p);
        let found = arrived_here(
            alloc,
            &mut self.net,
            &mut self.edges,
            &mut self.marks,
            self.spare,
            p,
            start,
        )?;
        let hole = match found {
            Some(hole) => hole,
            None => return Ok(None),
        };
        self.spare = self
            .spare
            .saturating_add(hole.gone.len())
            .saturating_sub(hole.rim.len());
        self.hints.note(p, self.net.last());
        Ok(Some(Arrival { hole, point: p }))
    }
}
