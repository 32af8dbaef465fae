//! The hole of a new point: the cells that it takes away, and the facets around them.

ghost use Rattle.std.specs.Prelude.{◌≡◌, ◌<◌, ◌≤◌, ◌∷◌, [], ◌++◌, length, IfOk, List, MatchBool, MatchOption, OnOk, ℕ};
ghost use Rattle.point_order.specs.Facets.{facets_of};
ghost use Rattle.point_order.specs.Sets.{IsIn};
ghost use Rattle.point_order.specs.declared.cell.Cell.{Cell as CellOf};
ghost use Rattle.cell_slots.specs.Nets.{cells_of_slots};
ghost use Rattle.cell_slots.specs.Marked.{AreMarkedFor, ArePicked, GoesAt, HasCellAt, IsFoundAt, IsGoneAt, IsLeftAt};
ghost use Rattle.cell_slots.specs.Marked.{mark_at, set_mark};
ghost use Rattle.cell_slots.specs.Parts.{AreWithinNew, InEach};
ghost use Rattle.cell_slots.specs.declared.reach.Reach.TheVariants.{Part};
ghost use Rattle.net_digs.specs.Digs.{IsHoleOf, StandsAt, StandsNewAt};
ghost use Rattle.hole_laws.specs.Digs.{Crosses, Explores};

use crate::judge::{first_in_conflict, is_in_conflict};
use crate::marking::Marks;
use crate::walk::walked_from;
use cell_net::Net;
use cell_slots::{Corners, Face, HalfFacet, Reach, Spot};
use point_order::Point;
use std::alloc::{AllocError, Global};
use std::marker::Model;

/// A facet of the rim, where the cell behind it is likely to stand, and which of its facets it is. Contracts see it as
/// the facet.
#[derive(Drop)]
pub struct Side {
    facet: Face,
    behind: usize,
    number: usize,
}

impl Model for Side {
    ghost use Rattle.point_order.specs.declared.cell.Facet.{Facet};

    ghost Value = { Facet };

    ghost view = { λ s. s.facet };
}

impl Side {
    /// A side.
    pub fn new(facet: Face, behind: usize, number: usize) -> Side
        ensures { result ≡ facet }
    {
        Side {
            facet,
            behind,
            number,
        }
    }

    /// The facet.
    pub fn facet(&self) -> &Face
        ensures { result.now ≡ self.now }
    {
        &self.facet
    }

    /// Where the cell behind it is likely to stand, and which of its facets it is.
    pub fn behind(&self) -> HalfFacet {
        HalfFacet {
            place: self.behind,
            number: self.number,
        }
    }
}

/// The cells that a new point takes away, and the facets behind which a cell stays.
#[derive(Drop)]
pub struct Hole {
    pub gone: Vec<Spot>,
    pub rim: Vec<Side>,
}

impl Hole {
    /// A hole of which nothing is found yet.
    pub fn new(alloc: Global) -> Hole
        ensures gone { result.gone.items ≡ [] }
        ensures rim { result.rim.items ≡ [] }
    {
        Hole {
            gone: Vec::new(alloc),
            rim: Vec::new(alloc),
        }
    }
}

/// The cell of a slot is found, and marked so.
pub fn find(
    marks: &mut Marks,
    found: &mut Vec<Spot>,
    cell: Corners,
    place: usize,
) -> Result<(), AllocError>
    requires { place < length marks.old.of }
    ensures marks { OnOk result (marks.new ≡ set_mark marks.old place marks.old.stamp) }
    ensures found { OnOk result (found.new.items ≡ found.old.items ++ cell ∷ []) }
{
    marks.set_gone(place);
    found.push(Spot::new(cell, place))?;
    Ok(())
}

// Whether the cell of a slot, which was not found, stays. It is judged once, and marked: where it goes, it is found. In
// a part it may not be known.
fn judge(
    net: &Net,
    marks: &mut Marks,
    found: &mut Vec<Spot>,
    place: usize,
    p: Point,
    reach: Reach,
) -> Result<Option<bool>, AllocError>
    requires within { AreWithinNew reach p (cells_of_slots net.now) }
    requires cell { HasCellAt net.now place }
    requires apart { ¬ (IsGoneAt marks.old place) }
    requires marked { AreMarkedFor p net.now marks.old found.old.items }
    ensures marked { OnOk result (AreMarkedFor p net.now marks.new found.new.items) }
    ensures judged { IfOk result (λ known. MatchOption known
        ((reach ≡ Part) × (found.new.items ≡ found.old.items)) (λ stays. MatchBool stays
        (IsLeftAt p net.now place found.old.items found.new.items)
        (IsFoundAt p net.now place found.old.items found.new.items))) }
{
    if marks.is_staying(place) {
        return Ok(Some(true));
    }
    let spot = Spot::new(net.cell_in(place), place);
    let goes = match is_in_conflict(net, &spot, p, reach) {
        Some(goes) => goes,
        None => return Ok(None),
    };
    if goes {
        find(marks, found, *spot.cell(), place)?;
        return Ok(Some(false));
    }
    marks.set_staying(place);
    Ok(Some(true))
}

// Crosses a facet of a found cell. The cell behind it, which is likely to stand in the slot of the hint, was found, or
// it is found, since it goes, or it stays, and the facet is one of the rim. In a part it may be foreign: then the
// answer is no, and nothing is crossed.
fn cross(
    net: &Net,
    marks: &mut Marks,
    p: Point,
    spot: &Spot,
    facet: &Face,
    hint: usize,
    hole: &mut Hole,
    reach: Reach,
) -> Result<bool, AllocError>
    requires stands { StandsAt reach (cells_of_slots net.now) p spot.now hole.old.gone.items hole.old.rim.items }
    requires facet { IsIn facet.now (facets_of spot.now) }
    requires marked { AreMarkedFor p net.now marks.old hole.old.gone.items }
    ensures more { OnOk result ((more : List CellOf) × (hole.new.gone.items ≡ hole.old.gone.items ++ more)) }
    ensures marked { OnOk result (AreMarkedFor p net.now marks.new hole.new.gone.items) }
    ensures crossed { IfOk result (λ could. MatchBool could (InEach p (cells_of_slots net.now) (λ s.
        Crosses s p spot.now facet.now hole.old.gone.items hole.old.rim.items hole.new.gone.items
        hole.new.rim.items)) (reach ≡ Part)) }
{
    let half_facet = match net.half_facet_at(spot, facet, hint, reach) {
        Some(half_facet) => half_facet,
        None => return Ok(false),
    };
    if marks.is_gone(half_facet.place) {
        return Ok(true);
    }
    let known = judge(net, marks, &mut hole.gone, half_facet.place, p, reach)?;
    let stays = match known {
        Some(stays) => stays,
        None => return Ok(false),
    };
    if !stays {
        return Ok(true);
    }
    hole.rim
        .push(Side::new(*facet, half_facet.place, half_facet.number))?;
    Ok(true)
}

// The link of facet k.
#[inline(always)]
fn link_at(links: &[usize; 4], k: usize) -> usize {
    if k < 4 { links[k] } else { usize::MAX }
}

// Crosses the four facets of a found cell, where none is in the way of a foreign cell.
fn explore(
    net: &Net,
    marks: &mut Marks,
    p: Point,
    spot: &Spot,
    hole: &mut Hole,
    reach: Reach,
) -> Result<bool, AllocError>
    requires stands { StandsNewAt reach (cells_of_slots net.now) p spot.now hole.old.gone.items hole.old.rim.items }
    requires marked { AreMarkedFor p net.now marks.old hole.old.gone.items }
    ensures more { OnOk result ((more : List CellOf) × (hole.new.gone.items ≡ hole.old.gone.items ++ more)) }
    ensures marked { OnOk result (AreMarkedFor p net.now marks.new hole.new.gone.items) }
    ensures explored { IfOk result (λ could. MatchBool could (InEach p (cells_of_slots net.now) (λ s.
        Explores s p spot.now hole.old.gone.items hole.old.rim.items hole.new.gone.items hole.new.rim.items))
        (reach ≡ Part)) }
{
    let facets = spot.cell().facets();
    let links = net.links(spot.place());
    let mut k = 0;
    for facet in &facets {
        let could = cross(net, marks, p, spot, facet, link_at(&links, k), hole, reach)?;
        if !could {
            return Ok(false);
        }
        k += 1;
    }
    Ok(true)
}

// Digs the hole of a new point from the cell of a slot on. In a part a foreign cell may be in the way: then the answer
// is no.
fn dig(
    net: &Net,
    marks: &mut Marks,
    hole: &mut Hole,
    first: usize,
    p: Point,
    reach: Reach,
) -> Result<bool, AllocError>
    requires within { AreWithinNew reach p (cells_of_slots net.now) }
    requires first { GoesAt p net.now first }
    requires none { hole.old.gone.items ≡ [] }
    requires no_rim { hole.old.rim.items ≡ [] }
    requires room { length net.now ≤ length marks.old.of }
    requires marked { (i : ℕ) → mark_at marks.old i < marks.old.stamp }
    ensures picked { OnOk result (ArePicked (cells_of_slots net.now) hole.new.gone.items) }
    ensures hole { IfOk result (λ could. MatchBool could (InEach p (cells_of_slots net.now)
        (λ s. IsHoleOf s p hole.new.gone.items hole.new.rim.items)) (reach ≡ Part)) }
{
    find(marks, &mut hole.gone, net.cell_in(first), first)?;
    let mut explored = 0;
    'dig: while explored < hole.gone.len() {
        let spot = hole.gone[explored].copied();
        let could = explore(net, marks, p, &spot, hole, reach)?;
        if !could {
            return Ok(false);
        }
        explored += 1;
    }
    Ok(true)
}

/// Finds the hole of a new point by a walk from a slot. The net is only looked at. In a part a foreign cell may be in
/// the way: then the answer is no.
pub fn hole_of(
    net: &Net,
    marks: &mut Marks,
    hole: &mut Hole,
    p: Point,
    start: usize,
    reach: Reach,
) -> Result<bool, AllocError>
    requires { AreWithinNew reach p (cells_of_slots net.now) }
    ensures picked { OnOk result (ArePicked (cells_of_slots net.now) hole.new.gone.items) }
    ensures hole { IfOk result (λ could. MatchBool could (InEach p (cells_of_slots net.now)
        (λ s. IsHoleOf s p hole.new.gone.items hole.new.rim.items)) (reach ≡ Part)) }
{
    marks.begin(net.len())?;
    hole.gone.clear();
    hole.rim.clear();
    let hint = walked_from(net, p, reach, start);
    let first = match first_in_conflict(net, p, hint, reach) {
        Some(first) => first,
        None => return Ok(false),
    };
    dig(net, marks, hole, first, p, reach)
}
