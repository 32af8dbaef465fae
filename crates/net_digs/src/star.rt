//! The star of a point: the cells at it, and the facets around them.

ghost use Rattle.std.specs.Prelude.{◌≡◌, ◌+◌, ◌++◌, ◌∷◌, [], length, IfOk, List, MatchBool, MatchOption, OnOk, ℕ};
ghost use Rattle.point_order.specs.Facets.{facets_of};
ghost use Rattle.point_order.specs.Sets.{IsIn};
ghost use Rattle.point_order.specs.declared.cell.Cell.{Cell as CellOf};
ghost use Rattle.net_digs.specs.Linked.{IsSlotOf};
ghost use Rattle.cell_slots.specs.Marked.{AreMarkedIn, ArePicked};
ghost use Rattle.cell_slots.specs.Nets.{AreMoved, cells_of_slots};
ghost use Rattle.cell_slots.specs.Parts.{AreWithin, InEachSet};
ghost use Rattle.cell_slots.specs.Stars.{AreStarOf, CrossesAround, HaveRoom};
ghost use Rattle.cell_slots.specs.declared.reach.Reach.TheVariants.{Part};

use crate::dig::{Hole, Side, find};
use crate::marking::Marks;
use cell_net::Net;
use cell_slots::{Face, Reach, Spot};
use point_order::Point;
use std::alloc::{AllocError, Global};

// The side of the rim at facet k of a cell. What is behind it is likely what was noted.
fn side_of(net: &Net, spot: &Spot, facet: &Face, k: usize) -> Side {
    let behind = net.link(spot.place(), k);
    let number = match net.spot_in(behind) {
        Some(other) => other.cell().number_of(facet),
        None => 0,
    };
    Side::new(*facet, behind, number)
}

// Crosses facet k of a found cell at v. Where the facet has v, the cell behind it is found, if it was not; else the
// facet is one of the rim. In a part that cell may be foreign: then the answer is no, and nothing is crossed.
fn cross_around(
    net: &Net,
    marks: &mut Marks,
    v: Point,
    spot: &Spot,
    facet: &Face,
    k: usize,
    star: &mut Hole,
    reach: Reach,
) -> Result<bool, AllocError>
    requires within { AreWithin reach (cells_of_slots net.now) }
    requires among { IsIn spot.now star.old.gone.items }
    requires facet { IsIn facet.now (facets_of spot.now) }
    requires marked { AreMarkedIn net.now marks.old star.old.gone.items }
    ensures more { OnOk result ((more : List CellOf) × (star.new.gone.items ≡ star.old.gone.items ++ more)) }
    ensures marked { OnOk result (AreMarkedIn net.now marks.new star.new.gone.items) }
    ensures crossed { IfOk result (λ could. MatchBool could (InEachSet (cells_of_slots net.now) (λ s.
        CrossesAround s v (facet.now ∷ []) star.old.gone.items star.new.gone.items)) (reach ≡ Part)) }
{
    if !facet.has(v) {
        star.rim.push(side_of(net, spot, facet, k))?;
        return Ok(true);
    }
    let half_facet = match net.across(spot, facet, k, reach) {
        Some(half_facet) => half_facet,
        None => return Ok(false),
    };
    if marks.is_gone(half_facet.place) {
        return Ok(true);
    }
    let other = net.cell_in(half_facet.place);
    find(marks, &mut star.gone, other, half_facet.place)?;
    Ok(true)
}

// Crosses the four facets of a found cell, where none is in the way of a foreign cell.
fn explore_around(
    net: &Net,
    marks: &mut Marks,
    v: Point,
    spot: &Spot,
    star: &mut Hole,
    reach: Reach,
) -> Result<bool, AllocError>
    requires within { AreWithin reach (cells_of_slots net.now) }
    requires among { IsIn spot.now star.old.gone.items }
    requires marked { AreMarkedIn net.now marks.old star.old.gone.items }
    ensures more { OnOk result ((more : List CellOf) × (star.new.gone.items ≡ star.old.gone.items ++ more)) }
    ensures marked { OnOk result (AreMarkedIn net.now marks.new star.new.gone.items) }
    ensures explored { IfOk result (λ could. MatchBool could (InEachSet (cells_of_slots net.now) (λ s.
        CrossesAround s v (facets_of spot.now) star.old.gone.items star.new.gone.items)) (reach ≡ Part)) }
{
    let facets = spot.cell().facets();
    let mut k = 0;
    for facet in &facets {
        let could = cross_around(net, marks, v, spot, facet, k, star, reach)?;
        if !could {
            return Ok(false);
        }
        k += 1;
    }
    Ok(true)
}

/// The cells at v, from that of a slot on. The net is only looked at. In a part one of them may be foreign: then there
/// is no answer.
pub fn star_of(
    alloc: Global,
    net: &Net,
    marks: &mut Marks,
    v: Point,
    first: usize,
    reach: Reach,
) -> Result<Option<Hole>, AllocError>
    requires within { AreWithin reach (cells_of_slots net.now) }
    requires first { IsSlotOf v net.now first }
    ensures { IfOk result (λ found. MatchOption found (reach ≡ Part) (λ star.
        ArePicked (cells_of_slots net.now) star.gone.items
        × InEachSet (cells_of_slots net.now) (λ s. AreStarOf s v star.gone.items))) }
{
    let mut star = Hole::new(alloc);
    marks.begin(net.len())?;
    find(marks, &mut star.gone, net.cell_in(first), first)?;
    let mut explored = 0;
    'star: while explored < star.gone.len() {
        let spot = star.gone[explored].copied();
        let could = explore_around(net, marks, v, &spot, &mut star, reach)?;
        if !could {
            return Ok(None);
        }
        explored += 1;
    }
    Ok(Some(star))
}

/// Puts the cells that were taken out back. The slots of all but so many were noted to be free.
pub fn give_back(net: &mut Net, gone: &[Spot], kept: usize)
    requires { HaveRoom net.old (length gone.now) }
    ensures cells { AreMoved (cells_of_slots net.old ++ gone.now) (cells_of_slots net.new) }
    ensures size { length net.new ≡ length net.old }
    ensures count { length (cells_of_slots net.new) ≡ length (cells_of_slots net.old) + length gone.now }
{
    let mut number: usize = 0;
    for spot in gone {
        net.forget_free(number >= kept);
        let _ = net.refill(spot.cell(), spot.place());
        number = number.wrapping_add(1);
    }
}
