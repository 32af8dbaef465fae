//! The steps of a dig, over the lists that it keeps.

ghost use Rattle.std.specs.Prelude.{◌≡◌, ◌++◌, List, OnOk, ℕ};
ghost use Rattle.point_order.specs.Facets.{facets_of, points_of};
ghost use Rattle.point_order.specs.Sets.{IsIn};
ghost use Rattle.point_order.specs.declared.cell.Cell.{Cell};
ghost use Rattle.cell_store.specs.Shares.{Shows, NoneInHand, points_on};
ghost use Rattle.cell_store.specs.Missing.{ArePointsHeld};
ghost use Rattle.cavity.specs.Exploring.{ShowsAt, ShowsNewAt};
ghost use Rattle.hole_laws.specs.Digs.{Crosses, Explores};

use crate::cell_table::hash_of;
use crate::judged::Judged;
use cell_conflict::is_spot_in_conflict;
use cell_store::{Hold, Spot};
use point_order::{Facet, Point};
use std::alloc::{AllocError, Global};

// Crosses a facet of a found cell, which has this place. The cell behind it goes, and is found, or it stays, and the
// facet is one of the rim. A cell that was found is not judged again, and that beside which this one was found is not
// looked for.
fn cross(
    alloc: Global,
    point: Point,
    hold: &Hold,
    place: usize,
    cell: &Spot,
    facet: &Facet,
    judged: &mut Judged,
    rim: &mut Vec<Facet>,
) -> Result<(), AllocError>
    requires shown { ShowsAt hold.now point cell.now judged.old rim.old.items }
    requires facet { IsIn facet.now (facets_of cell.now) }
    requires held { ¬ (NoneInHand hold.now (points_on facet.now)) }
    ensures more { OnOk result ((more : List Cell) × (judged.new ≡ judged.old ++ more)) }
    ensures crossed { OnOk result ((s : List ℕ) → Shows hold.now s →
        Crosses s point cell.now facet.now judged.old rim.old.items judged.new rim.new.items) }
{
    if judged.is_back(place, cell.cell(), facet) {
        return Ok(());
    }
    let other = hold.spot_across(cell, facet);
    let number = hash_of(other.cell());
    if judged.has(number, other.cell()) {
        return Ok(());
    }
    if is_spot_in_conflict(hold, &other, point) {
        judged.push(alloc, number, other)?;
        judged.note_beside(place);
    } else {
        rim.push(*facet)?;
    }
    Ok(())
}

// Crosses the four facets of a found cell, the buckets of whose points are all in hand.
pub(crate) fn explore(
    alloc: Global,
    point: Point,
    hold: &Hold,
    place: usize,
    cell: &Spot,
    judged: &mut Judged,
    rim: &mut Vec<Facet>,
) -> Result<(), AllocError>
    requires shown { ShowsNewAt hold.now point cell.now judged.old rim.old.items }
    requires held { ArePointsHeld hold.now (points_of cell.now) }
    ensures more { OnOk result ((more : List Cell) × (judged.new ≡ judged.old ++ more)) }
    ensures explored { OnOk result ((s : List ℕ) → Shows hold.now s →
        Explores s point cell.now judged.old rim.old.items judged.new rim.new.items) }
{
    let facets = cell.cell().facets();
    for facet in &facets {
        cross(alloc, point, hold, place, cell, facet, judged, rim)?;
    }
    Ok(())
}
