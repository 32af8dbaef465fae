//! A point is taken: its star is opened, and closed with the cells that come.

ghost use Rattle.std.specs.Bool.{OnFalse};
ghost use Rattle.std.specs.Prelude.{◌≡◌, ◌≤◌, false, IfOk, List, MatchBool, MatchOption, OnErr, ℕ};
ghost use Rattle.point_order.specs.Sets.{IsIn, without_point};
ghost use Rattle.point_order.specs.Solid.{is_solid};
ghost use Rattle.cell_slots.specs.Clouds.{AreCellsOf};
ghost use Rattle.net_digs.specs.Linked.{AreCellsWith};
ghost use Rattle.linked_mesh.specs.Takes.{IsOpenIn, IsOpenInSome, AreLeft};
ghost use Rattle.cell_changes.specs.Changes.{IsRefilled};

use net_owner::{LinkedCells, OpenStar};
use point_order::{Cell, Point};
use star_refill::cells_for_star;
use std::alloc::{AllocError, Global};

// The cells that come in place of an open star; none where the rest is flat.
fn coming(
    alloc: Global,
    linked: &LinkedCells,
    star: &OpenStar,
    v: Point,
) -> Result<Option<Vec<Cell>>, AllocError>
    requires { IsOpenInSome v linked.now.cells star.now }
    ensures { IfOk result (λ found. (s : List ℕ) → IsOpenIn s v linked.now.cells star.now →
        MatchOption found (is_solid (without_point v s) ≡ false) (λ cells. IsRefilled s v star.now cells.items)) }
{
    if let Some(cells) = cells_for_star(alloc, v, star.cells(), star.cells())? {
        return Ok(Some(cells));
    }
    let around = linked.around(alloc, star)?;
    cells_for_star(alloc, v, star.cells(), &around)
}

/// Takes a point of the set, where the rest is solid, and answers whether it is. Else the cells stay as they are.
///
/// # Errors
/// Want of memory. The cells are then as before, in any order.
pub fn take_point(alloc: Global, linked: &mut LinkedCells, v: Point) -> Result<bool, AllocError>
    requires { AreCellsWith v linked.old.cells }
    ensures taken { IfOk result (λ is_removed. (s : List ℕ) → AreCellsOf s linked.old.cells → IsIn v s →
        MatchBool is_removed (AreLeft s v linked.new.cells)
        ((is_solid (without_point v s) ≡ false) × AreCellsOf s linked.new.cells)) }
    ensures refused { OnErr result ((s : List ℕ) → AreCellsOf s linked.old.cells → AreCellsOf s linked.new.cells) }
    ensures room { IfOk result (λ is_removed. OnFalse is_removed (linked.old.room ≤ linked.new.room)) }
    ensures room_back { OnErr result (linked.old.room ≤ linked.new.room) }
{
    let star = linked.open_star(alloc, v)?;
    match coming(alloc, linked, &star, v) {
        Ok(Some(cells)) => {
            linked.close_star(star, &cells)?;
            Ok(true)
        }
        Ok(None) => {
            linked.put_star_back(star);
            Ok(false)
        }
        Err(e) => {
            linked.put_star_back(star);
            Err(e)
        }
    }
}
