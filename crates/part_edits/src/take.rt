//! A point is taken in a part: its star is opened, and closed with the cells that come. Where the star, or a cell
//! behind its rim that has to be known, stands elsewhere, it is given up.

ghost use Rattle.std.specs.Prelude.{◌≡◌, ◌++◌, IfOk, List, MatchOption, OnErr, ℕ};
ghost use Rattle.point_order.specs.Sets.{IsIn};
ghost use Rattle.point_order.specs.declared.cell.Cell.{Cell as CellOf};
ghost use Rattle.cell_slots.specs.Clouds.{AreCellsOf};
ghost use Rattle.net_digs.specs.Linked.{ArePartWith};
ghost use Rattle.cell_slots.specs.Nets.{AreMoved};
ghost use Rattle.part_edits.specs.Takes.{IsComing, IsOpenBeside, IsOpenBesideSome, IsTakenBeside};

use net_owner::{LinkedCells, OpenStar};
use point_order::{Cell, Point};
use star_refill::cells_for_star;
use std::alloc::{AllocError, Global};

// What comes in place of an open star.
#[derive(Drop)]
enum Coming {
    // These cells.
    Fresh(Vec<Cell>),
    // Nothing: the rest of the set is flat.
    Level,
    // It cannot be told from the cells here.
    Unknown,
}

// What comes in place of an open star.
fn what_comes(
    alloc: Global,
    linked: &LinkedCells,
    star: &OpenStar,
    v: Point,
) -> Result<Coming, AllocError>
    requires { IsOpenBesideSome v linked.now.cells star.now }
    ensures { IfOk result (λ it. (others : List CellOf) (s : List ℕ) →
        IsOpenBeside others s v linked.now.cells star.now → IsComing s v star.now it) }
{
    if let Some(cells) = cells_for_star(alloc, v, star.cells(), star.cells())? {
        return Ok(Coming::Fresh(cells));
    }
    let found = linked.around_here(alloc, star)?;
    let around = match found {
        Some(around) => around,
        None => return Ok(Coming::Unknown),
    };
    let cells = cells_for_star(alloc, v, star.cells(), &around)?;
    match cells {
        Some(cells) => Ok(Coming::Fresh(cells)),
        None => Ok(Coming::Level),
    }
}

/// Takes a point of the set, where the rest is solid, and answers whether it is. Where a cell that has to be known
/// stands elsewhere, there is no answer, and the cells stay as they are.
///
/// # Errors
/// Want of memory. The cells are then as before, in any order.
pub fn take_here(
    alloc: Global,
    linked: &mut LinkedCells,
    v: Point,
) -> Result<Option<bool>, AllocError>
    requires { ArePartWith v linked.old.cells }
    ensures taken { IfOk result (λ found. MatchOption found (AreMoved linked.old.cells linked.new.cells)
        (λ is_removed. (others : List CellOf) (s : List ℕ) → AreCellsOf s (linked.old.cells ++ others) → IsIn v s →
        IsTakenBeside others s v is_removed linked.new.cells)) }
    ensures refused { OnErr result (AreMoved linked.old.cells linked.new.cells) }
{
    let found = linked.open_star_here(alloc, v)?;
    let star = match found {
        Some(star) => star,
        None => return Ok(None),
    };
    let _ = star.cells();
    match what_comes(alloc, linked, &star, v) {
        Ok(Coming::Fresh(cells)) => {
            linked.close_star(star, &cells)?;
            Ok(Some(true))
        }
        Ok(Coming::Level) => {
            linked.put_star_back(star);
            Ok(Some(false))
        }
        Ok(Coming::Unknown) => {
            linked.put_star_back(star);
            Ok(None)
        }
        Err(e) => {
            linked.put_star_back(star);
            Err(e)
        }
    }
}
