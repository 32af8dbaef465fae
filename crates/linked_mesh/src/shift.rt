//! A point is moved: it comes to its new place, and is then taken from its old one.

ghost use Rattle.std.specs.Prelude.{IfOk, List, OnErr, ℕ};
ghost use Rattle.point_order.specs.Sets.{IsIn};
ghost use Rattle.hole_laws.specs.Edits.{IsNew};
ghost use Rattle.cell_slots.specs.Clouds.{AreCellsOf};
ghost use Rattle.linked_mesh.specs.Moves.{AreCellsToMove, AreMovedTo};

use crate::take::take_point;
use net_owner::LinkedCells;
use point_order::Point;
use std::alloc::{AllocError, Global};

/// Moves a point of the set to a place where none is, where what it leaves is solid, and answers whether it is. Else
/// the cells stay as they are.
///
/// # Errors
/// Want of memory. The cells are then as before, in any order.
pub fn move_point(
    alloc: Global,
    linked: &mut LinkedCells,
    a: Point,
    b: Point,
) -> Result<bool, AllocError>
    requires { AreCellsToMove a b linked.old.cells }
    ensures moved { IfOk result (λ is_moved. (s : List ℕ) → AreCellsOf s linked.old.cells → IsIn a s → IsNew s b →
        AreMovedTo s a b is_moved linked.new.cells) }
    ensures refused { OnErr result ((s : List ℕ) → AreCellsOf s linked.old.cells → IsIn a s → IsNew s b →
        AreCellsOf s linked.new.cells) }
{
    let arrival = linked.add_point(alloc, b)?;
    match take_point(alloc, linked, a) {
        Ok(is_removed) => {
            if is_removed {
                return Ok(true);
            }
            linked.take_back(arrival);
            Ok(false)
        }
        Err(e) => {
            linked.take_back(arrival);
            Err(e)
        }
    }
}
