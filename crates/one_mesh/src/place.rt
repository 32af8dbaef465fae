//! Where a place lies in a mesh.

ghost use Rattle.std.specs.Prelude.{◌≡◌, ◌↔◌, None, Some, true};
ghost use Rattle.point_order.specs.Sets.{is_among};
ghost use Rattle.point_order.specs.declared.cell.Cell.{Cell as CellParts};
ghost use Rattle.edit_history.specs.Histories.{replay};
ghost use Rattle.hole_laws.specs.Edits.{GoesFrom};

use cell_store::Mesh;
use insertion::cell_in_conflict;
use point_order::{Cell, Point};

/// A cell with which a point at the place would be in conflict, found by a walk: a tetrahedron whose sphere it is
/// inside, or, where it lies beyond the hull, a triangle that it sees. None where a point of the mesh stands there. It
/// takes no memory.
pub fn locate(mesh: &Mesh, p: Point) -> Option<Cell>
    ensures vertex { result ≡ None ↔ (is_among p (replay mesh.now.history) ≡ true) }
    ensures inside { (cell : CellParts) → result ≡ Some cell → GoesFrom (replay mesh.now.history) p cell }
{
    let _ = p.key();
    let hold = mesh.hold();
    if hold.holds_point(p) {
        return None;
    }
    Some(cell_in_conflict(hold, p))
}
