//! What a mesh gives: its history, its complex and its points.

ghost use Rattle.std.specs.Prelude.{◌≡◌, true, IfOk};
ghost use Rattle.point_order.specs.Complex.{complex as complex_of};
ghost use Rattle.point_order.specs.Sets.{IsAscending};
ghost use Rattle.point_order.specs.Solid.{is_solid};
ghost use Rattle.del_laws.specs.Keys.{AreKeys};
ghost use Rattle.edit_history.specs.Histories.{replay};
ghost use Rattle.cell_store.specs.Meshes.{AllInHand};
ghost use Rattle.one_mesh.specs.Gathered.{all_points};

use cell_store::{Hold, Mesh};
use edit_history::Entry;
use point_order::{Cell, Point, points_in_order};
use std::alloc::{AllocError, Global};

/// The mesh's history.
///
/// # Errors
/// Want of memory.
pub fn history(alloc: Global, mesh: &Mesh) -> Result<Vec<Entry>, AllocError>
    ensures { IfOk result (λ entries. entries.items ≡ mesh.now.history) }
{
    mesh.hold().history(alloc)
}

/// The complex of the points that the mesh's history leaves: its cells, sorted. The points ascend, four of them are
/// independent, and each is the key of a point.
///
/// # Errors
/// Want of memory.
pub fn complex(alloc: Global, mesh: &Mesh) -> Result<Vec<Cell>, AllocError>
    ensures cells { IfOk result (λ cells. cells.items ≡ complex_of (replay mesh.now.history)) }
    ensures ascending { IsAscending (replay mesh.now.history) }
    ensures solid { is_solid (replay mesh.now.history) ≡ true }
    ensures keys { AreKeys (replay mesh.now.history) }
{
    mesh.hold().complex(alloc)
}

/// The history and the complex of a mesh that is given away, as `history` and `complex` give them. Each bucket is let
/// go once it is read, so they take less memory.
///
/// # Errors
/// Want of memory.
pub fn into_parts(alloc: Global, mesh: Mesh) -> Result<(Vec<Entry>, Vec<Cell>), AllocError>
    ensures history { IfOk result (λ parts. parts.0.items ≡ mesh.history) }
    ensures cells { IfOk result (λ parts. parts.1.items ≡ complex_of (replay mesh.history)) }
    ensures ascending { IsAscending (replay mesh.history) }
    ensures solid { is_solid (replay mesh.history) ≡ true }
    ensures keys { AreKeys (replay mesh.history) }
{
    mesh.into_parts(alloc)
}

// The points of all buckets.
fn all_points_of(alloc: Global, hold: &Hold) -> Result<Vec<Point>, AllocError>
    requires { AllInHand hold.now }
    ensures { IfOk result (λ list. list.items ≡ all_points hold.now.places) }
{
    let mut list = Vec::new(alloc);
    for b in 0..hold.grid().count() {
        list.extend_from_slice(hold.bucket(b).points())?;
    }
    Ok(list)
}

/// The points that the mesh's history leaves, ascending. Four of them are independent, and each is the key of a point.
///
/// # Errors
/// Want of memory.
pub fn points(alloc: Global, mesh: &Mesh) -> Result<Vec<Point>, AllocError>
    ensures points { IfOk result (λ points. points.items ≡ replay mesh.now.history) }
    ensures ascending { IsAscending (replay mesh.now.history) }
    ensures solid { is_solid (replay mesh.now.history) ≡ true }
    ensures keys { AreKeys (replay mesh.now.history) }
{
    let points = all_points_of(alloc, mesh.hold())?;
    Ok(points_in_order(points))
}
